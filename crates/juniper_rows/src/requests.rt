//! Requests to a scripted root: what they are answered, in what the executor's twin answers otherwise, and the budgets that they need.

use crate::kinds::unknown;
use crate::table::Row;
use juniper::{Variables, Within, execute_sync, execute_within};
use juniper_test_root::{Notes, Request, ScriptRoot, answered, read_root};
use std::alloc::{AllocError, Global};

/// What is told of a request: what it is answered, and with `rows: budget` or `rows: without introspection` what stands there.
pub fn told(alloc: Global, row: &Row) -> Result<String, AllocError> {
    if row.told.is_empty() {
        return answered(alloc, &request_of(row));
    }
    let Ok(root) = read_root(alloc, row.schema, row.answers) else {
        return String::from_str(alloc, "unread");
    };
    match row.told {
        "budget" => least_budget(alloc, &root, row.case),
        "without introspection" => refusal(alloc, &root.disable_introspection(), row.case),
        _ => unknown(alloc),
    }
}

/// The request of a row.
fn request_of(row: &Row) -> Request {
    Request {
        schema: row.schema,
        answers: row.answers,
        document: row.case,
        operation_name: row.name,
        variables: row.variables,
        sights: row.sights,
        twin_sights: row.twin_sights,
    }
}

/// A budget that no row needs.
const MOST: usize = 64;

/// The least budget of fields with which a request is answered, and how many steps of a mutation one field fewer leaves; or why it is refused.
fn least_budget(alloc: Global, root: &ScriptRoot, text: &str) -> Result<String, AllocError> {
    let variables = Variables::new(alloc);
    let mut steps = 0;
    for fields in 0..MOST {
        let mut context = Notes::new(alloc, String::new(alloc));
        match execute_within(
            alloc,
            text,
            None,
            root,
            &variables,
            &mut context,
            Some(fields),
        ) {
            Ok(_) => return format!(in alloc; "{fields}, {steps} steps"),
            Err(Within::Spent) => steps = context.steps,
            Err(Within::Refused(refusal)) => return refusal.to_string(alloc),
        }
    }
    String::from_str(alloc, "more")
}

/// Why a text is refused; `answered` where it is not.
fn refusal(alloc: Global, root: &ScriptRoot, text: &str) -> Result<String, AllocError> {
    let variables = Variables::new(alloc);
    let mut context = Notes::new(alloc, String::new(alloc));
    match execute_sync(alloc, text, None, root, &variables, &mut context) {
        Ok(_) => String::from_str(alloc, "answered"),
        Err(refusal) => refusal.to_string(alloc),
    }
}
