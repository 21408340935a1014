//! The demo: what it answers to words and to requests, and its schema.

use crate::asked::{asked_in, unread};
use crate::kinds::unknown;
use crate::schemas::sdl_text;
use crate::table::Row;
use juniper::{Bounds, IntrospectionFormat, execute_prepared, execute_sync, introspect, prepare};
use juniper_demo_server::{DemoContext, answer, made_root, show};
use juniper_test_root::{Walk, difference, execute_by_steps, variables_of};
use std::alloc::{AllocError, Global};

/// Which texts are prepared.
const BOUNDS: Bounds = Bounds {
    bytes: 120,
    fields: 7,
    levels: 4,
};

/// What is told of a row's case.
pub fn told(alloc: Global, row: &Row) -> Result<String, AllocError> {
    match row.told {
        "words" => answered(alloc, row.case),
        "alike" => likeness(alloc, row.case),
        "prepared" => prepared_answers(alloc, row.case),
        "sdl" => sdl_text(alloc, made_root(alloc)?.schema()),
        "fields" => field_type(alloc, row.case),
        "introspection" => told_of_itself(alloc, row.case),
        _ => unknown(alloc),
    }
}

/// The type of a field of the schema, by the names of its type and of itself; `none` where there is none.
fn field_type(alloc: Global, case: &str) -> Result<String, AllocError> {
    let root = made_root(alloc)?;
    let (type_name, name) = case.split_once('.').unwrap_or((case, ""));
    match root.schema().field_of(type_name, name) {
        Some(field) => field.field_type.to_string(alloc),
        None => String::from_str(alloc, "none"),
    }
}

/// What the schema tells of itself, up to the types of introspection; behind it `errors` where there are some.
fn told_of_itself(alloc: Global, case: &str) -> Result<String, AllocError> {
    let format = match case {
        "all" => IntrospectionFormat::All,
        "without descriptions" => IntrospectionFormat::WithoutDescriptions,
        _ => return unknown(alloc),
    };
    let root = made_root(alloc)?;
    let mut context = DemoContext::new();
    let line = show(alloc, &introspect(alloc, &root, &mut context, format))?.line;
    let types = "{\"kind\":\"OBJECT\",\"name\":\"__Directive\"";
    let (own, _) = line
        .as_str()
        .split_once(types)
        .unwrap_or((line.as_str(), ""));
    let errors = if line.as_str().contains("\"errors\":") {
        " errors"
    } else {
        ""
    };
    format!(in alloc; "{own}{errors}")
}

/// The status and the line that are answered to words, and behind them the context where it was changed.
fn answered(alloc: Global, case: &str) -> Result<String, AllocError> {
    let words = words_of(alloc, case)?;
    let mut context = DemoContext::new();
    let answer = answer(alloc, words.as_slice(), &mut context)?;
    let (status, line) = (answer.status, answer.line.as_str());
    if context == DemoContext::new() {
        return format!(in alloc; "{status} {line}");
    }
    let (total, count) = (context.total, context.count);
    format!(in alloc; "{status} {line} total: {total}, count: {count}")
}

/// The words of a case, with ` | ` between each two; a dash is no words.
fn words_of(alloc: Global, case: &str) -> Result<Vec<String>, AllocError> {
    let mut words = Vec::new(alloc);
    if case == "-" {
        return Ok(words);
    }
    for word in case.split(" | ") {
        words.push(String::from_str(alloc, word)?)?;
    }
    Ok(words)
}

/// `alike`, or in what the executor and its twin answer a request otherwise.
fn likeness(alloc: Global, case: &str) -> Result<String, AllocError> {
    let root = made_root(alloc)?;
    let asked = asked_in(case);
    let Some(variables) = variables_of(alloc, asked.variables) else {
        return unread(alloc);
    };
    let (text, name) = (asked.text, asked.operation_name);
    let mut context = DemoContext::new();
    let planned = execute_sync(alloc, text, name, &root, &variables, &mut context);
    let mut other = DemoContext::new();
    let joined = execute_by_steps(
        alloc,
        Walk::Joined,
        text,
        name,
        &root,
        &variables,
        &mut other,
    );
    if context != other {
        return String::from_str(alloc, "context");
    }
    let what = difference(alloc, &planned, &joined)?;
    String::from_str(alloc, what.unwrap_or("alike"))
}

/// What a text that is prepared answers to the values of variables, one after the other in one context, with ` | ` between each two; or
/// why it is not prepared.
fn prepared_answers(alloc: Global, case: &str) -> Result<String, AllocError> {
    let root = made_root(alloc)?;
    let asked = asked_in(case);
    let prepared = match prepare(alloc, &root, asked.text, &BOUNDS) {
        Ok(prepared) => prepared,
        Err(objection) => return format!(in alloc; "refused: {objection}"),
    };
    let mut line = String::new(alloc);
    let mut context = DemoContext::new();
    for given in asked.variables.split(" | ") {
        let Some(variables) = variables_of(alloc, given) else {
            return unread(alloc);
        };
        let name = asked.operation_name;
        let outcome = execute_prepared(alloc, &prepared, name, &variables, &mut context);
        if !line.is_empty() {
            line.push_str(" | ")?;
        }
        line.push_str(show(alloc, &outcome)?.line.as_str())?;
    }
    Ok(line)
}
