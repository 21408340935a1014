//! A cache of texts over the demo: what is done with it, one step after the other.

use crate::asked::{Asked, asked_in};
use crate::kinds::unknown;
use crate::pieces::yes_or_no;
use crate::table::Row;
use juniper::{
    Bounds, DefaultScalarValue, ExecutionError, Objection, Value, Variables, execute_sync,
};
use juniper_cache::TextCache;
use juniper_demo_server::{DemoContext, DemoRoot, made_root};
use juniper_json::response_line;
use juniper_test_root::variables_of;
use std::alloc::{AllocError, Global};
use std::hash::RandomState;
use std::num::NonZeroUsize;

/// Which texts are taken.
const BOUNDS: Bounds = Bounds {
    bytes: 60,
    fields: 3,
    levels: 3,
};

/// What a cache answers.
type Answered = Result<
    (
        Value<DefaultScalarValue>,
        Vec<ExecutionError<DefaultScalarValue>>,
    ),
    Objection,
>;

/// What comes of the steps of a file, with a cache of at most two texts.
pub fn found(alloc: Global, keys: RandomState, rows: &[Row]) -> Result<Vec<String>, AllocError> {
    let root = made_root(alloc)?;
    let mut cache = TextCache::new(alloc, &root, BOUNDS, NonZeroUsize::new(2).unwrap(), keys)?;
    let mut context = DemoContext::new();
    let mut executor = Executor::new(alloc, &root);
    let mut found = Vec::with_capacity(alloc, rows.len())?;
    for row in rows {
        found.push(match row.case.split_once(' ') {
            Some(("kept", text)) => String::from_str(alloc, yes_or_no(cache.is_kept(text)))?,
            Some(("ask", case)) => {
                let asked = asked_in(case);
                let given = given_for(alloc, asked)?;
                let (text, name) = (asked.text, asked.operation_name);
                let answered = cache.answer(alloc, text, name, &given, &mut context);
                executor.compared(asked, &given, answered)?
            }
            _ => unknown(alloc)?,
        })?;
    }
    Ok(found)
}

/// The values of variables of a request; none where they cannot be read.
fn given_for(alloc: Global, asked: Asked<'_>) -> Result<Variables<DefaultScalarValue>, AllocError> {
    match variables_of(alloc, asked.variables) {
        Some(given) => Ok(given),
        None => Ok(Variables::new(alloc)),
    }
}

/// The executor without a cache, in a context of its own.
#[derive(Drop)]
struct Executor<'r> {
    alloc: Global,
    root: &'r DemoRoot,
    context: DemoContext,
}

impl<'r> Executor<'r> {
    /// The executor over a root, in the context of a server that starts.
    fn new(alloc: Global, root: &'r DemoRoot) -> Self {
        Executor {
            alloc,
            root,
            context: DemoContext::new(),
        }
    }

    /// What a cache answered to a request; behind it ` executor: ` and what `execute_sync` answers, where that is something else and the
    /// request is within the bounds.
    fn compared(
        &mut self,
        asked: Asked<'_>,
        variables: &Variables<DefaultScalarValue>,
        answered: Answered,
    ) -> Result<String, AllocError> {
        let alloc = self.alloc;
        let answered = match answered {
            Ok(answer) => Ok(answer),
            Err(Objection::Refused(error)) => Err(error),
            Err(objection) => return objection.to_string(alloc),
        };
        let mut line = response_line(alloc, &answered)?;
        let (text, name) = (asked.text, asked.operation_name);
        let executed = execute_sync(alloc, text, name, self.root, variables, &mut self.context);
        let other = response_line(alloc, &executed)?;
        if other != line {
            write!(line, " executor: {other}")?;
        }
        Ok(line)
    }
}
