//! What is measured of execution: requests to the demo.

use crate::answers::Answer;
use juniper::execute_sync;
use juniper_demo_server::{DemoContext, DemoRoot, Outcome, demo_root, show};
use juniper_language::Variables;
use std::alloc::{AllocError, Global};

/// Reads, validates and executes the request so many times over the demo's root, writes each answer as a line of JSON, and answers
/// the last. An error where memory is refused.
pub fn execute_answer(alloc: Global, text: &str, times: usize) -> Result<Answer, AllocError> {
    let Ok(root) = demo_root(alloc) else {
        return Err(AllocError);
    };
    for _turn in 1..times {
        let _answered = show(alloc, &outcome_of(alloc, text, &root));
    }
    let answered = show(alloc, &outcome_of(alloc, text, &root))?;
    Ok(Answer {
        status: answered.status,
        line: answered.line,
    })
}

/// The outcome of the request, without the name of an operation and values of variables, in a context of its own.
fn outcome_of(alloc: Global, text: &str, root: &DemoRoot) -> Outcome {
    let mut context = DemoContext::new();
    execute_sync(
        alloc,
        text,
        None,
        root,
        &Variables::new(alloc),
        &mut context,
    )
}
