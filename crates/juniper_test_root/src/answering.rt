//! What requests are answered, as a line.

use crate::comparing::{Outcome, Walk, difference};
use crate::refusals::refusal_line;
use crate::request::Request;
use crate::running::{Ran, Ready, Way, read_request, run};
use crate::sights::{push_seen, saw_as_told};
use juniper_json::answer_line;
use juniper_schema_text::Scalar;
use std::alloc::{AllocError, Global};

/// What a request is answered: a line of JSON with its data and errors, `refused: ` and why it is refused, with places, or `unread: ` and what of
/// it cannot be read; behind it ` steps: ` and their number, where a mutation took some, ` sees: ` and what resolvers were shown, where it
/// is not what the request tells, and ` twin: ` and in what it is answered otherwise in other ways, where it is. An error where memory is refused.
///
/// What is read of it stays to the end of the program.
pub fn answered(alloc: Global, request: &Request) -> Result<String, AllocError> {
    match read_request(alloc, request) {
        Ok(ready) => answered_in_all_ways(alloc, request, &ready),
        Err(unread) => format!(in alloc; "unread: {unread}"),
    }
}

/// What a request that is read is answered.
fn answered_in_all_ways(
    alloc: Global,
    request: &Request,
    ready: &Ready,
) -> Result<String, AllocError> {
    let sights = String::from_str(alloc, request.sights)?;
    let whole = run(alloc, ready, Way::Whole, sights);
    all_told(alloc, request, ready, &whole)
}

/// What came of a request, and in what other ways differ.
fn all_told(
    alloc: Global,
    request: &Request,
    ready: &Ready,
    whole: &Ran,
) -> Result<String, AllocError> {
    let mut line = told(alloc, whole)?;
    if let Some(what) = difference_of_ways(alloc, request, ready, whole)? {
        write!(line, " twin: {what}")?;
    }
    Ok(line)
}

/// What came of a request.
fn told(alloc: Global, ran: &Ran) -> Result<String, AllocError> {
    let mut line = outcome_line(alloc, &ran.outcome)?;
    let steps = ran.notes.steps;
    if steps != 0 {
        write!(line, " steps: {steps}")?;
    }
    if !saw_as_told(&ran.notes) {
        line.push_str(" sees: ")?;
        push_seen(&ran.notes, &mut line)?;
    }
    Ok(line)
}

/// The answer of an outcome, or why there is none.
fn outcome_line(alloc: Global, outcome: &Outcome<Scalar>) -> Result<String, AllocError> {
    match outcome {
        Ok((data, errors)) => answer_line(alloc, data, errors.as_slice()),
        Err(refusal) => refusal_line(alloc, refusal),
    }
}

/// In what a request is answered otherwise by the executor's twin, which resolves each occurrence of a field alone and joins the values, or by
/// `execute_validated_query`; `None` where it is not.
fn difference_of_ways(
    alloc: Global,
    request: &Request,
    ready: &Ready,
    whole: &Ran,
) -> Result<Option<&'static str>, AllocError> {
    let sights = String::from_str(alloc, request.joined_sights())?;
    let twin = run(alloc, ready, Way::ByStep(Walk::Joined), sights);
    difference_to_twin(alloc, ready, whole, &twin)
}

/// In what the twin differs, in the steps that were taken, in what resolvers were shown, or in its answer; or `steps of requests` where
/// `execute_validated_query` does.
fn difference_to_twin(
    alloc: Global,
    ready: &Ready,
    whole: &Ran,
    twin: &Ran,
) -> Result<Option<&'static str>, AllocError> {
    if whole.notes.steps != twin.notes.steps {
        return Ok(Some("steps"));
    }
    if !saw_as_told(&twin.notes) {
        return Ok(Some("sights"));
    }
    if !is_validated_alike(alloc, ready, whole)? {
        return Ok(Some("steps of requests"));
    }
    difference(alloc, &whole.outcome, &twin.outcome)
}

/// Whether `execute_validated_query` answers so, with so many steps of a mutation.
fn is_validated_alike(alloc: Global, ready: &Ready, whole: &Ran) -> Result<bool, AllocError> {
    let none = String::new(alloc);
    let validated = run(alloc, ready, Way::ByStep(Walk::Planned), none);
    are_alike(alloc, whole, &validated)
}

/// Whether the same came of a request twice, whatever resolvers were shown.
fn are_alike(alloc: Global, one: &Ran, other: &Ran) -> Result<bool, AllocError> {
    let what = difference(alloc, &one.outcome, &other.outcome)?;
    Ok(what.is_none() && one.notes.steps == other.notes.steps)
}
