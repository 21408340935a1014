//! The lines of replies (sections 7.1 and 7.2.2 of the Specification).

ghost use Rattle.std.specs.Prelude.{◌≡◌, IfErr, IfOk, map, string_bytes};
ghost use Rattle.juniper.specs.RequestErrors.{view_request_error};
ghost use Rattle.juniper_http.specs.declared.outcome.Outcome.TheVariants.{OutOfMemory};
ghost use Rattle.juniper_json.specs.Refusals.{refusals_of};
ghost use Rattle.juniper_json.specs.RefusalText.{explained_text, view_refusal};
ghost use Rattle.juniper_endpoint.specs.Lines.{IsTold, bare_line, outcome_of, outcome_text, refused_outcome};

use juniper::{DefaultScalarValue, ExecutionError, GraphQLError, Value};
use juniper_http::{Outcome, Reply};
use juniper_json::{Refusal, explained_line, response_line};
use std::alloc::{AllocError, Global};

/// Data with errors.
pub type Response = (
    Value<DefaultScalarValue>,
    Vec<ExecutionError<DefaultScalarValue>>,
);

/// What a call of the executor answers.
pub type Answered = Result<Response, GraphQLError>;

/// The reply where memory is refused.
pub fn without_memory(alloc: Global) -> Reply
    ensures { result.outcome ≡ OutOfMemory }
{
    Reply {
        outcome: Outcome::OutOfMemory,
        line: String::new(alloc),
    }
}

/// The reply with this line, if there is one.
fn told(alloc: Global, outcome: Outcome, line: Result<String, AllocError>) -> Reply
    ensures said { IfOk line (λ l. IsTold outcome (string_bytes l) result) }
    ensures unsaid { IfErr line (λ _. result.outcome ≡ OutOfMemory) }
{
    match line {
        Ok(line) => Reply { outcome, line },
        Err(_) => without_memory(alloc),
    }
}

/// The reply that errors with this message alone are, which holds nothing to escape.
pub fn bare_reply(alloc: Global, outcome: Outcome, message: &str) -> Reply
    ensures { IsTold outcome (bare_line message.now) result }
{
    told(alloc, outcome, bare_line(alloc, message))
}

/// The line of errors with this message alone.
fn bare_line(alloc: Global, message: &str) -> Result<String, AllocError>
    ensures { IfOk result (λ line. string_bytes line ≡ bare_line message.now) }
{
    let mut line = String::from_str(alloc, "{\"errors\":[{\"message\":\"")?;
    line.push_str(message)?;
    line.push_str("\"}]}")?;
    Ok(line)
}

/// The reply that tells what the executor answers.
pub fn answered_reply(alloc: Global, answered: Answered) -> Reply
    ensures { IsTold (outcome_of answered) (outcome_text answered) result }
{
    let outcome = outcome_of(&answered);
    told(alloc, outcome, response_line(alloc, &answered))
}

/// What came of it.
fn outcome_of(answered: &Answered) -> Outcome
    ensures { result ≡ outcome_of answered.now }
{
    match answered {
        Ok(_) => Outcome::Executed,
        Err(error) => refused_outcome(error),
    }
}

/// What came of a request with this error.
fn refused_outcome(error: &GraphQLError) -> Outcome
    ensures { result ≡ refused_outcome (view_request_error error.now) }
{
    match error {
        GraphQLError::OutOfMemory => Outcome::OutOfMemory,
        _ => Outcome::Refused,
    }
}

/// The reply that tells these explanations of an error, or the error itself where there are none.
pub fn explained_reply(alloc: Global, error: &GraphQLError, explanations: &[Refusal]) -> Reply
    ensures { IsTold (refused_outcome (view_request_error error.now))
        (explained_text (refusals_of (view_request_error error.now)) (map view_refusal explanations.now)) result }
{
    let outcome = refused_outcome(error);
    told(alloc, outcome, explained_line(alloc, error, explanations))
}
