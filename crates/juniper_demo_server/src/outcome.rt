//! What the program prints for the outcome of a request.

ghost use Rattle.std.specs.Prelude.{IfOk, OnOk, MatchResult, map};
ghost use Rattle.juniper_conversions.specs.ErrorView.{view_listed};
ghost use Rattle.juniper.specs.RequestErrors.{view_request_error};
ghost use Rattle.juniper_syntax.specs.Scalars.{default_shown};
ghost use Rattle.juniper_syntax.specs.ValueView.{view_value};
ghost use Rattle.juniper_demo_server.specs.Answers.{ShowsData, ShowsRefusal};

use juniper::{DefaultScalarValue, ExecutionError, GraphQLError, Value};
use juniper_json::answer_line;
use std::alloc::{AllocError, Global};

/// The data and the errors of a request, or why it has none.
pub type Outcome = Result<
    (
        Value<DefaultScalarValue>,
        Vec<ExecutionError<DefaultScalarValue>>,
    ),
    GraphQLError,
>;

/// What the program prints, and the status with which it ends: 0 for data, 1 for a request that is refused, 2 for words
/// that are not understood.
#[derive(Debug, Drop)]
pub struct Answer {
    /// The status.
    pub status: u8,
    /// The line that is printed, without its line feed.
    pub line: String,
}

/// What the program answers to this outcome: data and errors with status 0, a refusal with status 1. An error where memory
/// is refused.
pub fn show(alloc: Global, outcome: &Outcome) -> Result<Answer, AllocError>
    ensures { IfOk result (λ a. MatchResult outcome.now
        (λ o. ShowsData (view_value default_shown o.0) (map (view_listed default_shown) o.1.items) a)
        (λ e. ShowsRefusal (view_request_error e) a)) }
{
    match outcome {
        Ok((data, errors)) => Ok(Answer {
            status: 0,
            line: answer_line(alloc, data, errors.as_slice())?,
        }),
        Err(refusal) => Ok(Answer {
            status: 1,
            line: format!(in alloc; "refused: {refusal}")?,
        }),
    }
}
