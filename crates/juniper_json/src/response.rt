//! Responses as lines of JSON, whatever came of a request (sections 7.1 and 7.2.2 of the Specification).

ghost use Rattle.std.specs.Prelude.{◌≡◌, ◌∷◌, [], IfOk, MatchResult, None, map, option_map, string_bytes};
ghost use Rattle.juniper_conversions.specs.ErrorView.{view_listed};
ghost use Rattle.juniper_syntax.specs.Positions.{view_position};
ghost use Rattle.juniper_syntax.specs.RuleView.{view_rule_error};
ghost use Rattle.juniper_syntax.specs.ValueView.{view_value};
ghost use Rattle.juniper.specs.RequestErrors.{view_request_error};
ghost use Rattle.juniper_json.specs.AnswerText.{answer_text};
ghost use Rattle.juniper_json.specs.RefusalText.{explained_text, refusals_text, view_refusal};
ghost use Rattle.juniper_json.specs.Refusals.{refusals_of, rule_refusal, unplaced};

use crate::line::answer_line;
use crate::refusals::{Refusal, refusal_line};
use juniper::{GraphQLError, RuleError};
use juniper_syntax::{ScalarValue, SourcePosition, Value};
use juniper_values::ExecutionError;
use std::alloc::{AllocError, Global};

/// The line of a response to a request that was executed by `execute_sync`: its data, and its errors where there are some; for a
/// request that has no answer its errors alone, each with its place in the text where it has one (7.1). An error where memory is
/// refused.
pub fn response_line<S: ScalarValue>(
    alloc: Global,
    outcome: &Result<(Value<S>, Vec<ExecutionError<S>>), GraphQLError>,
) -> Result<String, AllocError>
    ensures { IfOk result (λ line. MatchResult outcome.now
        (λ o. string_bytes line ≡ answer_text (view_value S.shown o.0) (map (view_listed S.shown) o.1.items))
        (λ e. string_bytes line ≡ refusals_text (refusals_of (view_request_error e)))) }
{
    match outcome {
        Ok((data, errors)) => answer_line(alloc, data, errors.as_slice()),
        Err(error) => unexplained_line(alloc, error),
    }
}

/// The line of a response to a request that has no answer: where there are explanations they are its errors, each with its message, its
/// place in the text and what is broken; else it is the line that [`response_line`] writes, byte for byte. So some error is told. An error
/// where memory is refused.
#[tactic(auto, unfolding(crate::specs::RefusalText::told_errors))]
pub fn explained_line(
    alloc: Global,
    error: &GraphQLError,
    explanations: &[Refusal],
) -> Result<String, AllocError>
    ensures { IfOk result (λ line. string_bytes line ≡ explained_text (refusals_of (view_request_error error.now)) (map view_refusal explanations.now)) }
{
    match explanations {
        [] => unexplained_line(alloc, error),
        _ => refusal_line(alloc, explanations),
    }
}

/// The line of a response to a request that has no answer: its errors.
fn unexplained_line(alloc: Global, error: &GraphQLError) -> Result<String, AllocError>
    ensures { IfOk result (λ line. string_bytes line ≡ refusals_text (refusals_of (view_request_error error.now))) }
{
    let refusals = refusals_of(alloc, error)?;
    refusal_line(alloc, refusals.as_slice())
}

/// The errors of a request that has no answer.
fn refusals_of(alloc: Global, error: &GraphQLError) -> Result<Vec<Refusal>, AllocError>
    ensures { IfOk result (λ made. map view_refusal made.items ≡ refusals_of (view_request_error error.now)) }
{
    match error {
        GraphQLError::ParseError(refused) => {
            let message = refused.item.to_string(alloc)?;
            one(alloc, message, Some(refused.span.start))
        }
        GraphQLError::ValidationError(errors) => of_rules(alloc, errors.as_slice()),
        GraphQLError::NoOperationProvided => alone(alloc, error),
        GraphQLError::MultipleOperationsProvided => alone(alloc, error),
        GraphQLError::UnknownOperationName => alone(alloc, error),
        GraphQLError::IsSubscription => alone(alloc, error),
        GraphQLError::NotSubscription => alone(alloc, error),
        GraphQLError::MutationNotSupported => alone(alloc, error),
        GraphQLError::VariableNotConstant(_) => alone(alloc, error),
        GraphQLError::OutOfMemory => alone(alloc, error),
    }
}

/// An error of no place in the text, as it is shown.
fn alone(alloc: Global, error: &GraphQLError) -> Result<Vec<Refusal>, AllocError>
    ensures { IfOk result (λ made. map view_refusal made.items ≡ unplaced (view_request_error error.now)) }
{
    let message = error.to_string(alloc)?;
    one(alloc, message, None)
}

/// One error.
fn one(
    alloc: Global,
    message: String,
    place: Option<SourcePosition>,
) -> Result<Vec<Refusal>, AllocError>
    ensures { IfOk result (λ made. map view_refusal made.items
        ≡ record { message = string_bytes message; place = option_map view_position place; rule = None } ∷ []) }
{
    let mut refusals = Vec::new(alloc);
    refusals.push(Refusal {
        message,
        place,
        rule: None,
    })?;
    Ok(refusals)
}

/// The errors of rules that a document breaks, each with its place (5).
fn of_rules(alloc: Global, errors: &[RuleError]) -> Result<Vec<Refusal>, AllocError>
    ensures { IfOk result (λ made. map view_refusal made.items ≡ map (λ e. rule_refusal (view_rule_error e)) errors.now) }
{
    let mut refusals = Vec::with_capacity(alloc, errors.len())?;
    for error in errors {
        refusals.push(of_rule(alloc, error)?)?;
    }
    Ok(refusals)
}

/// The error of a rule, with its place.
fn of_rule(alloc: Global, error: &RuleError) -> Result<Refusal, AllocError>
    ensures { IfOk result (λ made. view_refusal made ≡ rule_refusal (view_rule_error error.now)) }
{
    Ok(Refusal {
        message: String::from_str(alloc, error.message())?,
        place: error.locations().first().copied(),
        rule: None,
    })
}
