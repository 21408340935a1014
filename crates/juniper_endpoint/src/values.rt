//! What explains that given values of variables do not fit (section 6.1.2 of the Specification).

ghost use Rattle.std.specs.Prelude.{◌≡◌, IfOk, find, map, option_copied, option_map};
ghost use Rattle.graphql_spec.specs.Positions.{same_position};
ghost use Rattle.graphql_spec.specs.Requests.{choose};
ghost use Rattle.juniper.specs.Answering.{request_of};
ghost use Rattle.juniper.specs.RequestErrors.{view_request_error};
ghost use Rattle.juniper_explain.specs.GivenValues.{view_variable_explanation};
ghost use Rattle.juniper_json.specs.RefusalText.{view_refusal, view_rule};
ghost use Rattle.juniper_schema.specs.SchemaView.{view_schema};
ghost use Rattle.juniper_syntax.specs.DocumentView.{view_document};
ghost use Rattle.juniper_syntax.specs.InputView.{view_variables};
ghost use Rattle.juniper_syntax.specs.Positions.{view_position};
ghost use Rattle.juniper_syntax.specs.RuleView.{view_rule_error};
ghost use Rattle.juniper_syntax.specs.Scalars.{default_shown};
ghost use Rattle.juniper_endpoint.specs.Explained.{listed_at, misfits, of_value, values_explained};
ghost use Rattle.juniper_endpoint.specs.Looks.{AreMisfitsBy, IsAnswerTold, IsMisfitTold};

use crate::explained::{Explainer, is_left_out};
use crate::lines::{Response, answered_reply, bare_reply, explained_reply, without_memory};
use juniper::{
    DefaultScalarValue, Document, GraphQLError, RuleError, SourcePosition, Variables, Within,
    get_operation,
};
use juniper_explain::{VariableExplanation, explain_variables};
use juniper_http::{Outcome, Reply};
use juniper_json::{BrokenRule, Refusal};
use juniper_request::GraphQLRequest;
use std::alloc::{AllocError, Global};

/// The reply that tells what the executor answers to a request of this valid document with these values, what explains that the
/// values do not fit, or that too many fields were to be entered.
pub fn executed_reply(
    alloc: Global,
    explainer: &Explainer<'_>,
    request: &GraphQLRequest<'_>,
    document: &Document<'_, DefaultScalarValue>,
    values: &Variables<DefaultScalarValue>,
    answered: Result<Response, Within>,
) -> Reply
    ensures { IsAnswerTold (view_schema default_shown explainer.now.schema.now) explainer.now.is_introspection_disabled explainer.now.most_bytes
        (request_of default_shown request.now.query.now request.now.operation_name values.now) (view_document default_shown document.now) answered result }
{
    match answered {
        Ok(response) => answered_reply(alloc, Ok(response)),
        Err(Within::Refused(error)) => {
            misfit_reply(alloc, explainer, request, document, values, &error)
        },
        Err(Within::Spent) => bare_reply(alloc, Outcome::Refused, "The answer has too many fields"),
    }
}

/// The reply that tells why an operation is not executed, and what explains that its values do not fit.
fn misfit_reply(
    alloc: Global,
    explainer: &Explainer<'_>,
    request: &GraphQLRequest<'_>,
    document: &Document<'_, DefaultScalarValue>,
    values: &Variables<DefaultScalarValue>,
    error: &GraphQLError,
) -> Reply
    ensures { IsMisfitTold (view_schema default_shown explainer.now.schema.now) explainer.now.is_introspection_disabled explainer.now.most_bytes
        (request_of default_shown request.now.query.now request.now.operation_name values.now) (view_document default_shown document.now)
        (view_request_error error.now) result }
{
    match misfits_told(alloc, explainer, request, document, values, error) {
        Err(_) => without_memory(alloc),
        Ok(misfits) => explained_reply(alloc, error, misfits.as_slice()),
    }
}

/// What explains that an operation is not executed: where its values do not fit, why.
fn misfits_told(
    alloc: Global,
    explainer: &Explainer<'_>,
    request: &GraphQLRequest<'_>,
    document: &Document<'_, DefaultScalarValue>,
    values: &Variables<DefaultScalarValue>,
    error: &GraphQLError,
) -> Result<Vec<Refusal>, AllocError>
    ensures { IfOk result (λ made. AreMisfitsBy explainer.now (request_of default_shown request.now.query.now request.now.operation_name values.now)
        (view_document default_shown document.now) (view_request_error error.now) (map view_refusal made.items)) }
{
    match error {
        GraphQLError::ValidationError(errors) => misfits(
            alloc,
            explainer,
            request,
            document,
            values,
            errors.as_slice(),
        ),
        _ => Ok(Vec::new(alloc)),
    }
}

/// Why the values of a request do not fit, where its text is not left out.
fn misfits(
    alloc: Global,
    explainer: &Explainer<'_>,
    request: &GraphQLRequest<'_>,
    document: &Document<'_, DefaultScalarValue>,
    values: &Variables<DefaultScalarValue>,
    errors: &[RuleError],
) -> Result<Vec<Refusal>, AllocError>
    ensures { IfOk result (λ made. map view_refusal made.items
        ≡ values_explained (view_schema default_shown explainer.now.schema.now) explainer.now.is_introspection_disabled explainer.now.most_bytes
        (request_of default_shown request.now.query.now request.now.operation_name values.now) (map view_rule_error errors.now)
        (view_document default_shown document.now)) }
{
    if is_left_out(explainer, request.query) {
        return Ok(Vec::new(alloc));
    }
    misfits_in(
        alloc,
        explainer,
        document,
        request.operation_name,
        values,
        errors,
    )
}

/// Why values do not fit the variables of the operation that the name chooses, if one is, for which these errors are listed.
fn misfits_in(
    alloc: Global,
    explainer: &Explainer<'_>,
    document: &Document<'_, DefaultScalarValue>,
    name: Option<&str>,
    values: &Variables<DefaultScalarValue>,
    errors: &[RuleError],
) -> Result<Vec<Refusal>, AllocError>
    ensures { IfOk result (λ made. map view_refusal made.items ≡ misfits (view_schema default_shown explainer.now.schema.now)
        (view_variables default_shown values.now) (map view_rule_error errors.now)
        (choose (view_document default_shown document.now) (option_map (λ n. n.now) name.entry))) }
{
    let operation = match get_operation(document, name) {
        Err(_) => return Ok(Vec::new(alloc)),
        Ok(operation) => operation,
    };
    let explanations = explain_variables(alloc, values, operation, explainer.schema)?;
    let refusals = refusals_of(alloc, explanations, errors)?;
    Ok(refusals)
}

/// Explanations of given values, as errors, where these errors are listed.
fn refusals_of(
    alloc: Global,
    explanations: Vec<VariableExplanation>,
    errors: &[RuleError],
) -> Result<Vec<Refusal>, AllocError>
    ensures { IfOk result (λ made. map view_refusal made.items
        ≡ map (λ e. of_value (map view_rule_error errors.now) (view_variable_explanation e)) explanations.items) }
{
    let mut refusals = Vec::with_capacity(alloc, explanations.len())?;
    for explanation in explanations {
        refusals.push(refusal_of(alloc, explanation, errors)?)?;
    }
    Ok(refusals)
}

/// An explanation of a given value, as an error, where these errors are listed.
fn refusal_of(
    alloc: Global,
    explanation: VariableExplanation,
    errors: &[RuleError],
) -> Result<Refusal, AllocError>
    ensures { IfOk result (λ made. view_refusal made ≡ of_value (map view_rule_error errors.now) (view_variable_explanation explanation)) }
{
    let rule = listed_at(alloc, errors, explanation.location)?;
    Ok(Refusal {
        message: explanation.message,
        place: Some(explanation.location),
        rule,
    })
}

/// The first of these errors that is listed at a place, as what is broken.
fn listed_at(
    alloc: Global,
    errors: &[RuleError],
    place: SourcePosition,
) -> Result<Option<BrokenRule>, AllocError>
    ensures { IfOk result (λ made. option_map view_rule made ≡ listed_at (map view_rule_error errors.now) (view_position place)) }
{
    match error_at(errors, place) {
        None => Ok(None),
        Some(error) => {
            let text = String::from_str(alloc, error.message())?;
            Ok(Some(BrokenRule { text, number: None }))
        }
    }
}

/// The first of these errors that is listed at a place.
fn error_at(errors: &[RuleError], place: SourcePosition) -> Option<&RuleError>
    ensures { option_copied result ≡ find (λ e. same_position (view_rule_error e).start (view_position place)) errors.now }
{
    errors.iter().find(|error| is_at(error, place))
}

/// Whether an error is listed at a place.
fn is_at(error: &RuleError, place: SourcePosition) -> bool
    ensures { result ≡ same_position (view_rule_error error.now).start (view_position place) }
{
    match error.locations().first().copied() {
        None => false,
        Some(start) => start == place,
    }
}
