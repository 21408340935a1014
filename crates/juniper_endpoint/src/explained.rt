//! What explains that a text is refused (section 5 of the Specification).

ghost use Rattle.std.specs.Prelude.{◌≡◌, IfOk, Some, map};
ghost use Rattle.juniper_explain.specs.Explanations.{view_explanation};
ghost use Rattle.juniper_explain.specs.Nodes.{explanations};
ghost use Rattle.juniper_json.specs.RefusalText.{view_refusal};
ghost use Rattle.juniper_schema.specs.SchemaView.{view_schema};
ghost use Rattle.juniper_syntax.specs.DocumentView.{view_document};
ghost use Rattle.juniper_syntax.specs.RuleView.{view_rule_error};
ghost use Rattle.juniper_syntax.specs.Scalars.{default_shown};
ghost use Rattle.juniper_endpoint.specs.Explained.{is_left_out, nodes_explained, of_explanation, rule_number};
ghost use Rattle.juniper_endpoint.specs.Looks.{IsInvalidTold, IsObjected};

use crate::lines::{answered_reply, bare_reply, explained_reply, without_memory};
use juniper::{DefaultScalarValue, Document, GraphQLError, Objection, RuleError, SchemaType};
use juniper_explain::{Explanation, Rule, explain};
use juniper_http::{Outcome, Reply};
use juniper_json::{BrokenRule, Refusal};
use std::alloc::{AllocError, Global};

/// What refused texts are explained by.
#[derive(Clone, Copy)]
pub struct Explainer<'s> {
    /// The schema of the root.
    pub schema: &'s SchemaType<DefaultScalarValue>,
    /// Whether introspection is disabled. Then nothing is explained, since explanations name what the schema has.
    pub is_introspection_disabled: bool,
    /// The most bytes of a text that is explained.
    pub most_bytes: usize,
}

/// The reply that tells what is against reading a text.
pub fn objection_reply(alloc: Global, objection: Objection) -> Reply
    ensures { IsObjected objection result }
{
    match objection {
        Objection::TooLong => bare_reply(alloc, Outcome::Refused, "The text is too long"),
        Objection::TooManyFields => bare_reply(
            alloc,
            Outcome::Refused,
            "An operation selects too many fields",
        ),
        Objection::TooDeep => bare_reply(alloc, Outcome::Refused, "An operation nests too deep"),
        Objection::Refused(error) => answered_reply(alloc, Err(error)),
    }
}

/// The reply that tells of a document that is not valid each node that violates a rule, or its errors where none is explained.
pub fn invalid_reply(
    alloc: Global,
    explainer: &Explainer<'_>,
    text: &str,
    document: &Document<'_, DefaultScalarValue>,
    errors: Vec<RuleError>,
) -> Reply
    ensures { IsInvalidTold (view_schema default_shown explainer.now.schema.now) explainer.now.is_introspection_disabled explainer.now.most_bytes text.now
        (map view_rule_error errors.items) (view_document default_shown document.now) result }
{
    let error = GraphQLError::ValidationError(errors);
    match explained(alloc, explainer, text, document) {
        Err(_) => without_memory(alloc),
        Ok(explanations) => explained_reply(alloc, &error, explanations.as_slice()),
    }
}

/// Each node of a document that violates a rule, where its text is not left out.
fn explained(
    alloc: Global,
    explainer: &Explainer<'_>,
    text: &str,
    document: &Document<'_, DefaultScalarValue>,
) -> Result<Vec<Refusal>, AllocError>
    ensures { IfOk result (λ made. map view_refusal made.items ≡ nodes_explained (view_schema default_shown explainer.now.schema.now)
        explainer.now.is_introspection_disabled explainer.now.most_bytes text.now (view_document default_shown document.now)) }
{
    if is_left_out(explainer, text) {
        return Ok(Vec::new(alloc));
    }
    explained_in(alloc, explainer, document)
}

/// Whether nothing is explained of a text, nor of the values that are given with it.
pub fn is_left_out(explainer: &Explainer<'_>, text: &str) -> bool
    ensures { result ≡ is_left_out explainer.now.is_introspection_disabled explainer.now.most_bytes text.now }
{
    explainer.is_introspection_disabled || text.len() > explainer.most_bytes
}

/// The nodes of a document that violate rules.
fn explained_in(
    alloc: Global,
    explainer: &Explainer<'_>,
    document: &Document<'_, DefaultScalarValue>,
) -> Result<Vec<Refusal>, AllocError>
    ensures { IfOk result (λ made. map view_refusal made.items ≡ map of_explanation (explanations (view_schema default_shown explainer.now.schema.now)
        explainer.now.is_introspection_disabled (view_document default_shown document.now))) }
{
    let explanations = explain(
        alloc,
        document,
        explainer.schema,
        explainer.is_introspection_disabled,
    )?;
    refusals_of(alloc, explanations)
}

/// Explanations of nodes, as errors.
fn refusals_of(alloc: Global, explanations: Vec<Explanation>) -> Result<Vec<Refusal>, AllocError>
    ensures { IfOk result (λ made. map view_refusal made.items ≡ map (λ e. of_explanation (view_explanation e)) explanations.items) }
{
    let mut refusals = Vec::with_capacity(alloc, explanations.len())?;
    for explanation in explanations {
        refusals.push(refusal_of(alloc, explanation)?)?;
    }
    Ok(refusals)
}

/// An explanation of a node, as an error.
fn refusal_of(alloc: Global, explanation: Explanation) -> Result<Refusal, AllocError>
    ensures { IfOk result (λ made. view_refusal made ≡ of_explanation (view_explanation explanation)) }
{
    let text = String::from_str(alloc, explanation.rule.message())?;
    let number = Some(rule_number(explanation.rule));
    Ok(Refusal {
        message: explanation.message,
        place: Some(explanation.location),
        rule: Some(BrokenRule { text, number }),
    })
}

/// The number of a rule: its place, from 1, in the order in which errors are listed at a definition.
#[tactic(auto, unfolding(crate::specs::Explained::rule_number))]
fn rule_number(rule: Rule) -> usize
    ensures { result ≡ rule_number rule }
{
    match rule {
        Rule::UniqueOperationNames => 1,
        Rule::LoneAnonymousOperation => 2,
        Rule::UniqueFragmentNames => 3,
        Rule::KnownFragmentNames => 4,
        Rule::NoFragmentCycles => 5,
        Rule::UniqueVariableNames => 6,
        Rule::UniqueArgumentNames => 7,
        Rule::UniqueInputFieldNames => 8,
        Rule::KnownDirectives => 9,
        Rule::KnownTypeNames => 10,
        Rule::FragmentsOnCompositeTypes => 11,
        Rule::VariablesAreInputTypes => 12,
        Rule::FieldsOnCorrectType => 13,
        Rule::ScalarLeafs => 14,
        Rule::KnownArgumentNames => 15,
        Rule::ProvidedNonNullArguments => 16,
        Rule::ArgumentsOfCorrectType => 17,
        Rule::DefaultValuesOfCorrectType => 18,
        Rule::NoUndefinedVariables => 19,
        Rule::VariablesInAllowedPosition => 20,
        Rule::OverlappingFieldsCanBeMerged => 21,
        Rule::DisableIntrospection => 22,
    }
}
