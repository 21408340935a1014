//! How errors are listed: one for each rule that a definition violates, in the order of the rules.

ghost use Rattle.std.specs.Prelude.{◌≡◌, ◌++◌, OnOk, map};
ghost use Rattle.std.specs.List.{flat_map};
ghost use Rattle.graphql_spec.specs.Documents as documents;
ghost use Rattle.graphql_spec.specs.Documents.{span_of_definition};
ghost use Rattle.graphql_spec.specs.Rules.{reported};
ghost use Rattle.juniper_syntax.specs.Positions.{view_position};
ghost use Rattle.juniper_syntax.specs.RuleView.{view_rule_error};
ghost use Rattle.juniper_syntax.specs.DocumentView.{view_definition};

use juniper_syntax::{Definition, RuleError, ScalarValue, SourcePosition};
use std::alloc::{AllocError, Global};

/// Adds an error for each rule that is violated, at the start of the definition.
pub(crate) fn report<S: ScalarValue>(
    alloc: Global,
    errors: &mut Vec<RuleError>,
    definition: &Definition<'_, S>,
    findings: &[(bool, &str)],
) -> Result<(), AllocError>
    ensures { OnOk result (map view_rule_error errors.new.items ≡ map view_rule_error errors.old.items
        ++ flat_map (λ f. reported f.0 f.1.now (view_definition S.shown definition.now)) findings.now) }
{
    let start = start_of(definition);
    for (is_violated, message) in findings {
        report_one(alloc, errors, start, *is_violated, *message)?;
    }
    Ok(())
}

/// Adds an error at this place, where the rule is violated.
#[tactic(auto, unfolding(graphql_spec::specs::Rules::reported))]
fn report_one(
    alloc: Global,
    errors: &mut Vec<RuleError>,
    start: SourcePosition,
    is_violated: bool,
    message: &str,
) -> Result<(), AllocError>
    ensures { OnOk result ((x : documents.Definition) → view_position start ≡ (span_of_definition x).start →
        map view_rule_error errors.new.items ≡ map view_rule_error errors.old.items ++ reported is_violated message.now x) }
{
    if is_violated {
        errors.push(RuleError::new(alloc, message, start)?)?;
    }
    Ok(())
}

/// Where a definition starts.
#[tactic(auto, unfolding(graphql_spec::specs::Documents::span_of_definition))]
pub fn start_of<S: ScalarValue>(definition: &Definition<'_, S>) -> SourcePosition
    ensures { view_position result ≡ (span_of_definition (view_definition S.shown definition.now)).start }
{
    match definition {
        Definition::Operation(operation) => operation.span.start,
        Definition::Fragment(fragment) => fragment.span.start,
    }
}
