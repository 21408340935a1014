//! What the rules on names find, with their nodes: the first phase.

ghost use Rattle.std.specs.Prelude.{◌≡◌, IfOk, OnOk};
ghost use Rattle.std.specs.List.{flat_map};
ghost use Rattle.graphql_spec.specs.Documents as documents;
ghost use Rattle.graphql_spec.specs.Written.{all_directives};
ghost use Rattle.juniper_schema.specs.SchemaView.{view_schema};
ghost use Rattle.juniper_written.specs.SpreadsView.{AreFragmentsOf};
ghost use Rattle.juniper_explain.specs.Adding.{AddsAll, AddsThree, AddsTwo, Explain, WhereListed, WhereOneListed};
ghost use Rattle.juniper_explain.specs.Nodes.{inside_findings, name_findings, repeated_arguments, repeated_input_fields, repeated_variables};
ghost use Rattle.juniper_explain.specs.Nodes.{unknown_directive, unknown_types};
ghost use Rattle.juniper_explain.specs.Words.{view_marked, words_of};

use crate::conditions::explain_unknown_conditions;
use crate::definitions::explain_definition;
use crate::directives::explain_directives;
use crate::explanation::Explanation;
use crate::input_fields::{explain_in_arguments, explain_in_defaults};
use crate::repeats::{explain_repeated_arguments, explain_repeated_variables};
use crate::spreads::{explain_own_spread, explain_spreads};
use crate::variables::{explain_unknown_variables, variables_of};
use crate::words::{Words, words_in};
use juniper_rules::Listed;
use juniper_schema::SchemaType;
use juniper_syntax::{Definition, ScalarValue};
use juniper_written::{Earlier, FragmentsByName, count_operations};
use std::alloc::{AllocError, Global};

/// Explains what the rules on names find in a document, of whose definitions this is listed, with these fragments. An error
/// where memory is refused.
pub(crate) fn explain_names<'d, 'a, S: ScalarValue>(
    alloc: Global,
    schema: &SchemaType<S>,
    document: &[Definition<'a, S>],
    listed: &[Listed<'d, 'a, S>],
    fragments: &FragmentsByName<'d, 'a, S>,
) -> Result<Vec<Explanation>, AllocError>
    ensures { IfOk result (λ es. WhereListed S.shown document.now listed.now fragments.now (λ d.
        Explain es.items (name_findings (view_schema S.shown schema.now) d) d)) }
{
    let operation_count = count_operations(document);
    let mut explanations = Vec::new(alloc);
    let mut earlier = Earlier::new(alloc);
    for one in listed {
        explain_definition(
            alloc,
            &earlier,
            operation_count,
            one.definition,
            &mut explanations,
        )?;
        explain_inside(alloc, schema, fragments, one, &mut explanations)?;
        earlier.add(one.definition)?;
    }
    Ok(explanations)
}

/// Explains what the rules on names find inside a definition, of which this is listed.
fn explain_inside<'d, 'a, S: ScalarValue>(
    alloc: Global,
    schema: &SchemaType<S>,
    fragments: &FragmentsByName<'d, 'a, S>,
    listed: &Listed<'d, 'a, S>,
    explanations: &mut Vec<Explanation>,
) -> Result<(), AllocError>
    ensures { OnOk result ((d : documents.Document) → AreFragmentsOf S.shown fragments.now d → WhereOneListed S.shown listed.now (λ x.
        AddsAll explanations.old.items explanations.new.items (inside_findings (view_schema S.shown schema.now) d x))) }
{
    let definition = listed.definition;
    let words = words_in(alloc, definition)?;
    explain_spreads(alloc, fragments, &words.spreads, explanations)?;
    explain_own_spread(
        alloc,
        fragments,
        definition,
        &listed.written.spreads,
        explanations,
    )?;
    explain_repeats(alloc, listed, explanations)?;
    explain_unknown(alloc, schema, listed, &words, explanations)
}

/// Explains the names of variables, arguments and input fields that are not unique.
fn explain_repeats<'d, 'a, S: ScalarValue>(
    alloc: Global,
    listed: &Listed<'d, 'a, S>,
    explanations: &mut Vec<Explanation>,
) -> Result<(), AllocError>
    ensures { OnOk result (WhereOneListed S.shown listed.now (λ x.
        AddsThree explanations.old.items explanations.new.items (repeated_variables x) (repeated_arguments x) (repeated_input_fields x))) }
{
    let lists = &listed.arguments.lists;
    let variables = variables_of(listed.definition);
    explain_repeated_variables(alloc, variables, explanations)?;
    explain_repeated_arguments(alloc, lists, explanations)?;
    explain_in_arguments(alloc, lists, explanations)?;
    explain_in_defaults(alloc, variables, explanations)
}

/// Explains the directives and the types that are not known.
fn explain_unknown<'d, 'a, S: ScalarValue>(
    alloc: Global,
    schema: &SchemaType<S>,
    listed: &Listed<'d, 'a, S>,
    words: &Words<'a>,
    explanations: &mut Vec<Explanation>,
) -> Result<(), AllocError>
    ensures { OnOk result (WhereOneListed S.shown listed.now (λ x. view_marked words.now ≡ words_of x →
        AddsTwo explanations.old.items explanations.new.items
        (flat_map unknown_directive (all_directives x)) (unknown_types (view_schema S.shown schema.now) x))) }
{
    explain_directives(alloc, schema, &listed.written.directives, explanations)?;
    explain_unknown_conditions(alloc, schema, &words.conditions, explanations)?;
    let variables = variables_of(listed.definition);
    explain_unknown_variables(alloc, schema, variables, explanations)
}
