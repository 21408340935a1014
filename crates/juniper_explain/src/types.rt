//! What the rules on types find, with their nodes: the second phase.

ghost use Rattle.std.specs.Prelude.{◌≡◌, IfOk, List, OnOk};
ghost use Rattle.graphql_spec.specs.Documents as documents;
ghost use Rattle.juniper_rules.specs.Listing.{AreListedOnTypes, IsListedOnTypes, definition_of};
ghost use Rattle.juniper_type_rules.specs.PlacedView.{view_parts};
ghost use Rattle.juniper_type_rules.specs.Placing.{parts_of};
ghost use Rattle.juniper_schema.specs.SchemaView.{view_schema};
ghost use Rattle.juniper_syntax.specs.DocumentView.{view_definition};
ghost use Rattle.juniper_explain.specs.Adding.{AddsAll, AddsOfArguments, AddsTwo, Explain};
ghost use Rattle.juniper_explain.specs.Nodes.{other_conditions, other_variables, type_findings};

use crate::arguments::explain_missing_arguments;
use crate::conditions::explain_other_conditions;
use crate::explanation::Explanation;
use crate::fields::{explain_sets, explain_unknown_fields};
use crate::given::{explain_unknown_arguments, explain_wrong_arguments};
use crate::sites::sites;
use crate::variables::{explain_defaults, explain_other_variables, variables_of};
use crate::words::words_in;
use juniper_rules::ListedOnTypes;
use juniper_schema::SchemaType;
use juniper_syntax::{Definition, ScalarValue};
use juniper_type_rules::PlacedParts;
use std::alloc::{AllocError, Global};

/// Explains what the rules on types find in a document, of whose definitions this is listed. An error where memory is
/// refused.
pub(crate) fn explain_types<'d, 'a, S: ScalarValue>(
    alloc: Global,
    schema: &'d SchemaType<S>,
    listed: &[ListedOnTypes<'_, 'd, 'a, S>],
) -> Result<Vec<Explanation>, AllocError>
    ensures { IfOk result (λ es. (d : documents.Document) → AreListedOnTypes S.shown (view_schema S.shown schema.now) listed.now d →
        Explain es.items (type_findings (view_schema S.shown schema.now)) d) }
{
    let mut explanations = Vec::new(alloc);
    for one in listed {
        explain_definition(alloc, schema, one, &mut explanations)?;
    }
    Ok(explanations)
}

/// Explains what the rules on types find at a definition, of which this is listed.
fn explain_definition<'d, 'a, S: ScalarValue>(
    alloc: Global,
    schema: &'d SchemaType<S>,
    on_types: &ListedOnTypes<'_, 'd, 'a, S>,
    explanations: &mut Vec<Explanation>,
) -> Result<(), AllocError>
    ensures { OnOk result ((ds : List documents.Definition) → IsListedOnTypes S.shown (view_schema S.shown schema.now) on_types.now →
        AddsAll explanations.old.items explanations.new.items
        (type_findings (view_schema S.shown schema.now) ds (definition_of S.shown on_types.now.listed.now))) }
{
    let listed = on_types.listed;
    let definition = listed.definition;
    explain_references(alloc, schema, definition, explanations)?;
    explain_unknown_fields(alloc, schema, &on_types.placed, explanations)?;
    explain_sets(alloc, schema, &on_types.placed, explanations)?;
    explain_arguments(alloc, schema, &on_types.placed, explanations)?;
    explain_defaults(alloc, schema, variables_of(definition), explanations)
}

/// Explains the conditions and the variables of a definition whose types are of a wrong kind.
fn explain_references<S: ScalarValue>(
    alloc: Global,
    schema: &SchemaType<S>,
    definition: &Definition<'_, S>,
    explanations: &mut Vec<Explanation>,
) -> Result<(), AllocError>
    ensures { OnOk result (AddsTwo explanations.old.items explanations.new.items
        (other_conditions (view_schema S.shown schema.now) (view_definition S.shown definition.now))
        (other_variables (view_schema S.shown schema.now) (view_definition S.shown definition.now))) }
{
    let words = words_in(alloc, definition)?;
    explain_other_conditions(alloc, schema, &words.conditions, explanations)?;
    explain_other_variables(alloc, schema, variables_of(definition), explanations)
}

/// Explains the arguments of fields and directives that are unknown, missing or wrong.
fn explain_arguments<'d, 'a, S: ScalarValue>(
    alloc: Global,
    schema: &'d SchemaType<S>,
    parts: &PlacedParts<'d, 'a, S>,
    explanations: &mut Vec<Explanation>,
) -> Result<(), AllocError>
    ensures { OnOk result ((x : documents.Definition) → view_parts S.shown parts.now ≡ parts_of (view_schema S.shown schema.now) x →
        AddsOfArguments explanations.old.items explanations.new.items (view_schema S.shown schema.now) x) }
{
    let sites = sites(alloc, schema, parts)?;
    explain_unknown_arguments(alloc, &sites, explanations)?;
    explain_missing_arguments(alloc, &sites, explanations)?;
    explain_wrong_arguments(alloc, schema, &sites, explanations)
}
