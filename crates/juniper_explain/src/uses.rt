//! What the rules on variables, merging and introspection find, with their nodes where these are known: the third phase.

ghost use Rattle.std.specs.Prelude.{IfOk, OnOk};
ghost use Rattle.graphql_spec.specs.Documents as documents;
ghost use Rattle.juniper_schema.specs.SchemaView.{view_schema};
ghost use Rattle.juniper_explain.specs.Adding.{AddsAll, Explain, WhereMerged, WhereUsed};
ghost use Rattle.juniper_explain.specs.Nodes.{use_findings};

use crate::explanation::{Explanation, add_whole};
use crate::introspection::explain_introspection;
use crate::misused::explain_misused;
use crate::rule::Rule;
use crate::undefined::explain_undefined;
use juniper_rules::{ListedOnTypes, Surroundings, is_marked, used_by_each, uses_inside};
use juniper_schema::SchemaType;
use juniper_syntax::ScalarValue;
use juniper_type_rules::{Used, uses_of_fragments};
use juniper_written::FragmentsByName;
use std::alloc::{AllocError, Global};

/// Explains what the rules on variables, merging and introspection find in a document, of whose definitions this is listed,
/// with these fragments, and of whose definitions these have fields that cannot be merged. An error where memory is refused.
pub(crate) fn explain_uses<'d, 'a, S: ScalarValue>(
    alloc: Global,
    schema: &'d SchemaType<S>,
    listed: &[ListedOnTypes<'_, 'd, 'a, S>],
    fragments: &FragmentsByName<'d, 'a, S>,
    cannot_merge: &[bool],
    introspection_disabled: bool,
) -> Result<Vec<Explanation>, AllocError>
    ensures { IfOk result (λ es. (d : documents.Document) → WhereMerged S.shown (view_schema S.shown schema.now) listed.now fragments.now
        cannot_merge.now d (Explain es.items (use_findings (view_schema S.shown schema.now) introspection_disabled d) d)) }
{
    let used = used_by_each(alloc, schema, listed)?;
    let used_by_fragments = uses_of_fragments(alloc, &used, &fragments.spreads)?;
    let given = Surroundings {
        schema,
        used_by_fragments: &used_by_fragments,
        introspection_disabled,
    };
    let mut explanations = Vec::new(alloc);
    for index in 0..listed.len() {
        let one = &listed[index];
        let own = &used[index];
        let cannot_merge = is_marked(cannot_merge, index);
        explain_definition(
            alloc,
            &given,
            listed,
            fragments,
            one,
            own,
            cannot_merge,
            &mut explanations,
        )?;
    }
    Ok(explanations)
}

/// Explains what the rules on uses find at a definition, of which this is listed, and which uses these variables.
fn explain_definition<'r, 'u, 'p, 'l, 'd: 'r, 'a, S: ScalarValue>(
    alloc: Global,
    given: &Surroundings<'r, 'u, S>,
    document: &'p [ListedOnTypes<'l, 'd, 'a, S>],
    fragments: &FragmentsByName<'d, 'a, S>,
    one: &'p ListedOnTypes<'l, 'd, 'a, S>,
    own: &'r Used<'u>,
    cannot_merge: bool,
    explanations: &mut Vec<Explanation>,
) -> Result<(), AllocError>
    ensures { OnOk result (WhereUsed S.shown (view_schema S.shown given.now.schema.now) given.now.used_by_fragments.now document.now fragments.now
        one.now own.now cannot_merge (λ s d ds x.
        AddsAll explanations.old.items explanations.new.items (use_findings s given.now.introspection_disabled d ds x))) }
{
    let listed = one.listed;
    let definition = listed.definition;
    let inside = uses_inside(alloc, given, listed, own)?;
    explain_undefined(
        alloc,
        document,
        fragments,
        one,
        inside.undefined,
        explanations,
    )?;
    explain_misused(
        alloc,
        given.schema,
        document,
        fragments,
        one,
        inside.misused,
        explanations,
    )?;
    add_whole(
        alloc,
        explanations,
        cannot_merge,
        Rule::OverlappingFieldsCanBeMerged,
        definition,
    )?;
    explain_introspection(alloc, &listed.written, inside.looks_at_schema, explanations)
}
