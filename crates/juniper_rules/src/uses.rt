//! The third phase: how variables are used, merging, and introspection.

ghost use Rattle.std.specs.Prelude.{◌≡◌, IfOk, List, OnOk, false, get_or, length, map};
ghost use Rattle.graphql_spec.specs.Documents as documents;
ghost use Rattle.graphql_spec.specs.Rules as rules;
ghost use Rattle.graphql_spec.specs.Schema.{Schema};
ghost use Rattle.juniper_schema.specs.SchemaView.{view_schema};
ghost use Rattle.juniper_written.specs.SpreadsView.{AreFragmentsOf};
ghost use Rattle.juniper_type_rules.specs.UsesView.{AreUsesOfFragments, AreUsesOfParts, usage_of, view_used};
ghost use Rattle.juniper_rules.specs.Listing.{AreListedOnTypes, IsListed, IsListedOnTypes, definition_of};
ghost use Rattle.juniper_rules.specs.Finding.{AreUseErrors, ReportsUses, WhereUsed, schema_beside};

use crate::lists::{Listed, ListedOnTypes};
use crate::report::report;
use juniper_schema::SchemaType;
use juniper_syntax::{Definition, RuleError, ScalarValue};
use juniper_type_rules::{
    Used, UsesOfFragments, looks_at_schema, misuses_variable, used_in, uses_of_fragments,
    uses_undefined,
};
use juniper_written::FragmentsByName;
use std::alloc::{AllocError, Global};

/// What the rules on variables, merging and introspection find in a document, of whose definitions this is listed, with these
/// fragments, and of whose definitions these have fields that cannot be merged: an error for each rule that a definition
/// violates, in the order of the definitions, and of the rules at each. An error where memory is refused.
pub fn use_errors<'d, 'a, S: ScalarValue>(
    alloc: Global,
    schema: &'d SchemaType<S>,
    listed: &[ListedOnTypes<'_, 'd, 'a, S>],
    fragments: &FragmentsByName<'d, 'a, S>,
    cannot_merge: &[bool],
    introspection_disabled: bool,
) -> Result<Vec<RuleError>, AllocError>
    ensures { IfOk result (λ es. (d : documents.Document) → AreListedOnTypes S.shown (view_schema S.shown schema.now) listed.now d →
        AreFragmentsOf S.shown fragments.now d →
        AreUseErrors (view_schema S.shown schema.now) introspection_disabled d cannot_merge.now es.items) }
{
    let used = used_by_each(alloc, schema, listed)?;
    let used_by_fragments = uses_of_fragments(alloc, &used, &fragments.spreads)?;
    let given = Surroundings {
        schema,
        used_by_fragments: &used_by_fragments,
        introspection_disabled,
    };
    let mut errors = Vec::new(alloc);
    for index in 0..listed.len() {
        let one = &listed[index];
        let own = &used[index];
        let cannot_merge = is_marked(cannot_merge, index);
        find_uses(alloc, &given, one.listed, own, cannot_merge, &mut errors)?;
    }
    Ok(errors)
}

/// What the rules look at beside a definition.
#[derive(Drop)]
pub struct Surroundings<'r, 'u, S: ScalarValue> {
    /// The schema.
    pub schema: &'r SchemaType<S>,
    /// What the fragments of the document use of variables.
    pub used_by_fragments: &'r UsesOfFragments<'r, 'u>,
    /// Whether introspection is disabled.
    pub introspection_disabled: bool,
}

/// Adds what the rules on uses find at a definition, of which this is listed, and which uses these variables.
fn find_uses<'r, 'u, S: ScalarValue>(
    alloc: Global,
    given: &Surroundings<'r, 'u, S>,
    listed: &Listed<'_, '_, S>,
    own: &'r Used<'u>,
    cannot_merge: bool,
    errors: &mut Vec<RuleError>,
) -> Result<(), AllocError>
    ensures { OnOk result ((d : documents.Document) (ds : List documents.Definition) → WhereUsed S.shown given.now d listed.now own.now
        (ReportsUses S.shown given.now d ds listed.now cannot_merge errors.old.items errors.new.items)) }
{
    let definition = listed.definition;
    let inside = uses_inside(alloc, given, listed, own)?;
    let findings = [
        (inside.undefined, "Variable is not defined"),
        (inside.misused, "Variable may not stand here"),
        (cannot_merge, "Fields cannot be merged"),
        (inside.looks_at_schema, "Introspection is disabled"),
    ];
    report(alloc, errors, definition, &findings)
}

/// Which rules on uses are violated by what is written inside a definition.
#[derive(Clone, Copy)]
pub struct UsesInside {
    /// A variable is not defined (5.8.3).
    pub undefined: bool,
    /// A variable may not stand where it does (5.8.5).
    pub misused: bool,
    /// Introspection is disabled, and a field of it is asked for.
    pub looks_at_schema: bool,
}

/// Which rules on uses are violated by what is written inside a definition, of which this is listed, and which uses these
/// variables.
pub fn uses_inside<'r, 'u, S: ScalarValue>(
    alloc: Global,
    given: &Surroundings<'r, 'u, S>,
    listed: &Listed<'_, '_, S>,
    own: &'r Used<'u>,
) -> Result<UsesInside, AllocError>
    ensures undefined { IfOk result (λ u. (d : documents.Document) → WhereUsed S.shown given.now d listed.now own.now
        (u.undefined ≡ rules.uses_undefined (schema_beside S.shown given.now) d (definition_of S.shown listed.now))) }
    ensures misused { IfOk result (λ u. (d : documents.Document) → WhereUsed S.shown given.now d listed.now own.now
        (u.misused ≡ rules.misuses_variable (schema_beside S.shown given.now) d (definition_of S.shown listed.now))) }
    ensures schema { IfOk result (λ u. IsListed S.shown listed.now → u.looks_at_schema
        ≡ rules.looks_at_schema (schema_beside S.shown given.now) given.now.introspection_disabled (definition_of S.shown listed.now)) }
{
    let schema = given.schema;
    let definition = listed.definition;
    let looks_at_schema = looks_at_schema(
        schema,
        given.introspection_disabled,
        definition,
        &listed.written,
    );
    if given.used_by_fragments.has_none_beside(own) {
        return Ok(UsesInside {
            undefined: false,
            misused: false,
            looks_at_schema,
        });
    }
    let parts = uses_of_parts(alloc, given.used_by_fragments, listed, own)?;
    let undefined = uses_undefined(alloc, schema, definition, &parts)?;
    let misused = misuses_variable(alloc, schema, definition, &parts)?;
    Ok(UsesInside {
        undefined,
        misused,
        looks_at_schema,
    })
}

/// What an operation, of which this is listed, and the fragments that it reaches use of variables, where this is what it uses
/// by itself; nothing where it is a fragment.
fn uses_of_parts<'r, 'u, S: ScalarValue>(
    alloc: Global,
    fragments: &UsesOfFragments<'r, 'u>,
    listed: &Listed<'_, '_, S>,
    own: &'r Used<'u>,
) -> Result<Vec<&'r Used<'u>>, AllocError>
    ensures { IfOk result (λ us. (s : Schema) (d : documents.Document) → AreUsesOfFragments s fragments.now d → IsListed S.shown listed.now →
        view_used own.now ≡ usage_of s (definition_of S.shown listed.now) → AreUsesOfParts s us.items d (definition_of S.shown listed.now)) }
{
    match listed.definition {
        Definition::Operation(_) => fragments.with_reached(alloc, own, &listed.written.spreads),
        Definition::Fragment(_) => Ok(Vec::new(alloc)),
    }
}

/// What each definition uses of variables, in order.
pub fn used_by_each<'u, 'd: 'u, 'a: 'u, S: ScalarValue>(
    alloc: Global,
    schema: &'u SchemaType<S>,
    listed: &[ListedOnTypes<'_, 'd, 'a, S>],
) -> Result<Vec<Used<'u>>, AllocError>
    ensures count { IfOk result (λ us. length us.items ≡ length listed.now) }
    ensures each { IfOk result (λ us. (d : documents.Document) → AreListedOnTypes S.shown (view_schema S.shown schema.now) listed.now d →
        map view_used us.items ≡ map (usage_of (view_schema S.shown schema.now)) d) }
{
    let mut all = Vec::with_capacity(alloc, listed.len())?;
    for one in listed {
        let used = used_by(alloc, schema, one)?;
        all.push(used)?;
    }
    Ok(all)
}

/// What a definition, of which this is listed, uses of variables.
fn used_by<'u, 'd: 'u, 'a: 'u, S: ScalarValue>(
    alloc: Global,
    schema: &'u SchemaType<S>,
    on_types: &ListedOnTypes<'_, 'd, 'a, S>,
) -> Result<Used<'u>, AllocError>
    ensures { IfOk result (λ u. IsListedOnTypes S.shown (view_schema S.shown schema.now) on_types.now →
        view_used u ≡ usage_of (view_schema S.shown schema.now) (definition_of S.shown on_types.now.listed.now)) }
{
    let listed = on_types.listed;
    used_in(
        alloc,
        schema,
        listed.definition,
        &listed.arguments,
        &on_types.calls,
    )
}

/// Whether the list marks this place.
pub fn is_marked(marks: &[bool], index: usize) -> bool
    ensures { result ≡ get_or marks.now index false }
{
    match marks.get(index) {
        Some(mark) => *mark,
        None => false,
    }
}
