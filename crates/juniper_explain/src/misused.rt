//! VariablesInAllowedPosition (section 5.8.5 of the Specification).

ghost use Rattle.std.specs.Prelude.{◌≡◌, ◌++◌, IfOk, OnOk, codes, map, option_map, string_bytes};
ghost use Rattle.std.specs.List.{flat_map};
ghost use Rattle.graphql_spec.specs.Documents as documents;
ghost use Rattle.graphql_spec.specs.Types.{type_text};
ghost use Rattle.graphql_spec.specs.VariableUses as variable_uses;
ghost use Rattle.juniper_meta.specs.MetaView as metas;
ghost use Rattle.juniper_schema.specs.SchemaView.{view_schema};
ghost use Rattle.juniper_syntax.specs.DocumentView.{view_variable};
ghost use Rattle.juniper_syntax.specs.TypeView.{view_type};
ghost use Rattle.juniper_type_rules.specs.Positions.{places_in_call};
ghost use Rattle.juniper_type_rules.specs.UsesView.{view_place, view_places};
ghost use Rattle.juniper_explain.specs.Adding.{Adds, WherePlaced};
ghost use Rattle.juniper_explain.specs.Nodes.{misused_at, misused_by, misused_variables, where_found};
ghost use Rattle.juniper_explain.specs.Parts.{view_each};

use crate::explanation::{Explanation, add};
use crate::parts::parts_of;
use crate::rule::Rule;
use crate::variables::listed;
use juniper_rules::ListedOnTypes;
use juniper_schema::SchemaType;
use juniper_syntax::{DefinedVariable, Definition, ScalarValue, Type};
use juniper_type_rules::{Place, may_stand, places_in_calls};
use juniper_written::FragmentsByName;
use std::alloc::{AllocError, Global};

/// Explains the variables that a definition of a document, with these fragments, uses where they may not stand, in itself or
/// in fragments that it reaches, where it violates the rule.
#[tactic(auto, unfolding(crate::specs::Nodes::where_found))]
pub(crate) fn explain_misused<'u, 'p, 'l, 'd: 'u, 'a, S: ScalarValue>(
    alloc: Global,
    schema: &'u SchemaType<S>,
    document: &'p [ListedOnTypes<'l, 'd, 'a, S>],
    fragments: &FragmentsByName<'d, 'a, S>,
    one: &'p ListedOnTypes<'l, 'd, 'a, S>,
    is_violated: bool,
    explanations: &mut Vec<Explanation>,
) -> Result<(), AllocError>
    ensures { OnOk result ((d : documents.Document) → WherePlaced S.shown (view_schema S.shown schema.now) document.now fragments.now one.now d (λ x.
        Adds explanations.old.items explanations.new.items (where_found is_violated (misused_variables (view_schema S.shown schema.now) d x)))) }
{
    if is_violated {
        explain_all(alloc, schema, document, fragments, one, explanations)
    } else {
        Ok(())
    }
}

/// Explains those of a definition: of an operation all, and of a fragment none.
fn explain_all<'u, 'p, 'l, 'd: 'u, 'a, S: ScalarValue>(
    alloc: Global,
    schema: &'u SchemaType<S>,
    document: &'p [ListedOnTypes<'l, 'd, 'a, S>],
    fragments: &FragmentsByName<'d, 'a, S>,
    one: &'p ListedOnTypes<'l, 'd, 'a, S>,
    explanations: &mut Vec<Explanation>,
) -> Result<(), AllocError>
    ensures { OnOk result ((d : documents.Document) → WherePlaced S.shown (view_schema S.shown schema.now) document.now fragments.now one.now d (λ x.
        Adds explanations.old.items explanations.new.items (misused_variables (view_schema S.shown schema.now) d x))) }
{
    let own = one.listed;
    match own.definition {
        Definition::Operation(operation) => {
            let parts = parts_of(alloc, document, fragments, one)?;
            let variables = listed(&operation.item.variable_definitions);
            explain_parts(alloc, schema, variables, &parts, explanations)
        }
        Definition::Fragment(_) => Ok(()),
    }
}

/// Explains the variables in the arguments of some definitions, of which this is listed, that may not stand there.
fn explain_parts<'u, 'd: 'u, 'a, S: ScalarValue>(
    alloc: Global,
    schema: &'u SchemaType<S>,
    variables: &[DefinedVariable<'a, S>],
    parts: &Vec<&ListedOnTypes<'_, 'd, 'a, S>>,
    explanations: &mut Vec<Explanation>,
) -> Result<(), AllocError>
    ensures { OnOk result (Adds explanations.old.items explanations.new.items
        (flat_map (λ l. flat_map (misused_by (map (view_variable S.shown) variables.now))
        (flat_map (places_in_call (view_schema S.shown schema.now)) l.calls)) (view_each S.shown parts.now.items))) }
{
    for index in 0..parts.len() {
        let part = parts[index];
        let places = places_in_calls(alloc, schema, &part.calls)?;
        explain_places(alloc, variables, &places, explanations)?;
    }
    Ok(())
}

/// Explains those of the variables at positions that may not stand there.
fn explain_places<'a, S: ScalarValue>(
    alloc: Global,
    variables: &[DefinedVariable<'a, S>],
    places: &[Place<'_>],
    explanations: &mut Vec<Explanation>,
) -> Result<(), AllocError>
    ensures { OnOk result (Adds explanations.old.items explanations.new.items
        (flat_map (misused_by (map (view_variable S.shown) variables.now)) (view_places places.now))) }
{
    for place in places {
        explain_place(alloc, variables, place, explanations)?;
    }
    Ok(())
}

/// Explains a variable at a position where it may not stand; one that is not defined may.
fn explain_place<'a, S: ScalarValue>(
    alloc: Global,
    variables: &[DefinedVariable<'a, S>],
    place: &Place<'_>,
    explanations: &mut Vec<Explanation>,
) -> Result<(), AllocError>
    ensures { OnOk result (Adds explanations.old.items explanations.new.items (misused_by (map (view_variable S.shown) variables.now) (view_place place.now))) }
{
    match first_of(variables, place.used.variable) {
        Some(variable) => explain_variable(alloc, variable, place, explanations),
        None => Ok(()),
    }
}

/// The first of the variables of a name.
fn first_of<'v, 'a, S: ScalarValue>(
    variables: &'v [DefinedVariable<'a, S>],
    name: &str,
) -> Option<&'v DefinedVariable<'a, S>>
    ensures { option_map (λ v. view_variable S.shown v.now) result ≡ variable_uses.definition_of (map (view_variable S.shown) variables.now) name.now }
{
    for variable in variables {
        if name == variable.0.item {
            return Some(variable);
        }
    }
    None
}

/// Explains a variable of this definition at a position where it may not stand.
#[tactic(auto, unfolding(crate::specs::Nodes::misused_at, crate::specs::Explanations::found))]
fn explain_variable<S: ScalarValue>(
    alloc: Global,
    variable: &DefinedVariable<'_, S>,
    place: &Place<'_>,
    explanations: &mut Vec<Explanation>,
) -> Result<(), AllocError>
    ensures { OnOk result (Adds explanations.old.items explanations.new.items (misused_at (view_variable S.shown variable.now) (view_place place.now))) }
{
    let used = place.used;
    if may_stand(variable, &used) {
        return Ok(());
    }
    let message = misused_text(alloc, used.variable, &variable.1.var_type.item, used.place)?;
    add(
        explanations,
        Rule::VariablesInAllowedPosition,
        place.span.start,
        message,
    )
}

/// What is said of such a variable.
fn misused_text(
    alloc: Global,
    name: &str,
    own: &Type<&str>,
    expected: &Type<String>,
) -> Result<String, AllocError>
    ensures { IfOk result (λ t. string_bytes t ≡ codes "Variable `$" ++ (name.now ++ (codes "` of type `" ++ (type_text (view_type (λ n. n.now) own.now)
        ++ (codes "` cannot stand where `" ++ (type_text (metas.view_type expected.now) ++ codes "` is expected")))))) }
{
    format!(in alloc;
        "Variable `${name}` of type `{own}` cannot stand where `{expected}` is expected"
    )
}
