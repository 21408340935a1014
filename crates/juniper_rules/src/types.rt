//! The second phase: types, on which the last rules stand.

ghost use Rattle.std.specs.Prelude.{◌≡◌, Bool, IfOk, List, OnOk, map, []};
ghost use Rattle.graphql_spec.specs.Documents as documents;
ghost use Rattle.graphql_spec.specs.Rules as rules;
ghost use Rattle.graphql_spec.specs.Rules.{at_each};
ghost use Rattle.juniper_syntax.specs.RuleView.{view_rule_error};
ghost use Rattle.juniper_schema.specs.SchemaView.{view_schema};
ghost use Rattle.juniper_rules.specs.Listing.{AreListedOnTypes, IsListedOnTypes, definition_of};
ghost use Rattle.juniper_rules.specs.Finding.{ReportsTypes};

use crate::lists::ListedOnTypes;
use crate::report::report;
use juniper_schema::SchemaType;
use juniper_syntax::{RuleError, ScalarValue};
use juniper_type_rules::{
    has_other_condition, has_other_variable, has_unknown_argument, has_unknown_field,
    has_wrong_argument, has_wrong_default, has_wrong_set, lacks_argument,
};
use std::alloc::{AllocError, Global};

/// What the rules on types find in a document, of whose definitions this is listed: an error for each rule that a definition
/// violates, in the order of the definitions, and of the rules at each. An error where memory is refused.
pub fn type_errors<'d, 'a, S: ScalarValue>(
    alloc: Global,
    schema: &SchemaType<S>,
    listed: &[ListedOnTypes<'_, 'd, 'a, S>],
) -> Result<Vec<RuleError>, AllocError>
    ensures { IfOk result (λ es. (disabled : Bool) (d : documents.Document) → AreListedOnTypes S.shown (view_schema S.shown schema.now) listed.now d →
        map view_rule_error es.items ≡ at_each (rules.type_errors (view_schema S.shown schema.now) disabled d) [] d) }
{
    let mut errors = Vec::new(alloc);
    for one in listed {
        find_types(alloc, schema, one, &mut errors)?;
    }
    Ok(errors)
}

/// Adds what the rules on types find at a definition, of which this is listed.
fn find_types<'d, 'a, S: ScalarValue>(
    alloc: Global,
    schema: &SchemaType<S>,
    on_types: &ListedOnTypes<'_, 'd, 'a, S>,
    errors: &mut Vec<RuleError>,
) -> Result<(), AllocError>
    ensures { OnOk result ((disabled : Bool) (d : documents.Document) (ds : List documents.Definition) →
        ReportsTypes S.shown (view_schema S.shown schema.now) disabled d ds on_types.now errors.old.items errors.new.items) }
{
    let listed = on_types.listed;
    let definition = listed.definition;
    let inside = types_inside(schema, on_types);
    let has_wrong_default = has_wrong_default(alloc, schema, definition)?;
    let findings = [
        (
            inside.has_other_condition,
            "Fragment on a type without fields",
        ),
        (
            has_other_variable(schema, definition),
            "Variable is not of an input type",
        ),
        (inside.has_unknown_field, "Unknown field"),
        (inside.has_wrong_set, "Selection set does not fit the field"),
        (inside.has_unknown_argument, "Unknown argument"),
        (inside.lacks_argument, "Argument is missing"),
        (inside.has_wrong_argument, "Argument does not fit its type"),
        (has_wrong_default, "Default value does not fit its type"),
    ];
    report(alloc, errors, definition, &findings)
}

/// Which rules on types are violated by what is written inside a definition.
#[derive(Clone, Copy)]
struct TypesInside {
    has_other_condition: bool,
    has_unknown_field: bool,
    has_wrong_set: bool,
    has_unknown_argument: bool,
    lacks_argument: bool,
    has_wrong_argument: bool,
}

/// Which rules on types are violated by what is written inside a definition, of which this is listed.
fn types_inside<'d, 'a, S: ScalarValue>(
    schema: &SchemaType<S>,
    on_types: &ListedOnTypes<'_, 'd, 'a, S>,
) -> TypesInside
    ensures condition { IsListedOnTypes S.shown (view_schema S.shown schema.now) on_types.now →
        result.has_other_condition ≡ rules.has_other_condition (view_schema S.shown schema.now) (definition_of S.shown on_types.now.listed.now) }
    ensures field { IsListedOnTypes S.shown (view_schema S.shown schema.now) on_types.now →
        result.has_unknown_field ≡ rules.has_unknown_field (view_schema S.shown schema.now) (definition_of S.shown on_types.now.listed.now) }
    ensures set { IsListedOnTypes S.shown (view_schema S.shown schema.now) on_types.now →
        result.has_wrong_set ≡ rules.has_wrong_set (view_schema S.shown schema.now) (definition_of S.shown on_types.now.listed.now) }
    ensures unknown { IsListedOnTypes S.shown (view_schema S.shown schema.now) on_types.now →
        result.has_unknown_argument ≡ rules.has_unknown_argument (view_schema S.shown schema.now) (definition_of S.shown on_types.now.listed.now) }
    ensures lacking { IsListedOnTypes S.shown (view_schema S.shown schema.now) on_types.now →
        result.lacks_argument ≡ rules.lacks_argument (view_schema S.shown schema.now) (definition_of S.shown on_types.now.listed.now) }
    ensures wrong { IsListedOnTypes S.shown (view_schema S.shown schema.now) on_types.now →
        result.has_wrong_argument ≡ rules.has_wrong_argument (view_schema S.shown schema.now) (definition_of S.shown on_types.now.listed.now) }
{
    let listed = on_types.listed;
    TypesInside {
        has_other_condition: has_other_condition(schema, &listed.written),
        has_unknown_field: has_unknown_field(&on_types.placed),
        has_wrong_set: has_wrong_set(schema, &on_types.placed),
        has_unknown_argument: has_unknown_argument(&on_types.calls),
        lacks_argument: lacks_argument(&on_types.calls),
        has_wrong_argument: has_wrong_argument(schema, &on_types.calls),
    }
}
