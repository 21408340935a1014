//! ScalarLeafs: a selection set stands on composite types, and on these alone (section 5.3.3 of the Specification).

ghost use Rattle.std.specs.Prelude.{◌≡◌};
ghost use Rattle.std.specs.List.{list_any};
ghost use Rattle.graphql_spec.specs.Rules.{set_is_wrong};
ghost use Rattle.juniper_meta.specs.MetaView.{view_type};
ghost use Rattle.juniper_type_rules.specs.PlacedView.{view_parts, view_placed};
ghost use Rattle.juniper_schema.specs.SchemaView.{view_schema};
ghost use Rattle.juniper_type_rules.specs.SetTests.{has_wrong_set};

use crate::{Placed, PlacedParts};
use juniper_schema::SchemaType;
use juniper_syntax::{ScalarValue, Type};

/// Whether a known field has a selection set although its type is a leaf, or has none although its type is composite.
pub fn has_wrong_set<S: ScalarValue>(schema: &SchemaType<S>, parts: &PlacedParts<'_, '_, S>) -> bool
    ensures { result ≡ list_any (has_wrong_set (view_schema S.shown schema.now)) (view_parts S.shown parts.now).fields }
{
    for placed in &parts.fields {
        if is_wrong_at(schema, placed) {
            return true;
        }
    }
    false
}

/// Whether the field is known, and its selection set does not fit its type.
#[tactic(auto, unfolding(crate::specs::SetTests::has_wrong_set))]
fn is_wrong_at<S: ScalarValue>(schema: &SchemaType<S>, placed: &Placed<'_, '_, S>) -> bool
    ensures { result ≡ has_wrong_set (view_schema S.shown schema.now) (view_placed S.shown placed.now) }
{
    let field = placed.field;
    match placed.declared {
        Some(declared) => set_is_wrong(
            schema,
            field.item.selection_set.is_some(),
            &declared.field_type,
        ),
        None => false,
    }
}

/// Whether a selection set, or that there is none, does not fit the type.
#[tactic(auto, unfolding(graphql_spec::specs::Rules::set_is_wrong))]
pub fn set_is_wrong<S: ScalarValue>(
    schema: &SchemaType<S>,
    has_set: bool,
    reference: &Type<String>,
) -> bool
    ensures { result ≡ set_is_wrong (view_schema S.shown schema.now) has_set (view_type reference.now) }
{
    let name = reference.innermost_name();
    if has_set {
        schema.is_leaf(name)
    } else {
        schema.is_composite(name)
    }
}
