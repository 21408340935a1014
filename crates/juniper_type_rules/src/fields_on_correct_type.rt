//! FieldsOnCorrectType: each field is one of its parent type (section 5.3.1 of the Specification).

ghost use Rattle.std.specs.Prelude.{◌≡◌};
ghost use Rattle.std.specs.List.{list_any};
ghost use Rattle.std.specs.Option.{is_none};
ghost use Rattle.juniper_type_rules.specs.PlacedView.{view_parts, view_placed};

use crate::{Placed, PlacedParts};
use juniper_syntax::ScalarValue;

/// Whether a field is one that its parent type lacks.
pub fn has_unknown_field<S: ScalarValue>(parts: &PlacedParts<'_, '_, S>) -> bool
    ensures { result ≡ list_any (λ p. is_none p.declared) (view_parts S.shown parts.now).fields }
{
    for placed in &parts.fields {
        if is_unknown(placed) {
            return true;
        }
    }
    false
}

/// Whether its parent type lacks the field.
fn is_unknown<S: ScalarValue>(placed: &Placed<'_, '_, S>) -> bool
    ensures { result ≡ is_none (view_placed S.shown placed.now).declared }
{
    match placed.declared {
        Some(_) => false,
        None => true,
    }
}
