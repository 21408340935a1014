//! Laws of conversions between scalars and the types of resolvers. Each function does nothing; its contract is the law.

ghost use Rattle.std.specs.Prelude.{◌≡◌, MatchResult, Ok, string_bytes};
ghost use Rattle.juniper_conversions.specs.IdText.{id_text};

use crate::ID;
use crate::scalar_traits::{FromScalarValue, ToScalarValue};
use juniper_syntax::ScalarValue;

/// An Int comes back from the scalar that it makes (3.5.1).
pub fn ints_come_back<'s, S: ScalarValue>(value: i32)
    ensures given { ⟦<i32 as FromScalarValue<'s, S>>⟧.gives (⟦<i32 as ToScalarValue<S>>⟧.shows value) (Ok value) }
    ensures back { (answer : _) → ⟦<i32 as FromScalarValue<'s, S>>⟧.gives (⟦<i32 as ToScalarValue<S>>⟧.shows value) answer → answer ≡ Ok value }
{}

/// A Boolean comes back from the scalar that it makes (3.5.4).
pub fn booleans_come_back<'s, S: ScalarValue>(value: bool)
    ensures given { ⟦<bool as FromScalarValue<'s, S>>⟧.gives (⟦<bool as ToScalarValue<S>>⟧.shows value) (Ok value) }
    ensures back { (answer : _) → ⟦<bool as FromScalarValue<'s, S>>⟧.gives (⟦<bool as ToScalarValue<S>>⟧.shows value) answer → answer ≡ Ok value }
{}

/// A String comes back from the scalar that it makes (3.5.3).
pub fn strings_come_back<'s, S: ScalarValue>(value: &String)
    ensures given { ⟦<String as FromScalarValue<'s, S>>⟧.gives (⟦<String as ToScalarValue<S>>⟧.shows value.now) (Ok value.now) }
    ensures back { (answer : _) → ⟦<String as FromScalarValue<'s, S>>⟧.gives (⟦<String as ToScalarValue<S>>⟧.shows value.now) answer →
        MatchResult answer (λ text. string_bytes text ≡ string_bytes value.now) (λ e. ⊥) }
{}

/// An ID comes back from the scalar that it makes (3.5.5).
pub fn ids_come_back<'s, S: ScalarValue>(value: &ID)
    ensures given { ⟦<ID as FromScalarValue<'s, S>>⟧.gives (⟦<ID as ToScalarValue<S>>⟧.shows value.now) (Ok value.now) }
    ensures back { (answer : _) → ⟦<ID as FromScalarValue<'s, S>>⟧.gives (⟦<ID as ToScalarValue<S>>⟧.shows value.now) answer →
        MatchResult answer (λ id. id_text id ≡ id_text value.now) (λ e. ⊥) }
{}
