//! Laws of conversions. Each function does nothing; its contract is the law.

ghost use Rattle.std.specs.Prelude.{◌≡◌, ◌≢◌, MatchResult, Ok, IsOkAnd, IsSomeAnd, None, Some, string_bytes};
ghost use Rattle.graphql_spec.specs.Constants.{null};
ghost use Rattle.juniper_conversions.specs.IdText.{id_text};
ghost use Rattle.juniper_conversions.specs.RoundTrips.{ComesBack, ComesBackAs};

use crate::ID;
use crate::convert::{FromInputValue, ToInputValue};
use juniper_syntax::ScalarValue;

/// An Int comes back from the input value that it makes.
pub fn ints_come_back<S: ScalarValue>(value: i32)
    ensures given { ⟦<i32 as FromInputValue<S>>⟧.gives (⟦<i32 as ToInputValue<S>>⟧.input value) (Ok value) }
    ensures back { (answer : _) → ⟦<i32 as FromInputValue<S>>⟧.gives (⟦<i32 as ToInputValue<S>>⟧.input value) answer → answer ≡ Ok value }
{}

/// A Boolean comes back from the input value that it makes.
pub fn booleans_come_back<S: ScalarValue>(value: bool)
    ensures given { ⟦<bool as FromInputValue<S>>⟧.gives (⟦<bool as ToInputValue<S>>⟧.input value) (Ok value) }
    ensures back { (answer : _) → ⟦<bool as FromInputValue<S>>⟧.gives (⟦<bool as ToInputValue<S>>⟧.input value) answer → answer ≡ Ok value }
{}

/// A String comes back from the input value that it makes.
pub fn strings_come_back<S: ScalarValue>(value: &String)
    ensures given { ⟦<String as FromInputValue<S>>⟧.gives (⟦<String as ToInputValue<S>>⟧.input value.now) (Ok value.now) }
    ensures back { (answer : _) → ⟦<String as FromInputValue<S>>⟧.gives (⟦<String as ToInputValue<S>>⟧.input value.now) answer →
        MatchResult answer (λ text. string_bytes text ≡ string_bytes value.now) (λ e. ⊥) }
{}

/// An ID comes back from the input value that it makes (3.5.5).
pub fn ids_come_back<S: ScalarValue>(value: &ID)
    ensures given { ⟦<ID as FromInputValue<S>>⟧.gives (⟦<ID as ToInputValue<S>>⟧.input value.now) (Ok value.now) }
    ensures back { (answer : _) → ⟦<ID as FromInputValue<S>>⟧.gives (⟦<ID as ToInputValue<S>>⟧.input value.now) answer →
        MatchResult answer (λ id. id_text id ≡ id_text value.now) (λ e. ⊥) }
{}

/// `None` comes back from null. `Some` of a value comes back where the value does and is not written as null.
pub fn options_come_back<T: FromInputValue<S> + ToInputValue<S>, S: ScalarValue>(value: &T)
    ensures some_given { (back : T) → T.input value.now ≢ null → ComesBackAs T.gives T.input value.now back →
        ⟦<Option<T> as FromInputValue<S>>⟧.gives (⟦<Option<T> as ToInputValue<S>>⟧.input (Some value.now)) (Ok (Some back)) }
    ensures some { T.input value.now ≢ null → ComesBack T.gives T.input value.now → (answer : _) →
        ⟦<Option<T> as FromInputValue<S>>⟧.gives (⟦<Option<T> as ToInputValue<S>>⟧.input (Some value.now)) answer →
        IsOkAnd answer (λ back. IsSomeAnd back (ComesBackAs T.gives T.input value.now)) }
    ensures none_given { ⟦<Option<T> as FromInputValue<S>>⟧.gives (⟦<Option<T> as ToInputValue<S>>⟧.input None) (Ok None) }
    ensures none { (answer : _) → ⟦<Option<T> as FromInputValue<S>>⟧.gives (⟦<Option<T> as ToInputValue<S>>⟧.input None) answer → answer ≡ Ok None }
{}
