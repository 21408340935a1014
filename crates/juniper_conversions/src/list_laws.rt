//! Laws of the conversions of lists, boxes and [`Nullable`]. Each function does nothing; its contract is the law.

ghost use Rattle.std.specs.Prelude.{◌≡◌, ◌≢◌, Ok, IsOkAnd, IsSomeAnd, All, List, Vec};
ghost use Rattle.std.specs.declared.alloc.Global.{Global};
ghost use Rattle.std.specs.declared.boxed.Box.{Box};
ghost use Rattle.graphql_spec.specs.Constants.{null};
ghost use Rattle.juniper_conversions.specs.Nullable.{some};
ghost use Rattle.juniper_conversions.specs.RoundTrips.{AlwaysBrings, BringsBack, ComesBack, ComesBackAs, EachComesBackAs};

use crate::Nullable;
use crate::convert::{FromInputValue, ToInputValue};
use juniper_syntax::ScalarValue;

/// What a vector writes comes back where each item's does: where each item has an answer, item by item such answers are
/// an answer, and there is one; and where no item is refused, every answer is of that kind.
pub fn vectors_come_back<T: FromInputValue<S> + ToInputValue<S>, S: ScalarValue>(values: &Vec<T>)
    ensures given { (back : Vec T Global) → EachComesBackAs T.gives T.input values.now.items back.items →
        ⟦<Vec<T> as FromInputValue<S>>⟧.gives (⟦<Vec<T> as ToInputValue<S>>⟧.input values.now) (Ok back) }
    ensures exists { All (BringsBack T.gives T.input) values.now.items →
        (back : Vec T Global) × ⟦<Vec<T> as FromInputValue<S>>⟧.gives (⟦<Vec<T> as ToInputValue<S>>⟧.input values.now) (Ok back) }
    ensures back { All (ComesBack T.gives T.input) values.now.items → (answer : _) →
        ⟦<Vec<T> as FromInputValue<S>>⟧.gives (⟦<Vec<T> as ToInputValue<S>>⟧.input values.now) answer →
        IsOkAnd answer (λ back. EachComesBackAs T.gives T.input values.now.items back.items) }
{}

/// What an array writes comes back where each item's does, as for a vector.
pub fn arrays_come_back<T: FromInputValue<S> + ToInputValue<S>, S: ScalarValue, const N: usize>(
    values: &[T; N],
)
    ensures given { (back : List T) → EachComesBackAs T.gives T.input values.now back →
        ⟦<[T; N] as FromInputValue<S>>⟧.gives (⟦<[T; N] as ToInputValue<S>>⟧.input values.now) (Ok back) }
    ensures exists { All (BringsBack T.gives T.input) values.now →
        (back : List T) × ⟦<[T; N] as FromInputValue<S>>⟧.gives (⟦<[T; N] as ToInputValue<S>>⟧.input values.now) (Ok back) }
    ensures back { All (ComesBack T.gives T.input) values.now → (answer : _) →
        ⟦<[T; N] as FromInputValue<S>>⟧.gives (⟦<[T; N] as ToInputValue<S>>⟧.input values.now) answer →
        IsOkAnd answer (λ back. EachComesBackAs T.gives T.input values.now back) }
{}

/// What a box writes comes back where what it holds does.
pub fn boxes_come_back<T: FromInputValue<S> + ToInputValue<S>, S: ScalarValue>(value: &Box<T>)
    ensures given { (back : Box T Global) → ComesBackAs T.gives T.input value.now.value back.value →
        ⟦<Box<T> as FromInputValue<S>>⟧.gives (⟦<Box<T> as ToInputValue<S>>⟧.input value.now) (Ok back) }
    ensures back { ComesBack T.gives T.input value.now.value → (answer : _) →
        ⟦<Box<T> as FromInputValue<S>>⟧.gives (⟦<Box<T> as ToInputValue<S>>⟧.input value.now) answer →
        IsOkAnd answer (λ back. ComesBackAs T.gives T.input value.now.value back.value) }
{}

/// `Some` of a value comes back where the value does and is not written as null. `ExplicitNull` comes back, and
/// `ImplicitNull` comes back as `ExplicitNull`.
pub fn nullables_come_back<T: FromInputValue<S> + ToInputValue<S>, S: ScalarValue>(value: &T)
    ensures some_given { (back : T) → T.input value.now ≢ null → ComesBackAs T.gives T.input value.now back →
        ⟦<Nullable<T> as FromInputValue<S>>⟧.gives (⟦<Nullable<T> as ToInputValue<S>>⟧.input (Nullable.Some value.now)) (Ok (Nullable.Some back)) }
    ensures some { T.input value.now ≢ null → ComesBack T.gives T.input value.now →
        AlwaysBrings ⟦<Nullable<T> as FromInputValue<S>>⟧.gives ⟦<Nullable<T> as ToInputValue<S>>⟧.input (Nullable.Some value.now)
        (λ back. IsSomeAnd (some back) (ComesBackAs T.gives T.input value.now)) }
    ensures explicit_given { ⟦<Nullable<T> as FromInputValue<S>>⟧.gives (⟦<Nullable<T> as ToInputValue<S>>⟧.input Nullable.ExplicitNull)
        (Ok Nullable.ExplicitNull) }
    ensures explicit { (answer : _) → ⟦<Nullable<T> as FromInputValue<S>>⟧.gives (⟦<Nullable<T> as ToInputValue<S>>⟧.input Nullable.ExplicitNull) answer →
        answer ≡ Ok Nullable.ExplicitNull }
    ensures implicit_given { ⟦<Nullable<T> as FromInputValue<S>>⟧.gives (⟦<Nullable<T> as ToInputValue<S>>⟧.input Nullable.ImplicitNull)
        (Ok Nullable.ExplicitNull) }
    ensures implicit { (answer : _) → ⟦<Nullable<T> as FromInputValue<S>>⟧.gives (⟦<Nullable<T> as ToInputValue<S>>⟧.input Nullable.ImplicitNull) answer →
        answer ≡ Ok Nullable.ExplicitNull }
{}
