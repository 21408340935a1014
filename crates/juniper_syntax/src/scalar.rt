//! Scalars (section 3.5 of the Specification).

ghost use Rattle.std.specs.Prelude.{◌≡◌, Bool, Option, option_map, IfOk, string_bytes};
ghost use Rattle.graphql_spec.specs.Shown.{Shown, int, text, boolean, shown_int, shown_text, shown_boolean, same_shown};

use std::alloc::{AllocError, Global};
use std::fmt::Debug;

/// A scalar: it shows exactly one of an Int, a String and a Boolean. Two scalars are equal where they show the same.
pub trait ScalarValue: PartialEq + Debug + Drop {
    /// What it shows.
    ghost shown: { Self → Shown };

    /// The scalar that shows this Int.
    fn from_int(value: i32) -> Self
        ensures { shown result ≡ int value };

    /// The scalar that shows this Boolean.
    fn from_bool(value: bool) -> Self
        ensures { shown result ≡ boolean value };

    /// The scalar that shows this text; an error where memory for it is refused.
    fn from_text(value: String) -> Result<Self, AllocError>
        ensures { IfOk result (λ s. shown s ≡ text (string_bytes value)) };

    /// The Int that it shows, if it shows one.
    fn try_to_int(&self) -> Option<i32>
        ensures { result ≡ shown_int (shown self.now) };

    /// The text that it shows, if it shows one.
    fn try_to_str(&self) -> Option<&str>
        ensures { option_map (λ s. s.now) result ≡ shown_text (shown self.now) };

    /// The Boolean that it shows, if it shows one.
    fn try_to_bool(&self) -> Option<bool>
        ensures { result ≡ shown_boolean (shown self.now) };

    /// A scalar that shows the same.
    fn try_clone(&self, alloc: Global) -> Result<Self, AllocError>
        ensures { IfOk result (λ s. shown s ≡ shown self.now) };

    /// `==` compares what is shown.
    ghost eq_is_same_shown: { (a b : Self) → Self.eq a b ≡ same_shown (shown a) (shown b) };
}

/// The scalar that most servers take.
#[derive(Debug, PartialEq, Eq, Drop)]
pub enum DefaultScalarValue {
    /// An Int (3.5.1).
    Int(i32),
    /// A String (3.5.3).
    String(String),
    /// A Boolean (3.5.4).
    Boolean(bool),
}

impl ScalarValue for DefaultScalarValue {
    ghost use Rattle.juniper_syntax.specs.Scalars.{default_shown, default_eq};

    ghost shown = { default_shown };

    ghost eq_is_same_shown = { default_eq };

    fn from_int(value: i32) -> Self {
        DefaultScalarValue::Int(value)
    }

    fn from_bool(value: bool) -> Self {
        DefaultScalarValue::Boolean(value)
    }

    fn from_text(value: String) -> Result<Self, AllocError> {
        Ok(DefaultScalarValue::String(value))
    }

    #[tactic(auto, unfolding(graphql_spec::specs::Shown::shown_int))]
    fn try_to_int(&self) -> Option<i32> {
        match self {
            DefaultScalarValue::Int(value) => Some(*value),
            DefaultScalarValue::String(_) | DefaultScalarValue::Boolean(_) => None,
        }
    }

    #[tactic(auto, unfolding(graphql_spec::specs::Shown::shown_text))]
    fn try_to_str(&self) -> Option<&str> {
        match self {
            DefaultScalarValue::String(value) => Some(value.as_str()),
            DefaultScalarValue::Int(_) | DefaultScalarValue::Boolean(_) => None,
        }
    }

    #[tactic(auto, unfolding(graphql_spec::specs::Shown::shown_boolean))]
    fn try_to_bool(&self) -> Option<bool> {
        match self {
            DefaultScalarValue::Boolean(value) => Some(*value),
            DefaultScalarValue::Int(_) | DefaultScalarValue::String(_) => None,
        }
    }

    fn try_clone(&self, alloc: Global) -> Result<Self, AllocError> {
        match self {
            DefaultScalarValue::Int(value) => Ok(DefaultScalarValue::Int(*value)),
            DefaultScalarValue::String(value) => Ok(DefaultScalarValue::String(String::from_str(
                alloc,
                value.as_str(),
            )?)),
            DefaultScalarValue::Boolean(value) => Ok(DefaultScalarValue::Boolean(*value)),
        }
    }
}
