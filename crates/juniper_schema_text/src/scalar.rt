//! A scalar type of one's own.

use juniper_syntax::ScalarValue;
use std::alloc::{AllocError, Global};

/// An Int, a text or a boolean.
#[derive(Debug, PartialEq, Drop)]
pub enum OtherScalar {
    /// A boolean.
    Flag(bool),
    /// An Int.
    Number(i32),
    /// A text.
    Text(String),
}

impl ScalarValue for OtherScalar {
    ghost use Rattle.juniper_schema_text.specs.OtherScalars.{other_shown, other_eq};

    ghost shown = { other_shown };

    ghost eq_is_same_shown = { other_eq };

    fn from_int(value: i32) -> Self {
        OtherScalar::Number(value)
    }

    fn from_bool(value: bool) -> Self {
        OtherScalar::Flag(value)
    }

    fn from_text(value: String) -> Result<Self, AllocError> {
        Ok(OtherScalar::Text(value))
    }

    #[tactic(auto, unfolding(graphql_spec::specs::Shown::shown_int))]
    fn try_to_int(&self) -> Option<i32> {
        match self {
            OtherScalar::Flag(_) => None,
            OtherScalar::Number(value) => Some(*value),
            OtherScalar::Text(_) => None,
        }
    }

    #[tactic(auto, unfolding(graphql_spec::specs::Shown::shown_text))]
    fn try_to_str(&self) -> Option<&str> {
        match self {
            OtherScalar::Flag(_) => None,
            OtherScalar::Number(_) => None,
            OtherScalar::Text(value) => Some(value.as_str()),
        }
    }

    #[tactic(auto, unfolding(graphql_spec::specs::Shown::shown_boolean))]
    fn try_to_bool(&self) -> Option<bool> {
        match self {
            OtherScalar::Flag(value) => Some(*value),
            OtherScalar::Number(_) => None,
            OtherScalar::Text(_) => None,
        }
    }

    fn try_clone(&self, alloc: Global) -> Result<Self, AllocError> {
        match self {
            OtherScalar::Flag(value) => Ok(OtherScalar::Flag(*value)),
            OtherScalar::Number(value) => Ok(OtherScalar::Number(*value)),
            OtherScalar::Text(value) => Ok(OtherScalar::Text(String::from_str(
                alloc,
                value.as_str(),
            )?)),
        }
    }
}
