//! Requests within a budget of fields (this project's own): a request of few bytes may have a large answer.

ghost use Rattle.std.specs.Prelude.{◌≡◌, ◌≢◌, Some};
ghost use Rattle.juniper.specs.Budgets.{error_of, of_stop};
ghost use Rattle.juniper.specs.declared.budget.Within.TheVariants as within;
ghost use Rattle.juniper.specs.declared.error.GraphQLError.TheVariants as gives;

use crate::error::GraphQLError;
use juniper_walk::Stop;
use std::alloc::AllocError;
use std::error::Error;
use std::fmt;

/// Why a request within a budget of fields has no answer.
#[derive(Debug, Eq, PartialEq, Drop)]
pub enum Within {
    /// It is refused, or memory was refused. Shown as the error.
    Refused(GraphQLError),
    /// The objects that it enters have more fields than the budget. Shown as `The answer has too many fields`.
    Spent,
}

impl fmt::Display for Within {
    ghost use Rattle.juniper.specs.Budgets.{within_text};

    ghost output = { λ w. Some (within_text w) };

    fn fmt<W: fmt::Write>(&self, f: &mut fmt::Formatter<W>) -> fmt::Result {
        match self {
            Within::Refused(error) => write!(f, "{error}"),
            Within::Spent => write!(f, "The answer has too many fields"),
        }
    }
}

impl Error for Within {}

impl Within {
    /// The error of a request that has no budget, and so is refused.
    pub fn into_error(self) -> GraphQLError
        requires { self ≢ within.Spent }
        ensures { result ≡ error_of self }
    {
        match self {
            Within::Refused(error) => error,
            Within::Spent => GraphQLError::OutOfMemory,
        }
    }
}

impl From<Stop> for Within {
    ghost from_gives = { λ stop made. made ≡ of_stop stop };

    fn from(stop: Stop) -> Self {
        match stop {
            Stop::Memory => Within::Refused(GraphQLError::OutOfMemory),
            Stop::Spent => Within::Spent,
        }
    }
}

impl From<AllocError> for Within {
    ghost from_gives = { λ _ made. made ≡ within.Refused gives.OutOfMemory };

    fn from(_refused: AllocError) -> Self {
        Within::Refused(GraphQLError::OutOfMemory)
    }
}
