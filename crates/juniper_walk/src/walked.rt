//! What a walk over a node makes (section 6.3 of the Specification).

ghost use Rattle.std.specs.Prelude.{◌≡◌};
ghost use Rattle.juniper_walk.specs.Entered.{stop_within};
ghost use Rattle.juniper_walk.specs.declared.walked.Stop.TheVariants.{Memory};

use juniper_conversions::ExecutionError;
use juniper_syntax::Value;
use std::alloc::{AllocError, AllocFailed};

/// The object of a node, and what fails in it.
#[derive(Drop)]
pub struct Walked<S> {
    pub value: Value<S>,
    pub errors: Vec<ExecutionError<S>>,
}

/// Why a walk was not ended.
#[derive(Clone, Copy, Debug, PartialEq, Eq)]
pub enum Stop {
    /// Memory was refused.
    Memory,
    /// More fields were to be entered than may be.
    Spent,
}

impl Stop {
    /// The same where a budget is given; else memory was refused, since no budget is spent.
    pub fn within(self, fields: Option<usize>) -> Stop
        ensures { result ≡ stop_within fields self }
    {
        match fields {
            Some(_) => self,
            None => Stop::Memory,
        }
    }
}

impl From<AllocError> for Stop {
    ghost from_gives = { λ _ made. made ≡ Memory };

    fn from(_refused: AllocError) -> Stop {
        Stop::Memory
    }
}

impl<T: Drop> From<AllocFailed<T>> for Stop {
    ghost from_gives = { λ _ made. made ≡ Memory };

    fn from(_refused: AllocFailed<T>) -> Stop {
        Stop::Memory
    }
}
