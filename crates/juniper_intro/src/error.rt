//! Why a root is not made.

ghost use Rattle.std.specs.Prelude.{◌≡◌};
ghost use Rattle.juniper_intro.specs.declared.error.RootError.TheVariants.{Memory};

use std::alloc::{AllocError, AllocFailed};
use thiserror::Error;

/// Why a root is not made.
#[derive(Debug, Drop, Error)]
pub enum RootError {
    /// The schema cannot be executed.
    #[error("The schema cannot be executed")]
    NotExecutable,
    /// Memory was refused.
    #[error("Out of memory")]
    Memory,
}

impl From<AllocError> for RootError {
    ghost from_gives = { λ _ made. made ≡ Memory };

    fn from(_refused: AllocError) -> Self {
        RootError::Memory
    }
}
