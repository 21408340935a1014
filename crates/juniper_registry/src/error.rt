//! Why a type is not registered.

ghost use Rattle.std.specs.Prelude.{◌≡◌};
ghost use Rattle.juniper_registry.specs.declared.error.RegistryError.TheVariants.{Memory};

use std::alloc::{AllocError, AllocFailed};
use thiserror::Error;

/// Why a type is not registered.
#[derive(Debug, Drop, Error)]
pub enum RegistryError {
    /// A type of its name is declared already.
    #[error("A type of this name is registered already")]
    AlreadyRegistered,
    /// Memory was refused.
    #[error("Out of memory")]
    Memory,
}

impl From<AllocError> for RegistryError {
    ghost from_gives = { λ _ made. made ≡ Memory };

    fn from(_refused: AllocError) -> Self {
        RegistryError::Memory
    }
}
