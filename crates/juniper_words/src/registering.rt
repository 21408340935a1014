//! Registries of types that are told by their data (section 3 of the Specification).

ghost use Rattle.std.specs.Prelude.{map};
ghost use Rattle.juniper_words.specs.Data.{Declares, RegistersAll, declared};
ghost use Rattle.juniper_registry.specs.RegistryView.{view_registry};

use crate::data::DeclaredType;
use juniper_registry::{Registry, RegistryError};
use juniper_syntax::ScalarValue;
use std::alloc::Global;

/// The registry of these types, in any order.
///
/// Errors: `AlreadyRegistered` exactly where two of them have one name; `Memory` where memory is refused.
pub fn registry_of<S: ScalarValue>(
    alloc: Global,
    types: &[DeclaredType],
) -> Result<Registry<S>, RegistryError>
    ensures { Declares (view_registry S.shown) (map declared types.now) result }
{
    let mut registry = Registry::empty(alloc);
    match register_each(&mut registry, types) {
        Ok(()) => Ok(registry),
        Err(error) => Err(error),
    }
}

/// Registers these types beside those that the registry has, one after the other, up to the first that is refused.
///
/// Errors: `AlreadyRegistered` where the name of one is taken when its turn comes; `Memory` where memory is refused. What the registry
/// has after an error is not said.
pub fn register_each<S: ScalarValue>(
    registry: &mut Registry<S>,
    types: &[DeclaredType],
) -> Result<(), RegistryError>
    ensures { RegistersAll result (map declared types.now) (view_registry S.shown registry.old) (view_registry S.shown registry.new) }
{
    let Some((first, rest)) = types.split_first() else {
        return Ok(());
    };
    match registry.register::<DeclaredType>(first) {
        Ok(()) => register_each(registry, rest),
        Err(error) => Err(error),
    }
}
