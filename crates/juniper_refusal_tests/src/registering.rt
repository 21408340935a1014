//! Types that are registered while memory is wanting, and then again while it is not.

use crate::turns::{Ended, Room, Task, Turn, tried};
use juniper::words::{DeclaredField, DeclaredType, Reference};
use juniper::{DefaultScalarValue, MetaType, Registry, RegistryError};
use juniper_demo_server::CELL;
use std::alloc::Global;
use std::test::Fail;

/// A registry, in which `Cell` is declared.
type Types = Registry<DefaultScalarValue>;

/// A field of a type without arguments.
const FIELD: DeclaredField = DeclaredField("field", &[], Reference::NonNull("Cell"));

/// A type of many fields. Two of them may have one name here: a registry takes what is declared.
static WIDE: DeclaredType = DeclaredType::Object(
    "Wide",
    &[],
    &[
        FIELD, FIELD, FIELD, FIELD, FIELD, FIELD, FIELD, FIELD, FIELD, FIELD, FIELD, FIELD,
    ],
);

/// `Wide`, which is registered beside `Cell`. In each turn a spare registry is made first, and dropped behind the call: it takes the blocks
/// that the turn before has left at hand, of just the sizes that the call asks for.
#[derive(Drop)]
struct Registering;

impl Task for Registering {
    fn turn(&mut self, alloc: Global, room: Room) -> Turn {
        let mut spare: Types = Registry::empty(alloc);
        let mut registry: Types = Registry::empty(alloc);
        if !is_registered(&mut spare) || registry.register::<DeclaredType>(&CELL).is_err() {
            return Turn::Wrong;
        }
        let held_back = room.hold_back(alloc);
        let outcome = registry.register::<DeclaredType>(&WIDE);
        drop(held_back);
        drop(spare);
        match outcome {
            Ok(()) if is_declared(&registry, "Wide") => Turn::Answered,
            Err(RegistryError::Memory) if is_as_before(&registry) && is_registered(&mut registry) =>
                Turn::Refused,
            _ => Turn::Wrong,
        }
    }
}

/// Whether `Cell` is declared, and all else are placeholders.
fn is_as_before(registry: &Types) -> bool {
    for (name, meta) in registry.types() {
        let is_placeholder = matches!(meta, MetaType::Placeholder(_));
        if is_placeholder == (name.as_str() == "Cell") {
            return false;
        }
    }
    is_declared(registry, "Cell")
}

/// Whether `Wide` can be registered now.
fn is_registered(registry: &mut Types) -> bool {
    registry.register::<DeclaredType>(&WIDE).is_ok() && is_declared(registry, "Wide")
}

/// Whether an object type is declared at this name.
fn is_declared(registry: &Types, name: &str) -> bool {
    matches!(registry.types().get(name), Some(MetaType::Object(_)))
}

#[test]
fn a_type_is_registered_when_there_is_memory(rt: HostRuntime) -> Result<(), Fail> {
    assert_eq!(rt; tried(rt.alloc(), &mut Registering)?, Ended::Answered);
    Ok(())
}
