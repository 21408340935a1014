//! Values of variables, written as the arguments of a field.

use crate::entries::placed;
use crate::reader::Scalar;
use juniper_syntax::{Definition, Selection, Variables, WrittenArgument};
use std::alloc::Global;
use std::collections::HashMap;

/// The arguments of the first field of an operation, as the values of variables, which stay to the end of the program; `None` where it is no
/// operation, its first selection is no field, or memory is refused.
pub fn given_values(
    alloc: Global,
    definition: &'static Definition<'static, Scalar>,
) -> Option<&'static Variables<Scalar>> {
    let values = placed(alloc, HashMap::new(alloc))?;
    let Definition::Operation(operation) = definition else {
        return None;
    };
    let Selection::Field(field) = operation.item.selection_set.first()? else {
        return None;
    };
    if let Some(arguments) = &field.item.arguments {
        for given in &arguments.item.items {
            put_value(alloc, values, given)?;
        }
    }
    Some(values)
}

/// Puts a value at its name; `None` where memory is refused.
fn put_value(
    alloc: Global,
    values: &mut Variables<Scalar>,
    given: &WrittenArgument<'static, Scalar>,
) -> Option<()> {
    let name = String::from_str(alloc, given.0.item).ok()?;
    insert(values, name, given.1.item.try_clone(alloc).ok()?)
}

/// Puts a value at a key; `None` where memory is refused.
fn insert<T: Drop>(values: &mut HashMap<String, T>, key: String, value: T) -> Option<()> {
    if values.insert(key, value).is_ok() {
        return Some(());
    }
    None
}
