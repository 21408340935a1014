//! Types: how they are wrapped, and how they are written.

use juniper_syntax::Type;
use std::alloc::{AllocError, Global};
use std::convert::AsStr;
use std::test::Fail;

fn is_written<N: AsStr + Drop>(
    alloc: Global,
    given: &Type<N>,
    written: &str,
) -> Result<bool, AllocError> {
    Ok(given.to_string(alloc)?.as_str() == written)
}

fn names_are_written(alloc: Global) -> Result<bool, AllocError> {
    let owned = Type::NonNullNamed(String::from_str(alloc, "Int")?);
    Ok(is_written(alloc, &owned, "Int!")? && is_written(alloc, &Type::Named("Episode"), "Episode")?)
}

/// A list, the same that is not null, and a list of these.
fn lists_are_written(alloc: Global) -> Result<bool, AllocError> {
    let list = Type::NonNullNamed("Episode").wrap_list(alloc, Some(3))?;
    let first = is_written(alloc, &list, "[Episode!]")?;
    let list = list.wrap_non_null();
    let second = is_written(alloc, &list, "[Episode!]!")?;
    let outer = list.wrap_list(alloc, None)?;
    Ok(first && second && is_written(alloc, &outer, "[[Episode!]!]")?)
}

#[test]
fn types_are_written(rt: HostRuntime) -> Result<(), Fail> {
    assert!(rt; names_are_written(rt.alloc())? && lists_are_written(rt.alloc())?);
    Ok(())
}

fn list_of_ints(alloc: Global) -> Result<Type<String>, AllocError> {
    let item = Type::NonNullNamed(String::from_str(alloc, "Int")?);
    Ok(item.wrap_list(alloc, Some(2))?.wrap_non_null())
}

fn has_non_null_items(list: &Type<String>) -> bool {
    match list.list_contents() {
        None => false,
        Some(item) => item.is_non_null(),
    }
}

fn is_wrapped(list: Type<String>) -> bool {
    list.is_non_null()
        && list.innermost_name() == "Int"
        && has_non_null_items(&list)
        && !list.nullable().is_non_null()
}

#[test]
fn a_list_is_wrapped(rt: HostRuntime) -> Result<(), Fail> {
    assert!(rt; is_wrapped(list_of_ints(rt.alloc())?));
    Ok(())
}
