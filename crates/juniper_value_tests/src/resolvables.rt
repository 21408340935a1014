//! What values of Rust answer as a resolver's.

use juniper_conversions::{ID, Nullable};
use juniper_syntax::DefaultScalarValue;
use juniper_values::{IntoResolvable, OfNode, ResolveError, Resolved};
use std::alloc::{AllocError, Global};
use std::test::Fail;

/// What a value answers, as it is printed, or the message of its error.
fn answer<T: IntoResolvable<u8, DefaultScalarValue>>(
    alloc: Global,
    value: T,
) -> Result<String, AllocError> {
    match value.into_resolvable(alloc) {
        Ok(resolved) => format!(in alloc; "{resolved:?}"),
        Err(ResolveError::Field(error)) => {
            let message = error.message();
            format!(in alloc; "error: {message}")
        }
        Err(ResolveError::Memory) => Err(AllocError),
    }
}

#[test]
fn scalars_and_objects_are_answered(rt: HostRuntime) -> Result<(), Fail> {
    let alloc = rt.alloc();
    assert_eq!(rt; answer(alloc, 7)?.as_str(), "Scalar(Int(7))");
    assert_eq!(rt; answer(alloc, true)?.as_str(), "Scalar(Boolean(true))");
    let text = String::from_str(alloc, "a")?;
    assert_eq!(rt; answer(alloc, text)?.as_str(), "Scalar(String(\"a\"))");
    let id = ID::new(String::from_str(alloc, "1000")?);
    assert_eq!(rt; answer(alloc, id)?.as_str(), "Scalar(String(\"1000\"))");
    assert_eq!(rt; answer(alloc, OfNode(5))?.as_str(), "Node(5)");
    assert_eq!(rt; answer(alloc, Resolved::Node(6))?.as_str(), "Node(6)");
    let boxed = Box::new(alloc, 8)?;
    assert_eq!(rt; answer(alloc, boxed)?.as_str(), "Scalar(Int(8))");
    Ok(())
}

#[test]
fn values_that_are_missing_are_null(rt: HostRuntime) -> Result<(), Fail> {
    let alloc = rt.alloc();
    let written = Some(vec![in alloc; 1]?);
    assert_eq!(rt; answer(alloc, written)?.as_str(), "List([Scalar(Int(1))])");
    assert_eq!(rt; answer::<Option<i32>>(alloc, None)?.as_str(), "Null");
    for (given, shown) in [
        (Nullable::ImplicitNull, "Null"),
        (Nullable::ExplicitNull, "Null"),
        (Nullable::Some(2), "Scalar(Int(2))"),
    ] {
        assert_eq!(rt; answer::<Nullable<i32>>(alloc, given)?.as_str(), shown);
    }
    Ok(())
}

#[test]
fn errors_are_of_the_field(rt: HostRuntime) -> Result<(), Fail> {
    let alloc = rt.alloc();
    assert_eq!(rt;
        answer::<Result<i32, &str>>(alloc, Err("x"))?.as_str(),
        "error: x"
    );
    assert_eq!(rt;
        answer::<Result<i32, &str>>(alloc, Ok(3))?.as_str(),
        "Scalar(Int(3))"
    );
    let items = vec![in alloc; Ok(1), Err("first"), Err("last")]?;
    assert_eq!(rt;
        answer::<Vec<Result<i32, &str>>>(alloc, items)?.as_str(),
        "error: first"
    );
    let items = vec![in alloc; Some(1), None, Some(3)]?;
    assert_eq!(rt;
        answer(alloc, items)?.as_str(),
        "List([Scalar(Int(1)), Null, Scalar(Int(3))])"
    );
    Ok(())
}
