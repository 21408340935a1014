//! Scalars and values.

use juniper_syntax::{DefaultScalarValue, Object, ScalarValue, SharedKeys, Value};
use std::alloc::{AllocError, Global};
use std::test::Fail;

/// Whether the copy of a scalar shows this Int, text and Boolean.
fn copy_shows(
    alloc: Global,
    scalar: DefaultScalarValue,
    wanted: (Option<i32>, Option<&str>, Option<bool>),
) -> Result<bool, AllocError> {
    let copy = scalar.try_clone(alloc)?;
    Ok((copy.try_to_int(), copy.try_to_str(), copy.try_to_bool()) == wanted)
}

fn text_is_copied(alloc: Global) -> Result<bool, AllocError> {
    let text = String::from_str(alloc, "q1")?;
    let scalar = DefaultScalarValue::from_text(text)?;
    copy_shows(alloc, scalar, (None, Some("q1"), None))
}

fn scalars_are_copied(alloc: Global) -> Result<bool, AllocError> {
    let (int, truth) = (
        DefaultScalarValue::from_int(-7),
        DefaultScalarValue::from_bool(true),
    );
    Ok(
        copy_shows(alloc, int, (Some(-7), None, None))?
            && copy_shows(alloc, truth, (None, None, Some(true)))?
            && text_is_copied(alloc)?,
    )
}

#[test]
fn a_copy_shows_the_same(rt: HostRuntime) -> Result<(), Fail> {
    assert!(rt; scalars_are_copied(rt.alloc())?);
    Ok(())
}

fn int_of(value: &Value<DefaultScalarValue>) -> Option<i32> {
    match value {
        Value::Scalar(scalar) => scalar.try_to_int(),
        _ => None,
    }
}

fn put(
    alloc: Global,
    object: &mut Object<DefaultScalarValue>,
    key: &str,
    int: i32,
) -> Result<(), AllocError> {
    let value = Value::Scalar(DefaultScalarValue::from_int(int));
    drop(object.add_field(String::from_str(alloc, key)?, value)?);
    Ok(())
}

fn object_of_two(alloc: Global) -> Result<Object<DefaultScalarValue>, AllocError> {
    let mut object = Object::with_capacity(alloc, 0)?;
    put(alloc, &mut object, "a", 1)?;
    put(alloc, &mut object, "b", 2)?;
    put(alloc, &mut object, "a", 3)?;
    Ok(object)
}

/// Whether an object has just these two entries, in order.
fn has_entries(
    object: &Object<DefaultScalarValue>,
    first: (&str, i32),
    second: (&str, i32),
) -> bool {
    let mut entries = object.iter();
    is_entry(entries.next(), first)
        && is_entry(entries.next(), second)
        && entries.next().is_none()
        && object.field_count() == 2
}

fn is_entry(entry: Option<(&String, &Value<DefaultScalarValue>)>, wanted: (&str, i32)) -> bool {
    match entry {
        Some((key, value)) => key.as_str() == wanted.0 && int_of(value) == Some(wanted.1),
        None => false,
    }
}

fn keeps_places(object: Object<DefaultScalarValue>) -> bool {
    has_entries(&object, ("a", 3), ("b", 2))
        && object.contains_field("b")
        && object.get_field_value("c").is_none()
}

/// Whether an entry has the key, and the Int or null.
fn hands(entry: Option<(String, Value<DefaultScalarValue>)>, key: &str, int: Option<i32>) -> bool {
    match entry {
        Some((name, value)) => name.as_str() == key && int_of(&value) == int,
        None => false,
    }
}

/// Whether taking a value leaves null at its key, and the entries are handed over in order.
fn leaves_null(object: Object<DefaultScalarValue>) -> Result<bool, AllocError> {
    let mut object = object;
    let taken = object.take_field("a");
    let absent = object.take_field("c");
    let mut entries = object.into_fields()?;
    let first = hands(entries.next(), "a", None);
    let second = hands(entries.next(), "b", Some(2));
    let ended = entries.next().is_none();
    Ok(is_int(taken, 3) && absent.is_none() && first && second && ended)
}

fn is_int(value: Option<Value<DefaultScalarValue>>, int: i32) -> bool {
    match value {
        Some(value) => int_of(&value) == Some(int),
        None => false,
    }
}

#[test]
fn what_is_taken_leaves_null(rt: HostRuntime) -> Result<(), Fail> {
    assert!(rt; leaves_null(object_of_two(rt.alloc())?)?);
    Ok(())
}

/// The entries of `object_of_two` in the other order.
fn turned(alloc: Global) -> Result<Object<DefaultScalarValue>, AllocError> {
    let mut object = Object::with_capacity(alloc, 2)?;
    put(alloc, &mut object, "b", 2)?;
    put(alloc, &mut object, "a", 3)?;
    Ok(object)
}

#[test]
fn the_order_of_keys_counts(rt: HostRuntime) -> Result<(), Fail> {
    let alloc = rt.alloc();
    assert!(rt; object_of_two(alloc)? == object_of_two(alloc)?);
    assert!(rt; object_of_two(alloc)? != turned(alloc)?);
    Ok(())
}

/// Whether each of so many keys is found again, and no other.
fn finds_each(alloc: Global, count: i32) -> Result<bool, AllocError> {
    let mut object = Object::with_capacity(alloc, 0)?;
    for n in 0..count {
        let key = format!(in alloc; "key{n}")?;
        put(alloc, &mut object, key.as_str(), n)?;
    }
    for n in 0..count {
        let key = format!(in alloc; "key{n}")?;
        match object.get_field_value(key.as_str()) {
            Some(value) => {
                if int_of(value) != Some(n) {
                    return Ok(false);
                }
            }
            None => return Ok(false),
        }
    }
    Ok(object.get_field_value("key").is_none())
}

#[test]
fn each_of_many_keys_is_found(rt: HostRuntime) -> Result<(), Fail> {
    assert!(rt; finds_each(rt.alloc(), 1000)?);
    Ok(())
}

#[test]
fn a_key_keeps_its_place(rt: HostRuntime) -> Result<(), Fail> {
    assert!(rt; keeps_places(object_of_two(rt.alloc())?));
    Ok(())
}

fn list_of_one(alloc: Global) -> Result<Value<DefaultScalarValue>, AllocError> {
    let mut items = Vec::new(alloc);
    items.push(Value::Scalar(DefaultScalarValue::from_int(1)))?;
    items.push(Value::Null)?;
    Ok(Value::List(items))
}

fn value_of(alloc: Global) -> Result<Value<DefaultScalarValue>, AllocError> {
    let mut object = Object::with_capacity(alloc, 1)?;
    drop(object.add_field(String::from_str(alloc, "a")?, list_of_one(alloc)?)?);
    Ok(Value::Object(object))
}

fn is_copied(alloc: Global, value: Value<DefaultScalarValue>) -> Result<bool, AllocError> {
    Ok(value.try_clone(alloc)? == value)
}

#[test]
fn a_copy_of_a_value_shows_the_same(rt: HostRuntime) -> Result<(), Fail> {
    let alloc = rt.alloc();
    assert!(rt; is_copied(alloc, value_of(alloc)?)?);
    Ok(())
}

/// The keys that are hinted at: one comes twice, and more come than are put.
static HINTED: [&str; 5] = ["a", "b", "a", "c", "d"];

/// What is put: in the order of the hint, in another order, and at a key that is there.
static IN_ORDER: [(&str, i32); 2] = [("a", 1), ("b", 2)];

static OTHERWISE: [(&str, i32); 3] = [("b", 2), ("a", 1), ("b", 4)];

static TWICE: [(&str, i32); 3] = [("a", 1), ("b", 2), ("a", 3)];

fn hinted(
    alloc: Global,
    shared: &SharedKeys,
    entries: &[(&str, i32)],
) -> Result<Object<DefaultScalarValue>, AllocError> {
    let mut object = Object::hinted(alloc, shared)?;
    for entry in entries {
        let value = Value::Scalar(DefaultScalarValue::from_int(entry.1));
        object.put_field(alloc, entry.0, value)?;
    }
    Ok(object)
}

/// Whether a hint changes nothing of what an object is.
fn hints_mean_nothing(alloc: Global, shared: &SharedKeys) -> Result<bool, AllocError> {
    let first = hinted(alloc, shared, &IN_ORDER)?;
    let other = hinted(alloc, shared, &OTHERWISE)?;
    let third = hinted(alloc, shared, &TWICE)?;
    let equal = third == object_of_two(alloc)? && first != third;
    Ok(
        has_entries(&first, ("a", 1), ("b", 2))
            && has_entries(&other, ("b", 4), ("a", 1))
            && !first.contains_field("c")
            && equal
            && leaves_null(third)?,
    )
}

/// Whether a key that one object takes on is none of another's that shares its keys.
fn shared_keys_stay(alloc: Global, shared: &SharedKeys) -> Result<bool, AllocError> {
    let mut first = hinted(alloc, shared, &IN_ORDER)?;
    let other = hinted(alloc, shared, &IN_ORDER)?;
    let copy = Value::Object(hinted(alloc, shared, &TWICE)?);
    put(alloc, &mut first, "d", 4)?;
    Ok(
        first.field_count() == 3
            && first.contains_field("d")
            && !first.contains_field("c")
            && has_entries(&other, ("a", 1), ("b", 2))
            && is_copied(alloc, copy)?,
    )
}

#[test]
fn objects_share_keys(rt: HostRuntime) -> Result<(), Fail> {
    let alloc = rt.alloc();
    let shared = SharedKeys::new(alloc, &HINTED)?;
    assert!(rt; hints_mean_nothing(alloc, &shared)?);
    assert!(rt; shared_keys_stay(alloc, &shared)?);
    Ok(())
}
