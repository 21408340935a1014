//! Values whose scalars are of another type (section 3.5 of the Specification).

ghost use Rattle.std.specs.Prelude.{◌≡◌, IfOk};
ghost use Rattle.juniper_syntax.specs.ValueView.{view_value, view_object, view_values};

use crate::scalar::ScalarValue;
use crate::value::{Object, Value};
use std::alloc::{AllocError, Global};

impl<S: ScalarValue> Value<S> {
    /// The value in which each scalar is the `T` that shows the same (3.5); an error where memory is refused.
    pub fn map_scalar_value<T: ScalarValue>(&self, alloc: Global) -> Result<Value<T>, AllocError>
        ensures { IfOk result (λ made. view_value T.shown made ≡ view_value S.shown self.now) }
    {
        map_value(alloc, self)
    }
}

/// The value that shows the same, in scalars of another type.
#[cycle(map_scalars)]
fn map_value<S: ScalarValue, T: ScalarValue>(
    alloc: Global,
    value: &Value<S>,
) -> Result<Value<T>, AllocError>
    ensures { IfOk result (λ made. view_value T.shown made ≡ view_value S.shown value.now) }
{
    match value {
        Value::Null => Ok(Value::Null),
        Value::Scalar(scalar) => Ok(Value::Scalar(map_scalar(alloc, scalar)?)),
        Value::List(items) => Ok(Value::List(map_values(alloc, items.as_slice())?)),
        Value::Object(object) => Ok(Value::Object(map_object(alloc, object)?)),
    }
}

#[cycle(map_scalars)]
fn map_values<S: ScalarValue, T: ScalarValue>(
    alloc: Global,
    items: &[Value<S>],
) -> Result<Vec<Value<T>>, AllocError>
    ensures { IfOk result (λ made. view_values T.shown made.items ≡ view_values S.shown items.now) }
{
    let mut made = Vec::with_capacity(alloc, items.len())?;
    for item in items {
        let copy = map_value(alloc, item)?;
        made.push(copy)?;
    }
    Ok(made)
}

#[cycle(map_scalars)]
fn map_object<S: ScalarValue, T: ScalarValue>(
    alloc: Global,
    object: &Object<S>,
) -> Result<Object<T>, AllocError>
    ensures { IfOk result (λ made. view_object T.shown made ≡ view_object S.shown object.now) }
{
    let values = map_values(alloc, object.fields.values())?;
    let fields = object.fields.with_values(values)?;
    Ok(Object { fields })
}

/// The scalar of another type that shows the same.
fn map_scalar<S: ScalarValue, T: ScalarValue>(alloc: Global, scalar: &S) -> Result<T, AllocError>
    ensures { IfOk result (λ made. T.shown made ≡ S.shown scalar.now) }
{
    if let Some(number) = scalar.try_to_int() {
        return Ok(T::from_int(number));
    }
    if let Some(truth) = scalar.try_to_bool() {
        return Ok(T::from_bool(truth));
    }
    match scalar.try_to_str() {
        Some(text) => T::from_text(String::from_str(alloc, text)?),
        None => unreachable!(),
    }
}
