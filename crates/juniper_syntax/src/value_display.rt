//! How values of answers are written (section 7.2.1 of the Specification).

ghost use Rattle.std.specs.Prelude.{Some};
ghost use Rattle.std.specs.Fmt.{WritesOnOk};
ghost use Rattle.graphql_spec.specs.ValueDisplay.{display_value, display_values, display_entries};
ghost use Rattle.juniper_syntax.specs.ValueView.{view_value, view_values, view_object};

use crate::display::{write_quoted, write_scalar};
use crate::scalar::ScalarValue;
use crate::value::{Object, Value};
use std::fmt;

/// As it is written: `{"name": "Han", "friends": [1, null]}`. It is JSON on one line, with a blank after each comma and
/// each colon (7.2.1).
impl<S: ScalarValue> fmt::Display for Value<S> {
    ghost output = { λ v. Some (display_value (view_value S.shown v)) };

    fn fmt<W: fmt::Write>(&self, f: &mut fmt::Formatter<W>) -> fmt::Result {
        write_value(self, f)
    }
}

/// Writes a value.
#[cycle(write_value)]
fn write_value<S: ScalarValue, W: fmt::Write>(
    value: &Value<S>,
    f: &mut fmt::Formatter<W>,
) -> fmt::Result
    ensures { WritesOnOk W.write_str_gives f.old result (display_value (view_value S.shown value.now)) f.new }
{
    match value {
        Value::Null => f.write_str("null"),
        Value::Scalar(scalar) => write_scalar(scalar, f),
        Value::List(items) => {
            f.write_str("[")?;
            write_values(items.as_slice(), f)?;
            f.write_str("]")
        }
        Value::Object(object) => {
            f.write_str("{")?;
            write_object(object, f)?;
            f.write_str("}")
        }
    }
}

/// Writes the items of a list, with commas between them (7.2.1).
#[cycle(write_value)]
fn write_values<S: ScalarValue, W: fmt::Write>(
    items: &[Value<S>],
    f: &mut fmt::Formatter<W>,
) -> fmt::Result
    ensures { WritesOnOk W.write_str_gives f.old result (display_values (view_values S.shown items.now)) f.new }
{
    let mut separator = "";
    for item in items {
        f.write_str(separator)?;
        write_value(item, f)?;
        separator = ", ";
    }
    Ok(())
}

/// Writes the keys of an object, each between quotes, with their values, and commas between them (7.2.1).
#[cycle(write_value)]
fn write_object<S: ScalarValue, W: fmt::Write>(
    object: &Object<S>,
    f: &mut fmt::Formatter<W>,
) -> fmt::Result
    ensures { WritesOnOk W.write_str_gives f.old result (display_entries (view_object S.shown object.now)) f.new }
{
    let mut separator = "";
    for (key, value) in object.iter() {
        f.write_str(separator)?;
        write_quoted(key.as_str(), f)?;
        f.write_str(": ")?;
        write_value(value, f)?;
        separator = ", ";
    }
    Ok(())
}
