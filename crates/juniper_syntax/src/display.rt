//! How input values are written (section 2.9 of the Specification).

ghost use Rattle.std.specs.Prelude.{◌≡◌, Some, IsTrue};
ghost use Rattle.std.specs.Fmt.{WritesOnOk};
ghost use Rattle.std.specs.List.{flat_map};
ghost use Rattle.graphql_spec.specs.Display.{display, display_items, display_fields, shown_text_of, quoted, written_byte};
ghost use Rattle.juniper_syntax.specs.InputView.{view_input, view_items, view_fields};
ghost use Rattle.juniper_syntax.specs.Escapes.{is_escaped};

use crate::input::{InputField, InputValue, value_of};
use crate::scalar::ScalarValue;
use crate::{Span, Spanning};
use std::fmt;

/// As it is written: `{name: "Han", friends: [$first, null], episode: JEDI}`. A text is written between quotes, with
/// escapes where it needs them (2.9.4).
impl<S: ScalarValue> fmt::Display for InputValue<S> {
    ghost output = { λ v. Some (display (view_input S.shown v)) };

    fn fmt<W: fmt::Write>(&self, f: &mut fmt::Formatter<W>) -> fmt::Result {
        write_input(self, f)
    }
}

/// Writes a value.
#[cycle(write_input)]
fn write_input<S: ScalarValue, W: fmt::Write>(
    value: &InputValue<S>,
    f: &mut fmt::Formatter<W>,
) -> fmt::Result
    ensures { WritesOnOk W.write_str_gives f.old result (display (view_input S.shown value.now)) f.new }
{
    match value {
        InputValue::Null => f.write_str("null"),
        InputValue::Scalar(scalar) => write_scalar(scalar, f),
        InputValue::Enum(name) => f.write_str(name.as_str()),
        InputValue::Variable(name) => {
            f.write_str("$")?;
            f.write_str(name.as_str())
        }
        InputValue::List(items) => {
            f.write_str("[")?;
            write_items(items.as_slice(), f)?;
            f.write_str("]")
        }
        InputValue::Object(fields) => {
            f.write_str("{")?;
            write_fields(fields.as_slice(), f)?;
            f.write_str("}")
        }
    }
}

/// Writes the items of a list, with commas between them (2.9.7).
#[cycle(write_input)]
fn write_items<S: ScalarValue, W: fmt::Write>(
    items: &[Spanning<InputValue<S>, Span>],
    f: &mut fmt::Formatter<W>,
) -> fmt::Result
    ensures { WritesOnOk W.write_str_gives f.old result (display_items (view_items S.shown items.now)) f.new }
{
    let mut separator = "";
    for item in items {
        f.write_str(separator)?;
        write_input(&item.item, f)?;
        separator = ", ";
    }
    Ok(())
}

/// Writes the fields of an object, with commas between them (2.9.8).
#[cycle(write_input)]
fn write_fields<S: ScalarValue, W: fmt::Write>(
    fields: &[InputField<S>],
    f: &mut fmt::Formatter<W>,
) -> fmt::Result
    ensures { WritesOnOk W.write_str_gives f.old result (display_fields (view_fields S.shown fields.now)) f.new }
{
    let mut separator = "";
    for field in fields {
        f.write_str(separator)?;
        f.write_str(field.0.item.as_str())?;
        f.write_str(": ")?;
        write_input(value_of(field), f)?;
        separator = ", ";
    }
    Ok(())
}

/// Writes a scalar: an Int in decimal, `true` or `false`, or a text between quotes (2.9.1 to 2.9.4).
pub(crate) fn write_scalar<S: ScalarValue, W: fmt::Write>(
    scalar: &S,
    f: &mut fmt::Formatter<W>,
) -> fmt::Result
    ensures { WritesOnOk W.write_str_gives f.old result (shown_text_of (S.shown scalar.now)) f.new }
{
    if let Some(number) = scalar.try_to_int() {
        return write!(f, "{number}");
    }
    if let Some(truth) = scalar.try_to_bool() {
        return write!(f, "{truth}");
    }
    match scalar.try_to_str() {
        Some(text) => write_quoted(text, f),
        None => unreachable!(),
    }
}

/// Writes a text between quotes (2.9.4).
#[tactic(auto, unfolding(graphql_spec::specs::Display::quoted))]
pub(crate) fn write_quoted<W: fmt::Write>(text: &str, f: &mut fmt::Formatter<W>) -> fmt::Result
    ensures { WritesOnOk W.write_str_gives f.old result (quoted text.now) f.new }
{
    f.write_str("\"")?;
    write_escaped(text, f)?;
    f.write_str("\"")
}

/// Writes a text with its escapes, and what stands between two of them as it is (2.9.4).
fn write_escaped<W: fmt::Write>(text: &str, f: &mut fmt::Formatter<W>) -> fmt::Result
    ensures { WritesOnOk W.write_str_gives f.old result (flat_map written_byte text.now) f.new }
{
    let mut start = 0;
    for (at, byte) in text.as_bytes().iter().enumerate() {
        if is_escaped(*byte) {
            f.write_str(&text[start..at])?;
            write_escape(*byte, f)?;
            start = at + 1;
        }
    }
    f.write_str(&text[start..])
}

/// Whether a byte of a text does not stand for itself: a quote, a backslash or a control character.
fn is_escaped(byte: u8) -> bool
    ensures { result ≡ is_escaped byte }
{
    byte == b'"' || byte == b'\\' || byte < 0x20
}

/// Writes the escape of a byte that does not stand for itself (2.9.4).
#[tactic(auto, unfolding(graphql_spec::specs::Display::written_byte))]
fn write_escape<W: fmt::Write>(byte: u8, f: &mut fmt::Formatter<W>) -> fmt::Result
    ensures { IsTrue (is_escaped byte) → WritesOnOk W.write_str_gives f.old result (written_byte byte) f.new }
{
    match byte {
        b'"' => f.write_str("\\\""),
        b'\\' => f.write_str("\\\\"),
        0x08 => f.write_str("\\b"),
        0x0C => f.write_str("\\f"),
        b'\n' => f.write_str("\\n"),
        b'\r' => f.write_str("\\r"),
        b'\t' => f.write_str("\\t"),
        _ => write!(f, "\\u00{byte:02X}"),
    }
}
