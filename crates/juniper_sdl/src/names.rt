//! Names and constants (sections 2.1.9 and 2.9 of the Specification).

ghost use Rattle.std.specs.Prelude.{◌≡◌, map, string_bytes};
ghost use Rattle.std.specs.List.{list_all};
ghost use Rattle.graphql_spec.specs.Inputs as inputs;
ghost use Rattle.graphql_spec.specs.Tokens as tokens;
ghost use Rattle.graphql_spec.specs.WellFormed.{is_enum_name};
ghost use Rattle.juniper_meta.specs.MetaView.{view_names};
ghost use Rattle.juniper_syntax.specs.InputView.{view_fields, view_input, view_items};
ghost use Rattle.juniper_sdl.specs.Faults.{are_constants, have_constants, is_constant};

use juniper_syntax::{InputField, InputValue, ScalarValue, Span, Spanning};

/// Whether the text is a Name (2.1.9).
#[tactic(auto, unfolding(graphql_spec::specs::Tokens::is_name))]
pub fn is_name(text: &str) -> bool
    ensures { result ≡ tokens.is_name text.now }
{
    match text.as_bytes() {
        [] => false,
        [first, others @ ..] => starts_name(*first) && continue_name(others),
    }
}

/// Whether each byte is `_`, a letter or a digit.
fn continue_name(bytes: &[u8]) -> bool
    ensures { result ≡ list_all tokens.continues_name bytes.now }
{
    bytes.iter().all(|byte| continues_name(*byte))
}

/// Whether the byte is `_` or a letter (NameStart).
#[tactic(auto, unfolding(graphql_spec::specs::Tokens::starts_name))]
fn starts_name(byte: u8) -> bool
    ensures { result ≡ tokens.starts_name byte }
{
    byte == b'_' || byte.is_ascii_alphabetic()
}

/// Whether the byte is `_`, a letter or a digit (NameContinue).
#[tactic(auto, unfolding(graphql_spec::specs::Tokens::continues_name))]
fn continues_name(byte: u8) -> bool
    ensures { result ≡ tokens.continues_name byte }
{
    starts_name(byte) || byte.is_ascii_digit()
}

/// Whether each of these is a Name.
pub fn are_names(names: &[String]) -> bool
    ensures { result ≡ list_all tokens.is_name (view_names names.now) }
{
    for name in names {
        if !is_name(name.as_str()) {
            return false;
        }
    }
    true
}

/// Whether the name is that of an enum's value: a Name, and none of `true`, `false` and `null` (2.9.6).
#[tactic(auto, unfolding(graphql_spec::specs::WellFormed::is_enum_name))]
pub fn is_enum_name(name: &str) -> bool
    ensures { result ≡ is_enum_name name.now }
{
    is_name(name) && !(name == "true" || name == "false" || name == "null")
}

/// Whether the value is a constant that can be written: no variable stands in it, and its names are such (2.9).
#[cycle(is_constant)]
#[tactic(auto, unfolding(crate::specs::Faults::is_constant))]
pub fn is_constant<S: ScalarValue>(value: &InputValue<S>) -> bool
    ensures { result ≡ is_constant (view_input S.shown value.now) }
{
    match value {
        InputValue::Null => true,
        InputValue::Scalar(scalar) => can_be_written(scalar),
        InputValue::Enum(name) => is_enum_name(name.as_str()),
        InputValue::Variable(_) => false,
        InputValue::List(items) => are_constants(items.as_slice()),
        InputValue::Object(fields) => have_constants(fields.as_slice()),
    }
}

/// The same of each item.
#[cycle(is_constant)]
fn are_constants<S: ScalarValue>(items: &[Spanning<InputValue<S>, Span>]) -> bool
    ensures { result ≡ are_constants (view_items S.shown items.now) }
{
    for item in items {
        if !is_constant(&item.item) {
            return false;
        }
    }
    true
}

/// The same of each field, whose name is a Name.
#[cycle(is_constant)]
fn have_constants<S: ScalarValue>(fields: &[InputField<S>]) -> bool
    ensures { result ≡ have_constants (view_fields S.shown fields.now) }
{
    for field in fields {
        if !is_name(field.0.item.as_str()) {
            return false;
        }
        if !is_constant(&field.1.item) {
            return false;
        }
    }
    true
}

/// Whether a scalar can be written, which each can (2.9.1 to 2.9.4).
fn can_be_written<S: ScalarValue>(scalar: &S) -> bool
    ensures { result ≡ is_constant (inputs.scalar (S.shown scalar.now)) }
{
    match scalar.try_to_int() {
        Some(number) => fits(number),
        None => true,
    }
}

/// Whether a number is of 32 bits, which each of these is (3.5.1).
fn fits(_number: i32) -> bool
    ensures { result ≡ tokens.fits_int _number }
{
    true
}
