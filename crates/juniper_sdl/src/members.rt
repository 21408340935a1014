//! What types declare: fields, values and arguments (sections 3.6, 3.9 and 3.10 of the Specification).

ghost use Rattle.std.specs.Prelude.{◌≡◌, ◌++◌, IfOk, codes, map, option_map, string_bytes};
ghost use Rattle.std.specs.List.{flat_map, join_by};
ghost use Rattle.juniper_meta.specs.MetaView.{view_argument, view_enum_value, view_field};
ghost use Rattle.juniper_sdl.specs.Definitions.{argument_text, arguments_text, field_text, input_field_text, input_text, listed_field, member_text, value_text};

use crate::parts::{default_text, deprecation_text, description_text};
use juniper_meta::meta::Field;
use juniper_meta::{Argument, EnumValue};
use juniper_schema::is_reserved;
use juniper_syntax::ScalarValue;
use std::alloc::{AllocError, Global};

/// Fields, each in its line; those of reserved names are left out.
pub fn fields_text<S: ScalarValue>(alloc: Global, fields: &[Field<S>]) -> Result<String, AllocError>
    ensures { IfOk result (λ text. string_bytes text ≡ flat_map listed_field (map (view_field S.shown) fields.now)) }
{
    let mut text = String::new(alloc);
    for field in fields {
        text.push_str(listed_field(alloc, field)?.as_str())?;
    }
    Ok(text)
}

/// A field, unless its name is reserved.
fn listed_field<S: ScalarValue>(alloc: Global, field: &Field<S>) -> Result<String, AllocError>
    ensures { IfOk result (λ text. string_bytes text ≡ listed_field (view_field S.shown field.now)) }
{
    if is_reserved(field.name.as_str()) {
        Ok(String::new(alloc))
    } else {
        field_text(alloc, field)
    }
}

/// A field (3.6).
fn field_text<S: ScalarValue>(alloc: Global, field: &Field<S>) -> Result<String, AllocError>
    ensures { IfOk result (λ text. string_bytes text ≡ field_text (view_field S.shown field.now)) }
{
    let name = &field.name;
    let arguments = arguments_text(alloc, field.declared_arguments())?;
    let declared = &field.field_type;
    let deprecation = deprecation_text(alloc, &field.deprecation_status)?;
    let text = format!(in alloc; "{name}{arguments}: {declared}{deprecation}")?;
    member_text(alloc, &field.description, text.as_str())
}

/// The arguments of a field (3.6.1).
fn arguments_text<S: ScalarValue>(
    alloc: Global,
    arguments: &[Argument<S>],
) -> Result<String, AllocError>
    ensures { IfOk result (λ text. string_bytes text ≡ arguments_text (map (view_argument S.shown) arguments.now)) }
{
    match arguments {
        [] => Ok(String::new(alloc)),
        [_, ..] => {
            let joined = joined_arguments(alloc, arguments)?;
            format!(in alloc; "({joined})")
        }
    }
}

/// These arguments, with a comma between each two.
#[tactic(auto, using(crate::proofs::Lists::joined))]
fn joined_arguments<S: ScalarValue>(
    alloc: Global,
    arguments: &[Argument<S>],
) -> Result<String, AllocError>
    ensures { IfOk result (λ text. string_bytes text ≡ join_by argument_text (codes ", ") (map (view_argument S.shown) arguments.now)) }
{
    let texts = argument_texts(alloc, arguments)?;
    texts.join(alloc, ", ")
}

/// Each of these arguments.
fn argument_texts<S: ScalarValue>(
    alloc: Global,
    arguments: &[Argument<S>],
) -> Result<Vec<String>, AllocError>
    ensures { IfOk result (λ texts. map (λ t. string_bytes t) texts.items ≡ map (λ a. argument_text (view_argument S.shown a)) arguments.now) }
{
    let mut texts = Vec::with_capacity(alloc, arguments.len())?;
    for argument in arguments {
        texts.push(argument_text(alloc, argument)?)?;
    }
    Ok(texts)
}

/// An argument (3.6.1).
fn argument_text<S: ScalarValue>(
    alloc: Global,
    argument: &Argument<S>,
) -> Result<String, AllocError>
    ensures { IfOk result (λ text. string_bytes text ≡ argument_text (view_argument S.shown argument.now)) }
{
    let mut text = description_text(alloc, described(&argument.description), " ")?;
    text.push_str(input_text(alloc, argument)?.as_str())?;
    Ok(text)
}

/// An argument, or a field of an input object, without its description.
fn input_text<S: ScalarValue>(alloc: Global, input: &Argument<S>) -> Result<String, AllocError>
    ensures { IfOk result (λ text. string_bytes text ≡ input_text (view_argument S.shown input.now)) }
{
    let name = &input.name;
    let declared = &input.arg_type;
    let default = default_text(alloc, &input.default_value)?;
    format!(in alloc; "{name}: {declared}{default}")
}

/// Fields of an input object, each in its line (3.10).
pub fn input_fields_text<S: ScalarValue>(
    alloc: Global,
    fields: &[Argument<S>],
) -> Result<String, AllocError>
    ensures { IfOk result (λ text. string_bytes text ≡ flat_map input_field_text (map (view_argument S.shown) fields.now)) }
{
    let mut text = String::new(alloc);
    for field in fields {
        let input = input_text(alloc, field)?;
        text.push_str(member_text(alloc, &field.description, input.as_str())?.as_str())?;
    }
    Ok(text)
}

/// Values of an enum, each in its line (3.9).
pub fn values_text(alloc: Global, values: &[EnumValue]) -> Result<String, AllocError>
    ensures { IfOk result (λ text. string_bytes text ≡ flat_map value_text (map view_enum_value values.now)) }
{
    let mut text = String::new(alloc);
    for value in values {
        text.push_str(value_text(alloc, value)?.as_str())?;
    }
    Ok(text)
}

/// A value of an enum (3.9).
fn value_text(alloc: Global, value: &EnumValue) -> Result<String, AllocError>
    ensures { IfOk result (λ text. string_bytes text ≡ value_text (view_enum_value value.now)) }
{
    let name = &value.name;
    let deprecation = deprecation_text(alloc, &value.deprecation_status)?;
    let text = format!(in alloc; "{name}{deprecation}")?;
    member_text(alloc, &value.description, text.as_str())
}

/// A member in its line, behind its description.
fn member_text(
    alloc: Global,
    description: &Option<String>,
    text: &str,
) -> Result<String, AllocError>
    ensures { IfOk result (λ made. string_bytes made ≡ member_text (option_map (λ d. string_bytes d) description.now) text.now) }
{
    let described = description_text(alloc, described(description), "\n  ")?;
    format!(in alloc; "  {described}{text}\n")
}

/// A description as it is lent.
fn described(description: &Option<String>) -> Option<&str>
    ensures { option_map (λ d. d.now) result ≡ option_map (λ d. string_bytes d) description.now }
{
    match description {
        Some(text) => Some(text.as_str()),
        None => None,
    }
}
