//! What declarations tell, in one line.

use crate::pieces::put_if;
use juniper_meta::meta::{Argument, Field};
use juniper_meta::{DeprecationStatus, DirectiveType, EnumValue, MetaType};
use juniper_schema::TypeType;
use juniper_schema_text::Scalar;
use std::alloc::AllocError;

/// Writes the name of a declaration or `-`, behind `/` the description and behind `@` the URL, then what it is, then what it lists; `none`
/// where there is none.
pub fn put_declaration(
    meta: Option<&MetaType<Scalar>>,
    text: &mut String,
) -> Result<(), AllocError> {
    let Some(meta) = meta else {
        return text.push_str("none");
    };
    text.push_str(meta.name().unwrap_or("-"))?;
    put_some("/", meta.description(), text)?;
    put_some("@", meta.specified_by_url(), text)?;
    put_tests(meta, text)?;
    put_lists(meta, text)
}

/// Writes what a declaration is, and the kinds that it accepts.
fn put_tests(meta: &MetaType<Scalar>, text: &mut String) -> Result<(), AllocError> {
    put_if(meta.is_object(), " object", text)?;
    put_if(meta.is_interface(), " interface", text)?;
    put_if(meta.is_composite(), " composite", text)?;
    put_if(meta.is_leaf(), " leaf", text)?;
    put_if(meta.is_input(), " input", text)?;
    put_if(meta.is_placeholder(), " placeholder", text)?;
    if let Some(kinds) = meta.kinds() {
        put_if(kinds.int, " int", text)?;
        put_if(kinds.text, " text", text)?;
        put_if(kinds.boolean, " boolean", text)?;
    }
    Ok(())
}

/// Writes what a declaration lists: fields, interfaces, members, fields of an input object, values of an enum.
fn put_lists(meta: &MetaType<Scalar>, text: &mut String) -> Result<(), AllocError> {
    for field in meta.fields() {
        put_field(field, text)?;
    }
    for name in meta.interface_names() {
        write!(text, " &{name}")?;
    }
    for name in meta.of_type_names() {
        write!(text, " |{name}")?;
    }
    for field in meta.input_fields() {
        put_argument(field, text)?;
    }
    for value in meta.values() {
        put_value(value, text)?;
    }
    Ok(())
}

/// Writes a field: its name, its arguments, behind `:` its type, and behind `/` the description.
fn put_field(field: &Field<Scalar>, text: &mut String) -> Result<(), AllocError> {
    write!(text, " {}", field.name)?;
    for argument in field.declared_arguments() {
        put_argument(argument, text)?;
    }
    write!(text, ":{}", field.field_type)?;
    put_some("/", field.description.as_deref(), text)?;
    put_status(&field.deprecation_status, text)
}

/// Writes an argument or a field of an input object: its name, behind `:` its type, behind `=` the default value, and behind `/` the
/// description.
fn put_argument(argument: &Argument<Scalar>, text: &mut String) -> Result<(), AllocError> {
    write!(text, " {}:{}", argument.name, argument.arg_type)?;
    if let Some(value) = &argument.default_value {
        write!(text, "={value}")?;
    }
    put_some("/", argument.description.as_deref(), text)
}

/// Writes a value of an enum: its name, and behind `/` the description.
fn put_value(value: &EnumValue, text: &mut String) -> Result<(), AllocError> {
    write!(text, " {}", value.name)?;
    put_some("/", value.description.as_deref(), text)?;
    put_status(&value.deprecation_status, text)
}

/// Writes `-` where something is deprecated, and behind another one the reason.
fn put_status(status: &DeprecationStatus, text: &mut String) -> Result<(), AllocError> {
    put_if(status.is_deprecated(), "-", text)?;
    put_some("-", status.reason(), text)
}

/// Writes what is said behind a mark, where something is.
fn put_some(mark: &str, said: Option<&str>, text: &mut String) -> Result<(), AllocError> {
    match said {
        Some(said) => write!(text, "{mark}{said}"),
        None => Ok(()),
    }
}

/// Writes a directive: its name, where it may stand, and its arguments.
pub fn put_directive(
    directive: &DirectiveType<Scalar>,
    text: &mut String,
) -> Result<(), AllocError> {
    text.push_str(directive.name.as_str())?;
    for location in &directive.locations {
        write!(text, " {location}")?;
    }
    for argument in &directive.arguments {
        put_argument(argument, text)?;
    }
    Ok(())
}

/// Writes a type by the name of its declaration, with the expected sizes of lists.
pub fn put_type(made: &TypeType<'_, Scalar>, text: &mut String) -> Result<(), AllocError> {
    match made {
        TypeType::Concrete(meta) => put_some("", meta.name(), text),
        TypeType::NonNull(inner) => {
            put_type(&**inner, text)?;
            text.push('!')
        }
        TypeType::List(inner, size) => {
            text.push('[')?;
            put_type(&**inner, text)?;
            if let Some(size) = size {
                write!(text, ";{size}")?;
            }
            text.push(']')
        }
    }
}
