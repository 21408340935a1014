//! What is found in a schema: at names, by references, between two types; and whether values fit types.

use super::outline::{put_declaration, put_type};
use crate::kinds::unknown;
use crate::pieces::{put_blank, yes_or_no};
use crate::table::Row;
use juniper_meta::declares_value;
use juniper_schema::{SchemaType, TypeType};
use juniper_schema_text::{Reader, Scalar, schema_of};
use std::alloc::{AllocError, Global};

/// What is told of a case over the schema of its row.
pub fn told(alloc: Global, row: &Row) -> Result<String, AllocError> {
    let Some(schema) = schema_of(alloc, row.schema) else {
        return String::from_str(alloc, "no schema");
    };
    let mut text = String::new(alloc);
    put_told(alloc, row.told, schema, row.case, &mut text)?;
    Ok(text)
}

/// Writes what of this name is told of a case.
fn put_told(
    alloc: Global,
    told: &str,
    schema: &SchemaType<Scalar>,
    case: &str,
    text: &mut String,
) -> Result<(), AllocError> {
    match told {
        "declarations" => put_declaration(schema.concrete_type_by_name(case), text),
        "names" => put_found(schema.type_by_name(case), text),
        "references" => put_made(alloc, schema, case, text),
        "subtypes" => put_subtype(schema, case, text),
        "parts" => put_parts(schema, case, text),
        "written" => put_fitting(alloc, schema, false, case, text),
        "given" => put_fitting(alloc, schema, true, case, text),
        _ => text.push_str(unknown(alloc)?.as_str()),
    }
}

/// Writes the type that is found; `none` where none is.
pub fn put_found(found: Option<TypeType<'_, Scalar>>, text: &mut String) -> Result<(), AllocError> {
    match found {
        Some(made) => put_type(&made, text),
        None => text.push_str("none"),
    }
}

/// Writes the type of a reference; `none` where its name is not known.
fn put_made(
    alloc: Global,
    schema: &SchemaType<Scalar>,
    case: &str,
    text: &mut String,
) -> Result<(), AllocError> {
    let reference = Reader::new(alloc, case).read_type();
    match schema.concrete_type_by_name(reference.innermost_name()) {
        Some(_) => put_found(Some(schema.make_type(alloc, &reference)?), text),
        None => text.push_str("none"),
    }
}

/// Writes whether the first name is a subtype of the second.
fn put_subtype(
    schema: &SchemaType<Scalar>,
    case: &str,
    text: &mut String,
) -> Result<(), AllocError> {
    let (name, wide) = case.split_once(' ').unwrap_or((case, ""));
    text.push_str(yes_or_no(schema.is_named_subtype(name, wide)))
}

/// Writes what is found by the second name in the type of the first, and whether that accepts an `Int`.
fn put_parts(schema: &SchemaType<Scalar>, case: &str, text: &mut String) -> Result<(), AllocError> {
    let (name, part) = case.split_once(' ').unwrap_or((case, ""));
    let Some(meta) = schema.concrete_type_by_name(name) else {
        return text.push_str("none");
    };
    put_word(meta.field_by_name(part).is_some(), "field", text)?;
    put_word(meta.input_field_by_name(part).is_some(), "input", text)?;
    put_word(declares_value(meta.values(), part), "value", text)?;
    put_word(meta.accepts(&Scalar::Int(1)), "int", text)
}

/// Writes a word where it holds.
fn put_word(holds: bool, word: &str, text: &mut String) -> Result<(), AllocError> {
    if !holds {
        return Ok(());
    }
    put_blank(text)?;
    text.push_str(word)
}

/// Writes whether a value fits a type, as in `Int = 1`, where it is written, or where it is given for a variable.
fn put_fitting(
    alloc: Global,
    schema: &SchemaType<Scalar>,
    is_given: bool,
    case: &str,
    text: &mut String,
) -> Result<(), AllocError> {
    let mut reader = Reader::new(alloc, case);
    let reference = reader.read_type();
    reader.expect("=");
    let value = reader.read_value(8);
    if !reader.is_done() {
        return text.push_str("no type and value");
    }
    text.push_str(yes_or_no(schema.fits(&value, &reference, is_given)))
}
