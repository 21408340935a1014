//! The lists of errors: of validation as a whole, of its first two phases, and of given values of variables.

use crate::parsed::{StaticDocument, given_in};
use crate::pieces::put_blank;
use juniper_rules::{
    listed_in, listed_on_types, name_errors, type_errors, validate, validate_input_values,
};
use juniper_schema::SchemaType;
use juniper_schema_text::Scalar;
use juniper_syntax::{Document, RuleError, SourcePosition};
use juniper_written::fragments_by_name;
use std::alloc::{AllocError, Global};

/// Writes the errors of validation, where introspection is disabled or not.
pub fn put_errors(
    alloc: Global,
    schema: &SchemaType<Scalar>,
    document: &Document<'_, Scalar>,
    is_disabled: bool,
    text: &mut String,
) -> Result<(), AllocError> {
    let errors = validate(alloc, document, schema, is_disabled)?;
    put_places(&errors, text)
}

/// Writes the errors of the first phase.
pub fn put_name_errors(
    alloc: Global,
    schema: &SchemaType<Scalar>,
    document: &Document<'_, Scalar>,
    text: &mut String,
) -> Result<(), AllocError> {
    let fragments = fragments_by_name(alloc, document)?;
    let listed = listed_in(alloc, document)?;
    let errors = name_errors(alloc, schema, document, &listed, &fragments)?;
    put_indices(&errors, text)
}

/// Writes the errors of the second phase.
pub fn put_type_errors(
    alloc: Global,
    schema: &SchemaType<Scalar>,
    document: &Document<'_, Scalar>,
    text: &mut String,
) -> Result<(), AllocError> {
    let listed = listed_in(alloc, document)?;
    let on_types = listed_on_types(alloc, schema, &listed)?;
    let errors = type_errors(alloc, schema, &on_types)?;
    put_indices(&errors, text)
}

/// Writes the errors of the values that are given to the first operation.
pub fn put_misfits(
    alloc: Global,
    schema: &SchemaType<Scalar>,
    document: StaticDocument,
    text: &mut String,
) -> Result<(), AllocError> {
    let Some(given) = given_in(alloc, document) else {
        return text.push_str("no two operations");
    };
    let errors = validate_input_values(alloc, given.values, given.operation, schema)?;
    put_places(&errors, text)
}

/// Writes of each error its message, `@`, its place in bytes and `;`.
fn put_indices(errors: &[RuleError], text: &mut String) -> Result<(), AllocError> {
    for error in errors {
        for location in error.locations() {
            put_blank(text)?;
            write!(text, "{}@{};", error.message(), location.index())?;
        }
    }
    Ok(())
}

/// Writes of each error its message, `@`, its place and `;`.
fn put_places(errors: &[RuleError], text: &mut String) -> Result<(), AllocError> {
    for error in errors {
        for location in error.locations() {
            put_blank(text)?;
            write!(text, "{}@", error.message())?;
            put_place(location, text)?;
            text.push(';')?;
        }
    }
    Ok(())
}

/// Writes a line and a column, counted from zero, and ` byte ` and the place in bytes where that is another number than the column.
fn put_place(location: &SourcePosition, text: &mut String) -> Result<(), AllocError> {
    let (column, index) = (location.column(), location.index());
    write!(text, "{}:{column}", location.line())?;
    if index == column {
        return Ok(());
    }
    write!(text, " byte {index}")
}
