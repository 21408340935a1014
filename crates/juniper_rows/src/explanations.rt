//! What is wrong with requests, and with given values of variables, node by node.

use crate::kinds::unknown;
use crate::parsed::{StaticDocument, document_of, given_in};
use crate::pieces::put_blank;
use crate::table::Row;
use juniper_explain::{explain, explain_variables};
use juniper_schema::SchemaType;
use juniper_schema_text::{Scalar, schema_of};
use juniper_syntax::{Document, SourcePosition};
use std::alloc::{AllocError, Global};

/// The explanations of a request, or of values that a second operation gives, each with `@`, its column and `;` behind it.
pub fn told(alloc: Global, row: &Row) -> Result<String, AllocError> {
    let Some(schema) = schema_of(alloc, row.schema) else {
        return String::from_str(alloc, "no schema");
    };
    let Some(document) = document_of(alloc, row.case) else {
        return String::from_str(alloc, "no document");
    };
    match row.told {
        "request" => request_explained(alloc, schema, document, false),
        "request without introspection" => request_explained(alloc, schema, document, true),
        "values" => values_explained(alloc, schema, document),
        _ => unknown(alloc),
    }
}

/// What is wrong with a request, where introspection is disabled or not.
fn request_explained(
    alloc: Global,
    schema: &SchemaType<Scalar>,
    document: &Document<'_, Scalar>,
    is_disabled: bool,
) -> Result<String, AllocError> {
    let mut text = String::new(alloc);
    for explanation in &explain(alloc, document, schema, is_disabled)? {
        put_explanation(
            explanation.message.as_str(),
            &explanation.location,
            &mut text,
        )?;
    }
    Ok(text)
}

/// What is wrong with the values that are given to the first operation.
fn values_explained(
    alloc: Global,
    schema: &SchemaType<Scalar>,
    document: StaticDocument,
) -> Result<String, AllocError> {
    let Some(given) = given_in(alloc, document) else {
        return String::from_str(alloc, "no two operations");
    };
    let mut text = String::new(alloc);
    for explanation in &explain_variables(alloc, given.values, given.operation, schema)? {
        put_explanation(
            explanation.message.as_str(),
            &explanation.location,
            &mut text,
        )?;
    }
    Ok(text)
}

/// Writes a message and the column that it is about.
fn put_explanation(
    message: &str,
    location: &SourcePosition,
    text: &mut String,
) -> Result<(), AllocError> {
    put_blank(text)?;
    let column = location.column();
    write!(text, "{message}@{column};")
}
