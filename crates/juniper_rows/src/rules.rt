//! Rules of validation: the errors that they list, and what they look at in a document.

mod counts;
mod errors;
mod names;
mod spreads;
mod uses;
mod written;

use crate::kinds::unknown;
use crate::parsed::{StaticDocument, document_of};
use crate::table::Row;
use juniper_schema::SchemaType;
use juniper_schema_text::{Scalar, schema_of};
use std::alloc::{AllocError, Global};

/// What the rules find in a document, or what its operations ask for.
pub fn told(alloc: Global, row: &Row) -> Result<String, AllocError> {
    match row.told {
        "counts" => counts::numbers(alloc, row.case),
        "counts of doublings" => counts::numbers_of_doublings(alloc, row.case),
        "repeats" => names::repeats_word(alloc, row.case),
        _ => told_of_document(alloc, row),
    }
}

/// What the rules find in a document over the schema of its row.
fn told_of_document(alloc: Global, row: &Row) -> Result<String, AllocError> {
    let Some(schema) = schema_of(alloc, row.schema) else {
        return String::from_str(alloc, "no schema");
    };
    let Some(document) = document_of(alloc, row.case) else {
        return String::from_str(alloc, "no document");
    };
    let mut text = String::new(alloc);
    put_told(alloc, row.told, schema, document, &mut text)?;
    Ok(text)
}

/// Writes what of this name is told of a document.
fn put_told(
    alloc: Global,
    told: &str,
    schema: &SchemaType<Scalar>,
    document: StaticDocument,
    text: &mut String,
) -> Result<(), AllocError> {
    match told {
        "errors" => errors::put_errors(alloc, schema, document, false, text),
        "errors without introspection" => {
            errors::put_errors(alloc, schema, document, true, text)
        }
        "errors of names" => errors::put_name_errors(alloc, schema, document, text),
        "errors on types" => errors::put_type_errors(alloc, schema, document, text),
        "values" => errors::put_misfits(alloc, schema, document, text),
        "written" => written::put_written(alloc, document, text),
        "names" => names::put_names(alloc, document, text),
        "spreads" => spreads::put_spreads(alloc, document, text),
        "uses" => uses::put_uses(alloc, schema, document, text),
        _ => text.push_str(unknown(alloc)?.as_str()),
    }
}
