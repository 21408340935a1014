//! The kinds of rows, and what is told of their cases.

use crate::table::Row;
use crate::{
    caches, conversions, demo, documents, explanations, json, literals, look_ahead, over_http,
    registry, requests, rules, schemas, tables, values,
};
use std::alloc::{AllocError, Global};
use std::hash::RandomState;

/// What rows are about.
#[derive(Clone, Copy)]
pub enum Kind {
    /// What texts are read as, or how and where they are refused.
    Documents,
    /// Strings and Ints, and what they stand for.
    Literals,
    /// Input values, values and errors, as they are written.
    Values,
    /// Conversions between input values and types of Rust, and the errors of fields.
    Conversions,
    /// What look-ahead shows, and which fields are taken.
    LookAhead,
    /// Requests to a scripted root, and what they are answered.
    Requests,
    /// The registry of types.
    Registry,
    /// Schemas, and what is found in them.
    Schemas,
    /// Rules of validation, and what they find in documents.
    Rules,
    /// Why documents are not valid, and given values do not fit.
    Explanations,
    /// What the demo answers, and its schema.
    Demo,
    /// What is done with a cache, one step after the other.
    Caches,
    /// JSON of requests.
    Json,
    /// Bytes of HTTP, and what is answered to them.
    Http,
    /// Files of rows themselves.
    Tables,
}

/// The kind of this name, if there is one.
pub fn kind_of(name: &str) -> Option<Kind> {
    match name {
        "documents" => Some(Kind::Documents),
        "literals" => Some(Kind::Literals),
        "values" => Some(Kind::Values),
        "conversions" => Some(Kind::Conversions),
        "look-ahead" => Some(Kind::LookAhead),
        "requests" => Some(Kind::Requests),
        "registry" => Some(Kind::Registry),
        "schemas" => Some(Kind::Schemas),
        "rules" => Some(Kind::Rules),
        "explanations" => Some(Kind::Explanations),
        "demo" => Some(Kind::Demo),
        "caches" => Some(Kind::Caches),
        "json" => Some(Kind::Json),
        "http" => Some(Kind::Http),
        "tables" => Some(Kind::Tables),
        _ => None,
    }
}

/// What is told of the cases of rows of this kind, one by one.
pub fn found(
    alloc: Global,
    keys: RandomState,
    kind: Kind,
    rows: &[Row],
) -> Result<Vec<String>, AllocError> {
    if let Kind::Caches = kind {
        return caches::found(alloc, keys, rows);
    }
    let mut found = Vec::with_capacity(alloc, rows.len())?;
    for row in rows {
        found.push(found_of(alloc, keys, kind, row)?)?;
    }
    Ok(found)
}

/// What is told of the case of a row that stands alone.
fn found_of(alloc: Global, keys: RandomState, kind: Kind, row: &Row) -> Result<String, AllocError> {
    match kind {
        Kind::Documents => documents::told(alloc, row),
        Kind::Literals => literals::told(alloc, row),
        Kind::Values => values::told(alloc, row),
        Kind::Conversions => conversions::told(alloc, row),
        Kind::LookAhead => look_ahead::told(alloc, row),
        Kind::Requests => requests::told(alloc, row),
        Kind::Registry => registry::told(alloc, row),
        Kind::Schemas => schemas::told(alloc, row),
        Kind::Rules => rules::told(alloc, row),
        Kind::Explanations => explanations::told(alloc, row),
        Kind::Demo => demo::told(alloc, row),
        Kind::Caches => unknown(alloc),
        Kind::Json => json::told(alloc, row),
        Kind::Http => over_http::told(alloc, keys, row),
        Kind::Tables => tables::told(alloc, row),
    }
}

/// What is told where no row of a kind has such a case.
pub fn unknown(alloc: Global) -> Result<String, AllocError> {
    String::from_str(alloc, "no such case")
}
