//! Documents: what a text is read as, or how and where it is refused (section 2 of the Specification).

mod writer;

use crate::kinds::unknown;
use crate::marks::unmarked;
use crate::table::Row;
use juniper_language::{
    DefaultScalarValue, Document, ParseError, SourcePosition, Span, Spanning, parse_document_source,
};
use std::alloc::{AllocError, Global};
use writer::DocumentWriter;

/// What is told of a text. A `^` in the case is no part of it: where the text is refused just there, the message alone is told.
pub fn told(alloc: Global, row: &Row) -> Result<String, AllocError> {
    match row.marked.split_once('^') {
        None => told_of(alloc, row.told, row.case, None),
        Some((before, behind)) => {
            let before = unmarked(alloc, before)?;
            let behind = unmarked(alloc, behind)?;
            let text = format!(in alloc; "{before}{behind}")?;
            told_of(alloc, row.told, text.as_str(), Some(before.as_str()))
        }
    }
}

/// What is told of a text, which may be refused just behind its beginning.
fn told_of(
    alloc: Global,
    told: &str,
    text: &str,
    beginning: Option<&str>,
) -> Result<String, AllocError> {
    match parse_document_source::<DefaultScalarValue>(alloc, text) {
        Ok(document) => read_as(alloc, told, text, &document),
        Err(error) => refused(alloc, &error, beginning),
    }
}

/// What a text is read as.
fn read_as(
    alloc: Global,
    told: &str,
    text: &str,
    document: &Document<'_, DefaultScalarValue>,
) -> Result<String, AllocError> {
    match told {
        "count" => document.len().to_string(alloc),
        "outline"
        | "bare outline"
        | "parts"
        | "definitions"
        | "definitions and selections"
        | "arguments and kinds"
        | "kinds" => DocumentWriter::new(alloc, told, text).written(document),
        _ => unknown(alloc),
    }
}

/// How a text is refused, and where if that is not just behind its beginning.
fn refused(
    alloc: Global,
    error: &Spanning<ParseError, Span>,
    beginning: Option<&str>,
) -> Result<String, AllocError> {
    let (message, place) = (&error.item, error.span.start);
    match beginning {
        Some(beginning) if is_behind(place, beginning) => message.to_string(alloc),
        _ => {
            let (index, line, column) = (place.index(), place.line(), place.column());
            format!(in alloc; "{message} at {index}:{line}:{column}")
        }
    }
}

/// Whether a place is just behind the beginning of a text, in its first line.
fn is_behind(place: SourcePosition, beginning: &str) -> bool {
    place.index() == beginning.len()
        && place.line() == 0
        && place.column() == beginning.chars().count()
}
