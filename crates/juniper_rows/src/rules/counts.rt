//! The fields and levels that operations ask for, with each spread replaced by what its fragment holds.

use crate::pieces::put_blank;
use juniper_language::parse_document_source;
use juniper_schema_text::Scalar;
use juniper_syntax::{Definition, Document};
use juniper_written::{Counts, expanded_counts, expanded_fields, expanded_levels};
use std::alloc::{AllocError, Global};

/// The fields and the levels of each operation of a document, as `4/3`; behind it ` alone: ` and those that are counted one by one, where
/// they are others.
pub fn numbers(alloc: Global, text: &str) -> Result<String, AllocError> {
    let document: Document<'_, Scalar> = match parse_document_source(alloc, text) {
        Ok(document) => document,
        Err(_) => return String::from_str(alloc, "no document"),
    };
    let mut found = String::new(alloc);
    for counts in &expanded_counts(alloc, &document)? {
        put_counts(*counts, &mut found)?;
    }
    let alone = numbers_alone(alloc, &document)?;
    if alone.as_str() != found.as_str() {
        write!(found, " alone: {alone}")?;
    }
    Ok(found)
}

/// The same, where each operation is counted by itself.
fn numbers_alone(alloc: Global, document: &Document<'_, Scalar>) -> Result<String, AllocError> {
    let mut found = String::new(alloc);
    for definition in document {
        if let Definition::Operation(operation) = definition {
            let fields = expanded_fields(alloc, document, operation)?;
            let levels = expanded_levels(alloc, document, operation)?;
            put_counts(Counts { fields, levels }, &mut found)?;
        }
    }
    Ok(found)
}

/// The numbers of a document that a row names by an operation behind a number: so many fragments follow it, `F0` first, each of which
/// spreads the next one twice, and then one that selects `id`. Behind `+` each of them selects `id` too.
pub fn numbers_of_doublings(alloc: Global, case: &str) -> Result<String, AllocError> {
    let (number, operation) = case.split_once(' ').unwrap_or((case, ""));
    let own = if number.starts_with('+') { "id " } else { "" };
    match number.trim_start_matches('+').parse::<u16>() {
        Ok(count) => numbers(alloc, doublings(alloc, operation, own, count)?.as_str()),
        Err(_) => String::from_str(alloc, "no number"),
    }
}

/// An operation, and so many fragments behind it that each spread the next one twice, behind a selection of their own.
fn doublings(alloc: Global, operation: &str, own: &str, count: u16) -> Result<String, AllocError> {
    let mut text = String::from_str(alloc, operation)?;
    for index in 0..count {
        let next = index + 1;
        write!(
            text,
            " fragment F{index} on Q {{ {own}...F{next} ...F{next} }}"
        )?;
    }
    write!(text, " fragment F{count} on Q {{ id }}")?;
    Ok(text)
}

/// Writes the fields and the levels of an operation.
fn put_counts(counts: Counts, text: &mut String) -> Result<(), AllocError> {
    put_blank(text)?;
    put_number(counts.fields, text)?;
    text.push('/')?;
    put_number(counts.levels, text)
}

/// Writes a number; `most` stands for the greatest one.
fn put_number(number: u64, text: &mut String) -> Result<(), AllocError> {
    if number == u64::MAX {
        return text.push_str("most");
    }
    write!(text, "{number}")
}
