//! Strings and Ints: what they stand for (sections 2.9.1 and 2.9.4 of the Specification).

use crate::kinds::unknown;
use crate::table::Row;
use juniper_language::{decode_int, decode_string};
use std::alloc::{AllocError, Global};

/// What is told of a literal: of `strings` what stands between the quotes, of `ints` the whole word.
pub fn told(alloc: Global, row: &Row) -> Result<String, AllocError> {
    match row.told {
        "strings" => string(alloc, row.case),
        "ints" => int(alloc, row.case),
        _ => unknown(alloc),
    }
}

/// The text that a string stands for, in quotes, or how it is refused.
fn string(alloc: Global, raw: &str) -> Result<String, AllocError> {
    match decode_string(alloc, raw) {
        Ok(text) => format!(in alloc; "\"{text}\""),
        Err(error) => error.to_string(alloc),
    }
}

/// The Int that a word is, or how it is refused.
fn int(alloc: Global, word: &str) -> Result<String, AllocError> {
    match decode_int(word) {
        Ok(number) => number.to_string(alloc),
        Err(error) => error.to_string(alloc),
    }
}
