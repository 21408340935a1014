//! Conversions between input values and the types of resolvers (section 6.4.1 of the Specification), and the errors of fields.

mod arguments;
mod errors;
mod scalars;
mod types;

use crate::kinds::unknown;
use crate::table::Row;
use std::alloc::{AllocError, Global};
use types::Question;

/// What is told of a case, which mostly is `TYPE | VALUE`.
pub fn told(alloc: Global, row: &Row) -> Result<String, AllocError> {
    if row.told == "error places" {
        return errors::place(alloc, row.case);
    }
    let Some((kind, text)) = row.case.split_once(" | ") else {
        return unknown(alloc);
    };
    match row.told {
        "answers" => types::told(alloc, Question::Answer, kind, text),
        "messages" => types::told(alloc, Question::Message, kind, text),
        "inputs" => types::told(alloc, Question::Input, kind, text),
        "back" => types::back(alloc, kind, text),
        "scalars read" => scalars::read(alloc, kind, text),
        "scalars made" => scalars::made(alloc, kind, text),
        "arguments" => arguments::told(alloc, kind, text),
        "errors made" => errors::made(alloc, kind, text),
        "field errors" => errors::field_error(alloc, kind, text),
        "mapped field errors" => errors::mapped(alloc, kind, text),
        "error orders" => errors::order(alloc, kind, text),
        _ => unknown(alloc),
    }
}
