//! Values that words make, and errors: how they are written.

mod errors;
mod inputs;
mod piles;
mod results;

use crate::kinds::unknown;
use crate::table::Row;
use std::alloc::{AllocError, Global};

/// What is told of a case: of words the `inputs` or `values` that they make, of a name the one of `errors`.
pub fn told(alloc: Global, row: &Row) -> Result<String, AllocError> {
    match row.told {
        "inputs" => inputs::told(alloc, row.marked),
        "values" => results::told(alloc, row.marked),
        "errors" => errors::told(alloc, row.case),
        _ => unknown(alloc),
    }
}
