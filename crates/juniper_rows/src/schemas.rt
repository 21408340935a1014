//! Schemas: which can be executed and why others cannot, what is found in them, which values fit, and their texts.

mod directives;
mod lookups;
mod outline;
mod whole;

use crate::table::Row;
use std::alloc::{AllocError, Global};
pub use whole::sdl_text;

/// What is told of a schema that is the case, of a case over the schema of its row, or of a case that needs no schema.
pub fn told(alloc: Global, row: &Row) -> Result<String, AllocError> {
    match row.told {
        "executable" | "faults" | "roots" | "types" | "directives" | "sdl" => {
            whole::told(alloc, row.told, row.case)
        }
        "descriptions" => whole::described(alloc, row.case),
        "locations" => directives::location(alloc, row.case),
        "directives of every schema" => directives::of_every_schema(alloc),
        _ => lookups::told(alloc, row),
    }
}
