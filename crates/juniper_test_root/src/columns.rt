//! The columns that a request asks for, as docs/LOOKAHEAD.md shows it.

use juniper::{Executor, ScalarValue};
use std::alloc::{AllocError, Global};

/// The columns of an object that a request asks for below its field; an error where memory is refused.
pub fn columns_asked_for<'a, C, S: ScalarValue>(
    alloc: Global,
    executor: &Executor<'_, '_, '_, 'a, C, S>,
) -> Result<Vec<&'a str>, AllocError> {
    let mut columns = Vec::new(alloc);
    for selection in executor.look_ahead_occurrences() {
        let children = selection.children(alloc)?;
        for child in children.iter() {
            let column = child.field_original_name();
            if !columns.contains(&column) {
                columns.push(column)?;
            }
        }
    }
    Ok(columns)
}
