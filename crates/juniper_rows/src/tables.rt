//! Files of rows themselves: how many rows they have, or the first line that cannot be read.

use crate::kinds::{Kind, kind_of};
use crate::table::{Row, Table, read_table};
use std::alloc::{AllocError, Global};

/// A file of rows of a kind that there is.
#[derive(Drop)]
pub struct KnownTable {
    /// The kind.
    pub kind: Kind,
    /// The file.
    pub table: Table,
}

/// The rows of a file, and their kind; else the number of the first line that cannot be read, from 1.
pub fn read_known(alloc: Global, text: &'static str) -> Result<KnownTable, usize> {
    match read_table(alloc, text) {
        Ok(table) => match kind_of(table.kind) {
            Some(kind) => Ok(KnownTable { kind, table }),
            None => Err(1),
        },
        Err(number) => Err(number),
    }
}

/// What is told of a file whose text is the case.
pub fn told(alloc: Global, row: &Row) -> Result<String, AllocError> {
    match read_known(alloc, row.case) {
        Ok(known) => {
            let count = known.table.rows.len();
            format!(in alloc; "{count} rows")
        }
        Err(number) => format!(in alloc; "line {number} cannot be read"),
    }
}
