//! How many rows were tried, and which of them differ.

use crate::kinds::found;
use crate::marks::unmarked;
use crate::table::{Row, Table};
use crate::tables::read_known;
use std::alloc::{AllocError, Global};
use std::hash::RandomState;

/// What was tried so far: lines that tell it, and how many rows say what is not so, though they are to say what is, or the other way round.
#[derive(Drop)]
pub struct Tally {
    alloc: Global,
    keys: RandomState,
    text: String,
    row_count: usize,
    fault_count: usize,
}

impl Tally {
    /// Nothing was tried.
    pub fn new(alloc: Global, keys: RandomState) -> Self {
        Tally {
            alloc,
            keys,
            text: String::new(alloc),
            row_count: 0,
            fault_count: 0,
        }
    }

    /// Tries the rows of a file of this name; one that cannot be read counts as a fault.
    pub fn try_file(&mut self, name: &str, text: &'static str) -> Result<(), AllocError> {
        match read_known(self.alloc, text) {
            Ok(known) => {
                let table = &known.table;
                let answers = found(self.alloc, self.keys, known.kind, table.rows.as_slice())?;
                self.try_rows(name, table, answers.as_slice())
            }
            Err(number) => self.add_unread(name, number),
        }
    }

    /// Counts a file that cannot be read at this line.
    fn add_unread(&mut self, name: &str, number: usize) -> Result<(), AllocError> {
        self.fault_count = self.fault_count.wrapping_add(1);
        write!(self.text, "{name}:{number}: cannot be read\n")
    }

    /// Compares what is found with what the rows say.
    fn try_rows(&mut self, name: &str, table: &Table, found: &[String]) -> Result<(), AllocError> {
        let mut differing = 0usize;
        for (row, found) in table.rows.iter().zip(found) {
            let said = unmarked(self.alloc, row.said.as_str())?;
            let differs = said.as_str() != found.as_str();
            if differs {
                differing = differing.wrapping_add(1);
            }
            if differs != table.is_wrong {
                self.add_fault(name, row, said.as_str(), found.as_str())?;
            }
        }
        let count = table.rows.len();
        self.row_count = self.row_count.wrapping_add(count);
        write!(self.text, "{name}: {count} rows, {differing} differ\n")
    }

    /// Counts a row that is to say what is so and does not, or the other way round.
    fn add_fault(
        &mut self,
        name: &str,
        row: &Row,
        said: &str,
        found: &str,
    ) -> Result<(), AllocError> {
        self.fault_count = self.fault_count.wrapping_add(1);
        let number = row.number;
        write!(
            self.text,
            "{name}:{number}:\n  expected: {said}\n  found:    {found}\n"
        )
    }

    /// Whether each row says what it is to say.
    pub fn is_clean(&self) -> bool {
        self.fault_count == 0
    }

    /// A line for each file, behind the faults that were found in it, and the sum.
    pub fn report(&self) -> Result<String, AllocError> {
        let (text, rows, faults) = (self.text.as_str(), self.row_count, self.fault_count);
        format!(in self.alloc; "{text}{rows} rows, {faults} faults")
    }
}
