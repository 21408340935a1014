//! Files of rows.
//!
//! The first line of a file is the kind of its rows, behind `wrong ` where each row says something else than what is so. The lines behind
//! it, up to the first that begins a section, say what the file is about. Then come sections:
//!
//! ```text
//! schema:
//! type Query { hero: Droid }
//! type Droid { name(first: Int = 1): String }
//! answers:
//! Query.hero => @r2:Droid
//! r2.name => "R2-D2"
//! rows:
//! { hero { name } } => {"data":{"hero":{"name":"R2-D2"}}}
//! # A case may stand on lines of its own, and what is said of it behind it.
//! name: Q
//! variables: {"n": 2}
//! query Q($n: Int) {
//!   hero { name(first: $n) }
//! }
//! => {"data":
//!     {"hero":{"name":"R2-D2"}}}
//! ```
//!
//! - `schema:` is followed by a schema as `juniper_schema_text` reads it, and `answers:` by a script as `juniper_test_root` reads it. Kinds
//!   that need none leave them out.
//! - `rows:` is followed by rows; behind the colon may stand what is told of their cases. Several such sections may stand below one schema.
//! - A row is a case, `=>`, and what is told of it. A line behind it that begins with a blank goes on with it, without its blanks. Before a
//!   row may stand lines `name: NAME`, `variables: JSON`, `sees: SIGHT` and `twin sees: SIGHT`, which are for this row alone.
//! - Empty lines between rows are left out, and lines that begin with `# `.
//! - `␠` stands for a blank, `␉` for a tab, `␤` for LF, `␍` for CR, `‹1F600›` for the character of this number, and `«3 {a»` for `{a{a{a`.

use crate::marks::unmarked;
use juniper_schema_text::kept;
use std::alloc::Global;
use std::mem;

/// A case, and what is said of it.
#[derive(Debug, Drop)]
pub struct Row {
    /// The number of the line in which the case ends, from 1.
    pub number: usize,
    /// The schema.
    pub schema: &'static str,
    /// What its fields answer.
    pub answers: &'static str,
    /// What is told of the case, where its kind tells several things.
    pub told: &'static str,
    /// The case, with its marks.
    pub marked: &'static str,
    /// The case.
    pub case: &'static str,
    /// The name of the operation; empty where none is given.
    pub name: &'static str,
    /// The values of variables, as an object of JSON; empty where none are given.
    pub variables: &'static str,
    /// What resolvers are shown at fields, a line for each call.
    pub sights: &'static str,
    /// What the executor's twin shows them, where it is something else.
    pub twin_sights: &'static str,
    /// What is said of the case, with its marks.
    pub said: String,
}

/// A file of rows.
#[derive(Debug, Drop)]
pub struct Table {
    /// Of which kind they are.
    pub kind: &'static str,
    /// Whether each says something else than what is so.
    pub is_wrong: bool,
    /// The rows.
    pub rows: Vec<Row>,
}

/// Where a line stands.
#[derive(Clone, Copy, PartialEq, Eq)]
enum Place {
    Head,
    Schema,
    Answers,
    Rows,
}

/// What of a file is read so far: the rows, the texts of the section, and lines of the next row.
#[derive(Drop)]
struct TableReader {
    alloc: Global,
    number: usize,
    place: Place,
    rows: Vec<Row>,
    schema: String,
    answers: String,
    told: &'static str,
    case: String,
    name: &'static str,
    variables: &'static str,
    sights: String,
    twin_sights: String,
}

/// The rows of a file; else the number of the first line that cannot be read, from 1.
pub fn read_table(alloc: Global, text: &'static str) -> Result<Table, usize> {
    let (first, rest) = text.split_once('\n').unwrap_or((text, ""));
    let mut reader = TableReader::new(alloc);
    for line in rest.lines() {
        if reader.read_line(line).is_none() {
            return Err(reader.number);
        }
    }
    if !reader.case.is_empty() {
        return Err(reader.number);
    }
    Ok(Table {
        kind: first.strip_prefix("wrong ").unwrap_or(first),
        is_wrong: first.starts_with("wrong "),
        rows: reader.rows,
    })
}

/// A text that stays to the end of the program; `None` where memory is refused.
fn stays(alloc: Global, text: &str) -> Option<&'static str> {
    let text: &'static String = kept(alloc, String::from_str(alloc, text))?;
    Some(text.as_str())
}

/// A text without its marks, which stays to the end of the program; `None` where it cannot be read, or memory is refused.
fn stays_unmarked(alloc: Global, text: &str) -> Option<&'static str> {
    let text: &'static String = kept(alloc, unmarked(alloc, text))?;
    Some(text.as_str())
}

impl TableReader {
    /// A reader behind the first line.
    fn new(alloc: Global) -> Self {
        TableReader {
            alloc,
            number: 1,
            place: Place::Head,
            rows: Vec::new(alloc),
            schema: String::new(alloc),
            answers: String::new(alloc),
            told: "",
            case: String::new(alloc),
            name: "",
            variables: "",
            sights: String::new(alloc),
            twin_sights: String::new(alloc),
        }
    }

    /// Reads a line; `None` where it cannot be read, or memory is refused.
    fn read_line(&mut self, line: &'static str) -> Option<()> {
        self.number = self.number.wrapping_add(1);
        if self.case.is_empty() && self.begins_section(line) {
            return Some(());
        }
        match self.place {
            Place::Head => Some(()),
            Place::Schema => add_line(&mut self.schema, line),
            Place::Answers => add_line(&mut self.answers, line),
            Place::Rows => self.read_among_rows(line),
        }
    }

    /// Whether a line begins a section.
    fn begins_section(&mut self, line: &'static str) -> bool {
        if line == "schema:" {
            self.schema = String::new(self.alloc);
            self.answers = String::new(self.alloc);
            self.place = Place::Schema;
            return true;
        }
        if line == "answers:" {
            self.place = Place::Answers;
            return true;
        }
        match line.strip_prefix("rows:") {
            Some(told) => {
                self.told = told.trim_start();
                self.place = Place::Rows;
                true
            }
            None => false,
        }
    }

    /// Reads a line among the rows.
    fn read_among_rows(&mut self, line: &'static str) -> Option<()> {
        if self.case.is_empty() && (line.is_empty() || line.starts_with("# ")) {
            return Some(());
        }
        if self.case.is_empty() && line.starts_with(' ') {
            return self.rows.last_mut()?.said.push_str(line.trim_start()).ok();
        }
        if let Some(name) = line.strip_prefix("name: ") {
            self.name = name;
            return Some(());
        }
        if let Some(variables) = line.strip_prefix("variables: ") {
            self.variables = variables;
            return Some(());
        }
        if let Some(sight) = line.strip_prefix("sees: ") {
            return add_line(&mut self.sights, sight);
        }
        if let Some(sight) = line.strip_prefix("twin sees: ") {
            return add_line(&mut self.twin_sights, sight);
        }
        match said_behind(line) {
            Some((case, said)) => self.end_row(case, said),
            None => add_line(&mut self.case, line),
        }
    }

    /// Reads the last line of a case, and what is said of it.
    fn end_row(&mut self, line: &str, said: &str) -> Option<()> {
        self.case.push_str(line).ok()?;
        let alloc = self.alloc;
        let row = Row {
            number: self.number,
            schema: stays(alloc, self.schema.as_str())?,
            answers: stays(alloc, self.answers.as_str())?,
            told: self.told,
            marked: stays(alloc, self.case.as_str())?,
            case: stays_unmarked(alloc, self.case.as_str())?,
            name: mem::replace(&mut self.name, ""),
            variables: mem::replace(&mut self.variables, ""),
            sights: stays_unmarked(alloc, self.sights.as_str())?,
            twin_sights: stays_unmarked(alloc, self.twin_sights.as_str())?,
            said: String::from_str(alloc, said).ok()?,
        };
        self.case.clear();
        self.sights.clear();
        self.twin_sights.clear();
        if self.rows.push(row).is_ok() {
            Some(())
        } else {
            None
        }
    }
}

/// Adds a line and its end to a text; `None` where memory is refused.
fn add_line(text: &mut String, line: &str) -> Option<()> {
    text.push_str(line).ok()?;
    text.push('\n').ok()
}

/// What stands before and behind the first arrow of a line, if it has one.
fn said_behind(line: &'static str) -> Option<(&'static str, &'static str)> {
    if let Some(said) = line.strip_prefix("=> ") {
        return Some(("", said));
    }
    match line.split_once(" => ") {
        Some(parts) => Some(parts),
        None => Some((line.strip_suffix(" =>")?, "")),
    }
}
