//! Tries tables of rows: `juniper_rows FILE..` reads each file as `table.rt` says, prints the rows that differ from what is found, each with
//! its file and line, then a line for the file, and at last how many rows were tried. Of a file of wrong rows it prints those that do not
//! differ.
//!
//! It ends with status 0 where each row says what it is to say, 1 where one does not, and 2 where no file is named or a file cannot be read.
#![tactic(auto)]

mod asked;
mod bytes;
mod caches;
mod conversions;
mod demo;
mod documents;
mod explanations;
mod fields;
mod json;
mod kinds;
mod literals;
mod look_ahead;
mod marks;
mod over_http;
mod parsed;
mod pieces;
mod registry;
mod requests;
mod rules;
mod samples;
mod schemas;
mod table;
mod tables;
mod tally;
mod values;

use juniper_schema_text::kept;
use std::alloc::AllocError;
use std::hash::RandomState;
use std::process::ExitCode;
use std::rt::Files;
use std::{env, fs};
use tally::Tally;

/// What is told where no file is named.
const USAGE: &str = "usage: juniper_rows FILE.., as in: rt try -- data/*";

/// What the program prints, and the status with which it ends.
#[derive(Drop)]
struct Printed {
    status: u8,
    text: String,
}

/// What the program prints for these files. An error where memory is refused.
fn answer<R: Files + AllocGlobal>(
    rt: &R,
    keys: RandomState,
    files: &[String],
) -> Result<Printed, AllocError> {
    let alloc = rt.alloc();
    if files.is_empty() {
        let text = String::from_str(alloc, USAGE)?;
        return Ok(Printed { status: 2, text });
    }
    let mut tally = Tally::new(alloc, keys);
    for file in files {
        let Some(text) = kept(alloc, fs::read_to_string(rt, file.as_str())) else {
            let text = format!(in alloc; "{file} cannot be read")?;
            return Ok(Printed { status: 2, text });
        };
        let (_, name) = file.rsplit_once('/').unwrap_or(("", file.as_str()));
        tally.try_file(name, text.as_str())?;
    }
    let status = if tally.is_clean() { 0 } else { 1 };
    Ok(Printed {
        status,
        text: tally.report()?,
    })
}

fn main(rt: HostRuntime) -> ExitCode {
    let (Ok(arguments), Ok(keys)) = (env::args(&rt), RandomState::new(&rt)) else {
        return ExitCode::from(1);
    };
    let answered = match arguments.skip(1).collect::<Vec<String>>(rt.alloc()) {
        Ok(files) => answer(&rt, keys, files.as_slice()),
        Err(refused) => Err(refused.into()),
    };
    let (status, written) = match answered {
        Ok(printed) => {
            let text = printed.text;
            (printed.status, println!(rt; "{text}"))
        }
        Err(_) => (1, println!(rt; "refused: Out of memory")),
    };
    match written {
        Ok(()) => ExitCode::from(status),
        Err(_) => ExitCode::from(1),
    }
}
