//! Measures the parser, validation, execution and the test of schemas: `juniper_bench parse FILE TIMES` parses a file so many times and
//! prints what its document counts, `juniper_bench validate FILE TIMES` parses a file and validates its document so many times
//! on a schema that is made, `juniper_bench execute FILE TIMES` answers a file's request so many times over the demo's root and
//! prints its answer, `juniper_bench scan FILE TIMES` reads a file of JSON so many times, `juniper_bench make FIELDS DEPTH`
//! prints a text to be parsed, `juniper_bench make-colliding FIELDS` prints a request whose aliases collide, and
//! `juniper_bench schema TYPES TIMES` makes a schema of so many types, and tests so many times whether requests can be
//! executed on it. `juniper_bench count FIELDS DEPTH` and `juniper_bench count-colliding FIELDS` make a text, and print what its
//! document counts. Without words the program reads such commands from standard input, one in each line, and prints for each a
//! status and what it answers. The program takes no time itself: the one who runs it does.
#![tactic(auto)]

ghost use Rattle.std.specs.Prelude.{◌≡◌, ◌++◌, IfOk, codes, string_bytes};

mod answers;
mod collide;
mod command;
mod count;
mod executing;
mod make;
mod schema;

use crate::answers::{Answer, parse_answer, scan_answer, schema_answer, validate_answer};
use crate::collide::colliding_text;
use crate::command::{Command, read_command};
use crate::executing::execute_answer;
use crate::make::made_text;
use std::alloc::{AllocError, Global};
use std::process::ExitCode;
use std::rt::Files;
use std::{env, fs, io};

/// What is told of words that are not understood.
const USAGE: &str =
    "usage: juniper_bench parse FILE TIMES | validate FILE TIMES | execute FILE TIMES | scan FILE TIMES | \
     make FIELDS DEPTH | make-colliding FIELDS | count FIELDS DEPTH | count-colliding FIELDS | schema TYPES TIMES";

/// What the program answers to its words. An error where memory is refused.
fn answer<R: Files + AllocGlobal>(rt: &R, words: &[String]) -> Result<Answer, AllocError> {
    let alloc = rt.alloc();
    match read_command(words) {
        None => Ok(Answer {
            status: 2,
            line: String::from_str(alloc, USAGE)?,
        }),
        Some(Command::Parse(file, times)) => match text_of(rt, file) {
            Some(text) => parse_answer(alloc, text.as_str(), times),
            None => unread(alloc, file),
        },
        Some(Command::Validate(file, times)) => match text_of(rt, file) {
            Some(text) => validate_answer(alloc, text.as_str(), times),
            None => unread(alloc, file),
        },
        Some(Command::Execute(file, times)) => match text_of(rt, file) {
            Some(text) => execute_answer(alloc, text.as_str(), times),
            None => unread(alloc, file),
        },
        Some(Command::Scan(file, times)) => match text_of(rt, file) {
            Some(text) => scan_answer(alloc, text.as_str(), times),
            None => unread(alloc, file),
        },
        Some(Command::Make(size)) => Ok(Answer {
            status: 0,
            line: made_text(alloc, size)?,
        }),
        Some(Command::MakeColliding(fields)) => Ok(Answer {
            status: 0,
            line: colliding_text(alloc, fields)?,
        }),
        Some(Command::Count(size)) => parse_answer(alloc, made_text(alloc, size)?.as_str(), 1),
        Some(Command::CountColliding(fields)) => {
            parse_answer(alloc, colliding_text(alloc, fields)?.as_str(), 1)
        }
        Some(Command::Schema(types, times)) => schema_answer(alloc, types, times),
    }
}

/// The text of a file, if it can be read.
fn text_of<R: Files + AllocGlobal>(rt: &R, file: &str) -> Option<String> {
    fs::read_to_string(rt, file).ok()
}

/// The answer for a file that cannot be read.
fn unread(alloc: Global, file: &str) -> Result<Answer, AllocError>
    ensures status { IfOk result (λ a. a.status ≡ 2) }
    ensures line { IfOk result (λ a. string_bytes a.line ≡ file.now ++ codes " cannot be read") }
{
    Ok(Answer {
        status: 2,
        line: format!(in alloc; "{file} cannot be read")?,
    })
}

/// Answers the command in each line of standard input.
fn answer_lines(rt: &HostRuntime) -> io::Result<()> {
    let alloc = rt.alloc();
    for line in rt.lines(alloc) {
        let line = line?;
        let words = words_of(alloc, line.as_str())?;
        let answer = answer(rt, words.as_slice())?;
        let (status, text) = (answer.status, answer.line);
        println!(rt; "{status} {text}")?;
    }
    Ok(())
}

/// The words of a line, with a blank between each two.
fn words_of(alloc: Global, line: &str) -> Result<Vec<String>, AllocError> {
    let mut words = Vec::new(alloc);
    for word in line.split(' ') {
        words.push(String::from_str(alloc, word)?)?;
    }
    Ok(words)
}

/// Answers the words, or the commands of standard input where there are none, and tells the status with which the program ends.
fn run(rt: &HostRuntime) -> io::Result<ExitCode> {
    let arguments = match env::args(rt) {
        Ok(arguments) => arguments,
        Err(error) => {
            println!(rt; "refused: The arguments cannot be read: {error}")?;
            return Ok(ExitCode::from(1));
        }
    };
    let words = arguments.skip(1).collect::<Vec<String>>(rt.alloc())?;
    if words.is_empty() {
        answer_lines(rt)?;
        return Ok(ExitCode::from(0));
    }
    let answer = answer(rt, words.as_slice())?;
    let line = answer.line;
    println!(rt; "{line}")?;
    Ok(ExitCode::from(answer.status))
}

fn main(rt: HostRuntime) -> ExitCode {
    match run(&rt) {
        Ok(status) => status,
        Err(error) => {
            let _written = println!(rt; "refused: {error}");
            ExitCode::from(1)
        }
    }
}
