//! The demo server: `juniper_demo TEXT [NAME] [VARIABLES]` executes the request of the text, by the operation of the name and with
//! the values of variables of a JSON object, and prints its answer as one line of JSON.
#![tactic(auto)]

mod laws;

use juniper_demo_server::{DemoContext, answer};
use std::env;
use std::process::ExitCode;

/// What is told where standard output fails.
const UNWRITTEN: &str =
    "The answer was not written, or not wholly; the request was executed, unless it is to be refused";

fn main(rt: HostRuntime) -> ExitCode {
    let alloc = rt.alloc();
    let arguments = match env::args(&rt) {
        Ok(arguments) => arguments,
        Err(error) => {
            let _written = println!(rt; "refused: The arguments cannot be read: {error}");
            return ExitCode::from(1);
        }
    };
    let mut context = DemoContext::new();
    let answered = match arguments.skip(1).collect::<Vec<String>>(alloc) {
        Ok(words) => answer(alloc, words.as_slice(), &mut context),
        Err(refused) => Err(refused.into()),
    };
    let (status, written) = match answered {
        Ok(answer) => {
            let line = answer.line;
            (answer.status, println!(rt; "{line}"))
        }
        Err(_) => (1, println!(rt; "refused: Out of memory")),
    };
    match written {
        Ok(()) => ExitCode::from(status),
        Err(error) => {
            let _told = eprintln!(rt; "{UNWRITTEN}: {error}");
            ExitCode::from(1)
        }
    }
}
