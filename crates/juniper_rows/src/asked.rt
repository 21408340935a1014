//! Requests of rows: a text, and behind ` | ` each the name of an operation and the values of variables.

use std::alloc::{AllocError, Global};

/// A request.
#[derive(Clone, Copy)]
pub struct Asked<'a> {
    /// The text of its document.
    pub text: &'a str,
    /// The name of the operation that is to be executed, if one is given.
    pub operation_name: Option<&'a str>,
    /// The values of variables, an object of JSON; empty where none are given.
    pub variables: &'a str,
}

/// The request of a case; the name and the values may be left out, and an empty name is none.
pub fn asked_in(case: &str) -> Asked<'_> {
    let (text, rest) = case.split_once(" | ").unwrap_or((case, ""));
    let (name, variables) = rest.split_once(" | ").unwrap_or((rest, ""));
    Asked {
        text,
        operation_name: if name.is_empty() { None } else { Some(name) },
        variables,
    }
}

/// What is told of a request whose values of variables cannot be read.
pub fn unread(alloc: Global) -> Result<String, AllocError> {
    String::from_str(alloc, "the variables cannot be read")
}
