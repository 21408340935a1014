//! Why bytes or JSON ask nothing.

ghost use Rattle.std.specs.Prelude.{◌≡◌, Some};
ghost use Rattle.juniper_request.specs.Requests.{message, place_text};

use std::fmt;

/// Bytes that are no JSON in UTF-8, and where in them the fault lies.
#[derive(Clone, Copy, Debug, PartialEq, Eq, Drop)]
pub struct NotJson {
    /// The line, from 1.
    pub line: usize,
    /// The column in bytes, from 1; 0 where the line breaks off before its first byte.
    pub column: usize,
}

impl fmt::Display for NotJson {
    ghost output = { λ e. Some (place_text e) };

    fn fmt<W: fmt::Write>(&self, f: &mut fmt::Formatter<W>) -> fmt::Result {
        let NotJson { line, column } = *self;
        write!(f, "not JSON, at line {line} column {column}")
    }
}

impl std::error::Error for NotJson {}

/// Why JSON is no request: the first that is wrong, in the order below.
#[derive(Clone, Copy, Debug, PartialEq, Eq, Drop)]
pub enum RequestError {
    /// It is no object.
    NotAnObject,
    /// There is no text `query`.
    Query,
    /// `operationName` is something other than a text.
    OperationName,
    /// `variables` is something other than an object.
    Variables,
    /// `extensions` is something other than an object.
    Extensions,
}

impl RequestError {
    /// What is wrong.
    pub fn message(self) -> &'static str
        ensures { result.now ≡ message self }
    {
        match self {
            RequestError::NotAnObject => "a request must be an object",
            RequestError::Query => "query must be a string",
            RequestError::OperationName => "operationName must be a string or null",
            RequestError::Variables => "variables must be an object or null",
            RequestError::Extensions => "extensions must be an object or null",
        }
    }
}

impl fmt::Display for RequestError {
    ghost output = { λ e. Some (message e) };

    fn fmt<W: fmt::Write>(&self, f: &mut fmt::Formatter<W>) -> fmt::Result {
        f.write_str(self.message())
    }
}

impl std::error::Error for RequestError {}
