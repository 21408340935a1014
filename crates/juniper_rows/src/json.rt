//! JSON of requests: what a body asks, and the values of variables that an object gives.

use crate::bytes::bytes_of;
use crate::kinds::unknown;
use crate::table::Row;
use juniper_json::{GivenVariables, given_variables};
use juniper_request::{GraphQLBatchRequest, Members, read_request, request_of};
use serde_json::Value;
use std::alloc::{AllocError, Global};

/// What is told of a row's case.
pub fn told(alloc: Global, row: &Row) -> Result<String, AllocError> {
    match row.told {
        "given variables" => given(alloc, row.case),
        "request bodies" => asked(alloc, bytes_of(alloc, row.case)?.as_slice()),
        _ => unknown(alloc),
    }
}

/// The values of `a` and `b` that an object gives, and behind a semicolon the variables that are refused.
fn given(alloc: Global, text: &str) -> Result<String, AllocError> {
    let Ok(Value::Object(members)) = Value::from_str(alloc, text) else {
        return String::from_str(alloc, "no object");
    };
    let given = given_variables(alloc, &members)?;
    let mut line = String::new(alloc);
    for name in ["a", "b"] {
        match given.values.get(name) {
            Some(value) => write!(line, "{value} ")?,
            None => line.push_str("- ")?,
        }
    }
    line.push(';')?;
    put_refused(&mut line, &given)?;
    Ok(line)
}

/// Writes the variables that are refused, and why each is.
fn put_refused(line: &mut String, given: &GivenVariables) -> Result<(), AllocError> {
    let mut comma = "";
    for variable in &given.refused {
        let name = variable.name.as_str();
        let error = variable.error;
        write!(line, "{comma} {name} {error:?}")?;
        comma = ",";
    }
    Ok(())
}

/// What a body asks, or what is wrong with it; a batch stands in brackets.
fn asked(alloc: Global, bytes: &[u8]) -> Result<String, AllocError> {
    match read_request(alloc, bytes)? {
        Ok(GraphQLBatchRequest::Single(json)) => asked_by(alloc, &json),
        Ok(GraphQLBatchRequest::Batch(members)) => asked_by_all(alloc, members.as_slice()),
        Err(error) => format!(in alloc; "{error}"),
    }
}

/// What the members of a batch ask.
fn asked_by_all(alloc: Global, members: &[Value]) -> Result<String, AllocError> {
    let mut line = String::from_str(alloc, "[")?;
    let mut semicolon = "";
    for member in members {
        let asked = asked_by(alloc, member)?;
        write!(line, "{semicolon}{asked}")?;
        semicolon = ";";
    }
    line.push(']')?;
    Ok(line)
}

/// What JSON asks: the query, the operation's name, how many variables and extensions; or what is wrong with it.
fn asked_by(alloc: Global, json: &Value) -> Result<String, AllocError> {
    match request_of(json) {
        Ok(request) => {
            let query = request.query;
            let name = request.operation_name.unwrap_or("-");
            let variables = count(alloc, request.variables)?;
            let extensions = count(alloc, request.extensions)?;
            format!(in alloc; "{query} {name} {variables} {extensions}")
        }
        Err(error) => format!(in alloc; "{error}"),
    }
}

/// How many members there are, or a dash.
fn count(alloc: Global, members: Option<&Members>) -> Result<String, AllocError> {
    match members {
        Some(members) => format!(in alloc; "{}", members.len()),
        None => String::from_str(alloc, "-"),
    }
}
