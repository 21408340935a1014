//! An issue tracker: each line of standard input is a request of JSON, as clients send it, and the response to it is printed as
//! a line of JSON. The requests are executed one after the other on one tracker.
#![tactic(auto)]

mod resolvers;
mod start;
mod tracker;
mod types;

use juniper::words::served;
use juniper::{DefaultScalarValue, Variables, execute_sync};
use juniper_json::{given_variables, response_line};
use juniper_request::{
    GraphQLBatchRequest, GraphQLRequest, RequestError, read_request, request_of,
};
use resolvers::{Mutation, Query};
use start::start;
use std::alloc::{AllocError, Global};
use std::io;
use std::io::BufRead;
use tracker::Tracker;

/// The response to a request with these values of its variables.
fn executed(
    alloc: Global,
    request: &GraphQLRequest<'_>,
    variables: &Variables<DefaultScalarValue>,
    tracker: &mut Tracker,
) -> Result<String, AllocError> {
    let root = match served(alloc, Query, Mutation, &types::TYPES) {
        Ok(root) => root,
        Err(error) => return error.to_string(alloc),
    };
    let name = request.operation_name;
    let outcome = execute_sync(alloc, request.query, name, &root, variables, tracker);
    response_line(alloc, &outcome)
}

/// The response to a request, with the values of variables that it gives.
fn respond(
    alloc: Global,
    request: &GraphQLRequest<'_>,
    tracker: &mut Tracker,
) -> Result<String, AllocError> {
    let Some(members) = request.variables else {
        return executed(alloc, request, &Variables::new(alloc), tracker);
    };
    let given = given_variables(alloc, members)?;
    if !given.refused.is_empty() {
        return refused(alloc, "a variable has a number that is no Int");
    }
    executed(alloc, request, &given.values, tracker)
}

/// The response to a line: to its request, or why it is none. A batch of requests is none here.
fn response_to(alloc: Global, line: &[u8], tracker: &mut Tracker) -> Result<String, AllocError> {
    match read_request(alloc, line)? {
        Err(error) => refused(alloc, error.to_string(alloc)?.as_str()),
        Ok(GraphQLBatchRequest::Batch(_)) => refused(alloc, RequestError::NotAnObject.message()),
        Ok(GraphQLBatchRequest::Single(json)) => match request_of(&json) {
            Err(error) => refused(alloc, error.message()),
            Ok(request) => respond(alloc, &request, tracker),
        },
    }
}

/// The response that tells an error alone. The messages have no character that JSON writes otherwise.
fn refused(alloc: Global, message: &str) -> Result<String, AllocError> {
    format!(in alloc; "{{\"errors\":[{{\"message\":\"{message}\"}}]}}")
}

fn main(rt: HostRuntime) -> io::Result<()> {
    let alloc = rt.alloc();
    let mut tracker = start(alloc)?;
    for line in rt.reader().split(alloc, b'\n') {
        let request = line?;
        let response = response_to(alloc, request.as_slice(), &mut tracker)?;
        println!(rt; "{response}")?;
    }
    Ok(())
}
