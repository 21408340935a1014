//! The parameters of a `GET`.

ghost use Rattle.std.specs.Prelude.{◌≡◌, IfOk, option_map, string_bytes};
ghost use Rattle.std.specs.Result.{result_map_both};
ghost use Rattle.serde_json.specs.View.{members_view, view};
ghost use Rattle.juniper_request.specs.Requests.{maybe_members_in};
ghost use Rattle.juniper_http.specs.Parameters.{AreMembers, IsAskedBy, given_in, members_or, name_given, view_parameters, with_value};
ghost use Rattle.juniper_http.specs.Parts.{asked_by};

use crate::parts::RequestParts;
use crate::refusal::Refusal;
use juniper_request::{Members, NotJson, RequestError};
use serde_json::Value;
use std::alloc::{AllocError, Global};

/// The parameters of a query: of each name the last value.
#[derive(Drop)]
pub struct Parameters {
    /// The text of a document.
    pub query: Option<String>,
    /// The name of the operation; an empty one is none.
    pub operation_name: Option<String>,
    /// JSON, an object.
    pub variables: Option<String>,
    /// JSON, an object.
    pub extensions: Option<String>,
}

/// The parameters that a query gives; others are passed over.
pub fn parameters_in(alloc: Global, query: &str) -> Result<Parameters, AllocError>
    ensures { IfOk result (λ found. view_parameters found ≡ given_in query.now) }
{
    let mut found = Parameters {
        query: None,
        operation_name: None,
        variables: None,
        extensions: None,
    };
    for pair in form_urlencoded::parse(alloc, query.as_bytes()).into_owned() {
        let (name, value) = pair?;
        found = found.with(name.as_str(), value);
    }
    Ok(found)
}

impl Parameters {
    /// The parameters, with this value at the name.
    fn with(self, name: &str, value: String) -> Parameters
        ensures { view_parameters result ≡ with_value name.now (string_bytes value) (view_parameters self) }
    {
        match name {
            "query" => Parameters {
                query: Some(value),
                ..self
            },
            "operationName" => Parameters {
                operation_name: Some(value),
                ..self
            },
            "variables" => Parameters {
                variables: Some(value),
                ..self
            },
            "extensions" => Parameters {
                extensions: Some(value),
                ..self
            },
            _ => self,
        }
    }
}

/// The request that parameters give.
pub fn parts_in(
    alloc: Global,
    parameters: Parameters,
) -> Result<Result<RequestParts, Refusal>, AllocError>
    ensures { IfOk result (λ r. IsAskedBy (view_parameters parameters) (result_map_both asked_by (λ why. why) r)) }
{
    let Parameters {
        query,
        operation_name,
        variables,
        extensions,
    } = parameters;
    let Some(query) = query else {
        return Ok(Err(Refusal::NotARequest(RequestError::Query)));
    };
    let variables = match members_in(alloc, variables, RequestError::Variables)? {
        Ok(variables) => variables,
        Err(refusal) => return Ok(Err(refusal)),
    };
    match members_in(alloc, extensions, RequestError::Extensions)? {
        Ok(extensions) => Ok(Ok(RequestParts {
            query,
            operation_name: name_given(operation_name),
            variables,
            extensions,
        })),
        Err(refusal) => Ok(Err(refusal)),
    }
}

/// The name of the operation; an empty one is none.
fn name_given(given: Option<String>) -> Option<String>
    ensures { option_map string_bytes result ≡ name_given (option_map string_bytes given) }
{
    match given {
        Some(name) if !name.is_empty() => Some(name),
        _ => None,
    }
}

/// The members of the object that a text is, which may be missing or null; this error where it is something else.
fn members_in(
    alloc: Global,
    text: Option<String>,
    error: RequestError,
) -> Result<Result<Option<Members>, Refusal>, AllocError>
    ensures { IfOk result (λ r. AreMembers error (option_map string_bytes text) (result_map_both (option_map (λ m. members_view m.entries)) (λ why. why) r)) }
{
    let Some(given) = text else {
        return Ok(Ok(None));
    };
    match Value::from_str(alloc, given.as_str()) {
        Ok(json) => Ok(members_of(json, error)),
        Err(fault) => match fault.is_memory() {
            true => Err(AllocError),
            false => Ok(Err(Refusal::NotJson(NotJson {
                line: fault.line(),
                column: fault.column(),
            }))),
        },
    }
}

/// The members of an object, or of none where it is null.
fn members_of(json: Value, error: RequestError) -> Result<Option<Members>, Refusal>
    ensures { result_map_both (option_map (λ m. members_view m.entries)) (λ why. why) result ≡ members_or error (maybe_members_in (Some (view json))) }
{
    match json {
        Value::Null => Ok(None),
        Value::Object(members) => Ok(Some(members)),
        _ => Err(Refusal::NotARequest(error)),
    }
}
