//! One request.

ghost use Rattle.std.specs.Prelude.{◌≡◌, option_map};
ghost use Rattle.serde_json.specs.View.{members_view, view};
ghost use Rattle.juniper_request.specs.Requests.{maybe_members_in, maybe_text_in, request_in, text_in, view_answer};

use crate::error::RequestError;
use serde_json::{Map, Value};

/// The members of a JSON object.
pub type Members = Map<String, Value>;

/// What a request asks.
#[derive(Clone, Copy, Debug)]
pub struct GraphQLRequest<'a> {
    /// The text of a document.
    pub query: &'a str,
    /// The name of the operation that is to be executed.
    pub operation_name: Option<&'a str>,
    /// The values of variables, by their names.
    pub variables: Option<&'a Members>,
    /// What else servers and clients agree on.
    pub extensions: Option<&'a Members>,
}

/// The request that JSON is: an object with a text `query`, and maybe a text `operationName` and objects `variables` and
/// `extensions`; null is as if missing, and other members are passed over. An error names what is wrong first.
pub fn request_of(json: &Value) -> Result<GraphQLRequest<'_>, RequestError>
    ensures { view_answer result ≡ request_in (view json.now) }
{
    if !json.is_object() {
        return Err(RequestError::NotAnObject);
    }
    let Some(query) = text(json.get("query")) else {
        return Err(RequestError::Query);
    };
    let Some(operation_name) = maybe_text(json.get("operationName")) else {
        return Err(RequestError::OperationName);
    };
    let Some(variables) = maybe_members(json.get("variables")) else {
        return Err(RequestError::Variables);
    };
    match maybe_members(json.get("extensions")) {
        Some(extensions) => Ok(GraphQLRequest {
            query,
            operation_name,
            variables,
            extensions,
        }),
        None => Err(RequestError::Extensions),
    }
}

/// A text; `None` where it is missing, or there is something else.
fn text(found: Option<&Value>) -> Option<&str>
    ensures { option_map (λ t. t.now) result ≡ text_in (option_map (λ v. view v.now) found.entry) }
{
    match found {
        Some(Value::String(text)) => Some(text.as_str()),
        _ => None,
    }
}

/// A text that may be missing or null; `None` where there is something else.
fn maybe_text(found: Option<&Value>) -> Option<Option<&str>>
    ensures { option_map (option_map (λ t. t.now)) result ≡ maybe_text_in (option_map (λ v. view v.now) found.entry) }
{
    match found {
        None | Some(Value::Null) => Some(None),
        Some(Value::String(text)) => Some(Some(text.as_str())),
        Some(_) => None,
    }
}

/// The members of an object that may be missing or null; `None` where there is something else.
fn maybe_members(found: Option<&Value>) -> Option<Option<&Members>>
    ensures { option_map (option_map (λ m. members_view m.now.entries)) result ≡ maybe_members_in (option_map (λ v. view v.now) found.entry) }
{
    match found {
        None | Some(Value::Null) => Some(None),
        Some(Value::Object(members)) => Some(Some(members)),
        Some(_) => None,
    }
}
