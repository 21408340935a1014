//! The bytes of a request.

ghost use Rattle.std.specs.Prelude.{◌≡◌, IfOk};
ghost use Rattle.serde_json.specs.View.{view};
ghost use Rattle.juniper_request.specs.Requests.{IsRead, body_in, view_body};

use crate::error::NotJson;
use serde_json::Value;
use std::alloc::{AllocError, Global};

/// The JSON of requests: that of one, or of several in order. `request_of` tells what each asks.
#[derive(Drop)]
pub enum GraphQLBatchRequest {
    /// One request.
    Single(Value),
    /// The members of an array, each a request.
    Batch(Vec<Value>),
}

/// Reads the bytes of one request or of a batch, JSON in UTF-8; an array is a batch. An error inside tells where the bytes
/// are no JSON, and one outside that memory is refused.
pub fn read_request(
    alloc: Global,
    bytes: &[u8],
) -> Result<Result<GraphQLBatchRequest, NotJson>, AllocError>
    ensures { IfOk result (IsRead bytes.now) }
{
    match Value::from_slice(alloc, bytes) {
        Ok(value) => Ok(Ok(body_of(value))),
        Err(error) => match error.is_memory() {
            true => Err(AllocError),
            false => Ok(Err(NotJson {
                line: error.line(),
                column: error.column(),
            })),
        },
    }
}

/// The requests that JSON holds.
fn body_of(json: Value) -> GraphQLBatchRequest
    ensures { view_body result ≡ body_in (view json) }
{
    match json {
        Value::Array(members) => GraphQLBatchRequest::Batch(members),
        single => GraphQLBatchRequest::Single(single),
    }
}
