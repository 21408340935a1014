//! Requests in lines.

ghost use Rattle.std.specs.Prelude.{◌≡◌, List, ℕ, IfOk, string_bytes};
ghost use Rattle.juniper_request.specs.Requests.{request_in};
ghost use Rattle.serde_json.specs.View.{view};
ghost use Rattle.juniper_http.specs.Batches.{PutsAsked};
ghost use Rattle.juniper_endpoint.specs.RequestLines.{AnswersLine, Says};

use juniper_http::{Endpoint, Refusal};
use juniper_request::{GraphQLBatchRequest, RequestError, read_request, request_of};
use serde_json::Value;
use std::alloc::{AllocError, Global};

/// The response to the request that the bytes of a line ask: what the endpoint replies, or why it is no request. A batch is none here.
pub fn response_to<E: Endpoint>(
    alloc: Global,
    endpoint: &mut E,
    line: &[u8],
) -> Result<String, AllocError>
    ensures { Says (AnswersLine E.replies line.now) endpoint.old result endpoint.new }
{
    match read_request(alloc, line)? {
        Err(fault) => Refusal::NotJson(fault).text(alloc),
        Ok(GraphQLBatchRequest::Batch(_)) => {
            Refusal::NotARequest(RequestError::NotAnObject).text(alloc)
        }
        Ok(GraphQLBatchRequest::Single(json)) => response_to_json(alloc, endpoint, &json),
    }
}

/// The response to the request that JSON is.
fn response_to_json<E: Endpoint>(
    alloc: Global,
    endpoint: &mut E,
    json: &Value,
) -> Result<String, AllocError>
    ensures { Says (PutsAsked E.replies (request_in (view json.now))) endpoint.old result endpoint.new }
{
    match request_of(json) {
        Err(error) => Refusal::NotARequest(error).text(alloc),
        Ok(request) => {
            let reply = endpoint.reply(alloc, &request, true);
            String::from_str(alloc, reply.text())
        }
    }
}
