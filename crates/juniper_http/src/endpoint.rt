//! What stands behind HTTP.

ghost use Rattle.std.specs.Prelude.{◌≡◌, Bool, string_bytes};
ghost use Rattle.juniper_request.specs.Requests.{Asked, view_request};
ghost use Rattle.juniper_http.specs.Outcomes.{reply_text};
ghost use Rattle.juniper_http.specs.declared.endpoint.Reply.{Reply};

use crate::outcome::Outcome;
use juniper_request::GraphQLRequest;
use std::alloc::Global;

/// The body of a reply where memory is refused.
const OUT_OF_MEMORY: &str = "{\"errors\":[{\"message\":\"Out of memory\"}]}";

/// What an endpoint replies: what came of the request, and the line of JSON that says so. Where memory is refused the line counts
/// for nothing.
#[derive(Debug, Drop)]
pub struct Reply {
    /// What came of the request.
    pub outcome: Outcome,
    /// The response.
    pub line: String,
}

impl Reply {
    /// The body that says it.
    pub fn text(&self) -> &str
        ensures { result.now ≡ reply_text self.now.outcome (string_bytes self.now.line) }
    {
        match self.outcome {
            Outcome::Executed | Outcome::Refused | Outcome::Writes => self.line.as_str(),
            Outcome::OutOfMemory => OUT_OF_MEMORY,
        }
    }
}

/// Answers requests, one after another, and holds what they share.
pub trait Endpoint {
    // From the first state, the reply answers the request, which may write or not, and leaves the second state.
    ghost replies: { Self → Asked → Bool → Reply → Self → Type 0 };

    /// Replies to a request. One that may not write leaves the endpoint as it was.
    fn reply(&mut self, alloc: Global, request: &GraphQLRequest<'_>, may_write: bool) -> Reply
        ensures { replies self.old (view_request request.now) may_write result self.new };
}
