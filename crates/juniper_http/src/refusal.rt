//! Why a request gets no answer of the endpoint's.

ghost use Rattle.std.specs.Prelude.{◌≡◌, IfOk, string_bytes};
ghost use Rattle.juniper_http.specs.Refusals.{refusal_message, refusal_status, refusal_text};

use juniper_request::{NotJson, RequestError};
use std::alloc::{AllocError, Global};

/// Why a request is refused before it is put to the endpoint.
#[derive(Clone, Copy, Debug, PartialEq, Eq, Drop)]
pub enum Refusal {
    /// No such path.
    NotFound,
    /// Only `GET`, `HEAD`, `POST` and `OPTIONS` are answered.
    Method,
    /// `Accept` takes none of the media types.
    NotAcceptable,
    /// The body has another media type, or another coding of characters, than JSON or a document in UTF-8; or it has several types.
    MediaType,
    /// The body has a coding, such as gzip.
    Coding,
    /// The body is larger than the limit.
    TooLarge,
    /// The body, or a parameter of a `GET` that should be, is no JSON.
    NotJson(NotJson),
    /// It is no GraphQL request.
    NotARequest(RequestError),
    /// A batch with no request.
    EmptyBatch,
    /// A batch with more requests than the limit.
    LongBatch,
    /// A member of a batch whose earlier members were replied more bytes than the limit.
    LongAnswer,
}

impl Refusal {
    /// The status.
    pub fn status(self) -> u16
        ensures { result ≡ refusal_status self }
    {
        match self {
            Refusal::NotFound => 404,
            Refusal::Method => 405,
            Refusal::NotAcceptable => 406,
            Refusal::MediaType | Refusal::Coding => 415,
            Refusal::TooLarge | Refusal::LongBatch | Refusal::LongAnswer => 413,
            Refusal::NotJson(_) | Refusal::NotARequest(_) | Refusal::EmptyBatch => 400,
        }
    }

    /// What is told of it.
    pub fn message(self, alloc: Global) -> Result<String, AllocError>
        ensures { IfOk result (λ made. string_bytes made ≡ refusal_message self) }
    {
        let text = match self {
            Refusal::NotFound => "not found",
            Refusal::Method => "only GET, HEAD, POST and OPTIONS are supported",
            Refusal::NotAcceptable =>
                "accept application/graphql-response+json or application/json",
            Refusal::MediaType => "the body must be JSON in UTF-8",
            Refusal::Coding => "the body must have no content-encoding",
            Refusal::TooLarge => "the body is too large",
            Refusal::NotJson(fault) => return fault.to_string(alloc),
            Refusal::NotARequest(error) => error.message(),
            Refusal::EmptyBatch => "the batch is empty",
            Refusal::LongBatch => "the batch is too long",
            Refusal::LongAnswer => "the answers to the batch are too long",
        };
        String::from_str(alloc, text)
    }

    /// The body that tells it: well-formed errors, and no data.
    pub fn text(self, alloc: Global) -> Result<String, AllocError>
        ensures { IfOk result (λ made. string_bytes made ≡ refusal_text self) }
    {
        let message = self.message(alloc)?;
        let mut made = String::from_str(alloc, "{\"errors\":[{\"message\":\"")?;
        made.push_str(message.as_str())?;
        made.push_str("\"}]}")?;
        Ok(made)
    }
}
