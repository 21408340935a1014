//! The media types of answers.

ghost use Rattle.std.specs.Prelude.{◌≡◌};
ghost use Rattle.http_header.specs.FieldValue.{plain_value};
ghost use Rattle.juniper_http.specs.Media.{media_text};

use http::HeaderValue;

/// How an answer is labelled, and so which statuses it has.
#[derive(Clone, Copy, Debug, PartialEq, Eq, Drop)]
pub enum MediaType {
    /// `application/graphql-response+json`: a request that is refused has a status of its own.
    GraphqlResponse,
    /// `application/json`: whatever is well formed has status 200.
    Json,
}

impl MediaType {
    /// The value of `content-type`.
    pub fn content_type(self) -> HeaderValue
        ensures { result ≡ plain_value (media_text self) }
    {
        match self {
            MediaType::GraphqlResponse => {
                HeaderValue::from_static("application/graphql-response+json; charset=utf-8")
            }
            MediaType::Json => HeaderValue::from_static("application/json; charset=utf-8"),
        }
    }
}
