//! Requests that are given in parts.

ghost use Rattle.std.specs.Prelude.{◌≡◌, string_bytes};
ghost use Rattle.juniper_request.specs.Requests.{view_request};
ghost use Rattle.juniper_http.specs.Parts.{asked_by, asked_of};

use juniper_request::{GraphQLRequest, Members};

/// A request that is given in parts: by the parameters of a `GET`, or as the text of a document.
#[derive(Drop)]
pub struct RequestParts {
    /// The text of a document.
    pub query: String,
    /// The name of the operation.
    pub operation_name: Option<String>,
    /// The values of variables, by their names.
    pub variables: Option<Members>,
    /// What else servers and clients agree on.
    pub extensions: Option<Members>,
}

impl RequestParts {
    /// The request that a document alone is.
    pub fn of_document(query: String) -> RequestParts
        ensures { asked_by result ≡ asked_of (string_bytes query) }
    {
        RequestParts {
            query,
            operation_name: None,
            variables: None,
            extensions: None,
        }
    }

    /// The request.
    pub fn request(&self) -> GraphQLRequest<'_>
        ensures { view_request result ≡ asked_by self.now }
    {
        let operation_name = match &self.operation_name {
            Some(name) => Some(name.as_str()),
            None => None,
        };
        GraphQLRequest {
            query: self.query.as_str(),
            operation_name,
            variables: self.variables.as_ref(),
            extensions: self.extensions.as_ref(),
        }
    }
}
