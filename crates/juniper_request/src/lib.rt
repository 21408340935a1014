//! What the JSON of a request asks: one request, or a batch of them ("GraphQL over HTTP", request parameters).
//!
//! `read_request` reads the bytes, and `request_of` tells what one of the requests asks, or what is wrong with it.
#![tactic(auto)]

mod error;
mod read;
mod request;

pub use error::{NotJson, RequestError};
pub use read::{GraphQLBatchRequest, read_request};
pub use request::{GraphQLRequest, Members, request_of};
