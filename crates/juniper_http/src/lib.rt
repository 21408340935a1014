//! GraphQL over HTTP: from a parsed HTTP request to a response, over any endpoint that answers requests.
//!
//! [`GraphQLService`] is a `Service` of `http_server`: bytes, framing, keep-alive, `content-length` and `HEAD` are that crate's.
#![tactic(auto)]

mod accept;
mod batch;
mod connection;
mod content_type;
mod credentials;
mod decision;
mod denial;
mod endpoint;
mod guarded;
mod media;
mod origins;
mod outcome;
mod page;
mod parameters;
mod parts;
mod plan;
mod refusal;
mod respond;
mod service;

pub use accept::{Range, add_ranges, choose, has_range, wants_page, weight_of};
pub use connection::serve_connection;
pub use credentials::bearer_token;
pub use decision::{Body, Facts, Step, Verb, decide};
pub use denial::Denial;
pub use endpoint::{Endpoint, Reply};
pub use guarded::{Guarded, GuardedService};
pub use media::MediaType;
pub use origins::AllowedOrigins;
pub use outcome::{Outcome, status_of};
pub use page::PAGE;
pub use parts::RequestParts;
pub use plan::{Limits, Plan, plan_of};
pub use refusal::Refusal;
pub use service::GraphQLService;
