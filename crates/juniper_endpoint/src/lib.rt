//! What stands behind HTTP: a root whose requests are executed in one context, within bounds (section 6.1 of the Specification).
//!
//! [`RootEndpoint`] is an `Endpoint` of `juniper_http`: each reply is the text of the outcome that `juniper::execute_sync` promises, or
//! says why the request is not executed. Where a document is not valid, the errors explain why, node by node, and where given values do
//! not fit, part by part. [`serve`] is a whole program over one: over standard input and output it serves HTTP, lines of JSON, or the
//! schema's text.
#![tactic(auto)]

mod endpoint;
mod explained;
mod given;
mod guard;
pub mod guard_laws;
pub mod laws;
mod lines;
mod logged;
mod look;
mod mode;
mod replied;
mod request_lines;
mod serving;
mod values;

pub use endpoint::RootEndpoint;
pub use guard::{Guard, GuardedEndpoint};
pub use logged::Logged;
pub use mode::{Mode, mode_of};
pub use request_lines::response_to;
pub use serving::{Host, ServerLimits, report, serve, serve_endpoint, serve_http};
