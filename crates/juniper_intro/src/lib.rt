//! Introspection, and the root of a server (section 4 of the Specification).
#![tactic(auto)]

mod absent;
mod answers;
mod arguments;
mod error;
mod handle;
mod introspector;
pub mod laws;
mod names;
mod node;
mod nodes;
mod reference;
mod resolver;
mod root;
mod rooted;
mod schema;
mod types;
mod words;

pub use error::RootError;
pub use handle::{Handle, InputPlace, TypePlace};
pub use introspector::Introspector;
pub use node::RootedNode;
pub use root::RootNode;
pub use rooted::rooted_answer;
