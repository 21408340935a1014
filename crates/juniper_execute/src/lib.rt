//! Queries and mutations, executed (section 6.2 of the Specification): what is asked of resolvers, the steps of a mutation, and the
//! two ways to walk what an operation selects.
#![tactic(auto)]

mod allowance;
mod coerce;
mod execute;
mod mutation;
mod node_resolver;
mod question;
mod replying;
mod root_walk;
mod served;
mod service;
mod small;
mod walking;
mod weight;

pub use execute::{execute_mutation, execute_query};
pub use node_resolver::{MutationSteps, NodeResolver, NodeTypes, Nodes, Replies};
pub use question::undeclared_type;
pub use served::Served;
pub use walking::Walking;
