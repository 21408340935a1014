//! Types of GraphQL by Rust types, resolvers, and what they are asked with.
#![tactic(auto)]

mod boxes;
mod context;
mod empty;
mod executing;
mod executor;
mod mutation;
mod references;
mod resolver;

pub use context::{Context, FromContext};
pub use empty::{EmptyMutation, EmptySubscription};
pub use executing::first_of;
pub use executor::Executor;
pub use juniper_conversions::FieldPath;
pub use juniper_registry::{GraphQLReference, GraphQLType, Registry, RegistryError, TypeKind};
pub use juniper_values::{IntoResolvable, OfNode, Resolved};
pub use mutation::GraphQLMutationValue;
pub use resolver::GraphQLValue;
