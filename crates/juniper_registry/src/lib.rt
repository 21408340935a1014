//! Types of GraphQL by Rust types, and the registry that gathers their declarations (section 3 of the Specification).
#![tactic(auto)]

mod awaiting;
mod build;
mod declarations;
mod error;
mod graphql_type;
mod names;
mod nullables;
mod registry;
mod scalars;
mod type_kind;
mod wrappers;

pub use declarations::names_of;
pub use error::RegistryError;
pub use graphql_type::{GraphQLReference, GraphQLType};
pub use registry::Registry;
pub use type_kind::TypeKind;
