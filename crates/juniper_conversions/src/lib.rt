//! Conversions of scalars (section 3.5 of the Specification), and between input values and the types of resolvers (3.12), with
//! [`ID`] (3.5.5) and [`Nullable`] (2.9.5); the errors of fields and of executions, with their paths (7.1.2).
#![tactic(auto)]

mod conversion_errors;
mod convert;
pub mod error_laws;
mod execution_error;
mod field_error;
mod field_path;
mod id_conversions;
mod id_scalars;
mod identifier;
pub mod identifier_laws;
mod into_field_error;
pub mod laws;
mod list_conversions;
pub mod list_laws;
mod nullable;
mod nullable_combinators;
pub mod nullable_laws;
mod nullable_references;
pub mod scalar_laws;
mod scalar_traits;
mod segment;
mod wrapped_conversions;

pub use conversion_errors::{FromInputValueArrayError, FromInputValueVecError};
pub use convert::{FromInputValue, ToInputValue};
pub use execution_error::ExecutionError;
pub use field_error::{ExecutionResult, FieldError, FieldResult, ResolveError, error_of_message};
pub use field_path::FieldPath;
pub use id_scalars::shown_id;
pub use identifier::ID;
pub use into_field_error::IntoFieldError;
pub use list_conversions::list_of;
pub use nullable::Nullable;
pub use scalar_traits::{FromScalarValue, ToScalarValue, another_scalar};
pub use segment::{PathPart, PathSegment};
