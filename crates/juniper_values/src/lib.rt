//! Values between a server and its resolvers: arguments, and what is answered. Conversions and errors are passed on.
#![tactic(auto)]

mod answers;
mod arguments;
mod into_resolvable;
mod reading;
mod resolved;
mod scalars;
mod wrappers;

pub use answers::{add, fails, int, list, null, object, text};
pub use arguments::Arguments;
pub use into_resolvable::{IntoResolvable, OfNode};
pub use juniper_conversions::{
    ExecutionError, ExecutionResult, FieldError, FieldResult, FromInputValue,
    FromInputValueArrayError, FromInputValueVecError, FromScalarValue, ID, IntoFieldError,
    Nullable, PathPart, PathSegment, ResolveError, ToInputValue, ToScalarValue,
};
pub use reading::{EnumName, NamedValue, enum_argument, int_argument};
pub use resolved::Resolved;
