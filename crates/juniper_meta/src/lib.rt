//! Declarations of types and directives (section 3 of the Specification), and those that every schema has (3.5, 3.13, 4.2).
#![tactic(auto)]

mod built_in_directives;
mod declaration;
mod directive;
mod fields;
mod introspection;
mod introspection_fields;
mod kinds;
pub mod meta;
mod scalars;

pub use built_in_directives::directives;
pub use declaration::{declares_value, find_argument, find_field};
pub use directive::{DirectiveLocation, DirectiveType};
pub use introspection::introspection_types;
pub use introspection_fields::meta_fields;
pub use kinds::ScalarKinds;
pub use meta::{
    Argument, DeprecationStatus, EnumMeta, EnumValue, InputObjectMeta, InterfaceMeta, ListMeta,
    MetaType, NullableMeta, ObjectMeta, PlaceholderMeta, ScalarMeta, UnionMeta,
};
pub use scalars::{boolean_scalar, id_scalar, int_scalar, string_scalar};
