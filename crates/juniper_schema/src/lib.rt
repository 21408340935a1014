//! Schemas (section 3 of the Specification): types by name, and what is asked of them.
#![tactic(auto)]

mod built_ins;
mod executable;
mod faults;
mod fields;
mod fits;
mod lists;
mod named_types;
mod names;
mod schema;
mod subtypes;
mod type_type;

pub use executable::{is_reserved, schema_is_executable};
pub use faults::{Demand, SchemaFault, schema_fault};
pub use fits::has_field;
pub use juniper_meta::{
    Argument, DeprecationStatus, DirectiveLocation, DirectiveType, EnumMeta, EnumValue,
    InputObjectMeta, InterfaceMeta, ListMeta, MetaType, NullableMeta, ObjectMeta, PlaceholderMeta,
    ScalarKinds, ScalarMeta, UnionMeta, meta,
};
pub use schema::SchemaType;
pub use type_type::{TypeType, type_around};
