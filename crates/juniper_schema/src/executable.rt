//! Schemas that can be executed (sections 3.3.1 and 3.5 to 3.11 of the Specification).

pub(crate) mod defaults;
pub(crate) mod distinct_names;
pub(crate) mod entry_names;
pub(crate) mod interfaces;
pub(crate) mod known_types;
pub(crate) mod roots;
pub(crate) mod scalars;

ghost use Rattle.std.specs.Prelude.{◌≡◌};
ghost use Rattle.graphql_spec.specs.Executable as spec;
ghost use Rattle.juniper_schema.specs.SchemaView.{view_schema};

use crate::executable::defaults::defaults_fit;
use crate::executable::distinct_names::all_names_differ;
use crate::executable::entry_names::entries_are_named;
pub use crate::executable::entry_names::is_reserved;
use crate::executable::interfaces::interfaces_are_met;
use crate::executable::known_types::types_are_known;
use crate::executable::roots::roots_are_objects;
use crate::executable::scalars::built_ins_are_right;
use crate::schema::SchemaType;
use juniper_syntax::ScalarValue;

/// Whether requests can be executed on the schema (3): its entries are named as they should be (2.1.9, 3.3), its root types
/// are objects (3.3.1), fields end in types for output, arguments and input fields in types for input (3.4.2), names differ
/// in each list (3.6, 3.8 to 3.10), interfaces are implemented (3.6, 3.7), defaults are constants that fit (3.6.1, 3.10),
/// and the built-in scalars accept their own kinds (3.5).
#[tactic(auto, unfolding(graphql_spec::specs::Executable::is_executable))]
pub fn schema_is_executable<S: ScalarValue>(schema: &SchemaType<S>) -> bool
    ensures { result ≡ spec.is_executable (view_schema S.shown schema.now) }
{
    entries_are_named(schema)
        && roots_are_objects(schema)
        && types_are_known(schema)
        && all_names_differ(schema)
        && interfaces_are_met(schema)
        && defaults_fit(schema)
        && built_ins_are_right(schema)
}
