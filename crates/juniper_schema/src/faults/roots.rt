//! The root types of a schema (section 3.3.1 of the Specification).

ghost use Rattle.std.specs.Prelude.{◌≡◌, Some, option_map};
ghost use Rattle.graphql_spec.specs.Executable as spec;
ghost use Rattle.juniper_schema.specs.Faults.{view_fault};
ghost use Rattle.juniper_schema.specs.Searching.{mutation_fault, root_fault};
ghost use Rattle.juniper_schema.specs.SchemaView.{view_schema};

use crate::executable::roots::is_object;
use crate::faults::fault::{Demand, SchemaFault};
use crate::schema::SchemaType;
use juniper_syntax::ScalarValue;

/// The fault of the root types (3.3.1).
#[tactic(auto, unfolding(crate::specs::Searching::root_fault))]
pub fn root_fault<S: ScalarValue>(schema: &SchemaType<S>) -> Option<SchemaFault<'_>>
    ensures { option_map view_fault result ≡ root_fault (view_schema S.shown schema.now) }
{
    let name = schema.query_name();
    SchemaFault::unless(is_object(schema, name), Demand::RootTypes, name).or(mutation_fault(schema))
}

/// The fault of the mutation type (3.3.1).
#[tactic(auto, unfolding(crate::specs::Searching::mutation_fault))]
fn mutation_fault<S: ScalarValue>(schema: &SchemaType<S>) -> Option<SchemaFault<'_>>
    ensures { option_map view_fault result ≡ mutation_fault (view_schema S.shown schema.now) (view_schema S.shown schema.now).mutation }
{
    match schema.mutation_name() {
        Some(name) => {
            SchemaFault::unless(mutation_is_apart(schema, name), Demand::RootTypes, name)
        }
        None => None,
    }
}

/// Whether a mutation type of this name is an object and not the query type.
#[tactic(auto, unfolding(graphql_spec::specs::Executable::mutation_is_apart))]
fn mutation_is_apart<S: ScalarValue>(schema: &SchemaType<S>, name: &str) -> bool
    ensures { result ≡ spec.mutation_is_apart (view_schema S.shown schema.now) (Some name.now) }
{
    is_object(schema, name) && name != schema.query_name()
}
