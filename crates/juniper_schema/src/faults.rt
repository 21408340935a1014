//! Why requests cannot be executed on a schema (section 3 of the Specification): the first clause that fails, and where.

mod entries;
mod fault;
mod parts;
mod reserved;
mod roots;
mod scalars;

ghost use Rattle.std.specs.Prelude.{◌≡◌, IfOk, MatchOption, map, option_map, true};
ghost use Rattle.graphql_spec.specs.Executable as spec;
ghost use Rattle.juniper_schema.specs.Faults.{IsFirstFault, NamesDiffer, view_fault};
ghost use Rattle.juniper_schema.specs.Searching.{fault_among, first_fault, view_named};
ghost use Rattle.juniper_schema.specs.SchemaView.{view_schema};

use crate::faults::entries::{NamedType, entries};
pub use crate::faults::fault::{Demand, SchemaFault};
use crate::faults::parts::fault_of;
use crate::faults::reserved::first_taken;
use crate::faults::roots::root_fault;
use crate::faults::scalars::scalar_fault;
use crate::schema::SchemaType;
use juniper_syntax::ScalarValue;
use std::alloc::{AllocError, Global};

/// Why requests cannot be executed on the schema: the first clause of `schema_is_executable` that fails, the name of a type that it
/// fails at, and the field, value, interface or member, if it is not the type itself. `None` where the schema can be executed. An
/// error where memory is refused.
pub fn schema_fault<'s, S: ScalarValue>(
    alloc: Global,
    schema: &'s SchemaType<S>,
) -> Result<Option<SchemaFault<'s>>, AllocError>
    ensures { NamesDiffer (view_schema S.shown schema.now) → IfOk result (λ found.
        MatchOption found (spec.is_executable (view_schema S.shown schema.now) ≡ true)
        (λ fault. IsFirstFault (view_schema S.shown schema.now) (view_fault fault))) }
{
    let names = schema.type_names(alloc)?;
    match first_taken(&names) {
        Some(name) => Ok(Some(SchemaFault::of_type(Demand::EntryNames, name))),
        None => {
            let entries = entries(alloc, schema, &names)?;
            Ok(fault_among(schema, &entries))
        }
    }
}

/// The first fault, where these are the entries.
fn fault_among<'s, S: ScalarValue>(
    schema: &'s SchemaType<S>,
    entries: &[NamedType<'s, S>],
) -> Option<SchemaFault<'s>>
    ensures { option_map view_fault result ≡ fault_among (view_schema S.shown schema.now) (map (view_named S.shown) entries.now) }
{
    first_fault(schema, Demand::EntryNames, entries)
        .or(root_fault(schema))
        .or(first_fault(schema, Demand::KnownTypes, entries))
        .or(first_fault(schema, Demand::DistinctNames, entries))
        .or(first_fault(schema, Demand::Interfaces, entries))
        .or(first_fault(schema, Demand::Defaults, entries))
        .or(scalar_fault(schema))
}

/// The first fault of these entries.
fn first_fault<'s, S: ScalarValue>(
    schema: &SchemaType<S>,
    demand: Demand,
    entries: &[NamedType<'s, S>],
) -> Option<SchemaFault<'s>>
    ensures { option_map view_fault result ≡ first_fault (view_schema S.shown schema.now) demand (map (view_named S.shown) entries.now) }
{
    for entry in entries {
        match fault_of(schema, demand, entry) {
            Some(fault) => return Some(fault),
            None => {}
        }
    }
    None
}
