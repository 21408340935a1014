//! The built-in scalars (section 3.5 of the Specification).

ghost use Rattle.std.specs.Prelude.{◌≡◌, option_map};
ghost use Rattle.juniper_schema.specs.declared.faults.fault.Demand.TheVariants as Demand;
ghost use Rattle.juniper_schema.specs.Faults.{view_fault};
ghost use Rattle.juniper_schema.specs.Searching.{fault_unless, scalar_fault};
ghost use Rattle.juniper_schema.specs.SchemaView.{view_schema};

use crate::executable::scalars::{BOOLEANS, INTS, KEYS, TEXTS, accepts_just, scalar_if_there};
use crate::faults::fault::{Demand, SchemaFault};
use crate::schema::SchemaType;
use juniper_syntax::ScalarValue;

/// The fault of the built-in scalars: `String` and `Boolean` have to be there, and each that is there accepts just its own kinds (3.5).
#[tactic(auto, using(crate::proofs::Searched::map_or), unfolding(crate::specs::Searching::scalar_fault))]
pub fn scalar_fault<'s, S: ScalarValue>(schema: &SchemaType<S>) -> Option<SchemaFault<'s>>
    ensures { option_map view_fault result ≡ scalar_fault (view_schema S.shown schema.now) }
{
    fault_unless(accepts_just(schema, "String", TEXTS), "String")
        .or(fault_unless(accepts_just(schema, "Boolean", BOOLEANS), "Boolean"))
        .or(fault_unless(scalar_if_there(schema, "Int", INTS), "Int"))
        .or(fault_unless(scalar_if_there(schema, "ID", KEYS), "ID"))
}

/// The fault of the built-in scalar of this name, where it is not right.
fn fault_unless<'s>(is_right: bool, name: &'s str) -> Option<SchemaFault<'s>>
    ensures { option_map view_fault result ≡ fault_unless is_right Demand.BuiltInScalars name.now }
{
    SchemaFault::unless(is_right, Demand::BuiltInScalars, name)
}
