//! What of an entry fails first.

ghost use Rattle.std.specs.Prelude.{◌≡◌, map, option_map};
ghost use Rattle.juniper_schema.specs.declared.faults.fault.Demand.TheVariants as Demand;
ghost use Rattle.juniper_schema.specs.Faults as faults;
ghost use Rattle.juniper_schema.specs.Searching.{fault_of, first_failing, first_member, view_named};
ghost use Rattle.juniper_meta.specs.MetaView.{view_argument, view_enum_value, view_field, view_names};
ghost use Rattle.juniper_schema.specs.SchemaView.{view_schema};

use crate::executable::defaults::{default_is_right, input_defaults_fit};
use crate::executable::distinct_names::{
    field_names_differ, input_names_differ, is_value_name, names_differ, value_names_differ,
};
use crate::executable::entry_names::{field_is_free, is_filled, is_name, is_own_name, is_reserved};
use crate::executable::interfaces::implements;
use crate::executable::known_types::{ends_in_input, field_is_known};
use crate::executable::roots::is_object;
use crate::faults::entries::NamedType;
use crate::faults::fault::{Demand, SchemaFault};
use crate::schema::SchemaType;
use juniper_meta::meta::{Argument, EnumValue, Field};
use juniper_syntax::ScalarValue;

/// The fault of an entry.
#[tactic(auto, unfolding(crate::specs::Searching::fault_of))]
pub fn fault_of<'s, S: ScalarValue>(
    schema: &SchemaType<S>,
    demand: Demand,
    entry: &NamedType<'s, S>,
) -> Option<SchemaFault<'s>>
    ensures { option_map faults.view_fault result ≡ fault_of (view_schema S.shown schema.now) demand (view_named S.shown entry.now) }
{
    let type_name = entry.name;
    if !own_meets(demand, entry) {
        return Some(SchemaFault::of_type(demand, type_name));
    }
    match first_member(schema, demand, entry) {
        Some(member) => Some(SchemaFault {
            demand,
            type_name,
            member: Some(member),
        }),
        None => None,
    }
}

/// What an entry has that fails.
#[tactic(auto, using(crate::proofs::Searched::map_or), unfolding(graphql_spec::specs::Executable::shape_fields))]
fn first_member<'s, S: ScalarValue>(
    schema: &SchemaType<S>,
    demand: Demand,
    entry: &NamedType<'s, S>,
) -> Option<&'s str>
    ensures { option_map (λ n. n.now) result ≡ first_member (view_schema S.shown schema.now) demand (view_named S.shown entry.now) }
{
    let meta = entry.meta;
    first_field(schema, demand, meta.fields())
        .or(first_input(schema, demand, meta.input_fields()))
        .or(first_value(demand, meta.values()))
        .or(first_interface(schema, demand, entry, meta.interface_names()))
        .or(first_union_member(schema, demand, meta.of_type_names()))
}

/// Whether the entry itself meets what is asked.
#[tactic(auto, unfolding(crate::specs::Faults::own_meets, graphql_spec::specs::Executable::shape_fields))]
fn own_meets<S: ScalarValue>(demand: Demand, entry: &NamedType<'_, S>) -> bool
    ensures { result ≡ faults.own_meets demand (view_named S.shown entry.now) }
{
    match demand {
        Demand::EntryNames => is_named(entry),
        Demand::DistinctNames => own_names_differ(entry),
        Demand::RootTypes
        | Demand::KnownTypes
        | Demand::Interfaces
        | Demand::Defaults
        | Demand::BuiltInScalars => true,
    }
}

/// Whether it is a type of its own, and stands at its own name, which is not reserved.
#[tactic(auto, unfolding(crate::specs::Faults::own_meets))]
fn is_named<S: ScalarValue>(entry: &NamedType<'_, S>) -> bool
    ensures { result ≡ faults.own_meets Demand.EntryNames (view_named S.shown entry.now) }
{
    let NamedType { name, meta } = entry;
    is_filled(*meta) && is_own_name(*name, *meta) && is_name(*name) && !is_reserved(*name)
}

/// Whether the names differ in each of its lists.
#[tactic(auto, unfolding(crate::specs::Faults::own_meets, graphql_spec::specs::Executable::shape_fields))]
fn own_names_differ<S: ScalarValue>(entry: &NamedType<'_, S>) -> bool
    ensures { result ≡ faults.own_meets Demand.DistinctNames (view_named S.shown entry.now) }
{
    let meta = entry.meta;
    field_names_differ(meta.fields())
        && input_names_differ(meta.input_fields())
        && value_names_differ(meta.values())
        && names_differ(meta.interface_names())
        && names_differ(meta.of_type_names())
}

/// The name of the first field that fails.
fn first_field<'s, S: ScalarValue>(
    schema: &SchemaType<S>,
    demand: Demand,
    fields: &'s [Field<S>],
) -> Option<&'s str>
    ensures { option_map (λ n. n.now) result ≡ first_failing (λ f. f.name) (faults.field_meets (view_schema S.shown schema.now) demand)
        (map (view_field S.shown) fields.now) }
{
    for field in fields {
        if !field_meets(schema, demand, field) {
            return Some(field.name.as_str());
        }
    }
    None
}

/// Whether the field meets what is asked.
#[tactic(auto, unfolding(crate::specs::Faults::field_meets))]
fn field_meets<S: ScalarValue>(schema: &SchemaType<S>, demand: Demand, field: &Field<S>) -> bool
    ensures { result ≡ faults.field_meets (view_schema S.shown schema.now) demand (view_field S.shown field.now) }
{
    match demand {
        Demand::EntryNames => field_is_free(field),
        Demand::KnownTypes => field_is_known(schema, field),
        Demand::DistinctNames => input_names_differ(field.declared_arguments()),
        Demand::Defaults => input_defaults_fit(schema, field.declared_arguments()),
        Demand::RootTypes | Demand::Interfaces | Demand::BuiltInScalars => true,
    }
}

/// The name of the first field of an input object that fails.
fn first_input<'s, S: ScalarValue>(
    schema: &SchemaType<S>,
    demand: Demand,
    declared: &'s [Argument<S>],
) -> Option<&'s str>
    ensures { option_map (λ n. n.now) result ≡ first_failing (λ i. i.name) (faults.input_meets (view_schema S.shown schema.now) demand)
        (map (view_argument S.shown) declared.now) }
{
    for argument in declared {
        if !input_meets(schema, demand, argument) {
            return Some(argument.name.as_str());
        }
    }
    None
}

/// Whether the field of an input object meets what is asked.
#[tactic(auto, unfolding(crate::specs::Faults::input_meets, graphql_spec::specs::Executable::input_is_free))]
fn input_meets<S: ScalarValue>(
    schema: &SchemaType<S>,
    demand: Demand,
    argument: &Argument<S>,
) -> bool
    ensures { result ≡ faults.input_meets (view_schema S.shown schema.now) demand (view_argument S.shown argument.now) }
{
    match demand {
        Demand::EntryNames => !is_reserved(argument.name.as_str()),
        Demand::KnownTypes => ends_in_input(schema, argument),
        Demand::Defaults => default_is_right(schema, argument),
        Demand::RootTypes | Demand::DistinctNames | Demand::Interfaces | Demand::BuiltInScalars =>
            true,
    }
}

/// The name of the first value of an enum that fails.
fn first_value(demand: Demand, values: &[EnumValue]) -> Option<&str>
    ensures { option_map (λ n. n.now) result ≡ first_failing (λ v. v.name) (faults.value_meets demand) (map view_enum_value values.now) }
{
    for value in values {
        if !value_meets(demand, value) {
            return Some(value.name.as_str());
        }
    }
    None
}

/// Whether the value of an enum meets what is asked.
#[tactic(auto, unfolding(crate::specs::Faults::value_meets))]
fn value_meets(demand: Demand, value: &EnumValue) -> bool
    ensures { result ≡ faults.value_meets demand (view_enum_value value.now) }
{
    match demand {
        Demand::EntryNames => !is_reserved(value.name.as_str()),
        Demand::DistinctNames => is_value_name(value.name.as_str()),
        Demand::RootTypes
        | Demand::KnownTypes
        | Demand::Interfaces
        | Demand::Defaults
        | Demand::BuiltInScalars => true,
    }
}

/// The name of the first interface, of these that the entry lists, that fails.
fn first_interface<'s, S: ScalarValue>(
    schema: &SchemaType<S>,
    demand: Demand,
    entry: &NamedType<'_, S>,
    names: &'s [String],
) -> Option<&'s str>
    ensures { option_map (λ n. n.now) result ≡ first_failing (λ i. i) (faults.interface_meets (view_schema S.shown schema.now) demand
        (view_named S.shown entry.now))
        (view_names names.now) }
{
    for name in names {
        if !interface_meets(schema, demand, entry, name.as_str()) {
            return Some(name.as_str());
        }
    }
    None
}

/// Whether an interface that the entry lists meets what is asked.
#[tactic(auto, unfolding(crate::specs::Faults::interface_meets))]
fn interface_meets<S: ScalarValue>(
    schema: &SchemaType<S>,
    demand: Demand,
    entry: &NamedType<'_, S>,
    name: &str,
) -> bool
    ensures { result ≡ faults.interface_meets (view_schema S.shown schema.now) demand (view_named S.shown entry.now) name.now }
{
    match demand {
        Demand::Interfaces => implements(schema, entry.name, entry.meta, name),
        Demand::EntryNames
        | Demand::RootTypes
        | Demand::KnownTypes
        | Demand::DistinctNames
        | Demand::Defaults
        | Demand::BuiltInScalars => true,
    }
}

/// The name of the first member of a union that fails.
fn first_union_member<'s, S: ScalarValue>(
    schema: &SchemaType<S>,
    demand: Demand,
    names: &'s [String],
) -> Option<&'s str>
    ensures { option_map (λ n. n.now) result ≡ first_failing (λ i. i) (faults.member_meets (view_schema S.shown schema.now) demand) (view_names names.now) }
{
    for name in names {
        if !member_meets(schema, demand, name.as_str()) {
            return Some(name.as_str());
        }
    }
    None
}

/// Whether a member of a union meets what is asked.
#[tactic(auto, unfolding(crate::specs::Faults::member_meets))]
fn member_meets<S: ScalarValue>(schema: &SchemaType<S>, demand: Demand, name: &str) -> bool
    ensures { result ≡ faults.member_meets (view_schema S.shown schema.now) demand name.now }
{
    match demand {
        Demand::DistinctNames => is_object(schema, name),
        Demand::EntryNames
        | Demand::RootTypes
        | Demand::KnownTypes
        | Demand::Interfaces
        | Demand::Defaults
        | Demand::BuiltInScalars => true,
    }
}
