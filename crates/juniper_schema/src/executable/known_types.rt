//! The types that fields, arguments and input fields end in (section 3.4.2 of the Specification).

ghost use Rattle.std.specs.Prelude.{◌≡◌, map};
ghost use Rattle.std.specs.List.{list_all};
ghost use Rattle.graphql_spec.specs.Executable as spec;
ghost use Rattle.juniper_meta.specs.MetaView.{view_argument, view_field, view_meta, view_type};
ghost use Rattle.juniper_schema.specs.EntryTests.{types_are_known_in};
ghost use Rattle.juniper_schema.specs.SchemaView.{view_schema};

use crate::schema::SchemaType;
use juniper_meta::meta::{Argument, Field, MetaType};
use juniper_syntax::{ScalarValue, Type};

/// Whether the types of fields end in entries for output, those of arguments and input fields in entries for input (3.4.2).
#[tactic(auto, unfolding(graphql_spec::specs::Executable::types_are_known))]
pub fn types_are_known<S: ScalarValue>(schema: &SchemaType<S>) -> bool
    ensures { result ≡ spec.types_are_known (view_schema S.shown schema.now) }
{
    for (_, meta) in &schema.types {
        if !entry_is_known(schema, meta) {
            return false;
        }
    }
    true
}

/// Whether the types that a declaration speaks of are known.
#[tactic(auto, unfolding(graphql_spec::specs::Executable::shape_fields))]
fn entry_is_known<S: ScalarValue>(schema: &SchemaType<S>, meta: &MetaType<S>) -> bool
    ensures { result ≡ types_are_known_in (view_schema S.shown schema.now) (view_meta S.shown meta.now).shape }
{
    fields_are_known(schema, meta.fields()) && end_in_input(schema, meta.input_fields())
}

/// Whether the types of the fields and of their arguments are known.
fn fields_are_known<S: ScalarValue>(schema: &SchemaType<S>, fields: &[Field<S>]) -> bool
    ensures { result ≡ list_all (spec.field_is_known (view_schema S.shown schema.now)) (map (view_field S.shown) fields.now) }
{
    for field in fields {
        if !field_is_known(schema, field) {
            return false;
        }
    }
    true
}

/// Whether the types of the field and of its arguments are known.
#[tactic(auto, unfolding(graphql_spec::specs::Executable::field_is_known))]
pub fn field_is_known<S: ScalarValue>(schema: &SchemaType<S>, field: &Field<S>) -> bool
    ensures { result ≡ spec.field_is_known (view_schema S.shown schema.now) (view_field S.shown field.now) }
{
    ends_in_output(schema, &field.field_type) && end_in_input(schema, field.declared_arguments())
}

/// Whether inside all lists there is a scalar, enum, object, interface or union (IsOutputType).
#[tactic(auto, unfolding(graphql_spec::specs::Executable::ends_in_output, graphql_spec::specs::Fields::is_leaf, graphql_spec::specs::Fields::is_composite))]
fn ends_in_output<S: ScalarValue>(schema: &SchemaType<S>, reference: &Type<String>) -> bool
    ensures { result ≡ spec.ends_in_output (view_schema S.shown schema.now) (view_type reference.now) }
{
    match schema.entry(reference.innermost_name()) {
        Some(meta) => meta.is_leaf() || meta.is_composite(),
        None => false,
    }
}

/// Whether the types of the arguments or input fields are known.
fn end_in_input<S: ScalarValue>(schema: &SchemaType<S>, declared: &[Argument<S>]) -> bool
    ensures { result ≡ list_all (spec.ends_in_input (view_schema S.shown schema.now)) (map (view_argument S.shown) declared.now) }
{
    for argument in declared {
        if !ends_in_input(schema, argument) {
            return false;
        }
    }
    true
}

/// Whether inside all lists there is a scalar, enum or input object (IsInputType).
#[tactic(auto, unfolding(graphql_spec::specs::Executable::ends_in_input, graphql_spec::specs::Fields::is_input))]
pub fn ends_in_input<S: ScalarValue>(schema: &SchemaType<S>, argument: &Argument<S>) -> bool
    ensures { result ≡ spec.ends_in_input (view_schema S.shown schema.now) (view_argument S.shown argument.now) }
{
    match schema.entry(argument.arg_type.innermost_name()) {
        Some(meta) => meta.is_input(),
        None => false,
    }
}
