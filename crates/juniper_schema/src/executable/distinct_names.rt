//! The names that differ in a declaration (sections 3.6 and 3.8 to 3.10 of the Specification).

ghost use Rattle.std.specs.Prelude.{◌≡◌, map};
ghost use Rattle.std.specs.List.{list_all, list_any};
ghost use Rattle.std.specs.Str.{bytes_eq};
ghost use Rattle.graphql_spec.specs.Executable as spec;
ghost use Rattle.graphql_spec.specs.Fields as fields;
ghost use Rattle.juniper_meta.specs.MetaView.{view_argument, view_enum_value, view_field, view_meta, view_names};
ghost use Rattle.juniper_schema.specs.SchemaView.{view_schema};

use crate::executable::roots::is_object;
use crate::names::contains;
use crate::schema::SchemaType;
use juniper_meta::meta::Field;
use juniper_meta::{Argument, EnumValue, MetaType, declares_value, find_argument, find_field};
use juniper_syntax::ScalarValue;

/// Whether names differ in each list, enum values are none of `true`, `false`, `null`, and members of unions are objects
/// (3.6, 3.8, 3.9, 3.10).
#[tactic(auto, unfolding(graphql_spec::specs::Executable::all_names_differ))]
pub fn all_names_differ<S: ScalarValue>(schema: &SchemaType<S>) -> bool
    ensures { result ≡ spec.all_names_differ (view_schema S.shown schema.now) }
{
    for (_, meta) in &schema.types {
        if !entry_names_differ(schema, meta) {
            return false;
        }
    }
    true
}

/// Whether the names differ in each list of a declaration.
#[tactic(auto, unfolding(graphql_spec::specs::Executable::entry_names_differ, graphql_spec::specs::Executable::shape_fields))]
fn entry_names_differ<S: ScalarValue>(schema: &SchemaType<S>, meta: &MetaType<S>) -> bool
    ensures { result ≡ spec.entry_names_differ (view_schema S.shown schema.now) (view_meta S.shown meta.now).shape }
{
    field_names_differ(meta.fields())
        && argument_names_differ(meta.fields())
        && input_names_differ(meta.input_fields())
        && value_names_differ(meta.values())
        && are_value_names(meta.values())
        && names_differ(meta.interface_names())
        && names_differ(meta.of_type_names())
        && are_objects(schema, meta.of_type_names())
}

/// Whether no two of the names are the same.
#[tactic(auto, unfolding(graphql_spec::specs::Executable::names_differ))]
pub fn names_differ(names: &[String]) -> bool
    ensures { result ≡ spec.names_differ (view_names names.now) }
{
    let mut left = names;
    while let [name, others @ ..] = left {
        if contains(others, name.as_str()) {
            return false;
        }
        left = others;
    }
    true
}

/// Whether no two of the fields have one name (3.6).
#[tactic(auto, unfolding(graphql_spec::specs::Executable::names_differ))]
pub fn field_names_differ<S: ScalarValue>(fields: &[Field<S>]) -> bool
    ensures { result ≡ spec.names_differ (map (λ f. f.name) (map (view_field S.shown) fields.now)) }
{
    let mut left = fields;
    while let [field, others @ ..] = left {
        if has_field(others, field.name.as_str()) {
            return false;
        }
        left = others;
    }
    true
}

/// Whether a field has this name.
#[tactic(auto, using(crate::proofs::Executables::field_is_there))]
fn has_field<S: ScalarValue>(fields: &[Field<S>], name: &str) -> bool
    ensures { result ≡ list_any (bytes_eq name.now) (map (λ f. f.name) (map (view_field S.shown) fields.now)) }
{
    find_field(fields, name).is_some()
}

/// Whether no two arguments of one field have one name (3.6).
fn argument_names_differ<S: ScalarValue>(fields: &[Field<S>]) -> bool
    ensures { result ≡ list_all (λ f. spec.input_names_differ f.arguments) (map (view_field S.shown) fields.now) }
{
    for field in fields {
        if !input_names_differ(field.declared_arguments()) {
            return false;
        }
    }
    true
}

/// Whether no two of the arguments or input fields have one name (3.6, 3.10).
#[tactic(auto, unfolding(graphql_spec::specs::Executable::input_names_differ, graphql_spec::specs::Executable::names_differ))]
pub fn input_names_differ<S: ScalarValue>(declared: &[Argument<S>]) -> bool
    ensures { result ≡ spec.input_names_differ (map (view_argument S.shown) declared.now) }
{
    let mut left = declared;
    while let [argument, others @ ..] = left {
        if has_input(others, argument.name.as_str()) {
            return false;
        }
        left = others;
    }
    true
}

/// Whether an argument or input field has this name.
#[tactic(auto, using(crate::proofs::Executables::input_is_there))]
fn has_input<S: ScalarValue>(declared: &[Argument<S>], name: &str) -> bool
    ensures { result ≡ list_any (bytes_eq name.now) (map (λ d. d.name) (map (view_argument S.shown) declared.now)) }
{
    find_argument(declared, name).is_some()
}

/// Whether no two of an enum's values have one name (3.9).
#[tactic(auto, unfolding(graphql_spec::specs::Executable::names_differ))]
pub fn value_names_differ(values: &[EnumValue]) -> bool
    ensures { result ≡ spec.names_differ (map (λ v. v.name) (map view_enum_value values.now)) }
{
    let mut left = values;
    while let [value, others @ ..] = left {
        if has_value(others, value.name.as_str()) {
            return false;
        }
        left = others;
    }
    true
}

/// Whether one of an enum's values has this name.
#[tactic(auto, using(crate::proofs::Executables::value_is_there))]
fn has_value(values: &[EnumValue], name: &str) -> bool
    ensures { result ≡ list_any (bytes_eq name.now) (map (λ v. v.name) (map view_enum_value values.now)) }
{
    declares_value(values, name)
}

/// Whether none of an enum's values is one of the words `true`, `false`, `null` (3.9).
fn are_value_names(values: &[EnumValue]) -> bool
    ensures { result ≡ list_all (λ v. spec.is_value_name v.name) (map view_enum_value values.now) }
{
    for value in values {
        if !is_value_name(value.name.as_str()) {
            return false;
        }
    }
    true
}

/// Whether the name is none of the words `true`, `false`, `null`.
#[tactic(auto, unfolding(graphql_spec::specs::Executable::is_value_name))]
pub fn is_value_name(name: &str) -> bool
    ensures { result ≡ spec.is_value_name name.now }
{
    !(name == "true" || name == "false" || name == "null")
}

/// Whether each of the names is that of an object (3.8).
fn are_objects<S: ScalarValue>(schema: &SchemaType<S>, names: &[String]) -> bool
    ensures { result ≡ list_all (λ m. fields.is_object (fields.entry_named (view_schema S.shown schema.now) m)) (view_names names.now) }
{
    for name in names {
        if !is_object(schema, name.as_str()) {
            return false;
        }
    }
    true
}
