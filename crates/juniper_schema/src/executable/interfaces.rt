//! The interfaces that types implement (IsValidImplementation, section 3.6 of the Specification; 3.7).

ghost use Rattle.std.specs.Prelude.{◌≡◌, Some, map};
ghost use Rattle.std.specs.List.{list_all, list_any};
ghost use Rattle.std.specs.Str.{bytes_eq};
ghost use Rattle.graphql_spec.specs.Executable as spec;
ghost use Rattle.graphql_spec.specs.Fields.{field_in};
ghost use Rattle.juniper_meta.specs.MetaView.{view_argument, view_field, view_meta, view_names};
ghost use Rattle.juniper_schema.specs.SchemaView.{view_schema};

use crate::names::contains;
use crate::schema::SchemaType;
use crate::subtypes::{is_subtype, same_type};
use juniper_meta::meta::Field;
use juniper_meta::{Argument, MetaType, find_argument, find_field};
use juniper_syntax::ScalarValue;

/// Whether each object and interface implements the interfaces that it lists (3.6, 3.7).
#[tactic(auto, unfolding(graphql_spec::specs::Executable::interfaces_are_met))]
pub fn interfaces_are_met<S: ScalarValue>(schema: &SchemaType<S>) -> bool
    ensures { result ≡ spec.interfaces_are_met (view_schema S.shown schema.now) }
{
    for (key, meta) in &schema.types {
        if !implements_all(schema, key.as_str(), meta, meta.interface_names()) {
            return false;
        }
    }
    true
}

/// Whether the entry of the key implements each of these interfaces, which it lists.
fn implements_all<S: ScalarValue>(
    schema: &SchemaType<S>,
    key: &str,
    meta: &MetaType<S>,
    interfaces: &[String],
) -> bool
    ensures { result ≡ list_all (spec.implements (view_schema S.shown schema.now) key.now (view_meta S.shown meta.now).shape) (view_names interfaces.now) }
{
    for interface in interfaces {
        if !implements(schema, key, meta, interface.as_str()) {
            return false;
        }
    }
    true
}

/// Whether the entry of the key implements this interface, which it lists.
#[tactic(auto, unfolding(graphql_spec::specs::Executable::implements, graphql_spec::specs::Executable::shape_fields, graphql_spec::specs::Fields::is_interface))]
pub fn implements<S: ScalarValue>(
    schema: &SchemaType<S>,
    key: &str,
    meta: &MetaType<S>,
    interface: &str,
) -> bool
    ensures { result ≡ spec.implements (view_schema S.shown schema.now) key.now (view_meta S.shown meta.now).shape interface.now }
{
    match schema.entry(interface) {
        Some(declared) => {
            declared.is_interface()
                && interface != key
                && lists_all(meta.interface_names(), declared.interface_names())
                && implements_fields(schema, meta.fields(), declared.fields())
        }
        None => false,
    }
}

/// Whether each of the wanted names is one of these.
fn lists_all(names: &[String], wanted: &[String]) -> bool
    ensures { result ≡ list_all (λ j. list_any (bytes_eq j) (view_names names.now)) (view_names wanted.now) }
{
    for name in wanted {
        if !contains(names, name.as_str()) {
            return false;
        }
    }
    true
}

/// Whether the fields keep each of an interface's fields.
fn implements_fields<S: ScalarValue>(
    schema: &SchemaType<S>,
    fields: &[Field<S>],
    wanted: &[Field<S>],
) -> bool
    ensures { result ≡ list_all (λ g. spec.implements_field (view_schema S.shown schema.now) (field_in (map (view_field S.shown) fields.now) g.name) g)
        (map (view_field S.shown) wanted.now) }
{
    for field in wanted {
        if !implements_field(schema, fields, field) {
            return false;
        }
    }
    true
}

/// Whether there is a field of the name of an interface's, and it keeps that one.
#[tactic(auto, unfolding(graphql_spec::specs::Executable::implements_field))]
fn implements_field<S: ScalarValue>(
    schema: &SchemaType<S>,
    fields: &[Field<S>],
    wanted: &Field<S>,
) -> bool
    ensures { result ≡ spec.implements_field (view_schema S.shown schema.now)
        (field_in (map (view_field S.shown) fields.now) (view_field S.shown wanted.now).name) (view_field S.shown wanted.now) }
{
    match find_field(fields, wanted.name.as_str()) {
        Some(field) => keeps_field(schema, field, wanted),
        None => false,
    }
}

/// Whether the field keeps an interface's: its type is a subtype, it has the arguments with the same types, and its other
/// arguments may be left out.
#[tactic(auto, unfolding(graphql_spec::specs::Executable::implements_field))]
fn keeps_field<S: ScalarValue>(schema: &SchemaType<S>, field: &Field<S>, wanted: &Field<S>) -> bool
    ensures { result ≡ spec.implements_field (view_schema S.shown schema.now) (Some (view_field S.shown field.now)) (view_field S.shown wanted.now) }
{
    is_subtype(schema, &field.field_type, &wanted.field_type)
        && takes_arguments(field.declared_arguments(), wanted.declared_arguments())
        && others_may_be_left_out(wanted.declared_arguments(), field.declared_arguments())
}

/// Whether each of the wanted arguments is declared with the same type.
fn takes_arguments<S: ScalarValue>(declared: &[Argument<S>], wanted: &[Argument<S>]) -> bool
    ensures { result ≡ list_all (spec.takes_argument (map (view_argument S.shown) declared.now)) (map (view_argument S.shown) wanted.now) }
{
    for argument in wanted {
        if !takes_argument(declared, argument) {
            return false;
        }
    }
    true
}

/// Whether the wanted argument is declared with the same type.
#[tactic(auto, unfolding(graphql_spec::specs::Executable::takes_argument))]
fn takes_argument<S: ScalarValue>(declared: &[Argument<S>], wanted: &Argument<S>) -> bool
    ensures { result ≡ spec.takes_argument (map (view_argument S.shown) declared.now) (view_argument S.shown wanted.now) }
{
    match find_argument(declared, wanted.name.as_str()) {
        Some(argument) => same_type(&argument.arg_type, &wanted.arg_type),
        None => false,
    }
}

/// Whether each of the arguments is one of the interface's, or may be left out.
fn others_may_be_left_out<S: ScalarValue>(wanted: &[Argument<S>], declared: &[Argument<S>]) -> bool
    ensures { result ≡ list_all (spec.may_be_left_out (map (view_argument S.shown) wanted.now)) (map (view_argument S.shown) declared.now) }
{
    for argument in declared {
        if !may_be_left_out(wanted, argument) {
            return false;
        }
    }
    true
}

/// Whether the argument is one of the interface's, or is nullable, or has a default.
#[tactic(auto, unfolding(graphql_spec::specs::Executable::may_be_left_out))]
fn may_be_left_out<S: ScalarValue>(wanted: &[Argument<S>], argument: &Argument<S>) -> bool
    ensures { result ≡ spec.may_be_left_out (map (view_argument S.shown) wanted.now) (view_argument S.shown argument.now) }
{
    find_argument(wanted, argument.name.as_str()).is_some()
        || !argument.arg_type.is_non_null()
        || argument.default_value.is_some()
}
