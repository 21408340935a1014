//! The default values of arguments and input fields (sections 3.6.1 and 3.10 of the Specification).

ghost use Rattle.std.specs.Prelude.{◌≡◌, map};
ghost use Rattle.std.specs.List.{list_all};
ghost use Rattle.graphql_spec.specs.Executable as spec;
ghost use Rattle.juniper_meta.specs.MetaView.{view_argument, view_field, view_meta};
ghost use Rattle.juniper_schema.specs.EntryTests.{defaults_fit_in};
ghost use Rattle.juniper_schema.specs.SchemaView.{view_schema};

use crate::schema::SchemaType;
use juniper_meta::meta::{Argument, Field, MetaType};
use juniper_syntax::ScalarValue;

/// Whether each default value is constant and fits its type (3.6.1, 3.10).
#[tactic(auto, unfolding(graphql_spec::specs::Executable::defaults_fit))]
pub fn defaults_fit<S: ScalarValue>(schema: &SchemaType<S>) -> bool
    ensures { result ≡ spec.defaults_fit (view_schema S.shown schema.now) }
{
    for (_, meta) in &schema.types {
        if !entry_defaults_fit(schema, meta) {
            return false;
        }
    }
    true
}

/// Whether each default value in a declaration is constant and fits.
#[tactic(auto, unfolding(graphql_spec::specs::Executable::shape_fields))]
fn entry_defaults_fit<S: ScalarValue>(schema: &SchemaType<S>, meta: &MetaType<S>) -> bool
    ensures { result ≡ defaults_fit_in (view_schema S.shown schema.now) (view_meta S.shown meta.now).shape }
{
    field_defaults_fit(schema, meta.fields()) && input_defaults_fit(schema, meta.input_fields())
}

/// Whether each default value of the fields' arguments is constant and fits (3.6.1).
fn field_defaults_fit<S: ScalarValue>(schema: &SchemaType<S>, fields: &[Field<S>]) -> bool
    ensures { result ≡ list_all (λ f. list_all (spec.default_is_right (view_schema S.shown schema.now)) f.arguments) (map (view_field S.shown) fields.now) }
{
    for field in fields {
        if !input_defaults_fit(schema, field.declared_arguments()) {
            return false;
        }
    }
    true
}

/// Whether each default value of the arguments or input fields is constant and fits.
pub fn input_defaults_fit<S: ScalarValue>(schema: &SchemaType<S>, declared: &[Argument<S>]) -> bool
    ensures { result ≡ list_all (spec.default_is_right (view_schema S.shown schema.now)) (map (view_argument S.shown) declared.now) }
{
    for argument in declared {
        if !default_is_right(schema, argument) {
            return false;
        }
    }
    true
}

/// Whether the default value, where there is one, is constant and fits.
#[tactic(auto, unfolding(graphql_spec::specs::Executable::default_is_right))]
pub fn default_is_right<S: ScalarValue>(schema: &SchemaType<S>, argument: &Argument<S>) -> bool
    ensures { result ≡ spec.default_is_right (view_schema S.shown schema.now) (view_argument S.shown argument.now) }
{
    match &argument.default_value {
        Some(value) => value.is_const() && schema.fits(value, &argument.arg_type, false),
        None => true,
    }
}
