//! The names of what a schema declares (sections 2.1.9 and 3.3 of the Specification).

ghost use Rattle.std.specs.Prelude.{◌≡◌, codes, map, not, true};
ghost use Rattle.std.specs.List.{list_all};
ghost use Rattle.graphql_spec.specs.Executable as spec;
ghost use Rattle.graphql_spec.specs.Tokens as tokens;
ghost use Rattle.graphql_spec.specs.Types.{named, same_type};
ghost use Rattle.juniper_meta.specs.MetaView.{entry_at, view_argument, view_enum_value, view_field, view_meta, view_type};
ghost use Rattle.juniper_schema.specs.SchemaView.{view_schema};

use crate::schema::SchemaType;
use juniper_meta::meta::{Argument, EnumValue, Field, MetaType};
use juniper_syntax::{ScalarValue, Type};

/// Whether each entry is a type of its own, stands at its own name, and declares no name that is reserved (3.3).
#[tactic(auto, unfolding(graphql_spec::specs::Executable::entries_are_named))]
pub fn entries_are_named<S: ScalarValue>(schema: &SchemaType<S>) -> bool
    ensures { result ≡ spec.entries_are_named (view_schema S.shown schema.now) }
{
    for (key, meta) in &schema.types {
        if !entry_is_named(key.as_str(), meta) {
            return false;
        }
    }
    true
}

/// Whether an entry is a type of its own, stands at its own name, and declares no name that is reserved.
#[tactic(auto, unfolding(graphql_spec::specs::Executable::entry_is_named, graphql_spec::specs::Executable::shape_fields))]
fn entry_is_named<S: ScalarValue>(key: &str, meta: &MetaType<S>) -> bool
    ensures { result ≡ spec.entry_is_named (entry_at key.now (view_meta S.shown meta.now)) }
{
    is_filled(meta)
        && is_own_name(key, meta)
        && is_name(key)
        && !is_reserved(key)
        && fields_are_free(meta.fields())
        && inputs_are_free(meta.input_fields())
        && values_are_free(meta.values())
}

/// Whether it is no placeholder, list or type that also takes null, which stand in a registry alone.
#[tactic(auto, unfolding(juniper_meta::specs::MetaView::view_meta, graphql_spec::specs::Executable::is_filled))]
pub fn is_filled<S: ScalarValue>(meta: &MetaType<S>) -> bool
    ensures { result ≡ spec.is_filled (view_meta S.shown meta.now).shape }
{
    match meta {
        MetaType::List(_) | MetaType::Nullable(_) | MetaType::Placeholder(_) => false,
        MetaType::Scalar(_)
        | MetaType::Object(_)
        | MetaType::Enum(_)
        | MetaType::Interface(_)
        | MetaType::Union(_)
        | MetaType::InputObject(_) => true,
    }
}

/// Whether the declaration's own name is its key.
#[tactic(auto, unfolding(graphql_spec::specs::Executable::is_own_name))]
pub fn is_own_name<S: ScalarValue>(key: &str, meta: &MetaType<S>) -> bool
    ensures { result ≡ spec.is_own_name key.now (view_meta S.shown meta.now).name }
{
    match meta.name() {
        Some(own) => key == own,
        None => false,
    }
}

/// Whether the text is a Name (2.1.9).
#[tactic(auto, unfolding(graphql_spec::specs::Tokens::is_name))]
pub fn is_name(text: &str) -> bool
    ensures { result ≡ tokens.is_name text.now }
{
    match text.as_bytes() {
        [] => false,
        [first, others @ ..] => starts_name(*first) && continue_name(others),
    }
}

/// Whether each byte is `_`, a letter or a digit.
fn continue_name(bytes: &[u8]) -> bool
    ensures { result ≡ list_all tokens.continues_name bytes.now }
{
    bytes.iter().all(|byte| continues_name(*byte))
}

/// Whether the byte is `_` or a letter (NameStart).
#[tactic(auto, unfolding(graphql_spec::specs::Tokens::starts_name))]
fn starts_name(byte: u8) -> bool
    ensures { result ≡ tokens.starts_name byte }
{
    byte == b'_' || byte.is_ascii_alphabetic()
}

/// Whether the byte is `_`, a letter or a digit (NameContinue).
#[tactic(auto, unfolding(graphql_spec::specs::Tokens::continues_name))]
fn continues_name(byte: u8) -> bool
    ensures { result ≡ tokens.continues_name byte }
{
    starts_name(byte) || byte.is_ascii_digit()
}

/// Whether the name begins with two underscores (3.3).
#[tactic(auto, unfolding(graphql_spec::specs::Executable::is_reserved))]
pub fn is_reserved(name: &str) -> bool
    ensures { result ≡ spec.is_reserved name.now }
{
    match name.as_bytes() {
        [first, second, ..] => *first == b'_' && *second == b'_',
        [] | [_] => false,
    }
}

/// Whether none of the fields nor their arguments has a reserved name, but for `__typename: String!` (4.1).
#[tactic(auto, unfolding(graphql_spec::specs::Executable::field_is_free))]
fn fields_are_free<S: ScalarValue>(fields: &[Field<S>]) -> bool
    ensures { result ≡ list_all spec.field_is_free (map (view_field S.shown) fields.now) }
{
    for field in fields {
        if !field_is_free(field) {
            return false;
        }
    }
    true
}

/// Whether neither the field nor one of its arguments has a reserved name, or it is `__typename: String!` (4.1).
#[tactic(auto, unfolding(graphql_spec::specs::Executable::field_is_free))]
pub fn field_is_free<S: ScalarValue>(field: &Field<S>) -> bool
    ensures { result ≡ spec.field_is_free (view_field S.shown field.now) }
{
    (!is_reserved(field.name.as_str()) || is_typename_field(field))
        && inputs_are_free(field.declared_arguments())
}

/// Whether it is the field `__typename: String!` (4.1).
#[tactic(auto, unfolding(graphql_spec::specs::Executable::is_typename_field))]
fn is_typename_field<S: ScalarValue>(field: &Field<S>) -> bool
    ensures { result ≡ spec.is_typename_field (view_field S.shown field.now) }
{
    field.name.as_str() == "__typename"
        && is_required_string(&field.field_type)
        && no_arguments(field.declared_arguments())
}

/// Whether it is the type `String!`.
#[tactic(auto, unfolding(graphql_spec::specs::Types::same_type, graphql_spec::specs::Shown::same_bool))]
fn is_required_string(reference: &Type<String>) -> bool
    ensures { result ≡ same_type (view_type reference.now) (named true (codes "String")) }
{
    match reference {
        Type::NonNullNamed(name) => name.as_str() == "String",
        Type::Named(_) | Type::List(_, _) | Type::NonNullList(_, _) => false,
    }
}

/// Whether no argument is declared.
#[tactic(auto, unfolding(graphql_spec::specs::Executable::no_declarations))]
fn no_arguments<S: ScalarValue>(declared: &[Argument<S>]) -> bool
    ensures { result ≡ spec.no_declarations (map (view_argument S.shown) declared.now) }
{
    match declared {
        [] => true,
        [_, ..] => false,
    }
}

/// Whether none of the arguments or input fields has a reserved name.
#[tactic(auto, unfolding(graphql_spec::specs::Executable::input_is_free))]
fn inputs_are_free<S: ScalarValue>(declared: &[Argument<S>]) -> bool
    ensures { result ≡ list_all spec.input_is_free (map (view_argument S.shown) declared.now) }
{
    for argument in declared {
        if is_reserved(argument.name.as_str()) {
            return false;
        }
    }
    true
}

/// Whether none of an enum's values has a reserved name.
fn values_are_free(values: &[EnumValue]) -> bool
    ensures { result ≡ list_all (λ v. not (spec.is_reserved v.name)) (map view_enum_value values.now) }
{
    for value in values {
        if is_reserved(value.name.as_str()) {
            return false;
        }
    }
    true
}
