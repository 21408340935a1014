//! Types that agree (SameResponseShape, section 5.3.2 of the Specification).

ghost use Rattle.std.specs.Prelude.{◌≡◌, ◌||◌, not};
ghost use Rattle.std.specs.Str.{bytes_eq};
ghost use Rattle.graphql_spec.specs.Fields.{is_leaf, type_named};
ghost use Rattle.graphql_spec.specs.Merging as merging;
ghost use Rattle.juniper_meta.specs.MetaView.{view_type};
ghost use Rattle.juniper_schema.specs.SchemaView.{view_schema};

use juniper_schema::SchemaType;
use juniper_syntax::{ScalarValue, Type};

/// Whether both types are non-null or neither, both are lists or neither, and so inside; scalars and enums agree with
/// themselves alone.
#[tactic(auto, unfolding(graphql_spec::specs::Merging::types_agree, graphql_spec::specs::Shown::same_bool))]
pub fn types_agree<S: ScalarValue>(
    schema: &SchemaType<S>,
    first: &Type<String>,
    second: &Type<String>,
) -> bool
    ensures { result ≡ merging.types_agree (view_schema S.shown schema.now) (view_type first.now) (view_type second.now) }
{
    match first {
        Type::Named(name) => match second {
            Type::Named(other) => names_agree(schema, name.as_str(), other.as_str()),
            Type::List(_, _) | Type::NonNullNamed(_) | Type::NonNullList(_, _) => false,
        },
        Type::NonNullNamed(name) => match second {
            Type::NonNullNamed(other) => names_agree(schema, name.as_str(), other.as_str()),
            Type::List(_, _) | Type::Named(_) | Type::NonNullList(_, _) => false,
        },
        Type::List(inner, _) => match second {
            Type::List(other, _) => types_agree(schema, &**inner, &**other),
            Type::Named(_) | Type::NonNullNamed(_) | Type::NonNullList(_, _) => false,
        },
        Type::NonNullList(inner, _) => match second {
            Type::NonNullList(other, _) => types_agree(schema, &**inner, &**other),
            Type::Named(_) | Type::NonNullNamed(_) | Type::List(_, _) => false,
        },
    }
}

/// Whether neither name is that of a scalar or enum, or the names are the same.
fn names_agree<S: ScalarValue>(schema: &SchemaType<S>, name: &str, other: &str) -> bool
    ensures { result ≡ (not (is_leaf (type_named (view_schema S.shown schema.now) name.now) || is_leaf (type_named (view_schema S.shown schema.now) other.now))
        || bytes_eq name.now other.now) }
{
    name == other || !(schema.is_leaf(name) || schema.is_leaf(other))
}
