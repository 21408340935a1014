//! What fields declare, and their arguments: what is asked of all nodes of an object type alike (sections 3.6 and 6.4.1 of the
//! Specification).

ghost use Rattle.std.specs.Prelude.{◌≡◌, false, [], IfOk, IsTrue, map, option_map, string_bytes, Some};
ghost use Rattle.graphql_spec.specs.Fields as fields;
ghost use Rattle.graphql_spec.specs.Fields.{declared_type};
ghost use Rattle.graphql_spec.specs.Types.{innermost, named};
ghost use Rattle.juniper_meta.specs.MetaView.{view_argument, view_field};
ghost use Rattle.juniper_schema.specs.SchemaView.{meta_named, view_schema};
ghost use Rattle.juniper_schema.specs.MadeTypes.{around, view_made};
ghost use Rattle.juniper_syntax.specs.TypeView.{view_type};
ghost use Rattle.juniper_execute.specs.Meanings.{is_undeclared};

use juniper_meta::MetaType;
use juniper_meta::meta::{Argument, Field};
use juniper_schema::{SchemaType, TypeType, type_around};
use juniper_syntax::{ScalarValue, Type};
use juniper_values::Arguments;
use std::alloc::{AllocError, Global};

/// A field of an object type, as it is asked of each node of the type.
#[derive(Drop)]
pub(crate) struct Question<'s, S> {
    /// What the schema declares of the field, if it does.
    pub(crate) declaration: Option<&'s Field<S>>,
    /// The type that it declares.
    pub(crate) declared: &'s Type<String>,
    /// The same as resolvers are shown it.
    pub(crate) shown: TypeType<'s, S>,
    /// The arguments, defaults filled in; none where there is no room for them, or one is written that is not declared, which no valid document has.
    pub(crate) arguments: Option<Arguments<'s, S>>,
}

/// The type that a field declares, or what stands for it where there is no such field.
#[tactic(auto, unfolding(graphql_spec::specs::Fields::declared_type))]
pub(crate) fn declared_type<'t, S: ScalarValue>(
    field: Option<&'t Field<S>>,
    undeclared: &'t Type<String>,
) -> &'t Type<String>
    requires { IsTrue (is_undeclared (view_type (λ n. string_bytes n) undeclared.now)) }
    ensures { view_type (λ n. string_bytes n) result.now ≡ declared_type (option_map (λ f. view_field S.shown f.now) field.entry) }
{
    match field {
        Some(field) => &field.field_type,
        None => undeclared,
    }
}

/// The type that a resolver is shown for a field: the declared one, where the schema has its name.
pub(crate) fn shown_type<'s, S: ScalarValue>(
    alloc: Global,
    schema: &'s SchemaType<S>,
    query_type: &'s MetaType<S>,
    declared: &Type<String>,
) -> Result<TypeType<'s, S>, AllocError>
    ensures { IfOk result (λ made. (m : _) → meta_named (view_schema S.shown schema.now) (innermost (view_type (λ n. string_bytes n) declared.now)) ≡ Some m →
        view_made S.shown made ≡ around m (view_type (λ n. string_bytes n) declared.now)) }
{
    match schema.concrete_type_by_name(declared.innermost_name()) {
        Some(meta) => type_around(alloc, meta, declared),
        None => Ok(TypeType::Concrete(query_type)),
    }
}

/// What stands for the type of a field that is not declared: nullable, without a name.
pub fn undeclared_type(alloc: Global) -> Type<String>
    ensures { view_type (λ n. string_bytes n) result ≡ named false [] }
{
    Type::Named(String::new(alloc))
}

/// The arguments that a field declares (3.6.1).
#[tactic(auto, unfolding(graphql_spec::specs::Fields::declared_arguments))]
pub(crate) fn arguments_of<S: ScalarValue>(field: Option<&Field<S>>) -> &[Argument<S>]
    ensures { map (view_argument S.shown) result.now ≡ fields.declared_arguments (option_map (λ f. view_field S.shown f.now) field.entry) }
{
    match field {
        Some(field) => field.declared_arguments(),
        None => &[],
    }
}
