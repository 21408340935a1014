//! The forms of fields and arguments that the types of introspection and the directives have.

ghost use Rattle.std.specs.Prelude.{◌≡◌, IfOk, map, [], ◌∷◌};
ghost use Rattle.graphql_spec.specs.BuiltIns.{maybe, must, maybe_all, must_all, field_without, include_deprecated, old_flag};
ghost use Rattle.graphql_spec.specs.Schema.{plain_field, plain_input};
ghost use Rattle.juniper_meta.specs.Rows.{row_field};
ghost use Rattle.juniper_meta.specs.MetaView.{view_type, view_argument, view_field};

use crate::Argument;
use crate::meta::Field;
use juniper_syntax::{InputValue, ScalarValue, Type};
use std::alloc::{AllocError, Global};

/// A field of a type of introspection as a row of a table: its name and the name in its type, whose form the variant says.
#[derive(Clone, Copy)]
pub(crate) enum FieldRow<'a> {
    /// `name: of_type`
    Maybe(&'a str, &'a str),
    /// `name: of_type!`
    Must(&'a str, &'a str),
    /// `name: [of_type!]`
    MaybeAll(&'a str, &'a str),
    /// `name: [of_type!]!`
    MustAll(&'a str, &'a str),
    /// `name(includeDeprecated: Boolean = false): [of_type!]`
    MaybeDeprecated(&'a str, &'a str),
    /// A deprecated flag of this name.
    OldFlag(&'a str),
}

/// The fields that the rows say, in order; an error where memory is refused.
pub(crate) fn fields_of<S: ScalarValue>(
    alloc: Global,
    rows: &[FieldRow],
) -> Result<Vec<Field<S>>, AllocError>
    ensures { IfOk result (λ made. map (view_field S.shown) made.items ≡ map row_field rows.now) }
{
    let mut fields = Vec::new(alloc);
    for row in rows {
        fields.push(field_of(alloc, row)?)?;
    }
    Ok(fields)
}

/// The field that the row says.
fn field_of<S: ScalarValue>(alloc: Global, row: &FieldRow) -> Result<Field<S>, AllocError>
    ensures { IfOk result (λ f. view_field S.shown f ≡ row_field row.now) }
{
    match *row {
        FieldRow::Maybe(name, of_type) => field_without(alloc, name, maybe(alloc, of_type)?),
        FieldRow::Must(name, of_type) => field_without(alloc, name, must(alloc, of_type)?),
        FieldRow::MaybeAll(name, of_type) => field_without(alloc, name, maybe_all(alloc, of_type)?),
        FieldRow::MustAll(name, of_type) => field_without(alloc, name, must_all(alloc, of_type)?),
        FieldRow::MaybeDeprecated(name, of_type) => maybe_deprecated(alloc, name, of_type),
        FieldRow::OldFlag(name) => old_flag(alloc, name),
    }
}

/// A field without arguments.
#[tactic(auto, unfolding(graphql_spec::specs::BuiltIns::field_without))]
fn field_without<S: ScalarValue>(
    alloc: Global,
    name: &str,
    of_type: Type<String>,
) -> Result<Field<S>, AllocError>
    ensures { IfOk result (λ f. view_field S.shown f ≡ field_without name.now (view_type of_type)) }
{
    Ok(Field::new(String::from_str(alloc, name)?, of_type))
}

/// A field with this argument alone.
#[tactic(auto, unfolding(graphql_spec::specs::BuiltIns::field_without, graphql_spec::specs::Schema::plain_field))]
pub(crate) fn field_with<S: ScalarValue>(
    alloc: Global,
    name: &str,
    argument: Argument<S>,
    of_type: Type<String>,
) -> Result<Field<S>, AllocError>
    ensures { IfOk result (λ f. view_field S.shown f ≡ plain_field name.now (view_argument S.shown argument ∷ []) (view_type of_type)) }
{
    field_without(alloc, name, of_type)?.argument(alloc, argument)
}

/// `name(includeDeprecated: Boolean = false): [of_type!]`
fn maybe_deprecated<S: ScalarValue>(
    alloc: Global,
    name: &str,
    of_type: &str,
) -> Result<Field<S>, AllocError>
    ensures { IfOk result (λ f. view_field S.shown f ≡ plain_field name.now include_deprecated (maybe_all of_type.now)) }
{
    let argument = include_deprecated(alloc)?;
    field_with(alloc, name, argument, maybe_all(alloc, of_type)?)
}

/// `includeDeprecated: Boolean = false`
#[tactic(auto, unfolding(graphql_spec::specs::BuiltIns::include_deprecated, graphql_spec::specs::Schema::plain_input))]
fn include_deprecated<S: ScalarValue>(alloc: Global) -> Result<Argument<S>, AllocError>
    ensures { IfOk result (λ a. view_argument S.shown a ∷ [] ≡ include_deprecated) }
{
    let argument = maybe_argument(alloc, "includeDeprecated", "Boolean")?;
    Ok(argument.default_value(InputValue::Scalar(S::from_bool(false))))
}

/// A deprecated flag of `__Directive`, kept for older clients.
#[tactic(auto, unfolding(graphql_spec::specs::BuiltIns::old_flag, graphql_spec::specs::BuiltIns::field_without, graphql_spec::specs::Schema::plain_field))]
fn old_flag<S: ScalarValue>(alloc: Global, name: &str) -> Result<Field<S>, AllocError>
    ensures { IfOk result (λ f. view_field S.shown f ≡ old_flag name.now) }
{
    let field = field_without(alloc, name, must(alloc, "Boolean")?)?;
    let reason = String::from_str(alloc, "Use the locations array instead")?;
    Ok(field.deprecated(Some(reason)))
}

/// `name: of_type`
pub(crate) fn maybe_argument<S: ScalarValue>(
    alloc: Global,
    name: &str,
    of_type: &str,
) -> Result<Argument<S>, AllocError>
    ensures { IfOk result (λ a. view_argument S.shown a ≡ plain_input name.now (maybe of_type.now)) }
{
    argument_of(alloc, name, maybe(alloc, of_type)?)
}

/// `name: of_type!`
pub(crate) fn must_argument<S: ScalarValue>(
    alloc: Global,
    name: &str,
    of_type: &str,
) -> Result<Argument<S>, AllocError>
    ensures { IfOk result (λ a. view_argument S.shown a ≡ plain_input name.now (must of_type.now)) }
{
    argument_of(alloc, name, must(alloc, of_type)?)
}

/// An argument without description and default value.
fn argument_of<S: ScalarValue>(
    alloc: Global,
    name: &str,
    of_type: Type<String>,
) -> Result<Argument<S>, AllocError>
    ensures { IfOk result (λ a. view_argument S.shown a ≡ plain_input name.now (view_type of_type)) }
{
    Ok(Argument::new(String::from_str(alloc, name)?, of_type))
}

/// `name`
#[tactic(auto, unfolding(graphql_spec::specs::BuiltIns::maybe))]
pub(crate) fn maybe(alloc: Global, name: &str) -> Result<Type<String>, AllocError>
    ensures { IfOk result (λ t. view_type t ≡ maybe name.now) }
{
    Ok(Type::Named(String::from_str(alloc, name)?))
}

/// `name!`
#[tactic(auto, unfolding(graphql_spec::specs::BuiltIns::must))]
fn must(alloc: Global, name: &str) -> Result<Type<String>, AllocError>
    ensures { IfOk result (λ t. view_type t ≡ must name.now) }
{
    Ok(Type::NonNullNamed(String::from_str(alloc, name)?))
}

/// `[name!]`
#[tactic(auto, unfolding(graphql_spec::specs::BuiltIns::must, graphql_spec::specs::BuiltIns::maybe_all))]
fn maybe_all(alloc: Global, name: &str) -> Result<Type<String>, AllocError>
    ensures { IfOk result (λ t. view_type t ≡ maybe_all name.now) }
{
    must(alloc, name)?.wrap_list(alloc, None)
}

/// `[name!]!`
#[tactic(auto, unfolding(graphql_spec::specs::BuiltIns::maybe_all, graphql_spec::specs::BuiltIns::must_all))]
fn must_all(alloc: Global, name: &str) -> Result<Type<String>, AllocError>
    ensures { IfOk result (λ t. view_type t ≡ must_all name.now) }
{
    Ok(maybe_all(alloc, name)?.wrap_non_null())
}
