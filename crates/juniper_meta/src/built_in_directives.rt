//! The directives that every schema has (section 3.13 of the Specification).

ghost use Rattle.std.specs.Prelude.{◌≡◌, IfOk, map, Some, [], ◌∷◌};
ghost use Rattle.graphql_spec.specs.BuiltIns.{maybe, String', directives};
ghost use Rattle.graphql_spec.specs.Inputs.{scalar};
ghost use Rattle.graphql_spec.specs.Schema.{plain_input};
ghost use Rattle.graphql_spec.specs.Shown.{text};
ghost use Rattle.juniper_meta.specs.Rows.{row_argument, row_directive};
ghost use Rattle.juniper_syntax.specs.InputView.{view_input};
ghost use Rattle.juniper_meta.specs.MetaView.{view_argument, view_directive, with_default};

use crate::fields::{maybe_argument, must_argument};
use crate::{Argument, DirectiveLocation, DirectiveType};
use juniper_syntax::{InputValue, ScalarValue};
use std::alloc::{AllocError, Global};

/// An argument of a directive, as a part of a table's row.
#[derive(Clone, Copy)]
enum ArgumentRow<'a> {
    /// `name: of_type!`
    Must(&'a str, &'a str),
    /// `name: String = "value"`
    Text(&'a str, &'a str),
}

/// A directive with one argument, as a row of a table.
#[derive(Clone, Copy)]
struct DirectiveRow<'a> {
    name: &'a str,
    locations: &'a [DirectiveLocation],
    argument: ArgumentRow<'a>,
}

/// `@deprecated(reason: String = "No longer supported")` (3.13.3).
const DEPRECATED: DirectiveRow<'static> = DirectiveRow {
    name: "deprecated",
    locations: &[
        DirectiveLocation::FieldDefinition,
        DirectiveLocation::EnumValue,
    ],
    argument: ArgumentRow::Text("reason", "No longer supported"),
};

/// `@include(if: Boolean!)` (3.13.2).
const INCLUDE: DirectiveRow<'static> = DirectiveRow {
    name: "include",
    locations: &SELECTION_PLACES,
    argument: ArgumentRow::Must("if", "Boolean"),
};

/// `@skip(if: Boolean!)` (3.13.1).
const SKIP: DirectiveRow<'static> = DirectiveRow {
    name: "skip",
    locations: &SELECTION_PLACES,
    argument: ArgumentRow::Must("if", "Boolean"),
};

/// `@specifiedBy(url: String!)` (3.13.4).
const SPECIFIED_BY: DirectiveRow<'static> = DirectiveRow {
    name: "specifiedBy",
    locations: &[DirectiveLocation::Scalar],
    argument: ArgumentRow::Must("url", "String"),
};

/// Where `@skip` and `@include` may stand.
const SELECTION_PLACES: [DirectiveLocation; 3] = [
    DirectiveLocation::Field,
    DirectiveLocation::FragmentSpread,
    DirectiveLocation::InlineFragment,
];

/// The directives `deprecated`, `include`, `skip` and `specifiedBy` (3.13); an error where memory is refused.
#[tactic(auto, unfolding(crate::specs::Rows::row_directive, graphql_spec::specs::BuiltIns::directives, graphql_spec::specs::BuiltIns::condition_arguments, graphql_spec::specs::BuiltIns::selection_places, graphql_spec::specs::Schema::plain_input))]
pub fn directives<S: ScalarValue>(alloc: Global) -> Result<Vec<DirectiveType<S>>, AllocError>
    ensures { IfOk result (λ made. map (view_directive S.shown) made.items ≡ directives) }
{
    directives_of(alloc, &[DEPRECATED, INCLUDE, SKIP, SPECIFIED_BY])
}

/// The directives that the rows say, in order.
fn directives_of<S: ScalarValue>(
    alloc: Global,
    rows: &[DirectiveRow],
) -> Result<Vec<DirectiveType<S>>, AllocError>
    ensures { IfOk result (λ made. map (view_directive S.shown) made.items ≡ map row_directive rows.now) }
{
    let mut directives = Vec::new(alloc);
    for row in rows {
        directives.push(directive_of(alloc, row)?)?;
    }
    Ok(directives)
}

/// The directive that the row says.
fn directive_of<S: ScalarValue>(
    alloc: Global,
    row: &DirectiveRow,
) -> Result<DirectiveType<S>, AllocError>
    ensures { IfOk result (λ d. view_directive S.shown d ≡ row_directive row.now) }
{
    let name = String::from_str(alloc, row.name)?;
    let locations = Vec::from_slice(alloc, row.locations)?;
    let arguments = alone(alloc, argument_of(alloc, &row.argument)?)?;
    Ok(DirectiveType::new(name, locations, arguments))
}

/// The argument that the row says.
fn argument_of<S: ScalarValue>(alloc: Global, row: &ArgumentRow) -> Result<Argument<S>, AllocError>
    ensures { IfOk result (λ a. view_argument S.shown a ≡ row_argument row.now) }
{
    match *row {
        ArgumentRow::Must(name, of_type) => must_argument(alloc, name, of_type),
        ArgumentRow::Text(name, value) => text_argument(alloc, name, value),
    }
}

/// `name: String = "value"`
fn text_argument<S: ScalarValue>(
    alloc: Global,
    name: &str,
    value: &str,
) -> Result<Argument<S>, AllocError>
    ensures { IfOk result (λ a. view_argument S.shown a ≡ with_default (plain_input name.now (maybe String')) (scalar (text value.now))) }
{
    let value = text_of(alloc, value)?;
    Ok(maybe_argument(alloc, name, "String")?.default_value(value))
}

/// A text as an input value.
fn text_of<S: ScalarValue>(alloc: Global, value: &str) -> Result<InputValue<S>, AllocError>
    ensures { IfOk result (λ made. view_input S.shown made ≡ scalar (text value.now)) }
{
    Ok(InputValue::Scalar(S::from_text(String::from_str(alloc, value)?)?))
}

/// The list of this argument alone.
fn alone<S: ScalarValue>(
    alloc: Global,
    argument: Argument<S>,
) -> Result<Vec<Argument<S>>, AllocError>
    ensures { IfOk result (λ made. made.items ≡ argument ∷ []) }
{
    let mut arguments = Vec::new(alloc);
    arguments.push(argument)?;
    Ok(arguments)
}
