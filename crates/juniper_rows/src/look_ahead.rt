//! What look-ahead shows of the arguments of a field, and whether a field with directives is taken.

ghost use Rattle.juniper_lookahead.specs.Expansion.{IsAcyclic};
ghost use Rattle.juniper_syntax.specs.Scalars.{default_shown};

mod admitting;
mod showing;

use crate::fields::first_field;
use crate::kinds::unknown;
use crate::table::Row;
use juniper_language::{DefaultScalarValue as Scalar, Field, Fragments, InputValue, Variables};
use juniper_lookahead::{LookAheadSelection, LookAheadValue};
use std::alloc::{AllocError, Global};
use std::collections::HashMap;

/// What is told of a case: `FIELD with VALUE` where it is whether the field `admits`, else `DOCUMENT | QUESTION`.
pub fn told(alloc: Global, row: &Row) -> Result<String, AllocError> {
    if row.told == "admits" {
        return admitting::told(alloc, row.case);
    }
    let Some((document, question)) = row.case.split_once(" | ") else {
        return unknown(alloc);
    };
    match first_field(alloc, document) {
        Some(field) => told_of(alloc, row.told, field, question),
        None => unknown(alloc),
    }
}

/// What is told of a field.
fn told_of<'d, 'a>(
    alloc: Global,
    told: &str,
    field: &'d Field<'a, Scalar>,
    question: &str,
) -> Result<String, AllocError> {
    let variables = variables(alloc)?;
    let fragments: Fragments<'d, 'a, Scalar> = no_fragments(alloc);
    let selection = LookAheadSelection::new(field, &variables, &fragments);
    match (told, first_value(&selection)) {
        ("argument", _) => showing::argument(alloc, selection.argument(question)),
        ("arguments", _) => showing::arguments(alloc, &selection, question),
        ("items", Some(LookAheadValue::List(list))) => showing::items(alloc, &list, question),
        ("fields", Some(LookAheadValue::Object(object))) => {
            showing::fields(alloc, &object, question)
        }
        ("equality", Some(value)) => equality(alloc, value, question, &variables),
        _ => unknown(alloc),
    }
}

/// The value of the first argument of a field.
fn first_value<'r, 'd, 'a>(
    selection: &LookAheadSelection<'r, 'd, 'a, Scalar>,
) -> Option<LookAheadValue<'r, Scalar>> {
    Some(selection.arguments().next()?.value())
}

/// Whether a value is equal to that of the first argument of another document's first field.
fn equality(
    alloc: Global,
    value: LookAheadValue<'_, Scalar>,
    document: &str,
    variables: &Variables<Scalar>,
) -> Result<String, AllocError> {
    let Some(field) = first_field(alloc, document) else {
        return unknown(alloc);
    };
    let fragments = no_fragments(alloc);
    let other = LookAheadSelection::new(field, variables, &fragments);
    match first_value(&other) {
        Some(other) => (value == other).to_string(alloc),
        None => unknown(alloc),
    }
}

/// `given` is 7, `indirect` is the variable `given`, and `n` is 42.
fn variables(alloc: Global) -> Result<Variables<Scalar>, AllocError> {
    let mut variables = HashMap::new(alloc);
    let seven = InputValue::Scalar(Scalar::Int(7));
    variables.insert(String::from_str(alloc, "given")?, seven)?;
    let given = InputValue::Variable(String::from_str(alloc, "given")?);
    variables.insert(String::from_str(alloc, "indirect")?, given)?;
    let number = InputValue::Scalar(Scalar::Int(42));
    variables.insert(String::from_str(alloc, "n")?, number)?;
    Ok(variables)
}

/// No fragments.
fn no_fragments<'d, 'a>(alloc: Global) -> Fragments<'d, 'a, Scalar>
    ensures { IsAcyclic default_shown result }
{
    HashMap::new(alloc)
}
