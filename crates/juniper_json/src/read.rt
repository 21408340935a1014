//! The values of variables, by a text.

ghost use Rattle.std.specs.Prelude.{◌≡◌, IfOk, OnOk};
ghost use Rattle.graphql_spec.specs.Shown.{Name};
ghost use Rattle.juniper_syntax.specs.InputView.{view_variables};
ghost use Rattle.juniper_syntax.specs.Scalars.{default_shown};
ghost use Rattle.juniper_json.specs.Given.{IsGiven, put_value, values_of, variables_by, variables_from, variables_in};
ghost use Rattle.serde_json.specs.Find.{as_object};
ghost use Rattle.serde_json.specs.View.{members_view, view};

use crate::convert::{Members, input};
use crate::numbers::{Wanted, all_members};
use juniper_syntax::{DefaultScalarValue, Variables};
use serde_json::{Category, Value};
use std::alloc::{AllocError, Global};

/// Why a text gives no values of variables.
#[derive(Clone, Copy, Debug, PartialEq, Eq, Drop)]
pub enum VariablesError {
    /// It is no JSON, or no object.
    NotAnObject,
    /// A number in it has a fraction or an exponent, or is an integer that 64 bits do not hold.
    Float,
    /// A number in it is no Int (3.5.1), and each is an integer.
    OutOfRange,
}

/// The values of variables that a JSON object gives: each member is that of the variable of its name, and of several of one
/// name the last. A number is an Int, and a text a String, whatever the type of the variable. An error outside where memory
/// is refused.
pub fn read_variables(
    alloc: Global,
    text: &str,
) -> Result<Result<Variables<DefaultScalarValue>, VariablesError>, AllocError>
    ensures { IfOk result (IsGiven (variables_by text.now)) }
{
    match Value::from_str(alloc, text) {
        Ok(value) => given_by(alloc, &value),
        Err(error) => match error.classify() {
            Category::Memory => Err(AllocError),
            _ => Ok(Err(VariablesError::NotAnObject)),
        },
    }
}

/// The values that a JSON value gives, where it is an object.
fn given_by(
    alloc: Global,
    value: &Value,
) -> Result<Result<Variables<DefaultScalarValue>, VariablesError>, AllocError>
    ensures { IfOk result (IsGiven (variables_from (as_object (view value.now)))) }
{
    match value.as_object() {
        Some(members) => given(alloc, members),
        None => Ok(Err(VariablesError::NotAnObject)),
    }
}

/// The values that these members give, where each number is an Int.
fn given(
    alloc: Global,
    members: &Members,
) -> Result<Result<Variables<DefaultScalarValue>, VariablesError>, AllocError>
    ensures { IfOk result (IsGiven (variables_in (members_view members.now.entries))) }
{
    if !all_members(Wanted::Integer, members) {
        return Ok(Err(VariablesError::Float));
    }
    if !all_members(Wanted::Int, members) {
        return Ok(Err(VariablesError::OutOfRange));
    }
    Ok(Ok(values(alloc, members)?))
}

/// The value of each member.
fn values(alloc: Global, members: &Members) -> Result<Variables<DefaultScalarValue>, AllocError>
    ensures { IfOk result (λ made. view_variables default_shown made ≡ values_of (members_view members.now.entries)) }
{
    let mut made = Variables::new(alloc);
    for (name, value) in members.iter() {
        put(alloc, &mut made, name.as_str(), value)?;
    }
    Ok(made)
}

/// Puts the value at the name, in place of what stood there.
pub fn put(
    alloc: Global,
    made: &mut Variables<DefaultScalarValue>,
    name: &str,
    value: &Value,
) -> Result<(), AllocError>
    ensures { OnOk result ((n : Name) → view_variables default_shown made.new n
        ≡ put_value name.now (view value.now) (view_variables default_shown made.old) n) }
{
    let key = String::from_str(alloc, name)?;
    let value = input(alloc, value)?;
    drop(made.insert(key, value)?);
    Ok(())
}
