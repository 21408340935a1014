//! The values of variables, each by itself.

ghost use Rattle.std.specs.Prelude.{◌≡◌, ◌++◌, IfOk, OnOk, map};
ghost use Rattle.graphql_spec.specs.Shown.{Name};
ghost use Rattle.juniper_syntax.specs.InputView.{view_variables};
ghost use Rattle.juniper_syntax.specs.Scalars.{default_shown};
ghost use Rattle.juniper_json.specs.Each.{IsTakenAt, given_of, refused_by, refused_in, refusal_of, view_refused};
ghost use Rattle.serde_json.specs.View.{members_view, view};

use crate::convert::Members;
use crate::numbers::{Wanted, all_numbers};
use crate::read::{VariablesError, put};
use juniper_syntax::{DefaultScalarValue, Variables};
use serde_json::Value;
use std::alloc::{AllocError, Global};

/// A variable whose value is refused.
#[derive(Debug, Drop)]
pub struct RefusedVariable {
    /// The name of the variable.
    pub name: String,
    /// Why: it is never `NotAnObject`.
    pub error: VariablesError,
}

/// The values of variables that members give, and the variables whose values are refused.
#[derive(Drop)]
pub struct GivenVariables {
    /// The values.
    pub values: Variables<DefaultScalarValue>,
    /// The others, in the order of their names.
    pub refused: Vec<RefusedVariable>,
}

/// The values of variables that the members of a JSON object give, as `read_variables` does, but each by itself: a number that is
/// no Int refuses the variable in whose value it stands, and no other. A request that does not declare that variable may be
/// executed as if it were not given.
pub fn given_variables(alloc: Global, members: &Members) -> Result<GivenVariables, AllocError>
    ensures values { IfOk result (λ given. view_variables default_shown given.values ≡ given_of (members_view members.now.entries)) }
    ensures refused { IfOk result (λ given. map view_refused given.refused.items ≡ refused_in (members_view members.now.entries)) }
{
    let values = taken_values(alloc, members)?;
    let refused = refused_variables(alloc, members)?;
    Ok(GivenVariables { values, refused })
}

/// Why a value is refused; `None` where each number in it is an Int.
fn refusal_of(value: &Value) -> Option<VariablesError>
    ensures { result ≡ refusal_of (view value.now) }
{
    if !all_numbers(Wanted::Integer, value) {
        Some(VariablesError::Float)
    } else if !all_numbers(Wanted::Int, value) {
        Some(VariablesError::OutOfRange)
    } else {
        None
    }
}

/// The values that are taken.
fn taken_values(
    alloc: Global,
    members: &Members,
) -> Result<Variables<DefaultScalarValue>, AllocError>
    ensures { IfOk result (λ made. view_variables default_shown made ≡ given_of (members_view members.now.entries)) }
{
    let mut made = Variables::new(alloc);
    for (name, value) in members.iter() {
        take(alloc, &mut made, name.as_str(), value)?;
    }
    Ok(made)
}

/// Puts the value at the name, unless it is refused.
fn take(
    alloc: Global,
    made: &mut Variables<DefaultScalarValue>,
    name: &str,
    value: &Value,
) -> Result<(), AllocError>
    ensures { OnOk result (IsTakenAt name.now (view value.now) (refusal_of (view value.now))
        (view_variables default_shown made.old) (view_variables default_shown made.new)) }
{
    match refusal_of(value) {
        None => put(alloc, made, name, value),
        Some(_) => Ok(()),
    }
}

/// The variables whose values are refused.
fn refused_variables(alloc: Global, members: &Members) -> Result<Vec<RefusedVariable>, AllocError>
    ensures { IfOk result (λ made. map view_refused made.items ≡ refused_in (members_view members.now.entries)) }
{
    let mut made = Vec::new(alloc);
    for (name, value) in members.iter() {
        refuse(alloc, &mut made, name.as_str(), value)?;
    }
    Ok(made)
}

/// Lists the variable of this name, if its value is refused.
fn refuse(
    alloc: Global,
    made: &mut Vec<RefusedVariable>,
    name: &str,
    value: &Value,
) -> Result<(), AllocError>
    ensures { OnOk result (map view_refused made.new.items ≡ map view_refused made.old.items ++ refused_by name.now (refusal_of (view value.now))) }
{
    match refusal_of(value) {
        None => Ok(()),
        Some(error) => {
            let name = String::from_str(alloc, name)?;
            Ok(made.push(RefusedVariable { name, error })?)
        }
    }
}
