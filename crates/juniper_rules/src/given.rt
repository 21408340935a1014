//! The given values of variables, looked up by their names (CoerceVariableValues, section 6.1.2 of the Specification).
//!
//! Names are chosen by whoever sends the request, and the map that is given takes a step for each name of the same hash: so where
//! an operation declares many variables, their values are looked up by the order of the names.

ghost use Rattle.std.specs.Prelude.{◌≡◌, IfOk, option_map};
ghost use Rattle.std.specs.HashMap.{get_by_text};
ghost use Rattle.graphql_spec.specs.Shown.{Name};
ghost use Rattle.juniper_syntax.specs.InputView.{view_input, view_variables};
ghost use Rattle.juniper_rules.specs.GivenView.{value_in_order, view_given_values};

use juniper_syntax::{InputValue, Operation, ScalarValue, Span, Spanning, Variables};
use std::alloc::{AllocError, Global};
use std::collections::BTreeMap;

/// The most variables that an operation declares for their values to be looked up in the map that is given.
const FEW: usize = 16;

/// Values in the order of their names.
type InOrder<'b, S> = BTreeMap<&'b str, &'b InputValue<S>>;

/// The given values of variables, as they are looked up for those that an operation declares.
#[derive(Drop)]
pub enum Given<'b, S> {
    /// In the map that is given.
    Hashed(&'b Variables<S>),
    /// By the order of their names.
    Ordered(InOrder<'b, S>),
}

impl<'b, S: ScalarValue> Given<'b, S> {
    /// These values, to be looked up for the operation: where it declares many variables, all are put in order once. An error
    /// where memory is refused.
    pub fn new(
        alloc: Global,
        operation: &Spanning<Operation<'_, S>, Span>,
        variables: &'b Variables<S>,
    ) -> Result<Self, AllocError>
        ensures { IfOk result (λ g. view_given_values S.shown g ≡ view_variables S.shown variables.now) }
    {
        if declares_few(operation) {
            return Ok(Given::Hashed(variables));
        }
        let values = put_in_order(alloc, variables)?;
        Ok(Given::Ordered(values))
    }

    /// The value that is given for the name.
    pub fn get(&self, name: &str) -> Option<&InputValue<S>>
        ensures { option_map (λ v. view_input S.shown v.now) result ≡ view_given_values S.shown self.now name.now }
    {
        match self {
            Given::Hashed(variables) => variables.get(name),
            Given::Ordered(values) => match values.get(name) {
                Some(value) => Some(*value),
                None => None,
            },
        }
    }
}

/// Whether the operation declares few variables. Nothing rests on it.
fn declares_few<S: ScalarValue>(operation: &Spanning<Operation<'_, S>, Span>) -> bool {
    match &operation.item.variable_definitions {
        Some(defined) => defined.item.items.len() <= FEW,
        None => true,
    }
}

/// The given values in the order of their names: the map is gone over, and nothing is looked up in it.
fn put_in_order<'b, S: ScalarValue>(
    alloc: Global,
    variables: &'b Variables<S>,
) -> Result<InOrder<'b, S>, AllocError>
    ensures { IfOk result (λ m. (n : Name) → value_in_order m n ≡ get_by_text variables.now n) }
{
    let mut values = BTreeMap::new(alloc);
    for (name, value) in variables {
        values.insert(name.as_str(), value)?;
    }
    Ok(values)
}
