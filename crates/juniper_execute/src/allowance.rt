//! How much of written arguments a request makes (CoerceArgumentValues, section 6.4.1 of the Specification). Nothing rests on it.

use crate::weight::{left_of, weight_of};
use juniper_syntax::{InputValue, Operation, ScalarValue, Span, Spanning, Variables};
use std::alloc::AllocError;
use std::cell::Cell;

/// So much may weigh what a request makes of its arguments.
const ALLOWED: usize = 500_000;

/// And so many times as much as the values of its variables.
const TIMES: usize = 4;

/// How much may still weigh what a request makes of its arguments: the value of a variable that stands in thousands of places is copied to each.
#[derive(Drop)]
pub(crate) struct Allowance {
    left: Cell<usize>,
}

impl Allowance {
    /// That of an operation with these values of its variables.
    pub(crate) fn new<S: ScalarValue>(
        operation: &Spanning<Operation<'_, S>, Span>,
        variables: &Variables<S>,
    ) -> Allowance {
        let mut allowed = ALLOWED;
        for variable in Operation::defined_variables(operation) {
            let weight = weight_of_given(variable.0.item, variables);
            allowed = allowed.saturating_add(weight.saturating_mul(TIMES));
        }
        Allowance {
            left: Cell::new(allowed),
        }
    }

    /// Takes off what a written value weighs with values for its variables: an error, as where memory is refused, if that is more than is left.
    pub(crate) fn take<S: ScalarValue>(
        &self,
        value: &InputValue<S>,
        variables: &Variables<S>,
    ) -> Result<(), AllocError> {
        match left_of(self.left.get(), value, variables) {
            Some(left) => {
                self.left.set(left);
                Ok(())
            }
            None => Err(AllocError),
        }
    }
}

/// What the value of a variable weighs: nothing, where there is none.
fn weight_of_given<S: ScalarValue>(name: &str, variables: &Variables<S>) -> usize {
    match variables.get(name) {
        Some(value) => weight_of(value),
        None => 0,
    }
}
