//! Which arguments are kept for all nodes of a field. Nothing rests on it: others are lent to each node.

use crate::allowance::Allowance;
use crate::weight::left_of;
use juniper_syntax::{InputValue, ScalarValue, Span, Variables, WrittenArgument};
use std::alloc::AllocError;

/// A value that weighs no more is small.
const SMALL: usize = 16;

/// Whether the arguments are kept: one that is not small is or holds a variable, or those that are not small take no more bytes of the text than
/// there is room for. An error, as where memory is refused, where one holds a variable and they weigh more than is allowed.
pub(crate) fn are_kept<S: ScalarValue>(
    written: &[WrittenArgument<'_, S>],
    variables: &Variables<S>,
    room: usize,
    allowance: &Allowance,
) -> Result<bool, AllocError> {
    if !have_large_variables(written, variables) {
        return Ok(fit_in(written, variables, room));
    }
    for argument in written {
        allowance.take(&argument.1.item, variables)?;
    }
    Ok(true)
}

/// Whether an argument that is not small is or holds a variable.
fn have_large_variables<S: ScalarValue>(
    written: &[WrittenArgument<'_, S>],
    variables: &Variables<S>,
) -> bool {
    for argument in written {
        let value = &argument.1.item;
        if !value.is_const() && !is_small(value, variables) {
            return true;
        }
    }
    false
}

/// Whether those that are not small take no more bytes of the text than there is room for.
fn fit_in<S: ScalarValue>(
    written: &[WrittenArgument<'_, S>],
    variables: &Variables<S>,
    room: usize,
) -> bool {
    let mut left = room;
    for argument in written {
        let value = &argument.1;
        if !is_small(&value.item, variables) {
            let length = length_of(value.span);
            if left < length {
                return false;
            }
            left = left.saturating_sub(length);
        }
    }
    true
}

/// Whether a value is small, with values for its variables.
fn is_small<S: ScalarValue>(value: &InputValue<S>, variables: &Variables<S>) -> bool {
    left_of(SMALL, value, variables).is_some()
}

/// How many bytes of its text a part has.
fn length_of(span: Span) -> usize {
    span.end.index().saturating_sub(span.start.index())
}
