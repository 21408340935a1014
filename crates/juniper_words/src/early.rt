//! Early ends of a resolver, or of a step: what has to be there, or the error of the field (section 6.4.4 of the Specification).

ghost use Rattle.juniper_values.specs.ArgumentsRead.{Reads};
ghost use Rattle.juniper_words.specs.Replies.{found_or, found_or_code};

use crate::answers::error_with_code;
use juniper_conversions::{ResolveError, error_of_message};
use juniper_syntax::ScalarValue;
use std::alloc::Global;

/// What is there, or the error of this message: `let place = found_or(alloc, place_of(tracker, id), "Unknown issue")?;`. Beside it stands
/// `with_read (found_or (codes "Unknown issue") (place_of t id)) (λ place. ..)`, in a step `with_step c (found_or ..)`.
pub fn found_or<T: Drop, S: ScalarValue>(
    alloc: Global,
    found: Option<T>,
    message: &str,
) -> Result<T, ResolveError<S>>
    ensures { Reads S.shown result (found_or message.now found) }
{
    match found {
        Some(found) => Ok(found),
        None => {
            let message = String::from_str(alloc, message)?;
            Err(ResolveError::Field(error_of_message(message)))
        }
    }
}

/// What is there, or the error of this message and this code (7.1.2):
/// `let place = found_or_code(alloc, place_of(tracker, id), "Unknown issue", "NOT_FOUND")?;`.
pub fn found_or_code<T: Drop, S: ScalarValue>(
    alloc: Global,
    found: Option<T>,
    message: &str,
    code: &str,
) -> Result<T, ResolveError<S>>
    ensures { Reads S.shown result (found_or_code message.now code.now found) }
{
    match found {
        Some(found) => Ok(found),
        None => Err(ResolveError::Field(error_with_code(alloc, message, code)?)),
    }
}
