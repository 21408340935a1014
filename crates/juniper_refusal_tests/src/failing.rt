//! What becomes the error of a field while memory is wanting.

use crate::inputs::Scalar;
use crate::turns::{Ended, Room, Task, Turn, tried};
use juniper_language::{Object, ScalarValue, Value};
use juniper_values::{FieldError, FromInputValueVecError, IntoFieldError};
use std::alloc::{AllocError, Global};
use std::borrow::CowStr;
use std::test::Fail;

/// What becomes an error.
#[derive(Clone, Copy)]
enum Failure {
    /// A text.
    Text,
    /// A text that may be borrowed.
    Borrowed,
    /// An error with extensions.
    Error,
    /// Such an error of an item of a list in a list.
    Item,
}

/// A failure, and the error that it becomes.
#[derive(Drop)]
struct Failing {
    failure: Failure,
    expected: FieldError<Scalar>,
}

/// A text that takes more than ten times what a turn adds.
const LONG: &str =
    "A message that takes more than a hundred and sixty bytes, so that at least ten turns are refused: \
    in each of them there are sixteen bytes more than in the one before it, and that is not enough.";

/// How a turn ended in which this becomes an error.
fn become_error<E: IntoFieldError<Scalar>>(
    alloc: Global,
    room: Room,
    failure: E,
    expected: &FieldError<Scalar>,
) -> Turn {
    let held_back = room.hold_back(alloc);
    let outcome = failure.into_field_error(alloc);
    drop(held_back);
    match outcome {
        Ok(error) if error == *expected => Turn::Answered,
        Ok(_) => Turn::Wrong,
        Err(_) => Turn::Refused,
    }
}

/// An error of this text alone.
fn message(alloc: Global) -> Result<FieldError<Scalar>, AllocError> {
    FieldError::new(alloc, LONG, Value::Null)
}

/// An error with extensions.
fn extended(alloc: Global) -> Result<FieldError<Scalar>, AllocError> {
    let mut extensions = Object::with_capacity(alloc, 0)?;
    let code = Value::Scalar(Scalar::from_text(String::from_str(alloc, LONG)?)?);
    drop(extensions.add_field(String::from_str(alloc, "code")?, code)?);
    FieldError::new(alloc, "no", Value::Object(extensions))
}

/// Why a list has no conversion.
type Texts = FromInputValueVecError<String, Scalar>;

/// Why a list of lists has none.
type Lists = FromInputValueVecError<Vec<String>, Scalar>;

impl Task for Failing {
    fn turn(&mut self, alloc: Global, room: Room) -> Turn {
        let expected = &self.expected;
        match self.failure {
            Failure::Text => become_error(alloc, room, LONG, expected),
            Failure::Borrowed => become_error(alloc, room, CowStr::Borrowed(LONG), expected),
            Failure::Error => match extended(alloc) {
                Ok(error) => become_error(alloc, room, error, expected),
                Err(_) => Turn::Wrong,
            },
            Failure::Item => match extended(alloc) {
                Ok(error) => become_error(alloc, room, Lists::Item(Texts::Item(error)), expected),
                Err(_) => Turn::Wrong,
            },
        }
    }
}

/// How the turns ended in which this becomes that error.
fn became(
    alloc: Global,
    failure: Failure,
    expected: FieldError<Scalar>,
) -> Result<Ended, AllocError> {
    tried(alloc, &mut Failing { failure, expected })
}

#[test]
fn texts_become_errors(rt: HostRuntime) -> Result<(), Fail> {
    let expected = message(rt.alloc())?;
    assert_eq!(rt;
        became(rt.alloc(), Failure::Text, expected)?,
        Ended::Answered
    );
    Ok(())
}

#[test]
fn texts_that_may_be_borrowed_become_errors(rt: HostRuntime) -> Result<(), Fail> {
    let expected = message(rt.alloc())?;
    assert_eq!(rt;
        became(rt.alloc(), Failure::Borrowed, expected)?,
        Ended::Answered
    );
    Ok(())
}

#[test]
fn errors_with_extensions_become_errors(rt: HostRuntime) -> Result<(), Fail> {
    let expected = extended(rt.alloc())?;
    assert_eq!(rt;
        became(rt.alloc(), Failure::Error, expected)?,
        Ended::Answered
    );
    Ok(())
}

#[test]
fn errors_of_items_become_errors(rt: HostRuntime) -> Result<(), Fail> {
    let expected = extended(rt.alloc())?;
    assert_eq!(rt;
        became(rt.alloc(), Failure::Item, expected)?,
        Ended::Answered
    );
    Ok(())
}
