//! What a resolver gets of its arguments while memory is wanting (section 6.4.1 of the Specification).

use crate::inputs::{Input, Scalar, ending, read_input};
use crate::turns::{Ended, Room, Task, Turn, tried};
use indexmap::IndexMap;
use juniper_language::{Span, Spanning};
use juniper_values::{Arguments, FieldError, FromInputValue, IntoFieldError, ResolveError};
use std::alloc::{AllocError, Global};
use std::fmt::Debug;
use std::marker::PhantomData;

/// Arguments, of which `n` is got as a `T`; a copy of its value, and what is answered.
#[derive(Drop)]
struct Getting<'a, T> {
    arguments: Arguments<'a, Scalar>,
    copy: &'a Input,
    expected: &'static str,
    of_type: PhantomData<T>,
}

impl<'a, T> Task for Getting<'a, T>
where
    T: FromInputValue<Scalar> + Debug,
    T::Error: IntoFieldError<Scalar>,
{
    fn turn(&mut self, alloc: Global, room: Room) -> Turn {
        let held_back = room.hold_back(alloc);
        let outcome = self.arguments.get::<T>(alloc, "n");
        drop(held_back);
        if is_kept(self.arguments.get_input_value("n"), self.copy) {
            ending(alloc, told(outcome), self.expected)
        } else {
            Turn::Wrong
        }
    }
}

/// Whether this value is there.
fn is_kept(kept: Option<&Spanning<Input, Span>>, value: &Input) -> bool {
    match kept {
        Some(kept) => kept.item == *value,
        None => false,
    }
}

/// What was got, or the error of the field; an error where memory is wanting.
fn told<T: FromInputValue<Scalar>>(
    got: Result<Option<T>, ResolveError<Scalar>>,
) -> Result<Result<Option<T>, FieldError<Scalar>>, AllocError> {
    match got {
        Ok(found) => Ok(Ok(found)),
        Err(ResolveError::Field(error)) => Ok(Err(error)),
        Err(ResolveError::Memory) => Err(AllocError),
    }
}

/// How the turns ended in which the value of a text is got as a `T`.
fn got<T>(alloc: Global, text: &str, expected: &'static str) -> Result<Ended, AllocError>
where
    T: FromInputValue<Scalar> + Debug,
    T::Error: IntoFieldError<Scalar>,
{
    let copy = read_input(alloc, text)?;
    let mut getting = Getting::<T> {
        arguments: arguments_of(alloc, copy)?,
        copy,
        expected,
        of_type: PhantomData,
    };
    tried(alloc, &mut getting)
}

/// Arguments of which `n` has this value.
fn arguments_of<'a>(alloc: Global, value: &Input) -> Result<Arguments<'a, Scalar>, AllocError> {
    let mut given = IndexMap::new(alloc);
    drop(given.insert("n", Spanning::unlocated(value.try_clone(alloc)?))?);
    Arguments::new(alloc, Some(given), None)
}

#[test]
fn lists_are_got(rt: HostRuntime) {
    let text =
        r#"["the first of the texts that are read", "the second of the texts that are read", "the third of them", "the fourth of them", "the fifth"]"#;
    let expected =
        r#"Ok(Some(["the first of the texts that are read", "the second of the texts that are read", "the third of them", "the fourth of them", "the fifth"]))"#;
    assert_eq!(rt;
        got::<Vec<String>>(rt.alloc(), text, expected),
        Ok(Ended::Answered)
    );
}

#[test]
fn another_scalar_is_an_error_of_the_field(rt: HostRuntime) {
    let text =
        r#"["the first of the texts that are read", "the second of the texts that are read", "the third of them", "the fourth of them", "the fifth", true]"#;
    let expected =
        r#"Err(FieldError { message: "Expected `String`, found another scalar", extensions: Null })"#;
    assert_eq!(rt;
        got::<Vec<String>>(rt.alloc(), text, expected),
        Ok(Ended::Answered)
    );
}

#[test]
fn too_few_are_an_error_of_the_field(rt: HostRuntime) {
    let text =
        r#"[["the first of the texts, which is so long that memory is wanting for it alone in some turns"], ["the second of the texts, which is as long, so that there are turns in which the first is read"], ["the third of them"], ["the fourth", "the fifth"]]"#;
    let expected =
        r#"Err(FieldError { message: "Failed to convert into exact-size array: wrong elements count: 2 instead of 1", extensions: Null })"#;
    assert_eq!(rt;
        got::<Vec<[String; 1]>>(rt.alloc(), text, expected),
        Ok(Ended::Answered)
    );
}
