//! Conversions while memory is wanting, which is never told as an error of the conversion (section 3.11 of the Specification).

use crate::inputs::{Input, Scalar, ending, read_input};
use crate::turns::{Ended, Room, Task, Turn, tried};
use juniper_conversions::{ID, Nullable};
use juniper_values::{FromInputValue, ToInputValue};
use std::alloc::{AllocError, Global};
use std::fmt::Debug;
use std::marker::PhantomData;

/// A value that is converted to a `T`, a copy of it, and what is answered.
#[derive(Drop)]
struct Converting<'v, T> {
    value: &'v Input,
    copy: Input,
    expected: &'static str,
    into: PhantomData<T>,
}

impl<'v, T> Task for Converting<'v, T>
where
    T: FromInputValue<Scalar> + Debug,
    T::Error: Debug,
{
    fn turn(&mut self, alloc: Global, room: Room) -> Turn {
        let held_back = room.hold_back(alloc);
        let outcome = T::from_input_value(alloc, self.value);
        drop(held_back);
        if *self.value == self.copy {
            ending(alloc, outcome, self.expected)
        } else {
            Turn::Wrong
        }
    }
}

/// How the turns ended in which the value of a text is converted to a `T`.
fn converted<T>(alloc: Global, text: &str, expected: &'static str) -> Result<Ended, AllocError>
where
    T: FromInputValue<Scalar> + Debug,
    T::Error: Debug,
{
    let value = read_input(alloc, text)?;
    let mut converting = Converting::<T> {
        value,
        copy: value.try_clone(alloc)?,
        expected,
        into: PhantomData,
    };
    tried(alloc, &mut converting)
}

/// A value of Rust that is written as an input value, and that value as a text.
#[derive(Drop)]
struct Writing<T> {
    value: T,
    expected: &'static str,
}

impl<T: ToInputValue<Scalar>> Task for Writing<T> {
    fn turn(&mut self, alloc: Global, room: Room) -> Turn {
        let held_back = room.hold_back(alloc);
        let outcome = self.value.to_input_value(alloc);
        drop(held_back);
        match outcome {
            Ok(written) => ending_with(written.to_string(alloc), self.expected),
            Err(_) => Turn::Refused,
        }
    }
}

/// How a turn ended that answered this text.
fn ending_with(text: Result<String, AllocError>, expected: &str) -> Turn {
    match text {
        Ok(text) if text.as_str() == expected => Turn::Answered,
        _ => Turn::Wrong,
    }
}

/// How the turns ended in which the value of a text, read as a `T`, is written again.
fn written<T>(alloc: Global, text: &'static str) -> Result<Ended, AllocError>
where
    T: FromInputValue<Scalar> + ToInputValue<Scalar>,
{
    match T::from_input_value(alloc, read_input(alloc, text)?)? {
        Ok(value) => tried(
            alloc,
            &mut Writing {
                value,
                expected: text,
            },
        ),
        Err(_) => Err(AllocError),
    }
}

/// A value that may be cloned, and the clone as it is shown.
#[derive(Drop)]
struct Cloning<'v> {
    value: &'v Vec<String>,
    expected: &'static str,
}

impl<'v> Task for Cloning<'v> {
    fn turn(&mut self, alloc: Global, room: Room) -> Turn {
        let lent = Nullable::Some(self.value);
        let held_back = room.hold_back(alloc);
        let outcome = lent.cloned();
        drop(held_back);
        ending(alloc, outcome, self.expected)
    }
}

/// How the turns ended in which a list of texts is cloned.
fn cloned(alloc: Global) -> Result<Ended, AllocError> {
    let mut value = Vec::new(alloc);
    for text in [
        "the first",
        "the second",
        "the third",
        "a",
        "b",
        "c",
        "d",
        "e",
    ] {
        value.push(String::from_str(alloc, text)?)?;
    }
    let mut cloning = Cloning {
        value: &value,
        expected: r#"Some(["the first", "the second", "the third", "a", "b", "c", "d", "e"])"#,
    };
    tried(alloc, &mut cloning)
}

#[test]
fn lists_in_lists(rt: HostRuntime) {
    let text =
        r#"[["the first of the texts, which is so long that memory is wanting for it alone in some turns", "the second of the texts, which is as long, so that there are turns in which the first is read"], "the third"]"#;
    let expected =
        r#"Ok([["the first of the texts, which is so long that memory is wanting for it alone in some turns", "the second of the texts, which is as long, so that there are turns in which the first is read"], ["the third"]])"#;
    assert_eq!(rt;
        converted::<Vec<Vec<String>>>(rt.alloc(), text, expected),
        Ok(Ended::Answered)
    );
}

#[test]
fn a_null_in_a_list(rt: HostRuntime) {
    let text =
        r#"[["the first of the texts, which is so long that memory is wanting for it alone in some turns", "the second of the texts, which is as long, so that there are turns in which the first is read"], "the third", null]"#;
    let expected = "Err(Item(Null))";
    assert_eq!(rt;
        converted::<Vec<Vec<String>>>(rt.alloc(), text, expected),
        Ok(Ended::Answered)
    );
}

#[test]
fn lists_in_an_array(rt: HostRuntime) {
    let text =
        r#"[["the first of the texts, which is so long that memory is wanting for it alone in some turns", 12, -7], "the third"]"#;
    let expected =
        r#"Ok([[ID { text: "the first of the texts, which is so long that memory is wanting for it alone in some turns" }, ID { text: "12" }, ID { text: "-7" }], [ID { text: "the third" }]])"#;
    assert_eq!(rt;
        converted::<[Vec<ID>; 2]>(rt.alloc(), text, expected),
        Ok(Ended::Answered)
    );
}

#[test]
fn another_scalar_in_an_array(rt: HostRuntime) {
    let text =
        r#"[["the first of the texts, which is so long that memory is wanting for it alone in some turns", "the second of the texts, which is as long, so that there are turns in which the first is read"], ["the third", true]]"#;
    let expected =
        r#"Err(Item(Item(FieldError { message: "Expected `String`, found another scalar", extensions: Null })))"#;
    assert_eq!(rt;
        converted::<[[String; 2]; 2]>(rt.alloc(), text, expected),
        Ok(Ended::Answered)
    );
}

#[test]
fn too_few_in_an_array(rt: HostRuntime) {
    let text =
        r#"[["the first of the texts, which is so long that memory is wanting for it alone in some turns", "the second of the texts, which is as long, so that there are turns in which the first is read"], ["the third"]]"#;
    let expected = "Err(Item(WrongCount { actual: 1, expected: 2 }))";
    assert_eq!(rt;
        converted::<[[String; 2]; 2]>(rt.alloc(), text, expected),
        Ok(Ended::Answered)
    );
}

#[test]
fn lists_that_may_be_null(rt: HostRuntime) {
    let text =
        r#"[["the first of the texts, which is so long that memory is wanting for it alone in some turns", null], ["the second of the texts, which is as long, so that there are turns in which the first is read", "the third of them"], null]"#;
    let expected =
        r#"Ok(Some([Some([Some("the first of the texts, which is so long that memory is wanting for it alone in some turns"), ExplicitNull]), Some([Some("the second of the texts, which is as long, so that there are turns in which the first is read"), Some("the third of them")]), ExplicitNull]))"#;
    assert_eq!(rt;
        converted::<Option<Vec<Nullable<Vec<Nullable<Box<String>>>>>>>(rt.alloc(), text, expected),
        Ok(Ended::Answered)
    );
}

#[test]
fn lists_are_written(rt: HostRuntime) {
    let text =
        r#"[["the first of the texts, which is so long that memory is wanting for it alone in some turns", "the second of the texts, which is as long, so that there are turns in which the first is read"], ["the third"]]"#;
    assert_eq!(rt;
        written::<Vec<Vec<String>>>(rt.alloc(), text),
        Ok(Ended::Answered)
    );
}

#[test]
fn arrays_are_written(rt: HostRuntime) {
    let text =
        r#"[["the first of the texts, which is so long that memory is wanting for it alone in some turns", null], ["the third", "the fourth"]]"#;
    assert_eq!(rt;
        written::<[[Option<ID>; 2]; 2]>(rt.alloc(), text),
        Ok(Ended::Answered)
    );
}

#[test]
fn nullable_values_are_cloned(rt: HostRuntime) {
    assert_eq!(rt; cloned(rt.alloc()), Ok(Ended::Answered));
}
