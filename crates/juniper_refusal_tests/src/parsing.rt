//! Texts that are read, or refused, while memory is wanting.

use crate::turns::{Ended, Room, Task, Turn, tried};
use juniper_language::{
    DefaultScalarValue, Definition, LexerError, ParseError, Spanning, decode_string,
    parse_document_source,
};
use std::alloc::{AllocError, Global};
use std::test::Fail;

/// A text, and what is to become of it.
#[derive(Drop)]
struct Reading {
    text: &'static str,
    /// How many definitions it has, or why it is refused.
    expected: Result<usize, ParseError>,
}

impl Task for Reading {
    fn turn(&mut self, alloc: Global, room: Room) -> Turn {
        let held_back = room.hold_back(alloc);
        let outcome = parse_document_source::<DefaultScalarValue>(alloc, self.text);
        drop(held_back);
        match outcome {
            Ok(document) => self.ending(Ok(document.len())),
            Err(refusal) => self.ending(Err(refusal.item)),
        }
    }
}

impl Reading {
    /// How a turn with this outcome ended.
    fn ending(&self, outcome: Result<usize, ParseError>) -> Turn {
        if outcome == Err(ParseError::Memory) {
            Turn::Refused
        } else if outcome == self.expected {
            Turn::Answered
        } else {
            Turn::Wrong
        }
    }
}

/// A document with each part of the grammar.
const DOCUMENT: &str =
    r#"query Q($a: [Int!]! = [1, 2], $b: Point = {x: 1, y: [RED, null]} @used) @named(by: "q\u0041") {
  first: hero(episode: $a, note: "\"a\n\\", at: {x: 1, y: {z: $b}}) @include(if: true) { id ... on Human @skip(if: false) { name } ...F }
  ... { second } ... @skip(if: true) { third }
}
mutation { add(n: -1) { total } }
subscription S { ticks }
fragment F on Human @shown { friends { id name } }
"#;

#[test]
fn a_document_is_read_or_memory_is_wanting(rt: HostRuntime) -> Result<(), Fail> {
    let mut reading = Reading {
        text: DOCUMENT,
        expected: Ok(4),
    };
    assert_eq!(rt; tried(rt.alloc(), &mut reading)?, Ended::Answered);
    Ok(())
}

#[test]
fn a_text_is_refused_or_memory_is_wanting(rt: HostRuntime) -> Result<(), Fail> {
    let alloc = rt.alloc();
    let escape = String::from_str(alloc, "\\q")?;
    let mut reading = Reading {
        text: r#"query Q($a: [Int!]! = [1, 2]) { hero(episode: $a) { id ... on Human { name(of: "an \q escape") } } }"#,
        expected: Err(ParseError::LexerError(LexerError::UnknownEscapeSequence(escape))),
    };
    assert_eq!(rt; tried(alloc, &mut reading)?, Ended::Answered);
    Ok(())
}
