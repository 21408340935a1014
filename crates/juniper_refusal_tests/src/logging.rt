//! A mutation with a log, whose steps may be torn where memory is wanting; and resolvers that say that it is (sections 6.2.2 and 6.4.4 of the
//! Specification).

use crate::log::{Entry, Log};
use crate::log_types::{LogMutation, LogQuery};
use crate::turns::{Ended, Room, Task, Turn, tried};
use juniper::{
    DefaultScalarValue, EmptySubscription, GraphQLError, Registry, RootNode, Variables,
    execute_sync,
};
use juniper_demo_server::{Outcome, show};
use std::alloc::{AllocError, Global};
use std::test::Fail;

/// The root of the log's server.
type LogRoot = RootNode<LogQuery, LogMutation, EmptySubscription<Log>, DefaultScalarValue>;

/// The root of the log's server; an error also where none can be made.
fn log_root(alloc: Global) -> Result<LogRoot, AllocError> {
    let mut registry = Registry::empty(alloc);
    if registry.register::<LogQuery>(&()).is_err()
        || registry.register::<LogMutation>(&()).is_err()
    {
        return Err(AllocError);
    }
    let query = LogQuery { root: () };
    let subscription = EmptySubscription::new();
    match RootNode::new(
        alloc,
        query,
        LogMutation,
        subscription,
        registry,
        (),
        (),
        (),
    ) {
        Ok(root) => Ok(root),
        Err(_) => Err(AllocError),
    }
}

/// A root, and how many entries logs had where memory was wanting: from none up to four.
#[derive(Drop)]
struct Noting<'r> {
    root: &'r LogRoot,
    seen: [bool; 5],
}

impl<'r> Task for Noting<'r> {
    fn turn(&mut self, alloc: Global, room: Room) -> Turn {
        let variables = Variables::new(alloc);
        let mut log = Log::empty(alloc);
        let held_back = room.hold_back(alloc);
        let outcome = execute_sync(
            alloc,
            "mutation { a: note b: note }",
            None,
            self.root,
            &variables,
            &mut log,
        );
        drop(held_back);
        match outcome {
            Err(GraphQLError::OutOfMemory) => self.saw(log.entries()),
            other => told(alloc, &other, log.entries(), r#"{"data":{"a":1,"b":1}}"#, 4),
        }
    }
}

impl<'r> Noting<'r> {
    /// Notes how many entries there are; they are those of the steps, one behind the other.
    fn saw(&mut self, entries: &[Entry]) -> Turn {
        match self.seen.get_mut(entries.len()) {
            Some(seen) if are_of_steps(entries) => {
                *seen = true;
                Turn::Refused
            }
            _ => Turn::Wrong,
        }
    }
}

/// Whether each entry is the first one of a step, and behind it the second one.
fn are_of_steps(entries: &[Entry]) -> bool {
    let mut is_first = true;
    for entry in entries {
        let beginning = if is_first {
            "A step has begun"
        } else {
            "The step is done"
        };
        if !entry.text().starts_with(beginning) {
            return false;
        }
        is_first = !is_first;
    }
    true
}

/// How a turn ended that was answered: with this line, and so many entries.
fn told(alloc: Global, outcome: &Outcome, entries: &[Entry], line: &str, count: usize) -> Turn {
    match show(alloc, outcome) {
        Ok(answer)
            if answer.line.as_str() == line && entries.len() == count && are_of_steps(entries) =>
            Turn::Answered,
        _ => Turn::Wrong,
    }
}

#[test]
fn a_log_may_be_torn(rt: HostRuntime) -> Result<(), Fail> {
    let root = log_root(rt.alloc())?;
    let mut noting = Noting {
        root: &root,
        seen: [false; 5],
    };
    assert_eq!(rt; tried(rt.alloc(), &mut noting)?, Ended::Answered);
    let [none, first, second, third, _] = noting.seen;
    assert_eq!(rt; [none, first, second, third], [true; 4]);
    Ok(())
}

/// Requests to the log's server, and what is answered, with how many entries there are then. Memory is ample, but not to `memory` and `lost`.
const ROWS: &str = r#"{ id } => {"data":{"id":"q1"}} 0
{ memory } => refused: Out of memory 0
{ id memory } => refused: Out of memory 0
{ memory @skip(if: true) id } => {"data":{"id":"q1"}} 0
mutation { note } => {"data":{"note":1}} 2
mutation { lost } => refused: Out of memory 1
mutation { a: note lost b: note } => refused: Out of memory 3
mutation { a: note lost @skip(if: true) b: note } => {"data":{"a":1,"b":1}} 4"#;

/// What a request is answered, and how many entries there are then.
fn answered(alloc: Global, root: &LogRoot, text: &str) -> Result<String, AllocError> {
    let variables = Variables::new(alloc);
    let mut log = Log::empty(alloc);
    let outcome = execute_sync(alloc, text, None, root, &variables, &mut log);
    let line = show(alloc, &outcome)?.line;
    let count = log.entries().len();
    format!(in alloc; "{line} {count}")
}

/// The first row that says something else.
fn first_other(alloc: Global, root: &LogRoot) -> Result<Option<&'static str>, AllocError> {
    for row in ROWS.lines() {
        match row.split_once(" => ") {
            Some((text, said)) if answered(alloc, root, text)?.as_str() == said => {}
            _ => return Ok(Some(row)),
        }
    }
    Ok(None)
}

#[test]
fn memory_that_a_resolver_lacks_is_no_error_of_a_field(rt: HostRuntime) -> Result<(), Fail> {
    let root = log_root(rt.alloc())?;
    assert_eq!(rt; first_other(rt.alloc(), &root)?, None);
    Ok(())
}
