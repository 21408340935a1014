//! Requests to the demo while memory is wanting.

use crate::turns::{Ended, Room, Task, Turn, tried};
use juniper::{GraphQLError, RootError, Variables, execute_sync};
use juniper_demo_server::{DemoContext, DemoRoot, Outcome, demo_root, made_root, show};
use juniper_test_root::{Walk, execute_by_steps};
use std::alloc::{AllocError, Global};
use std::test::Fail;

/// A request that changes nothing, to the executor or to its twin, and its answer.
#[derive(Drop)]
struct Asking<'r> {
    root: &'r DemoRoot,
    of_twin: bool,
    text: &'static str,
    line: &'static str,
}

impl<'r> Task for Asking<'r> {
    fn turn(&mut self, alloc: Global, room: Room) -> Turn {
        let variables = Variables::new(alloc);
        let mut context = DemoContext { total: 5, count: 2 };
        let held_back = room.hold_back(alloc);
        let outcome = if self.of_twin {
            execute_by_steps(
                alloc,
                Walk::Joined,
                self.text,
                None,
                self.root,
                &variables,
                &mut context,
            )
        } else {
            execute_sync(alloc, self.text, None, self.root, &variables, &mut context)
        };
        drop(held_back);
        if context != (DemoContext { total: 5, count: 2 }) {
            return Turn::Wrong;
        }
        match outcome {
            Err(GraphQLError::OutOfMemory) => Turn::Refused,
            other => told(alloc, &other, self.line),
        }
    }
}

/// How a turn ended that was answered: with this line.
fn told(alloc: Global, outcome: &Outcome, line: &str) -> Turn {
    match show(alloc, outcome) {
        Ok(answer) if answer.line.as_str() == line => Turn::Answered,
        _ => Turn::Wrong,
    }
}

/// How the turns of a request ended.
fn asked(
    alloc: Global,
    root: &DemoRoot,
    text: &'static str,
    line: &'static str,
) -> Result<Ended, AllocError> {
    let of_twin = false;
    tried(
        alloc,
        &mut Asking {
            root,
            of_twin,
            text,
            line,
        },
    )
}

/// The same by the executor's twin.
fn asked_of_twin(
    alloc: Global,
    root: &DemoRoot,
    text: &'static str,
    line: &'static str,
) -> Result<Ended, AllocError> {
    let of_twin = true;
    tried(
        alloc,
        &mut Asking {
            root,
            of_twin,
            text,
            line,
        },
    )
}

#[test]
fn one_key_twice(rt: HostRuntime) -> Result<(), Fail> {
    let root = made_root(rt.alloc())?;
    let line = r#"{"data":{"hero":{"id":"2001","name":"R2-D2"}}}"#;
    assert_eq!(rt;
        asked(rt.alloc(), &root, "{ hero { id } hero { name } }", line)?,
        Ended::Answered
    );
    Ok(())
}

#[test]
fn a_null_that_rises(rt: HostRuntime) -> Result<(), Fail> {
    let root = made_root(rt.alloc())?;
    let line =
        r#"{"data":{"hero":null},"errors":[{"message":"secret is secret","locations":[{"line":1,"column":22}],"path":["hero","secret"]}]}"#;
    assert_eq!(rt;
        asked(rt.alloc(), &root, "{ hero { id } hero { secret } }", line)?,
        Ended::Answered
    );
    Ok(())
}

#[test]
fn a_null_that_rises_by_the_twin(rt: HostRuntime) -> Result<(), Fail> {
    let root = made_root(rt.alloc())?;
    let line =
        r#"{"data":{"hero":null},"errors":[{"message":"secret is secret","locations":[{"line":1,"column":22}],"path":["hero","secret"]}]}"#;
    assert_eq!(rt;
        asked_of_twin(rt.alloc(), &root, "{ hero { id } hero { secret } }", line)?,
        Ended::Answered
    );
    Ok(())
}

#[test]
fn lists_in_lists(rt: HostRuntime) -> Result<(), Fail> {
    let root = made_root(rt.alloc())?;
    let line = r#"{"data":{"grid":[[{"a":10,"b":20}],[{"a":11,"b":21}]]}}"#;
    assert_eq!(rt;
        asked(rt.alloc(), &root, "{ grid { a } grid { b } }", line)?,
        Ended::Answered
    );
    Ok(())
}

#[test]
fn introspection(rt: HostRuntime) -> Result<(), Fail> {
    let root = made_root(rt.alloc())?;
    let line = r#"{"data":{"__type":null,"__typename":"Query"}}"#;
    assert_eq!(rt;
        asked(
            rt.alloc(),
            &root,
            r#"{ __type(name: "Nope") { name } __typename }"#,
            line
        )?,
        Ended::Answered
    );
    Ok(())
}

#[test]
fn introspection_that_is_disabled(rt: HostRuntime) -> Result<(), Fail> {
    let root = made_root(rt.alloc())?.disable_introspection();
    let line = "refused: Introspection is disabled";
    assert_eq!(rt;
        asked(
            rt.alloc(),
            &root,
            r#"{ __type(name: "Nope") { name } __typename }"#,
            line
        )?,
        Ended::Answered
    );
    Ok(())
}

/// Additions of 1 and then of 2, which leave the context before them, after the first or after both where memory is wanting.
#[derive(Drop)]
struct Adding<'r> {
    root: &'r DemoRoot,
}

impl<'r> Task for Adding<'r> {
    fn turn(&mut self, alloc: Global, room: Room) -> Turn {
        let variables = Variables::new(alloc);
        let mut context = DemoContext::new();
        let held_back = room.hold_back(alloc);
        let outcome = execute_sync(alloc, ADDITIONS, None, self.root, &variables, &mut context);
        drop(held_back);
        match outcome {
            Err(GraphQLError::OutOfMemory) => left_by_additions(context),
            other if context == (DemoContext { total: 3, count: 2 }) => {
                told(
                    alloc,
                    &other,
                    r#"{"data":{"a":{"total":1},"b":{"total":3}}}"#,
                )
            }
            _ => Turn::Wrong,
        }
    }
}

const ADDITIONS: &str = "mutation { a: add(n: 1) { total } b: add(n: 2) { total } }";

/// How a turn ended that was refused and left this context.
fn left_by_additions(context: DemoContext) -> Turn {
    match (context.total, context.count) {
        (0, 0) => Turn::Refused,
        (1, 1) => Turn::Refused,
        (3, 2) => Turn::Refused,
        _ => Turn::Wrong,
    }
}

#[test]
fn additions_are_whole(rt: HostRuntime) -> Result<(), Fail> {
    let root = made_root(rt.alloc())?;
    assert_eq!(rt;
        tried(rt.alloc(), &mut Adding { root: &root })?,
        Ended::Answered
    );
    Ok(())
}

/// The demo's root, made anew in each turn.
#[derive(Drop)]
struct Making;

impl Task for Making {
    fn turn(&mut self, alloc: Global, room: Room) -> Turn {
        let held_back = room.hold_back(alloc);
        let outcome = demo_root(alloc);
        drop(held_back);
        match outcome {
            Ok(_) => Turn::Answered,
            Err(RootError::Memory) => Turn::Refused,
            Err(RootError::NotExecutable) => Turn::Wrong,
        }
    }
}

#[test]
fn a_root_is_made(rt: HostRuntime) -> Result<(), Fail> {
    assert_eq!(rt; tried(rt.alloc(), &mut Making)?, Ended::Answered);
    Ok(())
}
