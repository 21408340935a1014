//! The demo's mutations: additions to the context (section 6.2.2 of the Specification).

ghost use Rattle.std.specs.Prelude.{codes};
ghost use Rattle.juniper.specs.Server.{Answers, Leaves, Reads, find, view_arguments};
ghost use Rattle.juniper_demo_server.specs.Demo.{add_step, given_int, step, torn};

use crate::demo::{DemoContext, DemoNode};
use juniper::words::{Answer, MutationType, fails, null, object};
use juniper::{Arguments, Executor, ResolveError, ScalarValue};
use std::alloc::Global;

/// `type Mutation`.
#[derive(Clone, Copy, Debug, PartialEq, Eq)]
pub struct DemoMutation;

impl<S: ScalarValue> MutationType<S> for DemoMutation {
    type Context = DemoContext;

    type Node = DemoNode;

    ghost step = { step };

    ghost torn = { torn };

    fn resolve_root(
        alloc: Global,
        field_name: &str,
        arguments: &Arguments<'_, S>,
        _executor: &Executor<(), S>,
        context: &mut DemoContext,
    ) -> Answer<DemoNode, S> {
        match field_name {
            "add" => add_field(alloc, arguments, context),
            "fail" => fails(alloc, "failed"),
            _ => null(),
        }
    }
}

/// `add`: an addition, and the tally; one that is too large, and a null, which no Int is, change nothing.
fn add_field<S: ScalarValue>(
    alloc: Global,
    arguments: &Arguments<'_, S>,
    context: &mut DemoContext,
) -> Answer<DemoNode, S>
    ensures answer { Answers S.shown result (add_step context.old (given_int (find (codes "n") (view_arguments S.shown arguments.now)))).1 }
    ensures context { Leaves (add_step context.old (given_int (find (codes "n") (view_arguments S.shown arguments.now)))).0 (torn context.old)
        result context.new }
{
    match given_int(alloc, arguments, "n") {
        Err(error) => Err(error),
        Ok(None) => null(),
        Ok(Some(number)) => match context.plus(number) {
            None => fails(alloc, "Too large"),
            Some(next) => {
                *context = next;
                object(DemoNode::Tally)
            }
        },
    }
}

/// The Int at this name; `None` where it is missing. Any other value, and so null, is an error.
fn given_int<S: ScalarValue>(
    alloc: Global,
    arguments: &Arguments<'_, S>,
    name: &str,
) -> Result<Option<i32>, ResolveError<S>>
    ensures { Reads S.shown result (given_int (find name.now (view_arguments S.shown arguments.now))) }
{
    arguments.get::<i32>(alloc, name)
}
