//! What stands for the demo's objects, and their resolver.

ghost use Rattle.std.specs.Prelude.{◌≡◌, pos};
ghost use Rattle.juniper_demo_server.specs.Demo.{concrete_type, episode_named, plus, reply};
ghost use Rattle.juniper_demo_server.specs.declared.demo.DemoNode.TheVariants.{Query};

use crate::resolvers::{cell_field, droid_field, human_field, query_field, tally_field};
use juniper::words::{Answer, QueryType, add};
use juniper::{Arguments, Context, EnumName, Executor, ScalarValue};
use std::alloc::Global;

/// What requests to the demo bring along: a running total, and how many additions made it.
#[derive(Clone, Copy, Debug, PartialEq, Eq)]
pub struct DemoContext {
    /// The sum of all that was added.
    pub total: i32,
    /// How many numbers were added.
    pub count: i32,
}

impl DemoContext {
    /// The context of a server that starts: nothing is added yet.
    pub fn new() -> Self
        ensures { result ≡ record { total = pos 0; count = pos 0 } }
    {
        DemoContext { total: 0, count: 0 }
    }

    /// The context after a number is added; `None` where a number gets too large.
    pub fn plus(self, number: i32) -> Option<DemoContext>
        ensures { result ≡ plus self number }
    {
        match add(self.total, number) {
            None => None,
            Some(total) => match add(self.count, 1) {
                None => None,
                Some(count) => Some(DemoContext { total, count }),
            },
        }
    }
}

impl Context for DemoContext {}

/// `enum Episode { NEWHOPE EMPIRE JEDI }`.
#[derive(Clone, Copy, Debug, PartialEq, Eq, Drop)]
pub enum Episode {
    /// `NEWHOPE`.
    NewHope,
    /// `EMPIRE`.
    Empire,
    /// `JEDI`.
    Jedi,
}

impl EnumName for Episode {
    ghost named = { episode_named };

    fn from_name(name: &str) -> Option<Episode> {
        match name {
            "NEWHOPE" => Some(Episode::NewHope),
            "EMPIRE" => Some(Episode::Empire),
            "JEDI" => Some(Episode::Jedi),
            _ => None,
        }
    }
}

/// What stands for an object of the demo.
#[derive(Clone, Copy, Debug, PartialEq, Eq, Drop)]
pub enum DemoNode {
    /// The root of queries.
    Query,
    /// The droid.
    Droid,
    /// The human.
    Human,
    /// A cell, by its number.
    Cell(u8),
    /// The tally of the context.
    Tally,
}

/// The demo's queries.
#[derive(Clone, Copy, Debug, PartialEq, Eq)]
pub struct Demo;

impl<S: ScalarValue> QueryType<S> for Demo {
    type Context = DemoContext;

    type Node = DemoNode;

    ghost concrete = { concrete_type };

    ghost answer = { reply };

    ghost root = { λ _. Query };

    fn root_node(&self) -> &DemoNode {
        &DemoNode::Query
    }

    fn concrete_type_name(node: &DemoNode) -> &'static str {
        match node {
            DemoNode::Query => "Query",
            DemoNode::Droid => "Droid",
            DemoNode::Human => "Human",
            DemoNode::Cell(_) => "Cell",
            DemoNode::Tally => "Tally",
        }
    }

    fn resolve_field(
        alloc: Global,
        node: &DemoNode,
        field_name: &str,
        arguments: &Arguments<'_, S>,
        executor: &Executor<DemoContext, S>,
    ) -> Answer<DemoNode, S> {
        match *node {
            DemoNode::Query => query_field(alloc, field_name, arguments),
            DemoNode::Droid => droid_field(alloc, field_name),
            DemoNode::Human => human_field(alloc, field_name),
            DemoNode::Cell(number) => cell_field(number, field_name),
            DemoNode::Tally => tally_field(executor.context(), field_name),
        }
    }
}
