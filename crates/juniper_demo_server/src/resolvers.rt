//! The resolvers of the demo's object types: each field's answer by its name.

ghost use Rattle.juniper.specs.Server.{Answers, view_arguments};
ghost use Rattle.juniper_demo_server.specs.Demo.{cell_reply, droid_reply, human_reply, query_reply, tally_reply};

use crate::demo::{DemoContext, DemoNode, Episode};
use juniper::words::{
    Answer, add, enum_argument, fails, int, int_argument, list, null, object, text,
};
use juniper::{Arguments, OfNode, ScalarValue};
use std::alloc::Global;

/// A field of `Query`.
pub fn query_field<S: ScalarValue>(
    alloc: Global,
    field_name: &str,
    arguments: &Arguments<'_, S>,
) -> Answer<DemoNode, S>
    ensures { Answers S.shown result (query_reply field_name.now (view_arguments S.shown arguments.now)) }
{
    match field_name {
        "id" => text(alloc, "q1"),
        "name" => text(alloc, "demo"),
        "number" => match int_argument(alloc, arguments, "plus")? {
            None => null(),
            Some(plus) => match add(plus, 41) {
                None => fails(alloc, "Too large"),
                Some(sum) => int(sum),
            },
        },
        "fail" => fails(alloc, "failed"),
        "odd" => list(alloc, [1]),
        "hero" => match enum_argument(alloc, arguments, "episode")? {
            Some(Episode::Empire) => object(DemoNode::Human),
            _ => object(DemoNode::Droid),
        },
        "mustHero" => object(DemoNode::Droid),
        "ids" => list(alloc, [Some(1), None]),
        "grid" => {
            let first = vec![in alloc; OfNode(DemoNode::Cell(0))]?;
            let second = vec![in alloc; OfNode(DemoNode::Cell(1))]?;
            list(alloc, [first, second])
        }
        "holes" => {
            let row = vec![in alloc; Some(OfNode(DemoNode::Cell(0))), None]?;
            list(alloc, [row])
        }
        _ => null(),
    }
}

/// A field of the droid.
pub fn droid_field<S: ScalarValue>(alloc: Global, field_name: &str) -> Answer<DemoNode, S>
    ensures { Answers S.shown result (droid_reply field_name.now) }
{
    match field_name {
        "id" => text(alloc, "2001"),
        "name" => text(alloc, "R2-D2"),
        "appearsIn" => list(alloc, ["NEWHOPE", "EMPIRE", "JEDI"]),
        "friends" => list(alloc, [Some(OfNode(DemoNode::Human)), None]),
        "secret" => fails(alloc, "secret is secret"),
        "primaryFunction" => text(alloc, "Astromech"),
        _ => null(),
    }
}

/// A field of the human.
pub fn human_field<S: ScalarValue>(alloc: Global, field_name: &str) -> Answer<DemoNode, S>
    ensures { Answers S.shown result (human_reply field_name.now) }
{
    match field_name {
        "id" => text(alloc, "1000"),
        "name" => text(alloc, "Luke Skywalker"),
        "appearsIn" => list(alloc, ["NEWHOPE", "EMPIRE", "JEDI"]),
        "friends" => list(alloc, [OfNode(DemoNode::Droid)]),
        "secret" => fails(alloc, "secret is secret"),
        "height" => int(172),
        _ => null(),
    }
}

/// A field of the cell of this number.
pub fn cell_field<S: ScalarValue>(number: u8, field_name: &str) -> Answer<DemoNode, S>
    ensures { Answers S.shown result (cell_reply number field_name.now) }
{
    match field_name {
        "a" => int(10 + i32::from(number)),
        "b" => int(20 + i32::from(number)),
        _ => null(),
    }
}

/// A field of the tally.
pub fn tally_field<S: ScalarValue>(context: &DemoContext, field_name: &str) -> Answer<DemoNode, S>
    ensures { Answers S.shown result (tally_reply context.now field_name.now) }
{
    match field_name {
        "total" => int(context.total),
        "count" => int(context.count),
        _ => null(),
    }
}
