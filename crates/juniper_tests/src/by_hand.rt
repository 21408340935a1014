//! A resolver that asks another one's `resolve_field` by hand, with the executor that it is shown (section 6.4.2 of the Specification).

ghost use Rattle.juniper_demo_server.specs.Demo.{concrete_type, reply};
ghost use Rattle.juniper_demo_server.specs.declared.demo.DemoNode.TheVariants.{Query};

use juniper::words::{Answer, Named, QueryType};
use juniper::{Arguments, Executor, GraphQLValue, ScalarValue};
use juniper_demo_server::{Demo, DemoContext, DemoNode};
use std::alloc::Global;

/// The demo's resolver, asked by hand.
#[derive(Debug, Drop)]
pub(crate) struct ByHand;

impl<S: ScalarValue> QueryType<S> for ByHand {
    type Context = DemoContext;

    type Node = DemoNode;

    ghost concrete = { concrete_type };

    ghost answer = { reply };

    ghost root = { λ _. Query };

    fn root_node(&self) -> &DemoNode {
        &DemoNode::Query
    }

    fn concrete_type_name(node: &DemoNode) -> &'static str {
        <Demo as QueryType<S>>::concrete_type_name(node)
    }

    fn resolve_field(
        alloc: Global,
        node: &DemoNode,
        field_name: &str,
        arguments: &Arguments<'_, S>,
        executor: &Executor<DemoContext, S>,
    ) -> Answer<DemoNode, S> {
        let demo = Named(Demo);
        demo.resolve_field(alloc, &"Query", node, field_name, arguments, executor)
    }
}
