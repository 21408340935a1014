//! Resolvers.

ghost use Rattle.std.specs.Prelude.{◌≡◌, ◌<◌, IfOk, length, map, option_map};
ghost use Rattle.graphql_spec.specs.Shown.{Name};
ghost use Rattle.graphql_spec.specs.Constants.{Members};
ghost use Rattle.graphql_spec.specs.Resolvers.{Reply};
ghost use Rattle.juniper_values.specs.ArgumentView.{view_arguments};
ghost use Rattle.juniper_types.specs.ExecutorView.{IsAskedFor, context_of};
ghost use Rattle.juniper_values.specs.ResolvedView.{AllAnswer, Answers};

use crate::executor::Executor;
use juniper_registry::GraphQLType;
use juniper_syntax::ScalarValue;
use juniper_values::{Arguments, ResolveError, Resolved};
use std::alloc::{AllocError, Global};

/// A resolver by its meaning: two definitions, which each implementation writes and which its calls answer, memory aside.
/// They see the arguments' meaning alone, so neither their order nor where they are written can count.
pub trait GraphQLValue<S: ScalarValue>: GraphQLType<S> {
    /// What requests bring along.
    type Context;

    /// What stands for an object.
    type Node: Drop;

    /// The object type of a node.
    ghost concrete: { Self → Self.TypeInfo → Self.Context → Self.Node → Name };

    /// The reply to a field of a node.
    ghost answer: { Self → Self.TypeInfo → Self.Context → Self.Node → Name → Members → Reply Self.Node };

    /// The node of the root.
    ghost root: { Self → Self.Node };

    /// The name of this type.
    fn type_name<'i>(&self, info: &'i Self::TypeInfo) -> Option<&'i str>
        ensures { option_map (λ n. n.now) result ≡ Self.named info.now };

    /// The node of the root.
    fn root_node(&self) -> &Self::Node
        ensures { result.now ≡ root self.now };

    /// The name of a node's object type.
    fn concrete_type_name<'r>(
        &'r self,
        context: &'r Self::Context,
        info: &'r Self::TypeInfo,
        node: &'r Self::Node,
    ) -> &'r str
        ensures { result.now ≡ concrete self.now info.now context.now node.now };

    /// The answer to a field of a node, or the error with which the field fails. The executor is that of the field: it is
    /// written with this name and these arguments (6.4.1), its occurrences are all that the selections around it hold of one
    /// response key for the object type (6.3.2), the type is the one that it declares, and the path ends with its response key.
    fn resolve_field(
        &self,
        alloc: Global,
        info: &Self::TypeInfo,
        node: &Self::Node,
        field_name: &str,
        arguments: &Arguments<'_, S>,
        executor: &Executor<Self::Context, S>,
    ) -> Result<Resolved<Self::Node, S>, ResolveError<S>>
        requires { IsAskedFor S.shown executor.now field_name.now (view_arguments S.shown arguments.now) }
        ensures { Answers S.shown result (answer self.now info.now (context_of executor.now) node.now field_name.now (view_arguments S.shown arguments.now)) };

    /// For how many nodes of a list a field is asked at once by [`GraphQLValue::resolve_fields`], at most. Where it is one, as it
    /// is by default, or zero, each node is asked for itself by [`GraphQLValue::resolve_field`].
    fn nodes_at_once(&self, _info: &Self::TypeInfo, _type_name: &str) -> usize {
        1
    }

    /// The answers to a field of nodes of one object type, one for each, in their order: each is what
    /// [`GraphQLValue::resolve_field`] may answer for its node, which is what the default asks. What many nodes need can be
    /// loaded once here. There is one node at least. The executor is that of the field, its path that to the field of the first
    /// node. An error where memory is refused.
    fn resolve_fields(
        &self,
        alloc: Global,
        info: &Self::TypeInfo,
        nodes: &[&Self::Node],
        field_name: &str,
        arguments: &Arguments<'_, S>,
        executor: &Executor<Self::Context, S>,
    ) -> Result<Vec<Result<Resolved<Self::Node, S>, ResolveError<S>>>, AllocError>
        requires asked { IsAskedFor S.shown executor.now field_name.now (view_arguments S.shown arguments.now) }
        requires some { 0 < length nodes.now }
        ensures { IfOk result (λ made. AllAnswer S.shown
            (λ node. answer self.now info.now (context_of executor.now) node field_name.now (view_arguments S.shown arguments.now))
            (map (λ n. n.now) nodes.now) made.items) }
    {
        let mut made = Vec::with_capacity(alloc, nodes.len())?;
        for node in nodes {
            let answer = self.resolve_field(alloc, info, node, field_name, arguments, executor);
            made.push(answer)?;
        }
        Ok(made)
    }
}
