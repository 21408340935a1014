//! What an execution asks of a root: of the resolver of its queries, and of that of its mutations (sections 6.2.2 and 6.4.2 of the
//! Specification).

ghost use Rattle.juniper.specs.Services.{meaning_of, rooted_steps};

use juniper_execute::{MutationSteps, NodeResolver, NodeTypes, Nodes, Replies};
use juniper_intro::{RootedNode, rooted_answer};
use juniper_language::ScalarValue;
use juniper_types::{Executor, GraphQLMutationValue, GraphQLType, GraphQLValue, Resolved};
use juniper_values::{Arguments, ResolveError};
use std::alloc::Global;

/// The resolver of queries, with its info.
#[derive(Drop)]
pub(crate) struct QueryResolver<'r, Q: GraphQLType<S>, S: ScalarValue> {
    pub(crate) query: &'r Q,
    pub(crate) info: &'r Q::TypeInfo,
}

impl<'q, Q: GraphQLValue<S>, S: ScalarValue> NodeTypes<S> for QueryResolver<'q, Q, S> {
    type Context = Q::Context;

    type Node = Q::Node;

    ghost meaning = { λ r. meaning_of Q.concrete Q.answer r.query.now r.info.now };

    fn concrete_type_name<'r>(
        &'r self,
        context: &'r Self::Context,
        node: &'r Self::Node,
    ) -> &'r str {
        self.query.concrete_type_name(context, self.info, node)
    }
}

impl<'q, Q: GraphQLValue<S>, S: ScalarValue> NodeResolver<S> for QueryResolver<'q, Q, S> {
    fn nodes_at_once(&self, concrete: &str) -> usize {
        let query = self.query;
        query.nodes_at_once(self.info, concrete)
    }

    fn resolve(
        &self,
        alloc: Global,
        nodes: &Nodes<'_, Self::Node>,
        field_name: &str,
        arguments: &Arguments<'_, S>,
        executor: &Executor<Self::Context, S>,
    ) -> Result<Replies<Self::Node, S>, ResolveError<S>> {
        let query = self.query;
        let info = self.info;
        match nodes {
            Nodes::One(node) => {
                match query.resolve_field(alloc, info, node, field_name, arguments, executor) {
                    Ok(answer) => Ok(Replies::One(answer)),
                    Err(error) => Err(error),
                }
            }
            Nodes::Many(nodes) => {
                match query.resolve_fields(alloc, info, nodes, field_name, arguments, executor) {
                    Ok(answers) => Ok(Replies::Many(answers)),
                    Err(_) => Err(ResolveError::Memory),
                }
            }
        }
    }
}

/// The resolver of mutations, with its info; its nodes are users' nodes of a root.
#[derive(Drop)]
pub(crate) struct MutationResolver<'r, M: GraphQLType<S>, S: ScalarValue> {
    pub(crate) mutation: &'r M,
    pub(crate) info: &'r M::TypeInfo,
}

impl<'r, M: GraphQLMutationValue<S, Node = N>, N: Drop, S: ScalarValue> MutationSteps<S>
    for MutationResolver<'r, M, S> {
    type Context = M::Context;

    type Node = RootedNode<N>;

    ghost steps = { λ r. rooted_steps M.step M.torn r.mutation.now r.info.now };

    fn resolve_root(
        &self,
        alloc: Global,
        field_name: &str,
        arguments: &Arguments<'_, S>,
        executor: &Executor<(), S>,
        context: &mut Self::Context,
    ) -> Result<Resolved<Self::Node, S>, ResolveError<S>> {
        let mutation = self.mutation;
        let answered = mutation.resolve_root(
            alloc, self.info, field_name, arguments, executor, context,
        );
        rooted_answer(alloc, answered)
    }
}
