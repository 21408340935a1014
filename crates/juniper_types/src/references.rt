//! Resolvers by reference: the resolver that is referred to.

use crate::executor::Executor;
use crate::resolver::GraphQLValue;
use juniper_syntax::ScalarValue;
use juniper_values::{Arguments, ResolveError, Resolved};
use std::alloc::{AllocError, Global};

/// The resolver that is referred to.
impl<'t, T: GraphQLValue<S>, S: ScalarValue> GraphQLValue<S> for &'t T {
    type Context = T::Context;

    type Node = T::Node;

    ghost concrete = { λ resolver. T.concrete resolver.now };

    ghost answer = { λ resolver. T.answer resolver.now };

    ghost root = { λ resolver. T.root resolver.now };

    fn type_name<'i>(&self, info: &'i T::TypeInfo) -> Option<&'i str> {
        (**self).type_name(info)
    }

    fn root_node(&self) -> &T::Node {
        (**self).root_node()
    }

    fn concrete_type_name<'r>(
        &'r self,
        context: &'r T::Context,
        info: &'r T::TypeInfo,
        node: &'r T::Node,
    ) -> &'r str {
        (**self).concrete_type_name(context, info, node)
    }

    fn resolve_field(
        &self,
        alloc: Global,
        info: &T::TypeInfo,
        node: &T::Node,
        field_name: &str,
        arguments: &Arguments<'_, S>,
        executor: &Executor<T::Context, S>,
    ) -> Result<Resolved<T::Node, S>, ResolveError<S>> {
        (**self).resolve_field(alloc, info, node, field_name, arguments, executor)
    }

    fn nodes_at_once(&self, info: &T::TypeInfo, type_name: &str) -> usize {
        (**self).nodes_at_once(info, type_name)
    }

    fn resolve_fields(
        &self,
        alloc: Global,
        info: &T::TypeInfo,
        nodes: &[&T::Node],
        field_name: &str,
        arguments: &Arguments<'_, S>,
        executor: &Executor<T::Context, S>,
    ) -> Result<Vec<Result<Resolved<T::Node, S>, ResolveError<S>>>, AllocError> {
        (**self).resolve_fields(alloc, info, nodes, field_name, arguments, executor)
    }
}
