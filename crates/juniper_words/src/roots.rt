//! Resolvers of the root types, which need not tell their types, and juniper's traits of them under the names of these types
//! (sections 3.3, 6.2.2 and 6.4.2 of the Specification).

ghost use Rattle.std.specs.Prelude.{◌≡◌, ◌<◌, Bool, IfOk, Some, [], length, map};
ghost use Rattle.graphql_spec.specs.Constants.{Members};
ghost use Rattle.graphql_spec.specs.Resolvers.{Reply};
ghost use Rattle.graphql_spec.specs.Shown.{Name};
ghost use Rattle.juniper_registry.specs.DeclaredTypes.{object, type_named};
ghost use Rattle.juniper_values.specs.ResolvedView.{AllAnswer, Answers};
ghost use Rattle.juniper_types.specs.ExecutorView.{IsAskedFor, context_of};
ghost use Rattle.juniper_types.specs.Stepping.{Leaves};
ghost use Rattle.juniper_values.specs.ArgumentView.{view_arguments};

use crate::answers::Answer;
use juniper_conversions::ResolveError;
use juniper_meta::MetaType;
use juniper_registry::{GraphQLReference, GraphQLType, Registry};
use juniper_syntax::{ScalarValue, Type};
use juniper_types::{Executor, GraphQLMutationValue, GraphQLValue};
use juniper_values::{Arguments, Resolved};
use std::alloc::{AllocError, Global};

/// The resolver of a server's objects. [`Named`] of it is a [`GraphQLValue`].
pub trait QueryType<S: ScalarValue> {
    /// What requests bring along.
    type Context;

    /// What stands for an object.
    type Node: Drop;

    /// The object type of a node.
    ghost concrete: { Self.Node → Name };

    /// The reply to a field of a node.
    ghost answer: { Self.Context → Self.Node → Name → Members → Reply Self.Node };

    /// The node of the root.
    ghost root: { Self → Self.Node };

    /// The node of the root.
    fn root_node(&self) -> &Self::Node
        ensures { result.now ≡ root self.now };

    /// The name of a node's object type.
    fn concrete_type_name(node: &Self::Node) -> &'static str
        ensures { result.now ≡ concrete node.now };

    /// The answer to a field of a node, or the error with which the field fails. The executor is that of the field, as that of
    /// [`GraphQLValue::resolve_field`] is.
    fn resolve_field(
        alloc: Global,
        node: &Self::Node,
        field_name: &str,
        arguments: &Arguments<'_, S>,
        executor: &Executor<Self::Context, S>,
    ) -> Result<Resolved<Self::Node, S>, ResolveError<S>>
        requires { IsAskedFor S.shown executor.now field_name.now (view_arguments S.shown arguments.now) }
        ensures { Answers S.shown result (answer (context_of executor.now) node.now field_name.now (view_arguments S.shown arguments.now)) };

    /// For how many nodes of a list a field is asked at once by [`QueryType::resolve_fields`], at most. Where it is one, as it is
    /// by default, or zero, each node is asked for itself by [`QueryType::resolve_field`].
    fn nodes_at_once(_type_name: &str) -> usize {
        1
    }

    /// The answers to a field of nodes of one object type, of which there is one at least, in their order, as those of
    /// [`GraphQLValue::resolve_fields`] are. By default they are those of [`QueryType::resolve_each`].
    fn resolve_fields(
        alloc: Global,
        nodes: &[&Self::Node],
        field_name: &str,
        arguments: &Arguments<'_, S>,
        executor: &Executor<Self::Context, S>,
    ) -> Result<Vec<Answer<Self::Node, S>>, AllocError>
        requires asked { IsAskedFor S.shown executor.now field_name.now (view_arguments S.shown arguments.now) }
        requires some { 0 < length nodes.now }
        ensures { IfOk result (λ made. AllAnswer S.shown
            (λ node. answer (context_of executor.now) node field_name.now (view_arguments S.shown arguments.now))
            (map (λ n. n.now) nodes.now) made.items) }
    {
        Self::resolve_each(alloc, nodes, field_name, arguments, executor)
    }

    /// The answers to a field of nodes, each asked for itself by [`QueryType::resolve_field`]: for the fields for which a resolver that has
    /// its own [`QueryType::resolve_fields`] loads nothing at once.
    fn resolve_each(
        alloc: Global,
        nodes: &[&Self::Node],
        field_name: &str,
        arguments: &Arguments<'_, S>,
        executor: &Executor<Self::Context, S>,
    ) -> Result<Vec<Answer<Self::Node, S>>, AllocError>
        requires { IsAskedFor S.shown executor.now field_name.now (view_arguments S.shown arguments.now) }
        ensures { IfOk result (λ made. AllAnswer S.shown
            (λ node. answer (context_of executor.now) node field_name.now (view_arguments S.shown arguments.now))
            (map (λ n. n.now) nodes.now) made.items) }
    {
        let mut made = Vec::with_capacity(alloc, nodes.len())?;
        for node in nodes {
            let answer = Self::resolve_field(alloc, node, field_name, arguments, executor);
            made.push(answer)?;
        }
        Ok(made)
    }
}

/// The resolver of a server's mutations. [`Named`] of it is a [`GraphQLMutationValue`].
pub trait MutationType<S: ScalarValue> {
    /// What requests bring along, and steps change.
    type Context;

    /// What stands for an object.
    type Node: Drop;

    /// The context after the step of a root field, and the reply to it.
    ghost step: { Self.Context → Name → Members → Self.Context × Reply Self.Node };

    /// Whether a step for which memory was wanting may leave a context, behind this one.
    ghost torn: { Self.Context → Self.Context → Bool };

    /// Takes the step of a root field, as [`GraphQLMutationValue::resolve_root`] does.
    fn resolve_root(
        alloc: Global,
        field_name: &str,
        arguments: &Arguments<'_, S>,
        executor: &Executor<(), S>,
        context: &mut Self::Context,
    ) -> Result<Resolved<Self::Node, S>, ResolveError<S>>
        requires { IsAskedFor S.shown executor.now field_name.now (view_arguments S.shown arguments.now) }
        ensures answer { Answers S.shown result (step context.old field_name.now (view_arguments S.shown arguments.now)).1 }
        ensures context { Leaves (step context.old field_name.now (view_arguments S.shown arguments.now)).0 (torn context.old) result context.new };
}

/// A root's resolver under the name of its type, which is the info. The fields of that type are declared in the registry that the root
/// is made of; of itself it is an object without fields of its own.
#[derive(Clone, Copy, Debug, PartialEq, Eq, Drop)]
pub struct Named<T>(pub T);

impl<T, S: ScalarValue> GraphQLReference<S> for Named<T> {
    type TypeInfo = &'static str;

    ghost named = { λ n. Some n.now };

    ghost reference = { λ n. type_named n.now };

    fn name<'i>(info: &'i &'static str) -> Option<&'i str> {
        Some(info)
    }

    fn type_in(
        _alloc: Global,
        info: &&'static str,
        registry: &mut Registry<S>,
    ) -> Result<Type<String>, AllocError> {
        registry.named_type(info)
    }
}

impl<T, S: ScalarValue> GraphQLType<S> for Named<T> {
    ghost declaration = { λ n. object n.now [] [] };

    fn meta(
        _alloc: Global,
        info: &&'static str,
        registry: &mut Registry<S>,
    ) -> Result<MetaType<S>, AllocError> {
        registry.object_type(info, [])
    }

    ghost keeps_name = { λ _ _ e. e };
}

impl<T: QueryType<S>, S: ScalarValue> GraphQLValue<S> for Named<T> {
    type Context = T::Context;

    type Node = T::Node;

    ghost concrete = { λ _ _ _. T.concrete };

    ghost answer = { λ _ _. T.answer };

    ghost root = { λ q. T.root q.0 };

    fn type_name<'i>(&self, info: &'i &'static str) -> Option<&'i str> {
        Some(info)
    }

    fn root_node(&self) -> &T::Node {
        self.0.root_node()
    }

    fn concrete_type_name<'r>(
        &'r self,
        _context: &'r T::Context,
        _info: &'r &'static str,
        node: &'r T::Node,
    ) -> &'r str {
        T::concrete_type_name(node)
    }

    #[inline(always)]
    fn resolve_field(
        &self,
        alloc: Global,
        _info: &&'static str,
        node: &T::Node,
        field_name: &str,
        arguments: &Arguments<'_, S>,
        executor: &Executor<T::Context, S>,
    ) -> Result<Resolved<T::Node, S>, ResolveError<S>> {
        T::resolve_field(alloc, node, field_name, arguments, executor)
    }

    fn nodes_at_once(&self, _info: &&'static str, type_name: &str) -> usize {
        T::nodes_at_once(type_name)
    }

    fn resolve_fields(
        &self,
        alloc: Global,
        _info: &&'static str,
        nodes: &[&T::Node],
        field_name: &str,
        arguments: &Arguments<'_, S>,
        executor: &Executor<T::Context, S>,
    ) -> Result<Vec<Result<Resolved<T::Node, S>, ResolveError<S>>>, AllocError> {
        T::resolve_fields(alloc, nodes, field_name, arguments, executor)
    }
}

impl<T: MutationType<S>, S: ScalarValue> GraphQLMutationValue<S> for Named<T> {
    type Context = T::Context;

    type Node = T::Node;

    ghost step = { λ _ _. T.step };

    ghost torn = { λ _ _ context _ _. T.torn context };

    fn resolve_root(
        &self,
        alloc: Global,
        _info: &&'static str,
        field_name: &str,
        arguments: &Arguments<'_, S>,
        executor: &Executor<(), S>,
        context: &mut T::Context,
    ) -> Result<Resolved<T::Node, S>, ResolveError<S>> {
        T::resolve_root(alloc, field_name, arguments, executor, context)
    }
}
