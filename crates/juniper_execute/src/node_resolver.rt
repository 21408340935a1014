//! What an execution asks of the resolvers of a root: object types, the fields of nodes and the steps of a mutation (sections 6.2.2 and 6.4.2
//! of the Specification).

ghost use Rattle.std.specs.Prelude.{◌≡◌};
ghost use Rattle.juniper_values.specs.ResolvedView.{Answers};
ghost use Rattle.juniper_types.specs.ExecutorView.{IsAskedFor, context_of};
ghost use Rattle.juniper_values.specs.ArgumentView.{view_arguments};
ghost use Rattle.juniper_execute.specs.Stepping.{MayLeave};
ghost use Rattle.juniper_execute.specs.Replied.{AreAllReplies, AreReplied, AreSome, IsOnlyReply};

use juniper_syntax::ScalarValue;
use juniper_types::{Executor, Resolved};
use juniper_values::{Arguments, ResolveError};
use std::alloc::{AllocError, Global};

/// What the resolvers of nodes mean, and the name of a node's object type. This, [`NodeResolver`] and [`MutationSteps`] have just what
/// an execution asks, in as few methods as can be, since the check of a walk grows with the methods of what it asks.
pub trait NodeTypes<S: ScalarValue> {
    ghost use Rattle.juniper_execute.specs.Meanings.{Meaning};

    /// What requests bring along.
    type Context;

    /// What stands for an object.
    type Node: Drop;

    /// The object types and the replies of nodes.
    ghost meaning: { Self → Meaning Self.Context Self.Node };

    /// The name of a node's object type.
    fn concrete_type_name<'r>(&'r self, context: &'r Self::Context, node: &'r Self::Node) -> &'r str
        ensures { result.now ≡ (meaning self.now).concrete context.now node.now };
}

/// The nodes that a field is asked of.
#[derive(Drop)]
pub enum Nodes<'n, N> {
    /// One node.
    One(&'n N),
    /// Nodes of one object type, one at least, which are asked at once. (A `Vec`, since the borrow checker's part of a proof covers no slice of references to
    /// what holds references.)
    Many(&'n Vec<&'n N>),
}

/// What nodes answer to a field.
#[derive(Drop)]
pub enum Replies<N, S> {
    /// The answer of the one node.
    One(Resolved<N, S>),
    /// The answers of many, or the errors with which they fail, one for each, in their order.
    Many(Vec<Result<Resolved<N, S>, ResolveError<S>>>),
}

/// What answers the fields of nodes.
pub trait NodeResolver<S: ScalarValue>: NodeTypes<S> {
    /// For how many nodes of an object type a field is asked at once, at most.
    fn nodes_at_once(&self, concrete: &str) -> usize;

    /// The answers to a field of these nodes, or the error with which the one node fails; an error where memory is refused.
    fn resolve(
        &self,
        alloc: Global,
        nodes: &Nodes<'_, Self::Node>,
        field_name: &str,
        arguments: &Arguments<'_, S>,
        executor: &Executor<Self::Context, S>,
    ) -> Result<Replies<Self::Node, S>, ResolveError<S>>
        requires asked { IsAskedFor S.shown executor.now field_name.now (view_arguments S.shown arguments.now) }
        requires some { AreSome nodes.now }
        ensures { AreReplied S.shown (λ m. (Self.meaning self.now).answer (context_of executor.now) m field_name.now (view_arguments S.shown arguments.now))
            nodes.now result };
}

/// What takes the steps of a mutation.
pub trait MutationSteps<S: ScalarValue> {
    ghost use Rattle.graphql_spec.specs.Outcomes.{Steps};

    /// What requests bring along.
    type Context;

    /// What stands for an object.
    type Node: Drop;

    /// The context and the reply after the step of a root field, and which contexts a step that is cut short may leave.
    ghost steps: { Self → Steps Self.Context Self.Node };

    /// Takes the step of a root field: changes the context, and answers the field or the error with which it fails; where memory is
    /// wanting, the context may be torn.
    fn resolve_root(
        &self,
        alloc: Global,
        field_name: &str,
        arguments: &Arguments<'_, S>,
        executor: &Executor<(), S>,
        context: &mut Self::Context,
    ) -> Result<Resolved<Self::Node, S>, ResolveError<S>>
        requires { IsAskedFor S.shown executor.now field_name.now (view_arguments S.shown arguments.now) }
        ensures answer { Answers S.shown result ((Self.steps self.now).step context.old field_name.now (view_arguments S.shown arguments.now)).1 }
        ensures context { MayLeave ((Self.steps self.now).step context.old field_name.now (view_arguments S.shown arguments.now)).0
            ((Self.steps self.now).torn context.old field_name.now (view_arguments S.shown arguments.now)) result context.new };
}

/// The answer of the one node that was asked.
pub(crate) fn only_reply<N: Drop, S: ScalarValue>(
    replied: Result<Replies<N, S>, ResolveError<S>>,
) -> Result<Resolved<N, S>, ResolveError<S>>
    ensures { IsOnlyReply S.shown replied result }
{
    match replied {
        Ok(Replies::One(answer)) => Ok(answer),
        Ok(Replies::Many(_)) => Err(ResolveError::Memory),
        Err(error) => Err(error),
    }
}

/// The answers of the nodes that were asked at once.
pub(crate) fn all_replies<N: Drop, S: ScalarValue>(
    replied: Result<Replies<N, S>, ResolveError<S>>,
) -> Result<Vec<Result<Resolved<N, S>, ResolveError<S>>>, AllocError>
    ensures { AreAllReplies S.shown replied result }
{
    match replied {
        Ok(Replies::Many(answers)) => Ok(answers),
        Ok(Replies::One(_)) => Err(AllocError),
        Err(_) => Err(AllocError),
    }
}
