//! Resolvers of mutations (section 6.2.2 of the Specification).

ghost use Rattle.std.specs.Prelude.{Bool};
ghost use Rattle.graphql_spec.specs.Shown.{Name};
ghost use Rattle.graphql_spec.specs.Constants.{Members};
ghost use Rattle.graphql_spec.specs.Resolvers.{Reply};
ghost use Rattle.juniper_values.specs.ArgumentView.{view_arguments};
ghost use Rattle.juniper_types.specs.ExecutorView.{IsAskedFor};
ghost use Rattle.juniper_types.specs.Stepping.{Leaves};
ghost use Rattle.juniper_values.specs.ResolvedView.{Answers};

use crate::executor::Executor;
use juniper_registry::GraphQLType;
use juniper_syntax::ScalarValue;
use juniper_values::{Arguments, ResolveError, Resolved};
use std::alloc::Global;

/// The resolver of a mutation by its meaning: its root fields are steps, each of which leaves a context and a reply. What is
/// selected below the reply is the query's to answer.
pub trait GraphQLMutationValue<S: ScalarValue>: GraphQLType<S> {
    /// What requests bring along, and steps change.
    type Context;

    /// What stands for an object.
    type Node: Drop;

    /// The context after the step of a root field, and the reply to it.
    ghost step: { Self → Self.TypeInfo → Self.Context → Name → Members → Self.Context × Reply Self.Node };

    /// Whether a step for which memory was wanting may leave a context.
    ghost torn: { Self → Self.TypeInfo → Self.Context → Name → Members → Self.Context → Bool };

    /// Takes the step of a root field: changes the context, and answers the field or the error with which it fails; where
    /// memory is wanting, the context may be torn. The executor is that of the field: it is written with this name and these
    /// arguments (6.4.1), its occurrences are all that the selections around it hold of one response key for the mutation
    /// type (6.3.2), the type is the one that it declares, and the path ends with its response key.
    fn resolve_root(
        &self,
        alloc: Global,
        info: &Self::TypeInfo,
        field_name: &str,
        arguments: &Arguments<'_, S>,
        executor: &Executor<(), S>,
        context: &mut Self::Context,
    ) -> Result<Resolved<Self::Node, S>, ResolveError<S>>
        requires { IsAskedFor S.shown executor.now field_name.now (view_arguments S.shown arguments.now) }
        ensures answer { Answers S.shown result (step self.now info.now context.old field_name.now (view_arguments S.shown arguments.now)).1 }
        ensures context { Leaves (step self.now info.now context.old field_name.now (view_arguments S.shown arguments.now)).0
            (torn self.now info.now context.old field_name.now (view_arguments S.shown arguments.now)) result context.new };
}
