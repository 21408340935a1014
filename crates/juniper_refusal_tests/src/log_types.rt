//! The types of the log's server, and its resolvers.

ghost use Rattle.std.specs.Prelude.{Some, codes};
ghost use Rattle.juniper_registry.specs.DeclaredTypes.{type_named};
ghost use Rattle.juniper_refusal_tests.specs.Logs.{after_step, mutation_declaration, query_declaration, query_reply, step_reply, torn};

use crate::log::{Log, resolve, take_step};
use juniper::{
    Arguments, Executor, GraphQLMutationValue, GraphQLReference, GraphQLType, GraphQLValue, ID,
    MetaType, Registry, ResolveError, Resolved, ScalarValue, Type,
};
use std::alloc::{AllocError, Global};

/// `type Query { id: ID!, memory: Int }`.
#[derive(Debug, Drop)]
pub struct LogQuery {
    /// What stands for the root.
    pub root: (),
}

impl<S: ScalarValue> GraphQLReference<S> for LogQuery {
    type TypeInfo = ();

    ghost named = { λ _. Some (codes "Query") };

    ghost reference = { λ _. type_named (codes "Query") };

    fn name(_info: &()) -> Option<&str> {
        Some("Query")
    }

    fn type_in(
        _alloc: Global,
        _info: &(),
        registry: &mut Registry<S>,
    ) -> Result<Type<String>, AllocError> {
        registry.named_type("Query")
    }
}

impl<S: ScalarValue> GraphQLType<S> for LogQuery {
    ghost declaration = { λ _. query_declaration };

    fn meta(
        _alloc: Global,
        _info: &(),
        registry: &mut Registry<S>,
    ) -> Result<MetaType<S>, AllocError> {
        let fields = [
            registry.field::<ID>("id", &())?,
            registry.field::<Option<i32>>("memory", &())?,
        ];
        registry.object_type("Query", fields)
    }

    ghost keeps_name = { λ _ _ e. e };
}

impl<S: ScalarValue> GraphQLValue<S> for LogQuery {
    type Context = Log;

    type Node = ();

    ghost concrete = { λ _ _ _ _. codes "Query" };

    ghost answer = { λ _ _ _ _ field _. query_reply field };

    ghost root = { λ query. query.root };

    fn type_name<'i>(&self, _info: &'i ()) -> Option<&'i str> {
        Some("Query")
    }

    fn root_node(&self) -> &() {
        &self.root
    }

    fn concrete_type_name<'r>(
        &'r self,
        _context: &'r Log,
        _info: &'r (),
        _node: &'r (),
    ) -> &'r str {
        "Query"
    }

    fn resolve_field(
        &self,
        alloc: Global,
        _info: &(),
        _node: &(),
        field_name: &str,
        _arguments: &Arguments<'_, S>,
        _executor: &Executor<Log, S>,
    ) -> Result<Resolved<(), S>, ResolveError<S>> {
        resolve(alloc, field_name)
    }
}

/// `type Mutation { note: Int!, lost: Int }`.
#[derive(Debug, Drop)]
pub struct LogMutation;

impl<S: ScalarValue> GraphQLReference<S> for LogMutation {
    type TypeInfo = ();

    ghost named = { λ _. Some (codes "Mutation") };

    ghost reference = { λ _. type_named (codes "Mutation") };

    fn name(_info: &()) -> Option<&str> {
        Some("Mutation")
    }

    fn type_in(
        _alloc: Global,
        _info: &(),
        registry: &mut Registry<S>,
    ) -> Result<Type<String>, AllocError> {
        registry.named_type("Mutation")
    }
}

impl<S: ScalarValue> GraphQLType<S> for LogMutation {
    ghost declaration = { λ _. mutation_declaration };

    fn meta(
        _alloc: Global,
        _info: &(),
        registry: &mut Registry<S>,
    ) -> Result<MetaType<S>, AllocError> {
        let fields = [
            registry.field::<i32>("note", &())?,
            registry.field::<Option<i32>>("lost", &())?,
        ];
        registry.object_type("Mutation", fields)
    }

    ghost keeps_name = { λ _ _ e. e };
}

impl<S: ScalarValue> GraphQLMutationValue<S> for LogMutation {
    type Context = Log;

    type Node = ();

    ghost step = { λ _ _ log field _. (after_step log field, step_reply field) };

    ghost torn = { λ _ _ log _ _. torn log };

    fn resolve_root(
        &self,
        alloc: Global,
        _info: &(),
        field_name: &str,
        _arguments: &Arguments<'_, S>,
        _executor: &Executor<(), S>,
        context: &mut Log,
    ) -> Result<Resolved<(), S>, ResolveError<S>> {
        take_step(alloc, field_name, context)
    }
}
