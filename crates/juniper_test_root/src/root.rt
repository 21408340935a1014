//! The root that answers as a script says.

ghost use Rattle.std.specs.Prelude.{[], Some};
ghost use Rattle.juniper_registry.specs.DeclaredTypes.{object, type_named};
ghost use Rattle.juniper_test_root.specs.Scripts.{concrete_type, reply, root_of, step, torn};

use crate::replies::reply;
use crate::script::{Node, Notes, RootType, Script};
use crate::sights::{record, record_batch};
use juniper_meta::MetaType;
use juniper_syntax::{ScalarValue, Type};
use juniper_types::{
    Executor, GraphQLMutationValue, GraphQLReference, GraphQLType, GraphQLValue, Registry,
};
use juniper_values::{Arguments, ResolveError, Resolved};
use std::alloc::{AllocError, Global};

impl<S: ScalarValue> GraphQLReference<S> for Script {
    type TypeInfo = RootType;

    ghost named = { λ info. Some info.name.now };

    ghost reference = { λ info. type_named info.name.now };

    fn name(info: &Self::TypeInfo) -> Option<&str> {
        Some(info.name)
    }

    fn type_in(
        _alloc: Global,
        info: &Self::TypeInfo,
        registry: &mut Registry<S>,
    ) -> Result<Type<String>, AllocError> {
        registry.named_type(info.name)
    }
}

/// Its fields are those of the schema that is read beside it; here none are declared.
impl<S: ScalarValue> GraphQLType<S> for Script {
    ghost declaration = { λ info. object info.name.now [] [] };

    fn meta(
        _alloc: Global,
        info: &Self::TypeInfo,
        registry: &mut Registry<S>,
    ) -> Result<MetaType<S>, AllocError> {
        registry.object_type(info.name, [])
    }

    ghost keeps_name = { λ _ _ e. e };
}

/// A field of a node answers what the first line of the node says, else the first one of its object type, else null. What the executor shows
/// there is noted in the context, and for how many nodes a field is asked at once.
impl<S: ScalarValue> GraphQLValue<S> for Script {
    type Context = Notes;

    type Node = Node;

    ghost concrete = { λ _ _ _ node. concrete_type node };

    ghost answer = { λ script _ context node field arguments. reply script context node field arguments };

    ghost root = { root_of };

    fn type_name<'i>(&self, info: &'i Self::TypeInfo) -> Option<&'i str> {
        Some(info.name)
    }

    fn root_node(&self) -> &Self::Node {
        &self.root
    }

    fn concrete_type_name<'r>(
        &'r self,
        _context: &'r Self::Context,
        _info: &'r Self::TypeInfo,
        node: &'r Self::Node,
    ) -> &'r str {
        node.object_type
    }

    fn resolve_field(
        &self,
        alloc: Global,
        _info: &Self::TypeInfo,
        node: &Self::Node,
        field_name: &str,
        arguments: &Arguments<'_, S>,
        executor: &Executor<Self::Context, S>,
    ) -> Result<Resolved<Self::Node, S>, ResolveError<S>> {
        record(alloc, executor.context(), executor)?;
        let steps = executor.context().steps;
        reply(alloc, self.answer_of(node, field_name), steps, arguments)
    }

    fn nodes_at_once(&self, _info: &Self::TypeInfo, type_name: &str) -> usize {
        if type_name.starts_with("Many") { 3 } else { 1 }
    }

    fn resolve_fields(
        &self,
        alloc: Global,
        info: &Self::TypeInfo,
        nodes: &[&Self::Node],
        field_name: &str,
        arguments: &Arguments<'_, S>,
        executor: &Executor<Self::Context, S>,
    ) -> Result<Vec<Result<Resolved<Self::Node, S>, ResolveError<S>>>, AllocError> {
        record_batch(executor.context(), executor, nodes.len())?;
        let mut made = Vec::with_capacity(alloc, nodes.len())?;
        for node in nodes {
            let answer = self.resolve_field(alloc, info, node, field_name, arguments, executor);
            made.push(answer)?;
        }
        Ok(made)
    }
}

/// The step of a root field counts one more, and answers what the lines of the root's node say, else those of its object type, else null.
impl<S: ScalarValue> GraphQLMutationValue<S> for Script {
    type Context = Notes;

    type Node = Node;

    ghost step = { λ script _ context field arguments. step script context field arguments };

    ghost torn = { λ _ _ context _ _. torn context };

    fn resolve_root(
        &self,
        alloc: Global,
        _info: &RootType,
        field_name: &str,
        arguments: &Arguments<'_, S>,
        executor: &Executor<(), S>,
        context: &mut Notes,
    ) -> Result<Resolved<Node, S>, ResolveError<S>> {
        record(alloc, context, executor)?;
        let steps = context.steps.wrapping_add(1);
        let answer = self.answer_of(&self.root, field_name);
        match reply(alloc, answer, steps, arguments) {
            Ok(resolved) => {
                context.steps = steps;
                Ok(resolved)
            }
            Err(ResolveError::Field(error)) => {
                context.steps = steps;
                Err(ResolveError::Field(error))
            }
            Err(ResolveError::Memory) => Err(ResolveError::Memory),
        }
    }
}
