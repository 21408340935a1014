//! What stands for a mutation or a subscription that a schema lacks.

ghost use Rattle.std.specs.Prelude.{[], Some, codes, false};
ghost use Rattle.graphql_spec.specs.Resolvers.{answered, nothing};
ghost use Rattle.juniper_registry.specs.DeclaredTypes.{object, type_named};

use crate::executor::Executor;
use crate::mutation::GraphQLMutationValue;
use juniper_meta::MetaType;
use juniper_registry::{GraphQLReference, GraphQLType, Registry};
use juniper_syntax::{ScalarValue, Type};
use juniper_values::{Arguments, ResolveError, Resolved};
use std::alloc::{AllocError, Global};
use std::marker::PhantomData;

/// No mutation, beside a query of contexts `T` and nodes `N`: an object type without fields of its own.
#[derive(Debug, Drop)]
pub struct EmptyMutation<T, N> {
    query: PhantomData<(T, N)>,
}

impl<T, N> EmptyMutation<T, N> {
    /// No mutation.
    pub fn new() -> Self {
        EmptyMutation { query: PhantomData }
    }
}

impl<T, N> Default for EmptyMutation<T, N> {
    fn default() -> Self {
        Self::new()
    }
}

impl<S: ScalarValue, T, N> GraphQLReference<S> for EmptyMutation<T, N> {
    type TypeInfo = ();

    ghost named = { λ _. Some (codes "_EmptyMutation") };

    ghost reference = { λ _. type_named (codes "_EmptyMutation") };

    fn name(_info: &Self::TypeInfo) -> Option<&str> {
        Some("_EmptyMutation")
    }

    fn type_in(
        _alloc: Global,
        _info: &Self::TypeInfo,
        registry: &mut Registry<S>,
    ) -> Result<Type<String>, AllocError> {
        registry.named_type("_EmptyMutation")
    }
}

impl<S: ScalarValue, T, N> GraphQLType<S> for EmptyMutation<T, N> {
    ghost declaration = { λ _. object (codes "_EmptyMutation") [] [] };

    fn meta(
        _alloc: Global,
        _info: &Self::TypeInfo,
        registry: &mut Registry<S>,
    ) -> Result<MetaType<S>, AllocError> {
        registry.object_type("_EmptyMutation", [])
    }

    ghost keeps_name = { λ _ _ e. e };
}

/// Every step leaves the context, and answers null.
impl<S: ScalarValue, T, N: Drop> GraphQLMutationValue<S> for EmptyMutation<T, N> {
    type Context = T;

    type Node = N;

    ghost step = { λ _ _ context _ _. (context, answered nothing) };

    ghost torn = { λ _ _ _ _ _ _. false };

    fn resolve_root(
        &self,
        _alloc: Global,
        _info: &(),
        _field_name: &str,
        _arguments: &Arguments<'_, S>,
        _executor: &Executor<(), S>,
        _context: &mut T,
    ) -> Result<Resolved<N, S>, ResolveError<S>> {
        Ok(Resolved::Null)
    }
}

/// No subscription, beside a query of contexts `T`: an object type without fields of its own.
#[derive(Drop)]
pub struct EmptySubscription<T> {
    query: PhantomData<T>,
}

impl<T> EmptySubscription<T> {
    /// No subscription.
    pub fn new() -> Self {
        EmptySubscription { query: PhantomData }
    }
}

impl<T> Default for EmptySubscription<T> {
    fn default() -> Self {
        Self::new()
    }
}

impl<S: ScalarValue, T> GraphQLReference<S> for EmptySubscription<T> {
    type TypeInfo = ();

    ghost named = { λ _. Some (codes "_EmptySubscription") };

    ghost reference = { λ _. type_named (codes "_EmptySubscription") };

    fn name(_info: &Self::TypeInfo) -> Option<&str> {
        Some("_EmptySubscription")
    }

    fn type_in(
        _alloc: Global,
        _info: &Self::TypeInfo,
        registry: &mut Registry<S>,
    ) -> Result<Type<String>, AllocError> {
        registry.named_type("_EmptySubscription")
    }
}

impl<S: ScalarValue, T> GraphQLType<S> for EmptySubscription<T> {
    ghost declaration = { λ _. object (codes "_EmptySubscription") [] [] };

    fn meta(
        _alloc: Global,
        _info: &Self::TypeInfo,
        registry: &mut Registry<S>,
    ) -> Result<MetaType<S>, AllocError> {
        registry.object_type("_EmptySubscription", [])
    }

    ghost keeps_name = { λ _ _ e. e };
}
