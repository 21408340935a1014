//! Roots over types that are told by data, under the names that root types have where a schema does not say otherwise (section 3.3.1
//! of the Specification).

ghost use Rattle.std.specs.Prelude.{◌≡◌, IfOk, codes, false, map};
ghost use Rattle.juniper_words.specs.Data.{declared};
ghost use Rattle.juniper_intro.specs.RootView.{is_disabled, mutation_of, resolver_of, schema_of};
ghost use Rattle.juniper_registry.specs.RegistryView.{view_registry};
ghost use Rattle.juniper_schema.specs.SchemaView.{view_schema};
ghost use Rattle.juniper_words.specs.Served.{Serves, ServesWith};

use crate::roots::{MutationType, Named, QueryType};
use crate::{DeclaredType, register_each, registry_of};
use juniper_intro::{RootError, RootNode};
use juniper_registry::{Registry, RegistryError};
use juniper_syntax::ScalarValue;
use juniper_types::{EmptyMutation, EmptySubscription};
use std::alloc::Global;

/// The root of a query `Q` and a mutation `M` whose requests bring along a `C`.
pub type ServedRoot<Q, M, C, S> = RootNode<Named<Q>, Named<M>, EmptySubscription<C>, S>;

/// The root of a query `Q` whose requests bring along a `C`, over nodes of type `N`.
pub type ServedQuery<Q, C, N, S> = RootNode<Named<Q>, EmptyMutation<C, N>, EmptySubscription<C>, S>;

/// The root of a query and a mutation over these types, of which `Query` is the query's and `Mutation` the mutation's, without
/// subscriptions.
///
/// Errors: [`RootError::NotExecutable`] exactly where two types have one name, or the schema of these types cannot be executed;
/// [`RootError::Memory`] where memory is refused.
pub fn served<
    Q: QueryType<S> + Drop,
    M: MutationType<S, Context = Q::Context, Node = Q::Node> + Drop,
    S: ScalarValue,
>(
    alloc: Global,
    query: Q,
    mutation: M,
    types: &[DeclaredType],
) -> Result<ServedRoot<Q, M, Q::Context, S>, RootError>
    ensures schema { Serves (λ r. view_schema S.shown (schema_of r)) (map declared types.now) (codes "Mutation") result }
    ensures resolver { IfOk result (λ r. (resolver_of r).0 ≡ query) }
    ensures mutation { IfOk result (λ r. (mutation_of r).0 ≡ mutation) }
    ensures introspection { IfOk result (λ r. is_disabled r ≡ false) }
{
    let registry = match registry_of(alloc, types) {
        Ok(registry) => registry,
        Err(RegistryError::AlreadyRegistered) => return Err(RootError::NotExecutable),
        Err(RegistryError::Memory) => return Err(RootError::Memory),
    };
    let subscription = EmptySubscription::new();
    RootNode::new(
        alloc,
        Named(query),
        Named(mutation),
        subscription,
        registry,
        "Query",
        "Mutation",
        (),
    )
}

/// The root of a query and a mutation over these types beside those of a registry, which are declared by impls. For the rest it is the
/// root of [`served`].
///
/// Errors: [`RootError::NotExecutable`] exactly where the name of one of these types is taken, or the schema of all cannot be executed;
/// [`RootError::Memory`] where memory is refused.
pub fn served_with<
    Q: QueryType<S> + Drop,
    M: MutationType<S, Context = Q::Context, Node = Q::Node> + Drop,
    S: ScalarValue,
>(
    alloc: Global,
    query: Q,
    mutation: M,
    types: &[DeclaredType],
    more: Registry<S>,
) -> Result<ServedRoot<Q, M, Q::Context, S>, RootError>
    ensures schema { ServesWith (λ r. view_schema S.shown (schema_of r)) (view_registry S.shown more) (map declared types.now) (codes "Mutation") result }
    ensures resolver { IfOk result (λ r. (resolver_of r).0 ≡ query) }
    ensures mutation { IfOk result (λ r. (mutation_of r).0 ≡ mutation) }
    ensures introspection { IfOk result (λ r. is_disabled r ≡ false) }
{
    let mut registry = more;
    match register_each(&mut registry, types) {
        Ok(()) => {}
        Err(RegistryError::AlreadyRegistered) => return Err(RootError::NotExecutable),
        Err(RegistryError::Memory) => return Err(RootError::Memory),
    }
    let subscription = EmptySubscription::new();
    RootNode::new(
        alloc,
        Named(query),
        Named(mutation),
        subscription,
        registry,
        "Query",
        "Mutation",
        (),
    )
}

/// The root of a query over these types, of which `Query` is the query's, without mutations and subscriptions.
///
/// Errors: those of [`served`].
pub fn served_query<Q: QueryType<S> + Drop, S: ScalarValue>(
    alloc: Global,
    query: Q,
    types: &[DeclaredType],
) -> Result<ServedQuery<Q, Q::Context, Q::Node, S>, RootError>
    ensures schema { Serves (λ r. view_schema S.shown (schema_of r)) (map declared types.now) (codes "_EmptyMutation") result }
    ensures resolver { IfOk result (λ r. (resolver_of r).0 ≡ query) }
    ensures introspection { IfOk result (λ r. is_disabled r ≡ false) }
{
    let registry = match registry_of(alloc, types) {
        Ok(registry) => registry,
        Err(RegistryError::AlreadyRegistered) => return Err(RootError::NotExecutable),
        Err(RegistryError::Memory) => return Err(RootError::Memory),
    };
    let query = Named(query);
    let mutation = EmptyMutation::new();
    let subscription = EmptySubscription::new();
    RootNode::new(
        alloc,
        query,
        mutation,
        subscription,
        registry,
        "Query",
        (),
        (),
    )
}
