//! What holds of nodes of introspection that are held by numbers, and of a root's nodes and its schema.

ghost use Rattle.std.specs.Prelude.{◌≡◌, IsTrue, Some};
ghost use Rattle.graphql_spec.specs.Executable.{is_executable};
ghost use Rattle.graphql_spec.specs.Introspection as rooted;
ghost use Rattle.graphql_spec.specs.Schema.{Schema};
ghost use Rattle.juniper_intro.specs.Handles.{HeldNodesServe, NumbersServe};
ghost use Rattle.juniper_intro.specs.RootLaws.{RepliesAreRooted, RepliesAreSeen, TypesAreRooted, TypesAreSeen, UsersAreSeen};
ghost use Rattle.juniper_intro.specs.RootView.{resolver_of, schema_of, view_node_of};
ghost use Rattle.juniper_intro.specs.Roots.{IsSchemaOf};
ghost use Rattle.juniper_registry.specs.RegistryView.{view_registry};
ghost use Rattle.juniper_schema.specs.SchemaView.{view_schema};

use crate::root::RootNode;
use juniper_registry::Registry;
use juniper_syntax::ScalarValue;
use juniper_types::{GraphQLType, GraphQLValue};

/// Nodes of introspection may be held by numbers in the lists of a schema that can be executed, without its declarations: the
/// execution is the same, also where code has a type of its own for such nodes and users' nodes together.
pub fn numbers_serve<N, R>()
    ensures introspection { NumbersServe }
    ensures nodes { HeldNodesServe N R }
{}

/// A root's node has the object type of the node that it means, and replies what that one is defined to reply: introspection by its
/// definitions, and all else by the query's resolver.
pub fn roots_reply<N>()
    ensures types { TypesAreRooted N }
    ensures replies { RepliesAreRooted N }
{}

/// Of each registry, under names of the query's and the mutation's types, there is a schema: so
/// [`RootError::NotExecutable`](crate::RootError::NotExecutable) tells of one that cannot be executed.
pub fn registries_have_schemas<S: ScalarValue>(registry: &Registry<S>, query: &str, mutation: &str)
    ensures { (s : Schema) × IsSchemaOf (view_registry S.shown registry.now) (Some query.now) (Some mutation.now) s }
{}

/// A root as a resolver, over a schema that can be executed: each of its nodes has the object type of the node that it is seen as, and
/// its replies are seen as what that one is defined to reply, by introspection and by the query's resolver (`rooted_service` of
/// `graphql_spec`). The root's own node is seen as the root, and what a user's resolver replies as it is.
pub fn root_replies<Q: GraphQLValue<S>, M: GraphQLType<S>, Sub: GraphQLType<S>, S: ScalarValue>(
    root: &RootNode<Q, M, Sub, S>,
)
    ensures executable { IsTrue (is_executable (view_schema S.shown (schema_of root.now))) }
    ensures types { TypesAreSeen (view_node_of S.shown root.now) (Q.root (resolver_of root.now)) (Q.concrete (resolver_of root.now))
        (⟦<RootNode<Q, M, Sub, S> as GraphQLValue<S>>⟧.concrete root.now) }
    ensures replies { RepliesAreSeen (view_node_of S.shown root.now) (Q.root (resolver_of root.now)) (view_schema S.shown (schema_of root.now))
        (Q.answer (resolver_of root.now)) (⟦<RootNode<Q, M, Sub, S> as GraphQLValue<S>>⟧.answer root.now) }
    ensures top { view_node_of S.shown root.now (⟦<RootNode<Q, M, Sub, S> as GraphQLValue<S>>⟧.root root.now) ≡ rooted.root }
    ensures users { UsersAreSeen (view_node_of S.shown root.now) }
{}
