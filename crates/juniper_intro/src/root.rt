//! The root of a server: a schema with the resolvers of its operations (section 3.3 of the Specification).

ghost use Rattle.std.specs.Prelude.{◌≡◌, IfOk, false, true};
ghost use Rattle.juniper_intro.specs.Roots.{Makes};
ghost use Rattle.juniper_intro.specs.Tops.{is_top};
ghost use Rattle.juniper_registry.specs.RegistryView.{view_registry};
ghost use Rattle.juniper_schema.specs.SchemaView.{view_schema};

use crate::error::RootError;
use crate::introspector::Introspector;
use crate::node::RootedNode;
use crate::schema::executable_schema;
use juniper_registry::Registry;
use juniper_schema::SchemaType;
use juniper_syntax::ScalarValue;
use juniper_types::{GraphQLMutationValue, GraphQLType, GraphQLValue};
use std::alloc::Global;

/// A schema that can be executed, with the resolvers of its operations. It is a resolver too: it answers introspection, and by
/// the query's resolver all else. Subscriptions are not served.
#[derive(Drop)]
pub struct RootNode<Q: GraphQLValue<S>, M: GraphQLType<S>, Sub: GraphQLType<S>, S: ScalarValue> {
    pub(crate) query: Q,
    mutation: M,
    subscription: Sub,
    pub(crate) introspector: Introspector<S>,
    query_info: Q::TypeInfo,
    mutation_info: M::TypeInfo,
    subscription_info: Sub::TypeInfo,
    pub(crate) top: RootedNode<Q::Node>,
    is_introspection_disabled: bool,
    ghost at_top: { is_top top ≡ true },
}

impl<
    Q: GraphQLValue<S> + Drop,
    M: GraphQLMutationValue<S, Context = Q::Context, Node = Q::Node> + Drop,
    Sub: GraphQLType<S> + Drop,
    S: ScalarValue,
> RootNode<Q, M, Sub, S>
where
    Q::TypeInfo: Drop,
    M::TypeInfo: Drop,
    Sub::TypeInfo: Drop,
{
    ghost use Rattle.juniper_intro.specs.RootView.{info_of, is_disabled, mutation_info_of, mutation_of, resolver_of, schema_of, subscription_info_of};
    ghost use Rattle.juniper_intro.specs.RootView.{subscription_of};

    /// The root of these resolvers over the types of a registry, and the built-in ones, under the names of the query's and the
    /// mutation's types; there is no mutation type where that is the type of [`juniper_types::EmptyMutation`].
    ///
    /// Errors: [`RootError::NotExecutable`] exactly where that schema cannot be executed; [`RootError::Memory`] where memory is
    /// refused.
    pub fn new(
        alloc: Global,
        query: Q,
        mutation: M,
        subscription: Sub,
        registry: Registry<S>,
        query_info: Q::TypeInfo,
        mutation_info: M::TypeInfo,
        subscription_info: Sub::TypeInfo,
    ) -> Result<Self, RootError>
        ensures schema { Makes (λ r. view_schema S.shown (schema_of r)) (view_registry S.shown registry) (Q.named query_info) (M.named mutation_info) result }
        ensures resolver { IfOk result (λ r. resolver_of r ≡ query) }
        ensures info { IfOk result (λ r. info_of r ≡ query_info) }
        ensures mutation { IfOk result (λ r. mutation_of r ≡ mutation) }
        ensures mutation_info { IfOk result (λ r. mutation_info_of r ≡ mutation_info) }
        ensures subscription { IfOk result (λ r. subscription_of r ≡ subscription) }
        ensures subscription_info { IfOk result (λ r. subscription_info_of r ≡ subscription_info) }
        ensures introspection { IfOk result (λ r. is_disabled r ≡ false) }
    {
        let schema = match executable_schema(
            alloc,
            registry,
            Q::name(&query_info),
            M::name(&mutation_info),
        ) {
            Ok(schema) => schema,
            Err(error) => return Err(error),
        };
        match Introspector::new(alloc, schema) {
            Err(_) => Err(RootError::Memory),
            Ok(introspector) => Ok(RootNode {
                query,
                mutation,
                subscription,
                introspector,
                query_info,
                mutation_info,
                subscription_info,
                top: RootedNode::Root,
                is_introspection_disabled: false,
            }),
        }
    }
}

impl<Q: GraphQLValue<S>, M: GraphQLType<S>, Sub: GraphQLType<S>, S: ScalarValue> RootNode<
    Q,
    M,
    Sub,
    S,
> {
    ghost use Rattle.juniper_intro.specs.RootView.{info_of, is_disabled, mutation_info_of, mutation_of, resolver_of, schema_of, subscription_info_of};
    ghost use Rattle.juniper_intro.specs.RootView.{subscription_of};

    /// The same root with introspection disabled: a document that asks for `__schema` or `__type` is refused.
    pub fn disable_introspection(self) -> Self
        ensures introspection { is_disabled result ≡ true }
        ensures schema { schema_of result ≡ schema_of self }
        ensures resolver { resolver_of result ≡ resolver_of self }
        ensures info { info_of result ≡ info_of self }
        ensures mutation { mutation_of result ≡ mutation_of self }
        ensures mutation_info { mutation_info_of result ≡ mutation_info_of self }
        ensures subscription { subscription_of result ≡ subscription_of self }
        ensures subscription_info { subscription_info_of result ≡ subscription_info_of self }
    {
        let mut root = self;
        root.is_introspection_disabled = true;
        root
    }

    /// Whether introspection is disabled.
    pub fn is_introspection_disabled(&self) -> bool
        ensures { result ≡ is_disabled self.now }
    {
        self.is_introspection_disabled
    }

    /// The schema.
    pub fn schema(&self) -> &SchemaType<S>
        ensures { result.now ≡ schema_of self.now }
    {
        self.introspector.schema()
    }

    /// The query's resolver.
    pub fn query(&self) -> &Q
        ensures { result.now ≡ resolver_of self.now }
    {
        &self.query
    }

    /// What the query's resolver is told about its type.
    pub fn query_info(&self) -> &Q::TypeInfo
        ensures { result.now ≡ info_of self.now }
    {
        &self.query_info
    }

    /// The mutation's resolver.
    pub fn mutation(&self) -> &M
        ensures { result.now ≡ mutation_of self.now }
    {
        &self.mutation
    }

    /// What the mutation's resolver is told about its type.
    pub fn mutation_info(&self) -> &M::TypeInfo
        ensures { result.now ≡ mutation_info_of self.now }
    {
        &self.mutation_info
    }

    /// The value that was given for subscriptions, which is kept and not asked.
    pub fn subscription(&self) -> &Sub
        ensures { result.now ≡ subscription_of self.now }
    {
        &self.subscription
    }

    /// What was given to tell it about its type.
    pub fn subscription_info(&self) -> &Sub::TypeInfo
        ensures { result.now ≡ subscription_info_of self.now }
    {
        &self.subscription_info
    }
}
