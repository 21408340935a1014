//! The root as a resolver: introspection, and all else by the query's resolver (section 4 of the Specification).

ghost use Rattle.std.specs.Prelude.{◌≡◌, ◌<◌, IfOk, length, map, option_map};
ghost use Rattle.graphql_spec.specs.Rules.{is_introspection};
ghost use Rattle.graphql_spec.specs.SeenNodes.{map_reply};
ghost use Rattle.juniper_intro.specs.HandleView.{of_handle, of_user, users_in, view_handle};
ghost use Rattle.juniper_intro.specs.Handles.{held_reply};
ghost use Rattle.juniper_intro.specs.HeldReplies.{held_answer, held_concrete, user_held};
ghost use Rattle.juniper_intro.specs.Introspectors.{names_of, number_of, schema_of};
ghost use Rattle.juniper_values.specs.ResolvedView.{AllAnswer, Answers};
ghost use Rattle.juniper_schema.specs.SchemaView.{view_schema};
ghost use Rattle.juniper_types.specs.ExecutorView.{IsAskedFor, context_of};
ghost use Rattle.juniper_values.specs.ArgumentView.{view_arguments};

use crate::answers::{of_directive, of_field, of_input, of_value};
use crate::handle::Handle;
use crate::introspector::Introspector;
use crate::node::RootedNode;
use crate::root::RootNode;
use crate::rooted::{rooted_answer, rooted_answers};
use crate::words::Answer;
use juniper_meta::MetaType;
use juniper_registry::{GraphQLReference, GraphQLType, Registry};
use juniper_syntax::{ScalarValue, Type};
use juniper_types::{Executor, GraphQLValue};
use juniper_values::{Arguments, ResolveError, Resolved};
use std::alloc::{AllocError, Global};

impl<S: ScalarValue> Introspector<S> {
    /// What a node of introspection answers to a field (4.2).
    #[tactic(auto, unfolding(crate::specs::Handles::held_reply, crate::specs::Handles::held_answer, crate::specs::Handles::held_answers))]
    pub(crate) fn answer<N: Drop>(
        &self,
        alloc: Global,
        handle: Handle,
        field_name: &str,
        arguments: &Arguments<'_, S>,
    ) -> Answer<N, S>
        ensures { Answers S.shown result (held_reply of_user of_handle (view_schema S.shown (schema_of self.now)) (names_of self.now) (number_of self.now)
            (view_handle handle) field_name.now (view_arguments S.shown arguments.now)) }
    {
        match handle {
            Handle::Schema => self.of_schema(alloc, field_name),
            Handle::Type(place, depth) => {
                self.of_type(alloc, place, depth, field_name, arguments)
            }
            Handle::Field(of_type, number) => {
                let field = self.field(of_type, number);
                of_field(alloc, of_type, number, field, field_name)
            }
            Handle::Input(place) => of_input(alloc, place, self.input(place), field_name),
            Handle::Value(of_type, number) => {
                of_value(alloc, self.value(of_type, number), field_name)
            }
            Handle::Directive(number) => {
                of_directive(alloc, number, self.directive(number), field_name)
            }
        }
    }
}

/// The query's type.
impl<Q: GraphQLValue<S>, M: GraphQLType<S>, Sub: GraphQLType<S>, S: ScalarValue> GraphQLReference<S>
    for RootNode<Q, M, Sub, S> {
    type TypeInfo = Q::TypeInfo;

    ghost named = { Q.named };

    ghost reference = { Q.reference };

    fn name(info: &Q::TypeInfo) -> Option<&str> {
        Q::name(info)
    }

    fn type_in(
        alloc: Global,
        info: &Q::TypeInfo,
        registry: &mut Registry<S>,
    ) -> Result<Type<String>, AllocError> {
        Q::type_in(alloc, info, registry)
    }
}

impl<Q: GraphQLValue<S>, M: GraphQLType<S>, Sub: GraphQLType<S>, S: ScalarValue> GraphQLType<S>
    for RootNode<Q, M, Sub, S> {
    ghost declaration = { Q.declaration };

    fn meta(
        alloc: Global,
        info: &Q::TypeInfo,
        registry: &mut Registry<S>,
    ) -> Result<MetaType<S>, AllocError> {
        Q::meta(alloc, info, registry)
    }

    ghost keeps_name = { λ i n e. Q.keeps_name i n e };
}

/// The root answers introspection, and by the query's resolver all else.
impl<Q: GraphQLValue<S>, M: GraphQLType<S>, Sub: GraphQLType<S>, S: ScalarValue> GraphQLValue<S>
    for RootNode<Q, M, Sub, S> {
    type Context = Q::Context;

    type Node = RootedNode<Q::Node>;

    ghost concrete = { λ r i c. held_concrete (Q.concrete r.query i c) (Q.root r.query) };

    ghost answer = { λ r i c. held_answer (view_schema S.shown (schema_of r.introspector)) (names_of r.introspector) (number_of r.introspector)
        (Q.answer r.query i c) (Q.root r.query) };

    ghost root = { λ r. r.top };

    fn type_name<'i>(&self, info: &'i Q::TypeInfo) -> Option<&'i str> {
        self.query.type_name(info)
    }

    fn root_node(&self) -> &RootedNode<Q::Node> {
        &self.top
    }

    fn concrete_type_name<'r>(
        &'r self,
        context: &'r Q::Context,
        info: &'r Q::TypeInfo,
        node: &'r RootedNode<Q::Node>,
    ) -> &'r str {
        match node {
            RootedNode::Root => {
                let root = self.query.root_node();
                self.query.concrete_type_name(context, info, root)
            }
            RootedNode::User(node) => self.query.concrete_type_name(context, info, node),
            RootedNode::Introspected(handle) => handle.type_name(),
        }
    }

    #[inline(always)]
    fn resolve_field(
        &self,
        alloc: Global,
        info: &Q::TypeInfo,
        node: &RootedNode<Q::Node>,
        field_name: &str,
        arguments: &Arguments<'_, S>,
        executor: &Executor<Q::Context, S>,
    ) -> Result<Resolved<RootedNode<Q::Node>, S>, ResolveError<S>> {
        match node {
            RootedNode::Root => {
                let root = self.query.root_node();
                self.resolve_users(alloc, info, root, field_name, arguments, executor)
            }
            RootedNode::User(node) => {
                self.resolve_users(alloc, info, node, field_name, arguments, executor)
            }
            RootedNode::Introspected(handle) => {
                self.introspector
                    .answer(alloc, *handle, field_name, arguments)
            }
        }
    }

    fn nodes_at_once(&self, info: &Q::TypeInfo, type_name: &str) -> usize {
        if type_name.starts_with("__") {
            return 1;
        }
        self.query.nodes_at_once(info, type_name)
    }

    fn resolve_fields(
        &self,
        alloc: Global,
        info: &Q::TypeInfo,
        nodes: &[&RootedNode<Q::Node>],
        field_name: &str,
        arguments: &Arguments<'_, S>,
        executor: &Executor<Q::Context, S>,
    ) -> Result<Vec<Result<Resolved<RootedNode<Q::Node>, S>, ResolveError<S>>>, AllocError> {
        if !is_introspection(field_name) {
            if let Some(users) = users_of(alloc, nodes)? {
                let answers = self.resolve_all_users(
                    alloc, info, &users, field_name, arguments, executor,
                )?;
                return Ok(answers);
            }
        }
        let mut made = Vec::with_capacity(alloc, nodes.len())?;
        for node in nodes {
            let answer = self.resolve_field(alloc, info, node, field_name, arguments, executor);
            made.push(answer)?;
        }
        Ok(made)
    }
}

impl<Q: GraphQLValue<S>, M: GraphQLType<S>, Sub: GraphQLType<S>, S: ScalarValue> RootNode<
    Q,
    M,
    Sub,
    S,
> {
    /// What a user's node answers to a field: the schema answers `__schema` and `__type`, and the query's resolver all else.
    #[tactic(auto, unfolding(crate::specs::Handles::held_user_reply))]
    #[inline(always)]
    fn resolve_users(
        &self,
        alloc: Global,
        info: &Q::TypeInfo,
        node: &Q::Node,
        field_name: &str,
        arguments: &Arguments<'_, S>,
        executor: &Executor<Q::Context, S>,
    ) -> Result<Resolved<RootedNode<Q::Node>, S>, ResolveError<S>>
        requires { IsAskedFor S.shown executor.now field_name.now (view_arguments S.shown arguments.now) }
        ensures { Answers S.shown result (user_held (view_schema S.shown (schema_of self.now.introspector)) (names_of self.now.introspector)
            (number_of self.now.introspector) (Q.answer self.now.query info.now (context_of executor.now)) node.now field_name.now
            (view_arguments S.shown arguments.now)) }
    {
        if is_introspection(field_name) {
            return self.introspector.of_root(field_name, arguments);
        }
        let answered = self
            .query
            .resolve_field(alloc, info, node, field_name, arguments, executor);
        rooted_answer(alloc, answered)
    }

    /// What users' nodes, one at least, answer to a field that is not of introspection: the query's resolver is asked once for all of them.
    fn resolve_all_users(
        &self,
        alloc: Global,
        info: &Q::TypeInfo,
        users: &[&Q::Node],
        field_name: &str,
        arguments: &Arguments<'_, S>,
        executor: &Executor<Q::Context, S>,
    ) -> Result<Vec<Result<Resolved<RootedNode<Q::Node>, S>, ResolveError<S>>>, AllocError>
        requires asked { IsAskedFor S.shown executor.now field_name.now (view_arguments S.shown arguments.now) }
        requires some { 0 < length users.now }
        ensures { IfOk result (λ made. AllAnswer S.shown (λ n. map_reply of_user (Q.answer self.now.query info.now (context_of executor.now) n field_name.now
            (view_arguments S.shown arguments.now))) (map (λ n. n.now) users.now) made.items) }
    {
        let answered = self
            .query
            .resolve_fields(alloc, info, users, field_name, arguments, executor)?;
        let made = rooted_answers(alloc, answered)?;
        Ok(made)
    }
}

/// The nodes of the query's resolver that these are, if all of them are such.
fn users_of<'n, N>(
    alloc: Global,
    nodes: &[&'n RootedNode<N>],
) -> Result<Option<Vec<&'n N>>, AllocError>
    ensures { IfOk result (λ found. option_map (λ users. map (λ n. n.now) users.items) found ≡ users_in (map (λ n. n.now) nodes.now)) }
{
    let mut users = Vec::with_capacity(alloc, nodes.len())?;
    for node in nodes {
        match *node {
            RootedNode::User(user) => users.push(user)?,
            RootedNode::Root | RootedNode::Introspected(_) => return Ok(None),
        }
    }
    Ok(Some(users))
}

/// Whether the field is `__schema` or `__type` (4.1).
#[tactic(auto, unfolding(graphql_spec::specs::Rules::is_introspection))]
fn is_introspection(field_name: &str) -> bool
    ensures { result ≡ is_introspection field_name.now }
{
    field_name == "__schema" || field_name == "__type"
}
