//! A root with a context, behind HTTP.

ghost use Rattle.std.specs.Prelude.{◌≡◌, string_bytes};
ghost use Rattle.juniper_request.specs.Requests.{view_request};
ghost use Rattle.juniper_syntax.specs.DocumentView.{view_document};
ghost use Rattle.juniper_syntax.specs.Scalars.{default_shown};
ghost use Rattle.juniper.specs.Objections.{IsWithin};
ghost use Rattle.juniper.specs.RootView.{service_of};
ghost use Rattle.juniper_endpoint.specs.Looks.{IsGivenBy};
ghost use Rattle.juniper_endpoint.specs.Replied.{Replies};

use crate::explained::{Explainer, invalid_reply, objection_reply};
use crate::given::given_by;
use crate::lines::without_memory;
use crate::replied::reply_valid;
use juniper::{
    Bounds, DefaultScalarValue, Document, GraphQLMutationValue, GraphQLType, GraphQLValue,
    RootNode, read_within, validate,
};
use juniper_http::{Endpoint, Reply};
use juniper_json::GivenVariables;
use juniper_request::GraphQLRequest;
use std::alloc::Global;

/// A root whose requests are executed one after another in one context, within bounds.
#[derive(Drop)]
pub struct RootEndpoint<
    'r,
    Q: GraphQLValue<DefaultScalarValue>,
    M: GraphQLType<DefaultScalarValue>,
    Sub: GraphQLType<DefaultScalarValue>,
> {
    /// What requests are executed on.
    pub root: &'r RootNode<Q, M, Sub, DefaultScalarValue>,
    /// What they are executed in: a mutation leaves it as its steps do.
    pub context: Q::Context,
    /// What is taken of a text.
    pub bounds: Bounds,
    /// The most fields that a request enters, as [`juniper::execute_within`] counts them: lists multiply those that it selects. A request
    /// that enters more is refused, with the message `The answer has too many fields`; that may be found late, and leaves the context as
    /// want of memory does. Where no budget is given, no request is refused for it.
    pub entered_fields: Option<usize>,
    /// The most bytes of a text that is explained where it is no valid document, or where the values that are given with it do not fit: what
    /// explains it may grow with the square of its length. Nothing is explained where introspection is disabled, since explanations name what
    /// the schema has.
    pub explained_bytes: usize,
}

impl<
    Q: GraphQLValue<DefaultScalarValue>,
    M: GraphQLMutationValue<DefaultScalarValue, Context = Q::Context, Node = Q::Node>,
    Sub: GraphQLType<DefaultScalarValue>,
> Endpoint for RootEndpoint<'_, Q, M, Sub> {
    ghost replies = { λ old asked may_write reply new. (new ≡ record old { context = new.context })
        × Replies (service_of Q.concrete Q.answer Q.root M.step M.torn default_shown old.root.now) old.bounds asked old.explained_bytes may_write old.context
        old.entered_fields reply.outcome (string_bytes reply.line) new.context };

    fn reply(&mut self, alloc: Global, request: &GraphQLRequest<'_>, may_write: bool) -> Reply {
        match given_by(alloc, request.variables) {
            Err(_) => without_memory(alloc),
            Ok(given) => self.reply_with(alloc, request, &given, may_write),
        }
    }
}

impl<
    Q: GraphQLValue<DefaultScalarValue>,
    M: GraphQLMutationValue<DefaultScalarValue, Context = Q::Context, Node = Q::Node>,
    Sub: GraphQLType<DefaultScalarValue>,
> RootEndpoint<'_, Q, M, Sub> {
    /// Replies to a request with these values of its variables.
    fn reply_with(
        &mut self,
        alloc: Global,
        request: &GraphQLRequest<'_>,
        given: &GivenVariables,
        may_write: bool,
    ) -> Reply
        requires { IsGivenBy (view_request request.now).variables given.now }
        ensures rest { self.new ≡ record self.old { context = self.new.context } }
        ensures said { Replies (service_of Q.concrete Q.answer Q.root M.step M.torn default_shown self.old.root.now) self.old.bounds (view_request request.now)
            self.old.explained_bytes may_write self.old.context self.old.entered_fields result.outcome (string_bytes result.line) self.new.context }
    {
        match read_within(alloc, request.query, &self.bounds) {
            Err(objection) => objection_reply(alloc, objection),
            Ok(document) => self.reply_to(alloc, &document, request, given, may_write),
        }
    }

    /// Replies to a request whose text is that of a document within the bounds, with these values of its variables.
    fn reply_to(
        &mut self,
        alloc: Global,
        document: &Document<'_, DefaultScalarValue>,
        request: &GraphQLRequest<'_>,
        given: &GivenVariables,
        may_write: bool,
    ) -> Reply
        requires within { IsWithin self.old.bounds request.now.query.now (view_document default_shown document.now) }
        requires given { IsGivenBy (view_request request.now).variables given.now }
        ensures rest { self.new ≡ record self.old { context = self.new.context } }
        ensures said { Replies (service_of Q.concrete Q.answer Q.root M.step M.torn default_shown self.old.root.now) self.old.bounds (view_request request.now)
            self.old.explained_bytes may_write self.old.context self.old.entered_fields result.outcome (string_bytes result.line) self.new.context }
    {
        let explainer = Explainer {
            schema: self.root.schema(),
            is_introspection_disabled: self.root.is_introspection_disabled(),
            most_bytes: self.explained_bytes,
        };
        let errors = match validate(
            alloc,
            document,
            explainer.schema,
            explainer.is_introspection_disabled,
        ) {
            Err(_) => return without_memory(alloc),
            Ok(errors) => errors,
        };
        if errors.is_empty() {
            reply_valid(
                alloc,
                &explainer,
                self.root,
                document,
                request,
                given,
                may_write,
                self.entered_fields,
                &mut self.context,
            )
        } else {
            invalid_reply(alloc, &explainer, request.query, document, errors)
        }
    }
}
