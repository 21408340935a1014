//! Who asks: a guard finds it out from the head of each request over HTTP, and says so in the context.

ghost use Rattle.std.specs.Prelude.{◌≡◌, ℕ, List, OnErr, Result};
ghost use Rattle.http.specs.declared.request.Request.{Request};
ghost use Rattle.juniper_http.specs.declared.denial.Denial.{Denial};

use crate::endpoint::RootEndpoint;
use bytes::Bytes;
use http::Request;
use juniper::{DefaultScalarValue, GraphQLMutationValue, GraphQLType, GraphQLValue};
use juniper_http::{Denial, Endpoint, Guarded, Reply};
use juniper_request::GraphQLRequest;
use std::alloc::Global;

/// Finds out who sends a request over HTTP, and says so in the context that the request is executed in.
pub trait Guard {
    /// What requests are executed in.
    type Context;

    // From the first state and in the first context, this is the verdict on the request, and it leaves the second ones.
    ghost admits: { Self → Self.Context → Request (List ℕ) → Result (Unit {0}) Denial → Self → Self.Context → Type 0 };

    /// Says in the context who sends a request, as its fields tell, or denies the request, which leaves the context as it was. What the
    /// context says of the request before stands there until it is written anew.
    fn admit(
        &mut self,
        alloc: Global,
        request: &Request<Bytes>,
        context: &mut Self::Context,
    ) -> Result<(), Denial>
        ensures verdict { admits self.old context.old request.now result self.new context.new }
        ensures denied { OnErr result (context.new ≡ context.old) };
}

/// A root whose requests are executed in a context in which a guard has said who asks; a `GuardedService` serves it.
#[derive(Drop)]
pub struct GuardedEndpoint<
    'r,
    Q: GraphQLValue<DefaultScalarValue>,
    M: GraphQLType<DefaultScalarValue>,
    Sub: GraphQLType<DefaultScalarValue>,
    G,
> {
    /// The root and its context, in which whoever is admitted has requests executed.
    pub endpoint: RootEndpoint<'r, Q, M, Sub>,
    /// What finds out who asks.
    pub guard: G,
}

impl<
    'r,
    Q: GraphQLValue<DefaultScalarValue>,
    M: GraphQLMutationValue<DefaultScalarValue, Context = Q::Context, Node = Q::Node>,
    Sub: GraphQLType<DefaultScalarValue>,
    G,
> Endpoint for GuardedEndpoint<'r, Q, M, Sub, G> {
    ghost replies = { λ old asked may_write reply new. (new ≡ record old { endpoint = new.endpoint })
        × ⟦<RootEndpoint<'r, Q, M, Sub> as Endpoint>⟧.replies old.endpoint asked may_write reply new.endpoint };

    fn reply(&mut self, alloc: Global, request: &GraphQLRequest<'_>, may_write: bool) -> Reply {
        self.endpoint.reply(alloc, request, may_write)
    }
}

impl<
    'r,
    Q: GraphQLValue<DefaultScalarValue>,
    M: GraphQLType<DefaultScalarValue>,
    Sub: GraphQLType<DefaultScalarValue>,
    G: Guard<Context = Q::Context>,
> Guarded for GuardedEndpoint<'r, Q, M, Sub, G> {
    ghost admits = { λ old request verdict new.
        (new ≡ record old { endpoint = record old.endpoint { context = new.endpoint.context }; guard = new.guard })
        × G.admits old.guard old.endpoint.context request verdict new.guard new.endpoint.context
        × OnErr verdict (new.endpoint.context ≡ old.endpoint.context) };

    fn admit(&mut self, alloc: Global, request: &Request<Bytes>) -> Result<(), Denial> {
        self.guard.admit(alloc, request, &mut self.endpoint.context)
    }
}
