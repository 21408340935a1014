//! Laws of guards. Each function does nothing; its contract is the law.

ghost use Rattle.std.specs.Prelude.{◌≡◌, ℕ, IsErr, List, Result};
ghost use Rattle.http.specs.declared.request.Request.{Request};
ghost use Rattle.http_server.specs.declared.response.Response.{Response};
ghost use Rattle.juniper_http.specs.Guards.{ServesGuarded};
ghost use Rattle.juniper_http.specs.declared.denial.Denial.{Denial};

use crate::guard::{Guard, GuardedEndpoint};
use juniper::{DefaultScalarValue, GraphQLMutationValue, GraphQLType, GraphQLValue};
use juniper_http::{Endpoint, Guarded, GuardedService};

/// A request that a guard denies leaves the context as it was: nothing of it is executed.
pub fn denied_requests_leave<
    'r,
    Q: GraphQLValue<DefaultScalarValue>,
    M: GraphQLMutationValue<DefaultScalarValue, Context = Q::Context, Node = Q::Node>,
    Sub: GraphQLType<DefaultScalarValue>,
    G: Guard<Context = Q::Context>,
>(
    old: &GuardedService<'r, GuardedEndpoint<'r, Q, M, Sub, G>>,
    new: &GuardedService<'r, GuardedEndpoint<'r, Q, M, Sub, G>>,
)
    ensures { (request : Request (List ℕ)) (r : Response) →
        ((verdict : Result (Unit {0}) Denial) (guard : G) (context : Q.Context) →
        G.admits old.now.service.endpoint.guard old.now.service.endpoint.endpoint.context request verdict guard context → IsErr verdict) →
        ServesGuarded ⟦<GuardedEndpoint<'r, Q, M, Sub, G> as Guarded>⟧.admits ⟦<GuardedEndpoint<'r, Q, M, Sub, G> as Endpoint>⟧.replies
        old.now request r new.now → new.now.service.endpoint.endpoint.context ≡ old.now.service.endpoint.endpoint.context }
{}
