//! Laws of replies. Each function does nothing; its contract is the law.

ghost use Rattle.std.specs.Prelude.{◌≡◌, ◌≢◌, Bool, ℕ, List, Option, Some, [], codes, false};
ghost use Rattle.graphql_spec.specs.Documents.{Document};
ghost use Rattle.graphql_spec.specs.Outcomes as outcomes;
ghost use Rattle.graphql_spec.specs.Requests.{Refusal};
ghost use Rattle.graphql_spec.specs.Rules.{RuleError};
ghost use Rattle.graphql_spec.specs.Schema.{Schema};
ghost use Rattle.graphql_spec.specs.Shown.{Text};
ghost use Rattle.http.specs.Request.{head_of};
ghost use Rattle.http.specs.declared.request.Request.{Request};
ghost use Rattle.http_server.specs.declared.response.Response.{Response};
ghost use Rattle.juniper.specs.Answering.{refusal_of};
ghost use Rattle.juniper.specs.Promised.{IsFullOutcome};
ghost use Rattle.juniper.specs.RequestErrors.{RequestError};
ghost use Rattle.juniper.specs.declared.prepared.Bounds.{Bounds};
ghost use Rattle.juniper_http.specs.Served.{Serves};
ghost use Rattle.juniper_http.specs.declared.endpoint.Reply.{Reply};
ghost use Rattle.juniper_http.specs.declared.outcome.Outcome.{Outcome};
ghost use Rattle.juniper_http.specs.declared.service.GraphQLService.{GraphQLService};
ghost use Rattle.juniper_json.specs.RefusalText as lines;
ghost use Rattle.juniper_json.specs.RefusalText.{told_errors};
ghost use Rattle.juniper_json.specs.Refusals.{refusals_of};
ghost use Rattle.juniper_request.specs.Requests.{Asked};
ghost use Rattle.juniper_endpoint.specs.Explained.{IsFaultless, explained_as, is_left_out};
ghost use Rattle.juniper_endpoint.specs.Replied.{Replies};

use crate::endpoint::RootEndpoint;
use juniper::{DefaultScalarValue, GraphQLMutationValue, GraphQLType, GraphQLValue};
use juniper_http::Endpoint;

/// A request that may only read leaves the context as it was.
pub fn reading_leaves<C, N>()
    ensures { (S : outcomes.Service C N) (b : Bounds) (a : Asked) (most : ℕ) (c : C) (fields : Option ℕ) (outcome : Outcome) (line : Text) (after : C) →
        Replies S b a most false c fields outcome line after → after ≡ c }
{}

/// And so the endpoint over a root.
pub fn reading_leaves_the_endpoint<
    'r,
    Q: GraphQLValue<DefaultScalarValue>,
    M: GraphQLMutationValue<DefaultScalarValue, Context = Q::Context, Node = Q::Node>,
    Sub: GraphQLType<DefaultScalarValue>,
>(old: &RootEndpoint<'r, Q, M, Sub>, new: &RootEndpoint<'r, Q, M, Sub>)
    ensures { (a : Asked) (reply : Reply) → ⟦<RootEndpoint<'r, Q, M, Sub> as Endpoint>⟧.replies old.now a false reply new.now → new.now ≡ old.now }
{}

/// A request that is no `POST` leaves a service as it was, where its endpoint is left so by requests that may only read.
pub fn gets_leave<E: Endpoint>()
    ensures { ((s : E) (a : Asked) (reply : Reply) (t : E) → E.replies s a false reply t → t ≡ s) →
        (s : GraphQLService E) (request : Request (List ℕ)) (r : Response) (t : GraphQLService E) → (head_of request).method ≢ codes "POST" →
        Serves E.replies s request r t → t ≡ s }
{}

/// Something is explained of each request that breaks a rule, or whose values do not fit the operation that is chosen, where its text is
/// not left out, whatever errors are listed.
pub fn refusals_are_explained()
    ensures { (s : Schema) (disabled : Bool) (most : ℕ) (q : outcomes.Request) (errors : List RuleError) (d : Document) →
        is_left_out disabled most q.text ≡ false → explained_as s disabled most q errors d ≡ [] → IsFaultless s disabled q d }
{}

/// Some error is told of each request that the executor refuses, whatever explains it.
pub fn refusals_have_errors<C, N>()
    ensures { (S : outcomes.Service C N) (q : outcomes.Request) (c : C) (e : RequestError) (r : Refusal) (after : C)
        (explanations : List lines.Refusal) → refusal_of e ≡ Some r → IsFullOutcome S q c (outcomes.refuses r) after →
        told_errors (refusals_of e) explanations ≢ [] }
{}
