//! What a schema answers about itself, and what holds of it (section 4 of the Specification).

ghost use Rattle.graphql_spec.specs.IntrospectionLaws.{DisabledLooksNowhere, IntrospectionAddsNone, IntrospectionNeverFails, LookingNeverFails};
ghost use Rattle.graphql_spec.specs.IntrospectionLaws.{RepliesFit, RootStands, UsersAnswer, UsersExecute, UsersMutate, UsersOutcomes};
ghost use Rattle.graphql_spec.specs.SeenNodes.{SeenAlike};
ghost use Rattle.graphql_spec.specs.SeenServices.{SeenOutcomes};

/// An execution whose nodes are held in another way is the same: where each is seen as a node of the same type that replies
/// alike, the data, the failures and the nulls that stand for failures are equal.
pub fn nodes_are_seen<M, N>()
    ensures { SeenAlike M N }
{}

/// A request has the same outcomes where a service's nodes are held in another way: where each is seen as a node of the same type
/// that replies alike in each context, the steps of the mutation too, what is an outcome with the ones is an outcome with the others.
pub fn services_are_seen<C, M, N>()
    ensures { SeenOutcomes C M N }
{}

/// A user's node is answered by the user's resolver alone, and the root as the user's own root; where neither `__schema` nor
/// `__type` is selected, the execution is that of the user's resolver; and neither is, where introspection is disabled.
#[tactic(auto, using(crate::proofs::RootedUsers::users_answer))]
pub fn users_answer<N>()
    ensures nodes { UsersAnswer N }
    ensures root { RootStands N }
    ensures execution { UsersExecute N }
    ensures disabled { DisabledLooksNowhere }
{}

/// So is a mutation: where neither `__schema` nor `__type` is selected, the same root groups run, with the same values, contexts
/// and failures.
pub fn users_mutate<C, N>()
    ensures { UsersMutate C N }
{}

/// Where introspection is disabled, the outcomes of a request are those of the service without introspection.
pub fn users_alone_answer<C, N>()
    ensures { UsersOutcomes C N }
{}

/// Of a schema that can be executed: what its nodes of introspection reply fits the declared types, so nothing fails there, nor
/// anywhere below; nothing fails at a key of a query that asks about the schema, and so nothing in a request that asks for no more.
#[tactic(auto, using(crate::proofs::IntrospectionRuns::replies_fit, crate::proofs::IntrospectionRuns::introspection_never_fails, crate::proofs::IntrospectionRuns::introspection_adds_none, crate::proofs::IntrospectionRuns::looking_never_fails))]
pub fn introspection_never_fails<N>()
    ensures replies { RepliesFit }
    ensures below { IntrospectionNeverFails }
    ensures keys { IntrospectionAddsNone N }
    ensures requests { LookingNeverFails N }
{}
