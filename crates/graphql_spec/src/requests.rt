//! Laws of whole requests: what becomes of them, and what is answered (section 6.1 of the Specification).

ghost use Rattle.graphql_spec.specs.Covering.{KeysAreChildren, OccurrencesAreChildren, ResponseIsCovered};
ghost use Rattle.graphql_spec.specs.Covering.{TypedIsCovered};
ghost use Rattle.graphql_spec.specs.ExactAnswers.{ExactTells, OutcomeTells};
ghost use Rattle.graphql_spec.specs.OneErrorList.{ErrorsAreOne, ExactErrorsAreOne, FirstErrorsAreOne, ResponsesAreOne};
ghost use Rattle.graphql_spec.specs.OutcomeExists.{OutcomeExists};
ghost use Rattle.graphql_spec.specs.OutcomeLaws.{ErrorsWhereFailures, NullHasError, OutcomeIsOne, QueryLeaves};
ghost use Rattle.graphql_spec.specs.OutcomeLaws.{RefusalLeaves};
ghost use Rattle.graphql_spec.specs.Outcomes.{KnownOutcome, Service, StepsDecide};
ghost use Rattle.graphql_spec.specs.Schema.{Schema};
ghost use Rattle.graphql_spec.specs.TypedData.{DataIsTyped, ResponseIsTyped};

/// The steps that decide what becomes of a request, in their order; and a call that knows what becomes of it answers its outcome
/// (section 6.1).
pub fn steps_decide<C, N>()
    ensures steps { (S : Service C N) → StepsDecide S }
    ensures known { (S : Service C N) → KnownOutcome S }
{}

/// Of each request, whatever is served: it has an outcome, and one alone (one refusal, or one data and one context after), unless
/// memory is wanting; a query leaves the context, and so does a request that is refused; errors are listed exactly where something
/// fails, and where the data is null (section 6.1).
pub fn outcomes<C, N>()
    ensures exists { (S : Service C N) → OutcomeExists S }
    ensures one { (S : Service C N) → OutcomeIsOne S }
    ensures query { (S : Service C N) → QueryLeaves S }
    ensures refusal { (S : Service C N) → RefusalLeaves S }
    ensures errors { (S : Service C N) → ErrorsWhereFailures S }
    ensures null { (S : Service C N) → NullHasError S }
{}

/// Data is never null at a field or list item of non-null type, and holds no scalar that the declared type does not accept; its
/// objects have the response keys that are selected on their types, in order (sections 6.3, 6.4.3 and 6.4.4).
pub fn data_is_typed<C, N>()
    ensures queries { (s : Schema) → DataIsTyped s N }
    ensures responses { (S : Service C N) → ResponseIsTyped S }
{}

/// What look-ahead shows of a field covers what is selected below it for each object type, and so all that the data holds below
/// it: each key of an object is the response name of a child of one of the occurrences of the field that gave the object.
pub fn children_cover<C, N>()
    ensures occurrences { OccurrencesAreChildren }
    ensures keys { KeysAreChildren }
    ensures data { TypedIsCovered }
    ensures responses { (S : Service C N) → ResponseIsCovered S }
{}

/// An exact answer lists each error with the exact place of its failure, and no place twice; each null that stands for a failure has
/// an error of a failure that rises to its exact place (section 7.1.2).
pub fn tells_exactly<C, N>()
    ensures answers { ExactTells }
    ensures outcomes { (S : Service C N) → OutcomeTells S }
{}

/// The list of errors is one, where each failure rises to a null that stands, no other one rises there, and its field has one occurrence or
/// is told at the first: then calls with one request, in one context, are answered alike, want of memory aside (section 7.1.2).
pub fn errors_are_one<C, N>()
    ensures lists { ErrorsAreOne }
    ensures firsts { FirstErrorsAreOne }
    ensures answers { ExactErrorsAreOne }
    ensures responses { (S : Service C N) → ResponsesAreOne S }
{}
