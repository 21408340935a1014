//! What becomes of an answer that is completed in two steps: without the objects of its nodes, and with them (sections 6.4.3
//! and 6.4.4 of the Specification).

ghost use Rattle.graphql_spec.specs.Errors.{Place};
ghost use Rattle.graphql_spec.specs.Failures.{Failure};
ghost use Rattle.graphql_spec.specs.Resolvers.{World};
ghost use Rattle.graphql_spec.specs.Shown.{Name};
ghost use Rattle.graphql_spec.specs.Values.{Value};
ghost use Rattle.std.specs.Prelude.{List};
ghost use Rattle.graphql_spec.specs.CompletionLaws.{CompletesApart};
ghost use Rattle.graphql_spec.specs.NodeLaws.{GroupByNodes, GroupBySpots, OccurrenceByNodes};
ghost use Rattle.graphql_spec.specs.Walks.{AgreesBelow, FieldsAreShallower, KeysStayApart, NoneWalked, OneMoreWalked, WalkAnswers};

/// A reply whose holes are filled by the objects of its nodes is completed, and what is listed of it and of them meets what
/// fails.
pub fn completes_apart<N>()
    ensures { (tell : Place → Place) (W : World N) (objects : Name → N → Value) (at : Place → Place → Name → N → List Failure)
        (nulls : Place → Name → N → List Place) → CompletesApart tell W objects at nulls }
{}

/// A selection set is walked field by field: an empty one, and one more field, which selects less deep than the set that holds
/// it (section 6.3). Where its fields agree, so does what they select; and what was walked of a request answers it.
pub fn walks_by_fields<N>()
    ensures none { (tell : Place → Place) (W : World N) → NoneWalked tell W }
    ensures more { (tell : Place → Place) (W : World N) → OneMoreWalked tell W }
    ensures keys { KeysStayApart }
    ensures shallower { FieldsAreShallower }
    ensures agree { (W : World N) → AgreesBelow W }
    ensures answers { (tell : Place → Place) (W : World N) → WalkAnswers tell W }
{}

/// A reply is completed for one occurrence by the objects of its nodes, and for all of them at once (section 6.4.3).
pub fn completes_by_nodes<N>()
    ensures occurrence { (W : World N) → OccurrenceByNodes W }
    ensures group { (W : World N) → GroupByNodes W }
    ensures spots { (W : World N) → GroupBySpots W }
{}
