//! Laws by which an answer is walked: field by field, and group by group of a mutation (sections 6.2.2, 6.3 and 6.4 of the
//! Specification).

ghost use Rattle.graphql_spec.specs.Errors.{Place};
ghost use Rattle.graphql_spec.specs.ExactAnswers.{FirstsStand, FirstsTellOnce, OrderTellsOnce, PartsTellOnce};
ghost use Rattle.graphql_spec.specs.ExactAnswers.{RunPlacesDiffer, RunsExactAnswer, ThinnedTellsOnce, WalksExactAnswer};
ghost use Rattle.graphql_spec.specs.FirstOccurrences.{FirstsAnswer, FirstsAnswerRuns, FirstsTell};
ghost use Rattle.graphql_spec.specs.GroupLaws.{AllCompleted, FirstCompleted, KeysMerge, LostCompleted, OnceCompleted};
ghost use Rattle.graphql_spec.specs.GroupLaws.{OneMoreCompleted, RunGroupsMerge};
ghost use Rattle.graphql_spec.specs.GroupWalks.{AllKeysWalked, NoKeyWalked, OneMoreKey};
ghost use Rattle.graphql_spec.specs.Mutation.{Mutation};
ghost use Rattle.graphql_spec.specs.MutationLaws.{MayStopAfter, MayStopAt, NoneRan, OneMoreRan, RunAnswers};
ghost use Rattle.graphql_spec.specs.Positions.{Position};
ghost use Rattle.graphql_spec.specs.Resolvers.{World};
ghost use Rattle.graphql_spec.specs.Selections.{Occurrence};
ghost use Rattle.graphql_spec.specs.Shown.{Name};
ghost use Rattle.std.specs.Prelude.{List};

/// A field is resolved once, and the reply completed occurrence by occurrence: what each selects is completed alone, and the values
/// are joined; or it is completed for what all select at once (section 6.4.3).
pub fn completes_by_occurrences<N>()
    ensures first { (tell : Place → Place) (W : World N) → FirstCompleted tell W }
    ensures more { (tell : Place → Place) (W : World N) → OneMoreCompleted tell W }
    ensures lost { (tell : Place → Place) (W : World N) → LostCompleted tell W }
    ensures all { (W : World N) → AllCompleted W }
    ensures once { (tell : Place → Place) (pick : List Position → List Position) (W : World N) → OnceCompleted tell pick W }
    ensures merge { (W : World N) → KeysMerge W }
    ensures requests { RunGroupsMerge N }
{}

/// An object is walked response key by response key, each resolved once: none, and one more, until a null rises or beyond it; what
/// was walked of all keys is the object (section 6.3).
pub fn walks_by_keys<N>()
    ensures none { (W : World N) (here above : Place) (T : Name) (m : N) (os : List Occurrence) (tell : Place → Place)
        (pick : List Position → List Position) → NoKeyWalked W here above T m os tell pick }
    ensures more { (W : World N) (here above : Place) (T : Name) (m : N) (os : List Occurrence) (tell : Place → Place)
        (pick : List Position → List Position) → OneMoreKey W here above T m os tell pick }
    ensures all { (W : World N) → AllKeysWalked W }
{}

/// A mutation's root is walked group by group: none, and one more, until a null rises; what was walked of all answers it (section
/// 6.2.2).
pub fn runs_by_groups<C, N>()
    ensures none { (tell : Place → Place) (pick : List Position → List Position) (M : Mutation C N) (T : Name) → NoneRan tell pick M T }
    ensures more { (tell : Place → Place) (pick : List Position → List Position) (M : Mutation C N) (T : Name) → OneMoreRan tell pick M T }
    ensures answers { (tell : Place → Place) (M : Mutation C N) (T : Name) → RunAnswers tell M T }
{}

/// The contexts that a mutation may leave where it is cut short: before a group, torn by its step, after its step, and after all
/// groups that ran.
pub fn stops_at_groups<C, N>()
    ensures at { (tell : Place → Place) (pick : List Position → List Position) (M : Mutation C N) (T : Name) → MayStopAt tell pick M T }
    ensures after { (tell : Place → Place) (pick : List Position → List Position) (M : Mutation C N) (T : Name) → MayStopAfter tell pick M T }
{}

/// What is listed for the first of a field's occurrences alone is listed, and tells no place twice; what tells a place for each
/// occurrence may be thinned to the first error of each place.
pub fn tells_once<C, N>()
    ensures stand { FirstsStand }
    ensures firsts { FirstsTellOnce }
    ensures places { (M : Mutation C N) (T : Name) → RunPlacesDiffer M T }
    ensures answers { (W : World N) → WalksExactAnswer W }
    ensures runs { (M : Mutation C N) (T : Name) → RunsExactAnswer M T }
    ensures order { OrderTellsOnce }
    ensures parts { PartsTellOnce }
    ensures thinned { ThinnedTellsOnce }
{}

/// What is listed for the first of a field's occurrences alone is an answer to the failures that are told so: each error has the place
/// of the first of its field's occurrences (section 7.1.2).
pub fn tells_firsts<C, N>()
    ensures tell { FirstsTell }
    ensures answers { (W : World N) → FirstsAnswer W }
    ensures runs { (M : Mutation C N) (T : Name) → FirstsAnswerRuns M T }
{}
