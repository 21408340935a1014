//! Whether fields can be merged, as is seen without a look at what they select.

ghost use Rattle.std.specs.Prelude.{◌≡◌, nat_eq, true, []};
ghost use Rattle.juniper_merging.specs.Conflicts.{over};
ghost use Rattle.juniper_merging.specs.MergingGraph.{can_meet, view_vertex};

use crate::clash::Clash;
use crate::graph::Vertex;

/// Whether the fields' parent types are the same, or one of them is no object type.
#[tactic(auto, unfolding(crate::specs::MergingGraph::can_meet, crate::specs::MergingGraph::view_vertex))]
pub(crate) fn may_meet(x: &Vertex<'_>, y: &Vertex<'_>) -> bool
    ensures { result ≡ can_meet (view_vertex [] x.now) (view_vertex [] y.now) }
{
    !x.on_object || !y.on_object || x.parent == y.parent
}

/// Whether two fields have one type and one call.
pub(crate) fn are_alike(x: &Vertex<'_>, y: &Vertex<'_>) -> bool
    ensures { result ≡ true → (x.now.shape ≡ y.now.shape) × (x.now.call ≡ y.now.call) }
{
    x.shape == y.shape && x.call == y.call
}

/// How two fields of one response key and one shape clash, by how what they select does.
#[tactic(auto, unfolding(crate::specs::Conflicts::over))]
pub(crate) fn over(x: &Vertex<'_>, y: &Vertex<'_>, below: Clash) -> Clash
    ensures { result ≡ over (can_meet (view_vertex [] x.now) (view_vertex [] y.now)) (nat_eq x.now.call y.now.call) below }
{
    over_met(may_meet(x, y), x.call == y.call, below)
}

/// The same, by whether they may meet, and whether their calls are the same.
#[tactic(auto, unfolding(crate::specs::Conflicts::over))]
fn over_met(may_meet: bool, same_call: bool, below: Clash) -> Clash
    ensures { result ≡ over may_meet same_call below }
{
    match below {
        Clash::Shape => Clash::Shape,
        Clash::Merging => {
            if may_meet {
                Clash::Merging
            } else {
                Clash::Nothing
            }
        }
        Clash::Nothing => {
            if !may_meet || same_call {
                Clash::Nothing
            } else {
                Clash::Merging
            }
        }
    }
}
