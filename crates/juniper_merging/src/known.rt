//! What is known of sets of fields.

ghost use Rattle.std.specs.Prelude.{◌≡◌, IfOk, List, Some, false, true, ℕ};
ghost use Rattle.std.specs.List.{slice_get};
ghost use Rattle.graphql_spec.specs.Laws.{In};
ghost use Rattle.juniper_merging.specs.MergingGraph.{FieldAt, set_merges_at};
ghost use Rattle.juniper_merging.specs.Nodes.{Bad, Good, Says};
ghost use Rattle.juniper_merging.specs.Numbered.{AreTold};
ghost use Rattle.juniper_merging.specs.Questions.{IsJudgedSet, IsSoundIn, fields_of};
ghost use Rattle.juniper_merging.specs.Sets.{IsTable};
ghost use Rattle.juniper_merging.specs.Tables.{set_at, table_of};
ghost use Rattle.juniper_merging.specs.United.{IsUniting};

use crate::clash::{Clash, is_clash};
use crate::conflicts::clashes_within;
use crate::graph::Graph;
use crate::numbered::{Numbered, placed_nodes};
use crate::uniting::{Uniting, no_numbers, number_at, united_sets};
use std::alloc::{AllocError, Global};

/// What is known of a set.
#[derive(Clone, Copy)]
pub(crate) struct Judged {
    /// Whether each two fields of a set that it is put into can be merged; then its own can.
    merges: bool,
    /// Whether two of its own fields cannot.
    differs: bool,
}

/// For each set of a graph what stands against the merging of its fields, for good: as long as no field and no set of the graph changes.
#[derive(Drop)]
pub struct Known {
    judged: Vec<Judged>,
}

impl Known {
    /// What is known of a graph. An error where memory is refused, or where a set or a field refers to a set that was not made before it.
    pub fn new(alloc: Global, graph: &Graph<'_, '_>) -> Result<Self, AllocError>
        ensures { IfOk result (λ known. IsTable graph.now.sets.now → IsSoundIn graph.now known) }
    {
        let uniting = united_sets(alloc, graph)?;
        let places = no_numbers(alloc, uniting.begun())?;
        let placed = placed_nodes(alloc, &uniting.united, places)?;
        let within = clashes_within(alloc, graph.vertices, &placed.nodes)?;
        let judged = judged_sets(alloc, graph.sets.len(), &uniting, &placed, &within)?;
        Ok(Known { judged })
    }
}

/// What is known of each of so many sets.
fn judged_sets(
    alloc: Global,
    count: usize,
    uniting: &Uniting,
    placed: &Numbered,
    within: &[Clash],
) -> Result<Vec<Judged>, AllocError>
    ensures { IfOk result (λ js. (vs : List FieldAt) (t : List (List ℕ)) (H : ℕ → List ℕ) → IsUniting vs t H uniting.now →
        AreTold vs H placed.now.numbers.items within.now → (set : ℕ) (j : Judged) → slice_get js.items set ≡ Some j → IsJudgedSet vs (set_at t set) j) }
{
    let mut judged = Vec::with_capacity(alloc, count)?;
    for set in 0..count {
        judged.push(judged_set(set, uniting, placed, within)?)?;
    }
    Ok(judged)
}

/// What is known of a set.
fn judged_set(
    set: usize,
    uniting: &Uniting,
    placed: &Numbered,
    within: &[Clash],
) -> Result<Judged, AllocError>
    ensures { IfOk result (λ j. (vs : List FieldAt) (t : List (List ℕ)) (H : ℕ → List ℕ) → IsUniting vs t H uniting.now →
        AreTold vs H placed.now.numbers.items within.now → IsJudgedSet vs (set_at t set) j) }
{
    let merges = judge_merges(set, uniting, placed, within)?;
    let differs = own_differs(set, uniting, placed, within)?;
    Ok(Judged { merges, differs })
}

/// Whether the judge of a set merges.
fn judge_merges(
    set: usize,
    uniting: &Uniting,
    placed: &Numbered,
    within: &[Clash],
) -> Result<bool, AllocError>
    ensures { IfOk result (λ b. (vs : List FieldAt) (t : List (List ℕ)) (H : ℕ → List ℕ) → IsUniting vs t H uniting.now →
        AreTold vs H placed.now.numbers.items within.now → b ≡ true → Good vs true (set_at t set)) }
{
    let judge = judge_of(set, uniting)?;
    let clash = clash_of(judge, placed, within)?;
    Ok(!is_clash(clash))
}

/// The node of a set alone, or the judge of one that it is put into.
fn judge_of(set: usize, uniting: &Uniting) -> Result<usize, AllocError>
    ensures { IfOk result (λ judge. (vs : List FieldAt) (t : List (List ℕ)) (H : ℕ → List ℕ) → IsUniting vs t H uniting.now →
        Good vs true (H judge) → Good vs true (set_at t set)) }
{
    match number_at(&uniting.single, set) {
        Some(node) => Ok(node),
        None => match number_at(&uniting.judge_of, set) {
            Some(judge) => Ok(judge),
            None => Err(AllocError),
        },
    }
}

/// Whether two fields of a set that is a node alone cannot be merged.
fn own_differs(
    set: usize,
    uniting: &Uniting,
    placed: &Numbered,
    within: &[Clash],
) -> Result<bool, AllocError>
    ensures { IfOk result (λ b. (vs : List FieldAt) (t : List (List ℕ)) (H : ℕ → List ℕ) → IsUniting vs t H uniting.now →
        AreTold vs H placed.now.numbers.items within.now → b ≡ true → Bad vs true (set_at t set)) }
{
    match number_at(&uniting.single, set) {
        Some(node) => {
            let clash = clash_of(node, placed, within)?;
            Ok(is_clash(clash))
        }
        None => Ok(false),
    }
}

/// How each two fields of a node clash.
fn clash_of(number: usize, placed: &Numbered, within: &[Clash]) -> Result<Clash, AllocError>
    ensures { IfOk result (λ c. (vs : List FieldAt) (H : ℕ → List ℕ) → AreTold vs H placed.now.numbers.items within.now → Says vs (H number) c) }
{
    let place = placed.place_of(number)?;
    match within.get(place) {
        Some(clash) => Ok(*clash),
        None => Err(AllocError),
    }
}

/// Whether in each of the sets each two fields with one response key can be merged (FieldsInSetCanMerge, section 5.3.2). An error where one of
/// them is put into a set that is none of them and cannot be merged, or where a number has no set.
pub fn sets_merge(graph: &Graph<'_, '_>, sets: &[usize], known: &Known) -> Result<bool, AllocError>
    ensures merges { IfOk result (λ b. IsTable graph.now.sets.now → IsSoundIn graph.now known.now → b ≡ true → (set : ℕ) → In set sets.now → (n : ℕ) →
        set_merges_at (fields_of graph.now) n (set_at (table_of graph.now.sets.now) set) ≡ true) }
    ensures differs { IfOk result (λ b. IsTable graph.now.sets.now → IsSoundIn graph.now known.now → b ≡ false → (set : ℕ) × In set sets.now
        × ((n : ℕ) × (set_merges_at (fields_of graph.now) n (set_at (table_of graph.now.sets.now) set) ≡ false))) }
{
    let mut merge = true;
    for set in sets {
        let judged = known.at(*set)?;
        if judged.differs {
            return Ok(false);
        }
        merge = merge && judged.merges;
    }
    if merge { Ok(true) } else { Err(AllocError) }
}

impl Known {
    /// What is known of a set.
    fn at(&self, set: usize) -> Result<Judged, AllocError>
        ensures { IfOk result (λ j. slice_get self.now.judged.items set ≡ Some j) }
    {
        match self.judged.get(set) {
            Some(judged) => Ok(*judged),
            None => Err(AllocError),
        }
    }
}
