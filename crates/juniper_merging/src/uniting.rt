//! Sets that are put together, from the last to the first: what the fields of one head of a node select is one node below it, so that each
//! set is a part of few nodes, however often one response key stands in one set (CollectFields, section 6.3.2, for all types at once).

ghost use Rattle.std.specs.Prelude.{◌≡◌, ◌∷◌, ◌⊎◌, IfOk, List, None, OnOk, Option, Some, length, true, ℕ, []};
ghost use Rattle.std.specs.List.{slice_get};
ghost use Rattle.graphql_spec.specs.Laws.{In};
ghost use Rattle.juniper_merging.specs.Questions.{fields_of};
ghost use Rattle.juniper_merging.specs.Sets.{IsTable};
ghost use Rattle.juniper_merging.specs.Tables.{table_of};
ghost use Rattle.juniper_merging.specs.United.{AreEntriesMade, AreMade, AreMadeOf, AreWholesMade, IsBegun, IsChildMade, IsEntryMade, IsJointMade};
ghost use Rattle.juniper_merging.specs.United.{IsNodePut, IsNumberPut, IsSingleMade, IsTaken, IsUniting};
ghost use Rattle.juniper_merging.specs.MergingGraph.{FieldAt};

use crate::graph::{Graph, Vertex};
use crate::heads::{Head, at_most_twice, heads_of, parts_of};
use crate::key_index::{empty_lists, list_at, push_at};
use crate::nodes::{Entry, Node};
use crate::sets::{FieldSet, is_empty};
use std::alloc::{AllocError, Global};

/// A node that was made, with its number.
#[derive(Drop)]
pub(crate) struct United {
    /// Its number, among all that were begun.
    pub(crate) number: usize,
    /// The node; it refers to others by such numbers.
    pub(crate) node: Node,
}

/// Nodes while they are made.
#[derive(Drop)]
pub(crate) struct Uniting {
    /// Where memory comes from.
    alloc: Global,
    /// For each node that waits the sets that are put together in it.
    members: Vec<Option<Vec<usize>>>,
    /// For each node one of a single set: where no two fields of this one conflict, none of the node do.
    judges: Vec<usize>,
    /// For each set the node of it alone, if there is one.
    pub(crate) single: Vec<Option<usize>>,
    /// For each set the judge of a node that it is put into.
    pub(crate) judge_of: Vec<Option<usize>>,
    /// For each set the nodes that wait for it: it is the last of their sets.
    waiting: Vec<Vec<usize>>,
    /// The nodes that were made, each before those that it refers to.
    pub(crate) united: Vec<United>,
}

/// The nodes of a graph. An error where memory is refused.
pub(crate) fn united_sets(alloc: Global, graph: &Graph<'_, '_>) -> Result<Uniting, AllocError>
    ensures { IfOk result (λ u. IsTable graph.now.sets.now → (H : ℕ → List ℕ) × IsUniting (fields_of graph.now) (table_of graph.now.sets.now) H u) }
{
    let count = graph.sets.len();
    let mut uniting = Uniting::new(alloc, count)?;
    for before in 0..count {
        uniting.unite_at(graph, count - 1 - before)?;
    }
    Ok(uniting)
}

impl Uniting {
    /// No node was begun, of so many sets.
    fn new(alloc: Global, count: usize) -> Result<Self, AllocError>
        ensures { IfOk result (λ u. (vs : List FieldAt) (t : List (List ℕ)) (H : ℕ → List ℕ) → IsUniting vs t H u) }
    {
        Ok(Uniting {
            alloc,
            members: Vec::new(alloc),
            judges: Vec::new(alloc),
            single: no_numbers(alloc, count)?,
            judge_of: no_numbers(alloc, count)?,
            waiting: empty_lists(alloc, count)?,
            united: Vec::new(alloc),
        })
    }

    /// Makes the nodes that wait for a set; one of it alone, if it is put into none.
    fn unite_at(&mut self, graph: &Graph<'_, '_>, set: usize) -> Result<(), AllocError>
        ensures { OnOk result (IsTable graph.now.sets.now → AreMade (fields_of graph.now) (table_of graph.now.sets.now) self.old self.new) }
    {
        self.begin_alone(set)?;
        for place in 0..list_at(&self.waiting, set).len() {
            let node = self.waiting_at(set, place);
            self.unite(graph, node)?;
        }
        Ok(())
    }

    /// How many nodes were begun.
    pub(crate) fn begun(&self) -> usize {
        self.judges.len()
    }

    /// Begins a node of a set alone, if it is put into none.
    fn begin_alone(&mut self, set: usize) -> Result<(), AllocError>
        ensures { OnOk result ((vs : List FieldAt) (t : List (List ℕ)) → AreMade vs t self.old self.new) }
    {
        match number_at(&self.judge_of, set) {
            Some(_judge) => Ok(()),
            None => {
                self.single_node(set)?;
                Ok(())
            }
        }
    }

    /// The node that waits for a set at a place; the number of none where there is none.
    fn waiting_at(&self, set: usize, place: usize) -> usize {
        match list_at(&self.waiting, set).get(place) {
            Some(node) => *node,
            None => usize::MAX,
        }
    }

    /// Makes a node, if it waits.
    fn unite(&mut self, graph: &Graph<'_, '_>, node: usize) -> Result<(), AllocError>
        ensures { OnOk result (IsTable graph.now.sets.now → AreMade (fields_of graph.now) (table_of graph.now.sets.now) self.old self.new) }
    {
        match take_members(&mut self.members, node) {
            Some(members) => {
                self.unite_sets(graph, node, &members)?;
                Ok(())
            }
            None => Ok(()),
        }
    }

    /// Makes a node of these sets.
    fn unite_sets(
        &mut self,
        graph: &Graph<'_, '_>,
        node: usize,
        members: &[usize],
    ) -> Result<(), AllocError>
        ensures { OnOk result (IsTable graph.now.sets.now → AreMadeOf (fields_of graph.now) (table_of graph.now.sets.now) self.old self.new node members.now) }
    {
        let heads = heads_of(self.alloc, graph.vertices, graph.sets, members)?;
        let parts = parts_of(self.alloc, graph.sets, members)?;
        let judge = self.judge(node)?;
        let entries = self.entries_of(&heads, judge)?;
        let wholes = self.wholes_of(&parts)?;
        self.put_node(node, judge, entries, wholes)?;
        Ok(())
    }

    /// The judge of a node.
    fn judge(&self, node: usize) -> Result<usize, AllocError>
        ensures { IfOk result (λ j. slice_get self.now.judges.items node ≡ Some j) }
    {
        match self.judges.get(node) {
            Some(judge) => Ok(*judge),
            None => Err(AllocError),
        }
    }

    /// The entries of these heads; begins the nodes that they select.
    fn entries_of(&mut self, heads: &[Head], judge: usize) -> Result<Vec<Entry>, AllocError>
        ensures { IfOk result (λ es. (vs : List FieldAt) (t : List (List ℕ)) → AreEntriesMade vs t self.old self.new heads.now judge es.items) }
    {
        let mut entries = Vec::with_capacity(self.alloc, heads.len())?;
        for place in 0..heads.len() {
            let entry = self.entry_of(&heads[place], judge)?;
            entries.push(entry)?;
        }
        Ok(entries)
    }

    /// The entry of a head.
    fn entry_of(&mut self, head: &Head, judge: usize) -> Result<Entry, AllocError>
        ensures { IfOk result (λ e. (vs : List FieldAt) (t : List (List ℕ)) → IsEntryMade vs t self.old self.new head.now judge e) }
    {
        let child = self.child_of(head, judge)?;
        Ok(Entry {
            field: head.field,
            child,
            is_many: head.is_many,
        })
    }

    /// The node of what a head selects, if it selects anything.
    fn child_of(&mut self, head: &Head, judge: usize) -> Result<Option<usize>, AllocError>
        ensures { IfOk result (λ child. (vs : List FieldAt) (t : List (List ℕ)) → IsChildMade vs t self.old self.new head.now judge child) }
    {
        if head.is_many {
            let child = self.many_child(head, judge)?;
            return Ok(child);
        }
        match single_number(&head.below) {
            Some(set) => {
                let child = self.single_node(set)?;
                Ok(Some(child))
            }
            None => {
                if is_empty(&head.below) {
                    Ok(None)
                } else {
                    Err(AllocError)
                }
            }
        }
    }

    /// The same, where the head stands at several places.
    fn many_child(&mut self, head: &Head, judge: usize) -> Result<Option<usize>, AllocError>
        ensures { IfOk result (λ child. (vs : List FieldAt) (t : List (List ℕ)) → head.now.is_many ≡ true →
            IsChildMade vs t self.old self.new head.now judge child) }
    {
        if is_empty(&head.below) {
            return Ok(None);
        }
        let members = at_most_twice(self.alloc, &head.below)?;
        let child = self.joint_node(members, judge)?;
        Ok(Some(child))
    }

    /// The nodes of these sets, each alone.
    fn wholes_of(&mut self, parts: &[usize]) -> Result<Vec<usize>, AllocError>
        ensures { IfOk result (λ wholes. (vs : List FieldAt) (t : List (List ℕ)) → AreWholesMade vs t self.old self.new parts.now wholes.items) }
    {
        let mut wholes = Vec::with_capacity(self.alloc, parts.len())?;
        for part in parts {
            let whole = self.single_node(*part)?;
            wholes.push(whole)?;
        }
        Ok(wholes)
    }

    /// Puts a node of these entries and parts to those that were made; where it has both, the entries are a node of their own.
    fn put_node(
        &mut self,
        number: usize,
        judge: usize,
        entries: Vec<Entry>,
        mut parts: Vec<usize>,
    ) -> Result<(), AllocError>
        ensures { OnOk result ((vs : List FieldAt) (t : List (List ℕ)) → IsNodePut vs t self.old self.new number judge entries.items parts.items) }
    {
        if entries.is_empty() || parts.is_empty() {
            self.united.push(United {
                number,
                node: Node { entries, parts },
            })?;
            return Ok(());
        }
        let own = self.begin(None, judge)?;
        parts.push(own)?;
        let nothing = Vec::new(self.alloc);
        let whole = Node {
            entries: Vec::new(self.alloc),
            parts,
        };
        self.united.push(United {
            number,
            node: whole,
        })?;
        self.united.push(United {
            number: own,
            node: Node {
                entries,
                parts: nothing,
            },
        })?;
        Ok(())
    }

    /// The node of a set alone.
    fn single_node(&mut self, set: usize) -> Result<usize, AllocError>
        ensures { IfOk result (λ a. (vs : List FieldAt) (t : List (List ℕ)) → IsSingleMade vs t self.old self.new set a) }
    {
        match number_at(&self.single, set) {
            Some(node) => Ok(node),
            None => {
                let node = self.new_single(set)?;
                Ok(node)
            }
        }
    }

    /// The same, where there is none yet.
    fn new_single(&mut self, set: usize) -> Result<usize, AllocError>
        ensures { IfOk result (λ a. (vs : List FieldAt) (t : List (List ℕ)) → IsSingleMade vs t self.old self.new set a) }
    {
        let mut members = Vec::new(self.alloc);
        members.push(set)?;
        let node = self.members.len();
        let begun = self.begin(Some(members), node)?;
        put_number(&mut self.single, set, begun);
        put_number(&mut self.judge_of, set, begun);
        push_at(&mut self.waiting, set, begun)?;
        Ok(begun)
    }

    /// A node of these sets, put together.
    fn joint_node(&mut self, members: Vec<usize>, judge: usize) -> Result<usize, AllocError>
        ensures { IfOk result (λ a. (vs : List FieldAt) (t : List (List ℕ)) → IsJointMade vs t self.old self.new members.items judge a) }
    {
        let last = greatest(&members);
        put_each(&mut self.judge_of, &members, judge);
        let node = self.begin(Some(members), judge)?;
        push_at(&mut self.waiting, last, node)?;
        Ok(node)
    }

    /// Begins a node, of these sets if it waits for them.
    fn begin(&mut self, members: Option<Vec<usize>>, judge: usize) -> Result<usize, AllocError>
        ensures { IfOk result (λ a. (vs : List FieldAt) (t : List (List ℕ)) → IsBegun vs t self.old self.new members judge a) }
    {
        let node = self.members.len();
        self.members.push(members)?;
        self.judges.push(judge)?;
        Ok(node)
    }
}

/// So many times no number.
pub(crate) fn no_numbers(alloc: Global, count: usize) -> Result<Vec<Option<usize>>, AllocError>
    ensures { IfOk result (λ ns. (i : ℕ) (o : Option ℕ) → slice_get ns.items i ≡ Some o → o ≡ None) }
{
    let mut numbers = Vec::with_capacity(alloc, count)?;
    for _place in 0..count {
        numbers.push(None)?;
    }
    Ok(numbers)
}

/// The number at a place, if there is one.
pub(crate) fn number_at(numbers: &[Option<usize>], place: usize) -> Option<usize>
    ensures { (i : ℕ) → result ≡ Some i → slice_get numbers.now place ≡ Some (Some i) }
{
    match numbers.get(place) {
        Some(number) => *number,
        None => None,
    }
}

/// Puts a number at a place, if there is one.
pub(crate) fn put_number(numbers: &mut Vec<Option<usize>>, place: usize, number: usize)
    ensures count { length numbers.new.items ≡ length numbers.old.items }
    ensures put { IsNumberPut numbers.old.items numbers.new.items place number }
{
    if place < numbers.len() {
        numbers[place] = Some(number);
    }
}

/// Puts a number at each of these places.
fn put_each(numbers: &mut Vec<Option<usize>>, places: &[usize], number: usize)
    ensures { (i n : ℕ) → slice_get numbers.new.items i ≡ Some (Some n) → (slice_get numbers.old.items i ≡ Some (Some n)) ⊎ (In i places.now × (n ≡ number)) }
{
    for place in places {
        put_number(numbers, *place, number);
    }
}

/// The only number, if there is one alone.
fn single_number(numbers: &[usize]) -> Option<usize>
    ensures { (i : ℕ) → result ≡ Some i → numbers.now ≡ i ∷ [] }
{
    if numbers.len() == 1 {
        Some(numbers[0])
    } else {
        None
    }
}

/// The greatest of these numbers, or zero.
fn greatest(numbers: &[usize]) -> usize {
    let mut found = 0;
    for number in numbers {
        if *number > found {
            found = *number;
        }
    }
    found
}

/// Takes the sets out for which a node waits.
fn take_members(members: &mut Vec<Option<Vec<usize>>>, node: usize) -> Option<Vec<usize>>
    ensures { IsTaken members.old.items members.new.items node result }
{
    if node < members.len() {
        members[node].take()
    } else {
        None
    }
}
