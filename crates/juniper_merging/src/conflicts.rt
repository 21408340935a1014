//! How nodes clash, one after the other, each behind those that it is made of, and with those before it of which that is asked (section
//! 5.3.2).

ghost use Rattle.std.specs.Prelude.{◌≡◌, ◌++◌, ◌+◌, ◌-◌, ◌⊎◌, ◌≤◌, IfOk, List, None, OnOk, Option, Some, false, length, true, ℕ, []};
ghost use Rattle.std.specs.List.{slice_get};
ghost use Rattle.graphql_spec.specs.Laws.{In};
ghost use Rattle.juniper_merging.specs.Conflicts.{AreAllPaired, AreAnswered, AreKnown, IsIndexOf, IsPutAt, asked_at, clash_at, found_in};
ghost use Rattle.juniper_merging.specs.MergingGraph.{FieldAt, view_vertex};
ghost use Rattle.juniper_merging.specs.Nodes.{AreEntries, AreNodes, ArePaired, IsEntry, IsNode, Says, SaysBoth, flat, list_of};
ghost use Rattle.juniper_merging.specs.Questions.{seen};
ghost use Rattle.juniper_merging.specs.declared.clash.Clash.{Clash};
ghost use Rattle.juniper_merging.specs.declared.clash.Clash.TheVariants as clash;
ghost use Rattle.juniper_merging.specs.declared.nodes.Entry.{Entry};

use crate::asking::asked_pairs;
use crate::asks::{Asks, forget_marks};
use crate::clash::{Clash, worse};
use crate::graph::Vertex;
use crate::key_index::{clear_entries, empty_lists, list_at, put_entry};
use crate::loud::{is_loud, is_loud_at, loud_nodes};
use crate::nodes::{Entry, Node};
use crate::pairs::over;
use crate::sets::is_empty;
use std::alloc::{AllocError, Global};

/// What is known of nodes, and of the pairs of them that are asked.
#[derive(Drop)]
pub(crate) struct Conflicts {
    /// Whether a node holds a field that is unlike the first of its response key, at any depth.
    loud: Vec<bool>,
    /// For each node of which of those before it, and of itself, it is asked how they clash with it.
    asks: Vec<Asks>,
    /// For each node that was looked at what is known of these, place by place.
    known: Vec<Vec<Option<Clash>>>,
    /// How each two fields of a node clash.
    within: Vec<Clash>,
}

/// How each two fields of each node clash. An error where memory is refused, or where a node refers to one that is not before it.
pub(crate) fn clashes_within(
    alloc: Global,
    vertices: &[Vertex<'_>],
    nodes: &[Node],
) -> Result<Vec<Clash>, AllocError>
    ensures { IfOk result (λ within. (t : List (List ℕ)) (H : ℕ → List ℕ) → AreNodes (seen t vertices.now) H nodes.now →
        (a : ℕ) (c : Clash) → slice_get within.items a ≡ Some c → Says (seen t vertices.now) (H a) c) }
{
    let loud = loud_nodes(alloc, vertices, nodes)?;
    let asks = asked_pairs(alloc, vertices, nodes, &loud)?;
    let mut conflicts = Conflicts {
        loud,
        asks,
        known: Vec::new(alloc),
        within: Vec::new(alloc),
    };
    let mut index = empty_lists(alloc, vertices.len())?;
    for number in 0..nodes.len() {
        conflicts.answer_node(alloc, vertices, nodes, number, &nodes[number], &mut index)?;
    }
    Ok(conflicts.within)
}

impl Conflicts {
    /// Answers what is asked of a node, where those before it were looked at.
    fn answer_node(
        &mut self,
        alloc: Global,
        vertices: &[Vertex<'_>],
        nodes: &[Node],
        number: usize,
        node: &Node,
        index: &mut Vec<Vec<Entry>>,
    ) -> Result<(), AllocError>
        ensures { OnOk result ((t : List (List ℕ)) (H : ℕ → List ℕ) → AreNodes (seen t vertices.now) H nodes.now → slice_get nodes.now number ≡ Some node.now
            → AreAnswered (seen t vertices.now) H self.old index.old.items number → AreAnswered (seen t vertices.now) H self.new index.new.items (number + 1)) }
    {
        let within = self.clash_within(vertices, node, index)?;
        self.within.push(within)?;
        self.answer_pairs(alloc, vertices, nodes, number, node, index)?;
        clear_entries(vertices, &node.entries, index);
        Ok(())
    }

    /// How each two fields of a node clash; the index has its entries then.
    fn clash_within(
        &self,
        vertices: &[Vertex<'_>],
        node: &Node,
        index: &mut Vec<Vec<Entry>>,
    ) -> Result<Clash, AllocError>
        ensures { IfOk result (λ c. (t : List (List ℕ)) (H : ℕ → List ℕ) (l : List ℕ) → AreKnown (seen t vertices.now) H self.now
            → IsNode (seen t vertices.now) H node.now l → IsIndexOf (seen t vertices.now) index.old.items []
            → IsIndexOf (seen t vertices.now) index.new.items node.now.entries.items × Says (seen t vertices.now) l c) }
    {
        if is_empty(&node.parts) {
            let clash = self.entries_within(vertices, &node.entries, index)?;
            return Ok(clash);
        }
        let clash = self.parts_within(&node.parts)?;
        Ok(clash)
    }

    /// How each two of the fields of these entries clash; the index has the entries then.
    fn entries_within(
        &self,
        vertices: &[Vertex<'_>],
        entries: &[Entry],
        index: &mut Vec<Vec<Entry>>,
    ) -> Result<Clash, AllocError>
        ensures { IfOk result (λ c. (t : List (List ℕ)) (H : ℕ → List ℕ) (fields : List ℕ) → AreKnown (seen t vertices.now) H self.now
            → AreEntries (seen t vertices.now) H fields entries.now → IsIndexOf (seen t vertices.now) index.old.items []
            → IsIndexOf (seen t vertices.now) index.new.items entries.now × Says (seen t vertices.now) fields c) }
    {
        let mut found = Clash::Nothing;
        for entry in entries {
            let own = self.within_entry(entry)?;
            let clash = self.with_entry(vertices, entry, index)?;
            found = worse(found, worse(own, clash));
            put_entry(vertices, entry, index)?;
        }
        Ok(found)
    }

    /// How what an entry selects clashes within, if there are several places of it.
    fn within_entry(&self, entry: &Entry) -> Result<Clash, AllocError>
        ensures many { IfOk result (λ c. (vs : List FieldAt) (H : ℕ → List ℕ) → AreKnown vs H self.now → entry.now.is_many ≡ true
            → Says vs (list_of H entry.now.child) c) }
        ensures lone { IfOk result (λ c. entry.now.is_many ≡ false → c ≡ clash.Nothing) }
    {
        if !entry.is_many {
            return Ok(Clash::Nothing);
        }
        let clash = self.below(entry.child)?;
        Ok(clash)
    }

    /// How what is selected clashes within.
    fn below(&self, child: Option<usize>) -> Result<Clash, AllocError>
        ensures { IfOk result (λ c. (vs : List FieldAt) (H : ℕ → List ℕ) → AreKnown vs H self.now → Says vs (list_of H child) c) }
    {
        match child {
            Some(number) => {
                let clash = self.within_node(number)?;
                Ok(clash)
            }
            None => Ok(Clash::Nothing),
        }
    }

    /// How the fields of an entry clash with those of the entries that the index has.
    fn with_entry(
        &self,
        vertices: &[Vertex<'_>],
        entry: &Entry,
        index: &[Vec<Entry>],
    ) -> Result<Clash, AllocError>
        ensures { IfOk result (λ c. (t : List (List ℕ)) (H : ℕ → List ℕ) (F G : List ℕ) (es : List Entry) → AreKnown (seen t vertices.now) H self.now
            → IsIndexOf (seen t vertices.now) index.now es → ((e : Entry) → In e es → IsEntry (seen t vertices.now) H F e)
            → (own : IsEntry (seen t vertices.now) H G entry.now) → AreAllPaired (seen t vertices.now) F G es own.head c) }
    {
        match vertices.get(entry.field) {
            Some(vertex) => {
                let clash = self.with_each(vertices, entry, list_at(index, vertex.key))?;
                Ok(clash)
            }
            None => Ok(Clash::Nothing),
        }
    }

    /// How the fields of an entry clash with those of each of these.
    fn with_each(
        &self,
        vertices: &[Vertex<'_>],
        entry: &Entry,
        others: &[Entry],
    ) -> Result<Clash, AllocError>
        ensures { IfOk result (λ c. (t : List (List ℕ)) (H : ℕ → List ℕ) (F G : List ℕ) → AreKnown (seen t vertices.now) H self.now
            → ((e : Entry) → In e others.now → IsEntry (seen t vertices.now) H F e)
            → (own : IsEntry (seen t vertices.now) H G entry.now) → AreAllPaired (seen t vertices.now) F G others.now own.head c) }
    {
        let mut found = Clash::Nothing;
        for other in others {
            let clash = self.pair(vertices, other, entry)?;
            found = worse(found, clash);
        }
        Ok(found)
    }

    /// How the fields of two entries clash, if they have one response key.
    fn pair(
        &self,
        vertices: &[Vertex<'_>],
        first: &Entry,
        second: &Entry,
    ) -> Result<Clash, AllocError>
        ensures { IfOk result (λ c. (t : List (List ℕ)) (H : ℕ → List ℕ) (F G : List ℕ) → AreKnown (seen t vertices.now) H self.now
            → (one : IsEntry (seen t vertices.now) H F first.now) → (other : IsEntry (seen t vertices.now) H G second.now)
            → ArePaired (seen t vertices.now) F G one.head other.head c) }
    {
        if !is_loud(vertices, &self.loud, first) && !is_loud(vertices, &self.loud, second) {
            return Ok(Clash::Nothing);
        }
        match (vertices.get(first.field), vertices.get(second.field)) {
            (Some(x), Some(y)) => {
                let clash = self.loud_pair(x, y, first, second)?;
                Ok(clash)
            }
            (Some(_), None) => Ok(Clash::Nothing),
            (None, _) => Ok(Clash::Nothing),
        }
    }

    /// The same, where one of them may be loud, and these are fields of them.
    fn loud_pair(
        &self,
        x: &Vertex<'_>,
        y: &Vertex<'_>,
        first: &Entry,
        second: &Entry,
    ) -> Result<Clash, AllocError>
        ensures { IfOk result (λ c. (vs : List FieldAt) (t : List (List ℕ)) (H : ℕ → List ℕ) (F G : List ℕ) → AreKnown vs H self.now
            → (one : IsEntry vs H F first.now) → (other : IsEntry vs H G second.now) → one.head ≡ view_vertex t x.now → other.head ≡ view_vertex t y.now
            → ArePaired vs F G one.head other.head c) }
    {
        if x.key != y.key {
            return Ok(Clash::Nothing);
        }
        if x.shape != y.shape {
            return Ok(Clash::Shape);
        }
        let below = self.below_both(first.child, second.child)?;
        Ok(over(x, y, below))
    }

    /// How what two entries select clashes, all together.
    fn below_both(&self, first: Option<usize>, second: Option<usize>) -> Result<Clash, AllocError>
        ensures { IfOk result (λ c. (vs : List FieldAt) (H : ℕ → List ℕ) → AreKnown vs H self.now → Says vs (list_of H first ++ list_of H second) c) }
    {
        let own = self.below(first)?;
        let other = self.below(second)?;
        let across = self.across(first, second)?;
        Ok(worse(own, worse(other, across)))
    }

    /// How what the one selects clashes with what the other does.
    fn across(&self, first: Option<usize>, second: Option<usize>) -> Result<Clash, AllocError>
        ensures { IfOk result (λ c. (vs : List FieldAt) (H : ℕ → List ℕ) → AreKnown vs H self.now → SaysBoth vs (list_of H first) (list_of H second) c) }
    {
        match (first, second) {
            (Some(a), Some(b)) => {
                let clash = self.at(a, b)?;
                Ok(clash)
            }
            (Some(_), None) => Ok(Clash::Nothing),
            (None, _) => Ok(Clash::Nothing),
        }
    }

    /// How each two fields of these nodes clash, all together.
    fn parts_within(&self, parts: &[usize]) -> Result<Clash, AllocError>
        ensures { IfOk result (λ c. (vs : List FieldAt) (H : ℕ → List ℕ) → AreKnown vs H self.now → Says vs (flat H parts.now) c) }
    {
        let mut found = Clash::Nothing;
        for place in 0..parts.len() {
            let inside = self.within_node(parts[place])?;
            let across = self.with_parts(&parts[..place], parts[place])?;
            found = worse(found, worse(inside, across));
        }
        Ok(found)
    }

    /// How the fields of these nodes clash with those of another, each with each.
    fn with_parts(&self, parts: &[usize], other: usize) -> Result<Clash, AllocError>
        ensures { IfOk result (λ c. (vs : List FieldAt) (H : ℕ → List ℕ) → AreKnown vs H self.now → SaysBoth vs (flat H parts.now) (H other) c) }
    {
        let mut found = Clash::Nothing;
        for part in parts {
            let clash = self.at(*part, other)?;
            found = worse(found, clash);
        }
        Ok(found)
    }

    /// Answers how a node clashes with those of which it is asked; the index has its entries.
    fn answer_pairs(
        &mut self,
        alloc: Global,
        vertices: &[Vertex<'_>],
        nodes: &[Node],
        number: usize,
        node: &Node,
        index: &[Vec<Entry>],
    ) -> Result<(), AllocError>
        ensures known { OnOk result ((t : List (List ℕ)) (H : ℕ → List ℕ) → AreNodes (seen t vertices.now) H nodes.now
            → slice_get nodes.now number ≡ Some node.now → IsIndexOf (seen t vertices.now) index.now node.now.entries.items
            → AreKnown (seen t vertices.now) H self.old → AreKnown (seen t vertices.now) H self.new) }
        ensures within { OnOk result (self.new.within ≡ self.old.within) }
    {
        let places = self.places_of(number);
        self.known.push(nothing_known(alloc, places)?)?;
        for before in 0..places {
            self.answer_pair(vertices, nodes, number, node, index, places - 1 - before)?;
        }
        forget_marks(alloc, &mut self.asks, number);
        Ok(())
    }

    /// Answers the pair at a place.
    fn answer_pair(
        &mut self,
        vertices: &[Vertex<'_>],
        nodes: &[Node],
        number: usize,
        node: &Node,
        index: &[Vec<Entry>],
        place: usize,
    ) -> Result<(), AllocError>
        ensures known { OnOk result ((t : List (List ℕ)) (H : ℕ → List ℕ) → AreNodes (seen t vertices.now) H nodes.now
            → slice_get nodes.now number ≡ Some node.now → IsIndexOf (seen t vertices.now) index.now node.now.entries.items
            → AreKnown (seen t vertices.now) H self.old → AreKnown (seen t vertices.now) H self.new) }
        ensures within { OnOk result (self.new.within ≡ self.old.within) }
    {
        match self.distance_at(number, place) {
            Some(far) => {
                let other = number.saturating_sub(far);
                let clash = self.clash_between(vertices, nodes, number, node, index, other)?;
                put_known(&mut self.known, number, place, clash);
                Ok(())
            }
            None => Ok(()),
        }
    }

    /// How the fields of a node clash with those of another, each with each.
    fn clash_between(
        &self,
        vertices: &[Vertex<'_>],
        nodes: &[Node],
        number: usize,
        node: &Node,
        index: &[Vec<Entry>],
        other: usize,
    ) -> Result<Clash, AllocError>
        ensures { IfOk result (λ c. (t : List (List ℕ)) (H : ℕ → List ℕ) → AreNodes (seen t vertices.now) H nodes.now
            → slice_get nodes.now number ≡ Some node.now → IsIndexOf (seen t vertices.now) index.now node.now.entries.items
            → AreKnown (seen t vertices.now) H self.now → SaysBoth (seen t vertices.now) (H number) (H other) c) }
    {
        if !is_empty(&node.parts) {
            let clash = self.with_parts(&node.parts, other)?;
            return Ok(clash);
        }
        match nodes.get(other) {
            Some(others) => {
                let clash = self.with_node(vertices, number, node, index, others)?;
                Ok(clash)
            }
            None => Err(AllocError),
        }
    }

    /// How the fields of a node that has entries, which the index has, clash with those of another, each with each.
    fn with_node(
        &self,
        vertices: &[Vertex<'_>],
        number: usize,
        node: &Node,
        index: &[Vec<Entry>],
        others: &Node,
    ) -> Result<Clash, AllocError>
        ensures { IfOk result (λ c. (t : List (List ℕ)) (H : ℕ → List ℕ) (l : List ℕ) → node.now.parts.items ≡ []
            → IsNode (seen t vertices.now) H node.now (H number) → IsNode (seen t vertices.now) H others.now l
            → IsIndexOf (seen t vertices.now) index.now node.now.entries.items
            → AreKnown (seen t vertices.now) H self.now → SaysBoth (seen t vertices.now) (H number) l c) }
    {
        if is_empty(&others.parts) {
            let clash = self.with_entries(vertices, &node.entries, index, &others.entries)?;
            return Ok(clash);
        }
        let clash = self.with_parts(&others.parts, number)?;
        Ok(clash)
    }

    /// How the fields of the entries of the index, which are these, clash with those of others, each with each.
    fn with_entries(
        &self,
        vertices: &[Vertex<'_>],
        entries: &[Entry],
        index: &[Vec<Entry>],
        others: &[Entry],
    ) -> Result<Clash, AllocError>
        ensures { IfOk result (λ c. (t : List (List ℕ)) (H : ℕ → List ℕ) (F G : List ℕ) → AreKnown (seen t vertices.now) H self.now
            → IsIndexOf (seen t vertices.now) index.now entries.now → AreEntries (seen t vertices.now) H F entries.now
            → AreEntries (seen t vertices.now) H G others.now → SaysBoth (seen t vertices.now) F G c) }
    {
        let mut found = Clash::Nothing;
        for other in others {
            let clash = self.with_entry(vertices, other, index)?;
            found = worse(found, clash);
        }
        Ok(found)
    }

    /// How each two fields of a node that was looked at clash.
    fn within_node(&self, number: usize) -> Result<Clash, AllocError>
        ensures { IfOk result (λ c. (vs : List FieldAt) (H : ℕ → List ℕ) → AreKnown vs H self.now → Says vs (H number) c) }
    {
        match self.within.get(number) {
            Some(clash) => Ok(*clash),
            None => Err(AllocError),
        }
    }

    /// How the fields of two nodes clash, each of the one with each of the other, if that is known.
    fn at(&self, a: usize, b: usize) -> Result<Clash, AllocError>
        ensures { IfOk result (λ c. (vs : List FieldAt) (H : ℕ → List ℕ) → AreKnown vs H self.now → SaysBoth vs (H a) (H b) c) }
    {
        if a < b {
            let clash = self.at_later(b, a)?;
            Ok(clash)
        } else {
            let clash = self.at_later(a, b)?;
            Ok(clash)
        }
    }

    /// The same, where the first does not stand before the second.
    fn at_later(&self, later: usize, earlier: usize) -> Result<Clash, AllocError>
        ensures { IfOk result (λ c. (vs : List FieldAt) (H : ℕ → List ℕ) → AreKnown vs H self.now → earlier ≤ later → SaysBoth vs (H later) (H earlier) c) }
    {
        if !is_loud_at(&self.loud, later) && !is_loud_at(&self.loud, earlier) {
            return Ok(Clash::Nothing);
        }
        match self.known_of(later, later.saturating_sub(earlier)) {
            Some(clash) => Ok(clash),
            None => Err(AllocError),
        }
    }

    /// What is known of a node and the one that stands so far before it.
    fn known_of(&self, number: usize, far: usize) -> Option<Clash>
        ensures { (c : Clash) → result ≡ Some c →
            (p : ℕ) × (asked_at self.now.asks.items number p ≡ Some far) × (clash_at self.now.known.items number p ≡ Some c) }
    {
        match self.place_of(number, far) {
            Some(place) => known_at(&self.known, number, place),
            None => None,
        }
    }

    /// The place of a distance that is asked of a node.
    fn place_of(&self, number: usize, far: usize) -> Option<usize>
        ensures { (p : ℕ) → result ≡ Some p → asked_at self.now.asks.items number p ≡ Some far }
    {
        match self.asks.get(number) {
            Some(asks) => asks.place_of(far),
            None => None,
        }
    }

    /// The distance at a place of those that are asked of a node.
    fn distance_at(&self, number: usize, place: usize) -> Option<usize>
        ensures { (far : ℕ) → result ≡ Some far → asked_at self.now.asks.items number place ≡ Some far }
    {
        match self.asks.get(number) {
            Some(asks) => asks.distance_at(place),
            None => None,
        }
    }

    /// How many places of distances a node has.
    fn places_of(&self, number: usize) -> usize {
        match self.asks.get(number) {
            Some(asks) => asks.places(),
            None => 0,
        }
    }
}

/// Nothing is known at so many places. An error where memory is refused.
fn nothing_known(alloc: Global, places: usize) -> Result<Vec<Option<Clash>>, AllocError>
    ensures { IfOk result (λ row. (p : ℕ) (o : Option Clash) → slice_get row.items p ≡ Some o → o ≡ None) }
{
    let mut row = Vec::with_capacity(alloc, places)?;
    for _place in 0..places {
        row.push(None)?;
    }
    Ok(row)
}

/// What is known of a node at a place.
fn known_at(known: &[Vec<Option<Clash>>], number: usize, place: usize) -> Option<Clash>
    ensures { result ≡ clash_at known.now number place }
{
    match known.get(number) {
        Some(row) => clash_in(row, place),
        None => None,
    }
}

/// What a row has at a place.
fn clash_in(row: &[Option<Clash>], place: usize) -> Option<Clash>
    ensures { result ≡ found_in row.now place }
{
    match row.get(place) {
        Some(clash) => *clash,
        None => None,
    }
}

/// Puts what is known of a node at a place, if it has that place.
fn put_known(known: &mut Vec<Vec<Option<Clash>>>, number: usize, place: usize, clash: Clash)
    ensures { IsPutAt known.old.items known.new.items number place clash }
{
    if number < known.len() {
        put_at(&mut known[number], place, clash);
    }
}

/// Puts what is known at a place, if there is one.
fn put_at(row: &mut Vec<Option<Clash>>, place: usize, clash: Clash)
    ensures { (p : ℕ) (c : Clash) → found_in row.new.items p ≡ Some c → (found_in row.old.items p ≡ Some c) ⊎ ((p ≡ place) × (c ≡ clash)) }
{
    if place < row.len() {
        row[place] = Some(clash);
    }
}
