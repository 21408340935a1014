//! Nodes in the order in which they are answered, each behind those that it refers to, by their places.

ghost use Rattle.std.specs.Prelude.{◌≡◌, IfOk, OnOk, Some, true};
ghost use Rattle.std.specs.List.{slice_get};
ghost use Rattle.juniper_merging.specs.Numbered.{AreEntriesAt, ArePlaced, ArePartsAt, IsChildAt, IsEntryAt, IsNodeAt, IsPutBehind};

use crate::nodes::{Entry, Node};
use crate::uniting::{United, number_at, put_number};
use std::alloc::{AllocError, Global};

/// Nodes by their places.
#[derive(Drop)]
pub(crate) struct Numbered {
    /// Where memory comes from.
    alloc: Global,
    /// The nodes; each refers to those before it, by their places.
    pub(crate) nodes: Vec<Node>,
    /// The number under which each was begun.
    pub(crate) numbers: Vec<usize>,
    /// For each number the place of its node.
    places: Vec<Option<usize>>,
}

/// These nodes by their places, the last first. An error where memory is refused, or where one refers to none behind it.
pub(crate) fn placed_nodes(
    alloc: Global,
    united: &[United],
    places: Vec<Option<usize>>,
) -> Result<Numbered, AllocError>
    ensures { IfOk result (λ r. ArePlaced united.now r.numbers.items r.nodes.items) }
{
    let mut placed = Numbered {
        alloc,
        nodes: Vec::new(alloc),
        numbers: Vec::new(alloc),
        places,
    };
    for before in 0..united.len() {
        placed.put(&united[united.len() - 1 - before])?;
    }
    Ok(placed)
}

impl Numbered {
    /// Puts a node behind the others.
    fn put(&mut self, united: &United) -> Result<(), AllocError>
        ensures { OnOk result (IsPutBehind self.old.numbers.items self.new.numbers.items self.old.nodes.items self.new.nodes.items united.now) }
    {
        let node = self.node_at(&united.node)?;
        let place = self.nodes.len();
        put_number(&mut self.places, united.number, place);
        self.numbers.push(united.number)?;
        self.nodes.push(node)?;
        Ok(())
    }

    /// A node that refers to places.
    fn node_at(&self, node: &Node) -> Result<Node, AllocError>
        ensures { IfOk result (λ n. IsNodeAt self.now.numbers.items node.now n) }
    {
        let entries = self.entries_at(&node.entries)?;
        let parts = self.parts_at(&node.parts)?;
        Ok(Node { entries, parts })
    }

    /// Entries that refer to places.
    fn entries_at(&self, entries: &[Entry]) -> Result<Vec<Entry>, AllocError>
        ensures { IfOk result (λ es. AreEntriesAt self.now.numbers.items entries.now es.items) }
    {
        let mut found = Vec::with_capacity(self.alloc, entries.len())?;
        for entry in entries {
            let placed = self.entry_at(entry)?;
            found.push(placed)?;
        }
        Ok(found)
    }

    /// An entry that refers to a place.
    fn entry_at(&self, entry: &Entry) -> Result<Entry, AllocError>
        ensures { IfOk result (λ e. IsEntryAt self.now.numbers.items entry.now e) }
    {
        let child = self.child_at(entry.child)?;
        Ok(Entry {
            field: entry.field,
            child,
            is_many: entry.is_many,
        })
    }

    /// The place of a node, if there is one.
    fn child_at(&self, child: Option<usize>) -> Result<Option<usize>, AllocError>
        ensures { IfOk result (λ o. IsChildAt self.now.numbers.items child o) }
    {
        match child {
            Some(number) => {
                let place = self.place_of(number)?;
                Ok(Some(place))
            }
            None => Ok(None),
        }
    }

    /// The places of nodes.
    fn parts_at(&self, parts: &[usize]) -> Result<Vec<usize>, AllocError>
        ensures { IfOk result (λ ps. ArePartsAt self.now.numbers.items parts.now ps.items) }
    {
        let mut found = Vec::with_capacity(self.alloc, parts.len())?;
        for part in parts {
            let place = self.place_of(*part)?;
            found.push(place)?;
        }
        Ok(found)
    }

    /// The place of the node of this number.
    pub(crate) fn place_of(&self, number: usize) -> Result<usize, AllocError>
        ensures { IfOk result (λ p. slice_get self.now.numbers.items p ≡ Some number) }
    {
        match number_at(&self.places, number) {
            Some(place) => {
                if self.is_at(place, number) {
                    Ok(place)
                } else {
                    Err(AllocError)
                }
            }
            None => Err(AllocError),
        }
    }

    /// Whether the node at a place has this number.
    fn is_at(&self, place: usize, number: usize) -> bool
        ensures { result ≡ true → slice_get self.now.numbers.items place ≡ Some number }
    {
        match self.numbers.get(place) {
            Some(found) => *found == number,
            None => false,
        }
    }
}
