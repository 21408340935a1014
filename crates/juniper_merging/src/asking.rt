//! Which pairs of nodes are asked, so that it is known of each node how each two of its fields clash: what two entries of one response key
//! select, and two parts of one node; and those that these pairs are made of. Two nodes that are quiet do not clash.

use crate::asks::Asks;
use crate::graph::Vertex;
use crate::key_index::{clear_entries, empty_lists, list_at, put_entry};
use crate::loud::is_loud_at;
use crate::nodes::{Entry, Node};
use std::alloc::{AllocError, Global};

/// Pairs while they are asked.
#[derive(Drop)]
struct Asking<'g, 'a> {
    /// The fields.
    vertices: &'g [Vertex<'a>],
    /// The nodes.
    nodes: &'g [Node],
    /// Whether each node is loud.
    loud: &'g [bool],
    /// What is asked of each node.
    asks: Vec<Asks>,
    /// The entries of the node that is looked at.
    index: Vec<Vec<Entry>>,
}

/// For each node those before it, and itself, of which it is asked how they clash with it. An error where memory is refused.
pub(crate) fn asked_pairs(
    alloc: Global,
    vertices: &[Vertex<'_>],
    nodes: &[Node],
    loud: &[bool],
) -> Result<Vec<Asks>, AllocError> {
    let count = nodes.len();
    let mut asks = Vec::with_capacity(alloc, count)?;
    for _node in 0..count {
        asks.push(Asks::new(alloc))?;
    }
    let mut asking = Asking {
        vertices,
        nodes,
        loud,
        asks,
        index: empty_lists(alloc, vertices.len())?,
    };
    for before in 0..count {
        asking.ask_of(count - 1 - before)?;
    }
    Ok(asking.asks)
}

impl<'g, 'a> Asking<'g, 'a> {
    /// Asks what a node asks, and what the pairs with those before it do that are asked.
    fn ask_of(&mut self, number: usize) -> Result<(), AllocError> {
        let nodes = self.nodes;
        match nodes.get(number) {
            Some(node) => {
                if self.is_left_out(number) {
                    return Ok(());
                }
                self.ask_within(node)?;
                self.ask_pairs(number, node)?;
                clear_entries(self.vertices, &node.entries, &mut self.index);
                Ok(())
            }
            None => Ok(()),
        }
    }

    /// Whether a node is quiet, and nothing is asked of it.
    fn is_left_out(&self, number: usize) -> bool {
        !is_loud_at(self.loud, number) && self.next_asked(number, 0).is_none()
    }

    /// Asks what each two entries and parts of a node ask; the index has its entries then.
    fn ask_within(&mut self, node: &Node) -> Result<(), AllocError> {
        for entry in &node.entries {
            self.ask_with_entry(entry)?;
            put_entry(self.vertices, entry, &mut self.index)?;
        }
        for place in 0..node.parts.len() {
            for other in 0..place {
                self.ask(node.parts[place], node.parts[other])?;
            }
        }
        Ok(())
    }

    /// Asks what the pairs of a node ask of which it is asked.
    fn ask_pairs(&mut self, number: usize, node: &Node) -> Result<(), AllocError> {
        let mut from = 0;
        for _turn in 0..number.saturating_add(1) {
            match self.next_asked(number, from) {
                Some(far) => {
                    self.ask_between(number, node, number.saturating_sub(far))?;
                    from = far.saturating_add(1);
                }
                None => return Ok(()),
            }
        }
        Ok(())
    }

    /// The next distance that is asked of a node, from this one on.
    fn next_asked(&self, number: usize, from: usize) -> Option<usize> {
        match self.asks.get(number) {
            Some(asks) => asks.next(from),
            None => None,
        }
    }

    /// Asks what a pair asks: of the parts of the one, else of those of the other, else of what entries of one response key select.
    fn ask_between(&mut self, number: usize, node: &Node, other: usize) -> Result<(), AllocError> {
        let nodes = self.nodes;
        for part in &node.parts {
            self.ask(*part, other)?;
        }
        match nodes.get(other) {
            Some(others) => {
                if node.parts.is_empty() {
                    self.ask_with_node(number, others)?;
                }
                Ok(())
            }
            None => Ok(()),
        }
    }

    /// Asks what another node asks with the entries of the index, which are those of a node.
    fn ask_with_node(&mut self, number: usize, others: &Node) -> Result<(), AllocError> {
        for part in &others.parts {
            self.ask(number, *part)?;
        }
        for entry in &others.entries {
            self.ask_with_entry(entry)?;
        }
        Ok(())
    }

    /// Asks for what an entry selects, with what the entries of its response key select that the index has.
    fn ask_with_entry(&mut self, entry: &Entry) -> Result<(), AllocError> {
        let vertices = self.vertices;
        match vertices.get(entry.field) {
            Some(vertex) => {
                match entry.child {
                    Some(child) => self.ask_with_key(vertex, child),
                    None => Ok(()),
                }
            }
            None => Ok(()),
        }
    }

    /// Asks for a node that an entry selects, with those that the entries of its response key select.
    fn ask_with_key(&mut self, vertex: &Vertex<'_>, child: usize) -> Result<(), AllocError> {
        for place in 0..list_at(&self.index, vertex.key).len() {
            match self.selected_at(vertex, place) {
                Some(other) => self.ask(child, other)?,
                None => {}
            }
        }
        Ok(())
    }

    /// The node that the entry at this place of a field's response key selects, where their shapes agree.
    fn selected_at(&self, vertex: &Vertex<'_>, place: usize) -> Option<usize> {
        let entry = list_at(&self.index, vertex.key).get(place)?;
        let other = self.vertices.get(entry.field)?;
        if other.shape == vertex.shape {
            entry.child
        } else {
            None
        }
    }

    /// Asks how two nodes clash, unless both are quiet.
    fn ask(&mut self, first: usize, second: usize) -> Result<(), AllocError> {
        if !is_loud_at(self.loud, first) && !is_loud_at(self.loud, second) {
            return Ok(());
        }
        let (later, earlier) = if first < second {
            (second, first)
        } else {
            (first, second)
        };
        if later < self.asks.len() {
            self.asks[later].ask(later.saturating_sub(earlier))?;
        }
        Ok(())
    }
}
