//! The entries of a node by their response keys; and lists at numbers.

ghost use Rattle.std.specs.Prelude.{◌≡◌, ◌++◌, ◌∷◌, IfOk, List, OnOk, cond, nat_eq, ℕ, []};
ghost use Rattle.juniper_merging.specs.Conflicts.{IsCleared, IsIndexOf};
ghost use Rattle.juniper_merging.specs.Listed.{IsListedMore, listed};
ghost use Rattle.juniper_merging.specs.Questions.{seen};
ghost use Rattle.juniper_merging.specs.declared.nodes.Entry.{Entry};

use crate::graph::Vertex;
use crate::nodes::Entry;
use std::alloc::{AllocError, Global};

/// So many lists with nothing in them. An error where memory is refused.
pub(crate) fn empty_lists<T: Copy>(alloc: Global, count: usize) -> Result<Vec<Vec<T>>, AllocError>
    ensures { IfOk result (λ ls. (i : ℕ) → listed ls.items i ≡ []) }
{
    let mut lists = Vec::with_capacity(alloc, count)?;
    for _index in 0..count {
        lists.push(Vec::new(alloc))?;
    }
    Ok(lists)
}

/// The list at a number; nothing where there is none.
pub(crate) fn list_at<T: Copy>(lists: &[Vec<T>], number: usize) -> &[T]
    ensures { result.now ≡ listed lists.now number }
{
    match lists.get(number) {
        Some(list) => list.as_slice(),
        None => &[],
    }
}

/// Adds a thing to the list at a place. An error where memory is refused, or where there is no list.
pub(crate) fn push_at<T: Copy>(
    lists: &mut Vec<Vec<T>>,
    place: usize,
    thing: T,
) -> Result<(), AllocError>
    ensures { OnOk result (IsListedMore lists.old.items lists.new.items place thing) }
{
    if place < lists.len() {
        lists[place].push(thing)?;
        Ok(())
    } else {
        Err(AllocError)
    }
}

/// Takes all out of the list at a place.
pub(crate) fn clear_at<T: Copy>(lists: &mut Vec<Vec<T>>, place: usize)
    ensures { (i : ℕ) → listed lists.new.items i ≡ cond (nat_eq place i) [] (listed lists.old.items i) }
{
    if place < lists.len() {
        lists[place].clear();
    }
}

/// Puts an entry behind the others of its response key. An error where memory is refused, or where there is no such key.
pub(crate) fn put_entry(
    vertices: &[Vertex<'_>],
    entry: &Entry,
    index: &mut Vec<Vec<Entry>>,
) -> Result<(), AllocError>
    ensures { OnOk result ((t : List (List ℕ)) (es : List Entry) → IsIndexOf (seen t vertices.now) index.old.items es
        → IsIndexOf (seen t vertices.now) index.new.items (es ++ entry.now ∷ [])) }
{
    match vertices.get(entry.field) {
        Some(vertex) => {
            push_at(index, vertex.key, *entry)?;
            Ok(())
        }
        None => Ok(()),
    }
}

/// Takes all entries out of the index, which are these.
pub(crate) fn clear_entries(vertices: &[Vertex<'_>], entries: &[Entry], index: &mut Vec<Vec<Entry>>)
    ensures { (t : List (List ℕ)) → IsIndexOf (seen t vertices.now) index.old.items entries.now → (k : ℕ) → listed index.new.items k ≡ [] }
{
    for entry in entries {
        clear_entry(vertices, entry, index);
    }
}

/// Takes the entries of an entry's response key out of the index.
fn clear_entry(vertices: &[Vertex<'_>], entry: &Entry, index: &mut Vec<Vec<Entry>>)
    ensures { (t : List (List ℕ)) → IsCleared (seen t vertices.now) entry.now index.old.items index.new.items }
{
    match vertices.get(entry.field) {
        Some(vertex) => clear_at(index, vertex.key),
        None => {}
    }
}
