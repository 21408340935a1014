//! Which nodes hold fields that are unlike the first of their response key, at any depth: only these may clash.

ghost use Rattle.std.specs.Prelude.{◌≡◌, IfOk, List, Some, false, ℕ};
ghost use Rattle.std.specs.List.{slice_get};
ghost use Rattle.graphql_spec.specs.Laws.{In};
ghost use Rattle.juniper_merging.specs.Conflicts.{AreQuiet, IsLikeFirst, IsQuietEntry};
ghost use Rattle.juniper_merging.specs.Nodes.{AreNodes};
ghost use Rattle.juniper_merging.specs.Questions.{seen};
ghost use Rattle.juniper_merging.specs.declared.nodes.Entry.{Entry};
ghost use Rattle.juniper_merging.specs.declared.graph.Vertex.{Vertex};

use crate::graph::Vertex;
use crate::nodes::{Entry, Node};
use crate::pairs::are_alike;
use std::alloc::{AllocError, Global};

/// For each node whether it is loud: it holds a field that is. An error where memory is refused.
pub(crate) fn loud_nodes(
    alloc: Global,
    vertices: &[Vertex<'_>],
    nodes: &[Node],
) -> Result<Vec<bool>, AllocError>
    ensures { IfOk result (λ loud. (t : List (List ℕ)) (H : ℕ → List ℕ) → AreNodes (seen t vertices.now) H nodes.now →
        AreQuiet (seen t vertices.now) H loud.items) }
{
    let mut loud = Vec::with_capacity(alloc, nodes.len())?;
    for node in nodes {
        let is_loud = is_loud_node(vertices, &loud, node);
        loud.push(is_loud)?;
    }
    Ok(loud)
}

/// Whether a node has an entry or a part that is loud.
fn is_loud_node(vertices: &[Vertex<'_>], loud: &[bool], node: &Node) -> bool
    ensures entries { result ≡ false → (e : Entry) → In e node.now.entries.items → IsQuietEntry vertices.now loud.now e }
    ensures parts { result ≡ false → (p : ℕ) → In p node.now.parts.items → slice_get loud.now p ≡ Some false }
{
    if has_loud_entry(vertices, loud, &node.entries) {
        return true;
    }
    has_loud_part(loud, &node.parts)
}

/// Whether one of these entries is loud.
fn has_loud_entry(vertices: &[Vertex<'_>], loud: &[bool], entries: &[Entry]) -> bool
    ensures { result ≡ false → (e : Entry) → In e entries.now → IsQuietEntry vertices.now loud.now e }
{
    for entry in entries {
        if is_loud(vertices, loud, entry) {
            return true;
        }
    }
    false
}

/// Whether an entry is unlike the first field of its response key, or selects a loud node.
pub(crate) fn is_loud(vertices: &[Vertex<'_>], loud: &[bool], entry: &Entry) -> bool
    ensures { result ≡ false → IsQuietEntry vertices.now loud.now entry.now }
{
    if is_unlike(vertices, entry.field) {
        return true;
    }
    match entry.child {
        Some(child) => is_loud_at(loud, child),
        None => false,
    }
}

/// Whether the field of this number, if there is one, is unlike the first of its response key.
fn is_unlike(vertices: &[Vertex<'_>], field: usize) -> bool
    ensures { result ≡ false → (v : Vertex) → slice_get vertices.now field ≡ Some v → IsLikeFirst vertices.now v }
{
    match vertices.get(field) {
        Some(vertex) => differs_from_first(vertices, vertex),
        None => false,
    }
}

/// Whether a field is unlike the vertex whose number is that of its response key.
fn differs_from_first(vertices: &[Vertex<'_>], vertex: &Vertex<'_>) -> bool
    ensures { result ≡ false → IsLikeFirst vertices.now vertex.now }
{
    match vertices.get(vertex.key) {
        Some(first) => !are_alike(vertex, first),
        None => true,
    }
}

/// Whether one of these nodes is loud.
fn has_loud_part(loud: &[bool], parts: &[usize]) -> bool
    ensures { result ≡ false → (p : ℕ) → In p parts.now → slice_get loud.now p ≡ Some false }
{
    for part in parts {
        if is_loud_at(loud, *part) {
            return true;
        }
    }
    false
}

/// Whether a node is loud, or was not looked at.
pub(crate) fn is_loud_at(loud: &[bool], node: usize) -> bool
    ensures { result ≡ false → slice_get loud.now node ≡ Some false }
{
    match loud.get(node) {
        Some(is_loud) => *is_loud,
        None => true,
    }
}
