//! The fields of sets that are put together, by what they differ in: those that differ in nothing but what they select are one head.

ghost use Rattle.std.specs.Prelude.{◌≡◌, ◌++◌, ◌∷◌, ◌≤◌, IfOk, List, OnOk, Some, cond, false, length, not, true, ℕ, []};
ghost use Rattle.std.specs.List.{slice_get};
ghost use Rattle.graphql_spec.specs.Laws.{In};
ghost use Rattle.juniper_merging.specs.Groups.{group_in};
ghost use Rattle.juniper_merging.specs.MergingGraph.{view_vertex};
ghost use Rattle.juniper_merging.specs.Nodes.{Alike};
ghost use Rattle.juniper_merging.specs.Questions.{seen};
ghost use Rattle.juniper_merging.specs.Uniting.{AreFew, AreHeads, IsFound, IsFoundAt, IsPlaceAdded, IsSameAt, fields_or_none, list_or_none};
ghost use Rattle.juniper_merging.specs.Uniting.{group_number, own_fields, own_parts, parts_or_none, same_heads};
ghost use Rattle.juniper_merging.specs.declared.heads.Head.{Head};

use crate::graph::Vertex;
use crate::groups::{Groups, put_group, take_group};
use crate::sets::FieldSet;
use std::alloc::{AllocError, Global};
use std::collections::HashMap;

/// Response keys stand so far apart among the numbers of groups.
const SPREAD: usize = 1_000_003;

/// Fields that differ in nothing but what they select.
#[derive(Drop)]
pub(crate) struct Head {
    /// The number of the first of them.
    pub(crate) field: usize,
    /// Whether they stand at several places.
    pub(crate) is_many: bool,
    /// The sets that they select.
    pub(crate) below: Vec<usize>,
}

/// The heads of the own fields of these sets. An error where memory is refused, or where there is no such field.
pub(crate) fn heads_of(
    alloc: Global,
    vertices: &[Vertex<'_>],
    sets: &[FieldSet],
    members: &[usize],
) -> Result<Vec<Head>, AllocError>
    ensures { IfOk result (λ heads. (t : List (List ℕ)) → (groups : ℕ → List ℕ) ×
        AreHeads (seen t vertices.now) t (own_fields sets.now members.now) heads.items groups) }
{
    let mut heads = Vec::new(alloc);
    let mut groups: Groups = HashMap::new(alloc);
    for member in members {
        put_fields_of(alloc, vertices, sets, *member, &mut heads, &mut groups)?;
    }
    Ok(heads)
}

/// Adds the own fields of a set to heads.
fn put_fields_of(
    alloc: Global,
    vertices: &[Vertex<'_>],
    sets: &[FieldSet],
    member: usize,
    heads: &mut Vec<Head>,
    groups: &mut Groups,
) -> Result<(), AllocError>
    ensures { OnOk result ((t : List (List ℕ)) (before : List ℕ) → AreHeads (seen t vertices.now) t before heads.old.items (group_in groups.old)
        → AreHeads (seen t vertices.now) t (before ++ fields_or_none (slice_get sets.now member)) heads.new.items (group_in groups.new)) }
{
    match sets.get(member) {
        Some(held) => {
            put_fields(alloc, vertices, &held.fields, heads, groups)?;
            Ok(())
        }
        None => Ok(()),
    }
}

/// Adds fields to heads.
fn put_fields(
    alloc: Global,
    vertices: &[Vertex<'_>],
    fields: &[usize],
    heads: &mut Vec<Head>,
    groups: &mut Groups,
) -> Result<(), AllocError>
    ensures { OnOk result ((t : List (List ℕ)) (before : List ℕ) → AreHeads (seen t vertices.now) t before heads.old.items (group_in groups.old)
        → AreHeads (seen t vertices.now) t (before ++ fields.now) heads.new.items (group_in groups.new)) }
{
    for field in fields {
        put_field(alloc, vertices, *field, heads, groups)?;
    }
    Ok(())
}

/// Adds a field to heads.
fn put_field(
    alloc: Global,
    vertices: &[Vertex<'_>],
    field: usize,
    heads: &mut Vec<Head>,
    groups: &mut Groups,
) -> Result<(), AllocError>
    ensures { OnOk result ((t : List (List ℕ)) (before : List ℕ) → AreHeads (seen t vertices.now) t before heads.old.items (group_in groups.old)
        → AreHeads (seen t vertices.now) t (before ++ field ∷ []) heads.new.items (group_in groups.new)) }
{
    match vertices.get(field) {
        Some(vertex) => {
            put_vertex(alloc, vertices, field, vertex, heads, groups)?;
            Ok(())
        }
        None => Err(AllocError),
    }
}

/// The same, where this is its vertex.
fn put_vertex(
    alloc: Global,
    vertices: &[Vertex<'_>],
    field: usize,
    vertex: &Vertex<'_>,
    heads: &mut Vec<Head>,
    groups: &mut Groups,
) -> Result<(), AllocError>
    ensures { OnOk result (slice_get vertices.now field ≡ Some vertex.now → (t : List (List ℕ)) (before : List ℕ)
        → AreHeads (seen t vertices.now) t before heads.old.items (group_in groups.old)
        → AreHeads (seen t vertices.now) t (before ++ field ∷ []) heads.new.items (group_in groups.new)) }
{
    let number = group_number(vertex.key, vertex.call);
    let mut group = take_group(alloc, groups, number);
    match find_head(vertices, heads, &group, vertex) {
        Some(place) => {
            add_place(heads, place, vertex)?;
            put_group(groups, number, group)?;
            Ok(())
        }
        None => {
            group.push(heads.len())?;
            heads.push(new_head(alloc, field, vertex)?)?;
            put_group(groups, number, group)?;
            Ok(())
        }
    }
}

/// The number of the group of a field of this response key and call. Others seldom have it; that saves time alone.
#[tactic(auto, unfolding(crate::specs::Uniting::group_number))]
fn group_number(key: usize, call: usize) -> usize
    ensures { result ≡ group_number key call }
{
    key.wrapping_mul(SPREAD).wrapping_add(call)
}

/// The place of the head of a field, among those of a group.
fn find_head(
    vertices: &[Vertex<'_>],
    heads: &[Head],
    group: &[usize],
    vertex: &Vertex<'_>,
) -> Option<usize>
    ensures { (t : List (List ℕ)) → IsFound (seen t vertices.now) heads.now group.now (view_vertex t vertex.now) result }
{
    for place in group {
        if is_of_head(vertices, heads, *place, vertex) {
            return Some(*place);
        }
    }
    None
}

/// Whether the head at a place is that of a field.
fn is_of_head(vertices: &[Vertex<'_>], heads: &[Head], place: usize, vertex: &Vertex<'_>) -> bool
    ensures { (t : List (List ℕ)) → IsFoundAt (seen t vertices.now) heads.now place (view_vertex t vertex.now) result }
{
    match heads.get(place) {
        Some(head) => is_of(vertices, head.field, vertex),
        None => false,
    }
}

/// Whether the field of this number differs from another in nothing but what it selects.
fn is_of(vertices: &[Vertex<'_>], field: usize, vertex: &Vertex<'_>) -> bool
    ensures { (t : List (List ℕ)) → IsSameAt (seen t vertices.now) field (view_vertex t vertex.now) result }
{
    match vertices.get(field) {
        Some(first) => is_same_head(first, vertex),
        None => false,
    }
}

/// Whether two fields differ in nothing but what they select.
#[tactic(auto, unfolding(crate::specs::Uniting::same_heads, crate::specs::MergingGraph::view_vertex))]
fn is_same_head(x: &Vertex<'_>, y: &Vertex<'_>) -> bool
    ensures { result ≡ same_heads (view_vertex [] x.now) (view_vertex [] y.now) }
{
    x.shape == y.shape
        && x.call == y.call
        && is_same_truth(x.on_object, y.on_object)
        && x.parent == y.parent
        && x.key == y.key
}

/// Whether both hold, or neither.
fn is_same_truth(a: bool, b: bool) -> bool
    ensures { result ≡ cond a b (not b) }
{
    if a { b } else { !b }
}

/// The head of a field at its first place.
fn new_head(alloc: Global, field: usize, vertex: &Vertex<'_>) -> Result<Head, AllocError>
    ensures { IfOk result (λ head. (head.field ≡ field) × (head.is_many ≡ false) × (head.below.items ≡ list_or_none vertex.now.below)) }
{
    let mut below = Vec::new(alloc);
    put_below(&mut below, vertex)?;
    Ok(Head {
        field,
        is_many: false,
        below,
    })
}

/// Adds a place to a head.
fn add_place(heads: &mut Vec<Head>, place: usize, vertex: &Vertex<'_>) -> Result<(), AllocError>
    ensures { OnOk result (IsPlaceAdded heads.old.items heads.new.items place vertex.now.below) }
{
    if place < heads.len() {
        let head = &mut heads[place];
        head.is_many = true;
        put_below(&mut head.below, vertex)?;
        Ok(())
    } else {
        Err(AllocError)
    }
}

/// Adds the set that a field selects, if it selects one.
fn put_below(below: &mut Vec<usize>, vertex: &Vertex<'_>) -> Result<(), AllocError>
    ensures { OnOk result (below.new.items ≡ below.old.items ++ list_or_none vertex.now.below) }
{
    match vertex.below {
        Some(set) => {
            below.push(set)?;
            Ok(())
        }
        None => Ok(()),
    }
}

/// The parts of these sets, each at most twice. An error where memory is refused.
pub(crate) fn parts_of(
    alloc: Global,
    sets: &[FieldSet],
    members: &[usize],
) -> Result<Vec<usize>, AllocError>
    ensures { IfOk result (λ parts. Alike (own_parts sets.now members.now) parts.items) }
{
    let mut parts = Vec::new(alloc);
    let mut groups: Groups = HashMap::new(alloc);
    for member in members {
        put_parts_of(alloc, sets, *member, &mut parts, &mut groups)?;
    }
    Ok(parts)
}

/// Adds the parts of a set, each at most twice.
fn put_parts_of(
    alloc: Global,
    sets: &[FieldSet],
    member: usize,
    parts: &mut Vec<usize>,
    groups: &mut Groups,
) -> Result<(), AllocError>
    ensures { OnOk result ((before : List ℕ) → AreFew before parts.old.items (group_in groups.old)
        → AreFew (before ++ parts_or_none (slice_get sets.now member)) parts.new.items (group_in groups.new)) }
{
    match sets.get(member) {
        Some(held) => {
            put_few(alloc, &held.parts, parts, groups)?;
            Ok(())
        }
        None => Ok(()),
    }
}

/// These numbers, each at most twice. An error where memory is refused.
pub(crate) fn at_most_twice(alloc: Global, numbers: &[usize]) -> Result<Vec<usize>, AllocError>
    ensures { IfOk result (λ few. Alike numbers.now few.items) }
{
    let mut few = Vec::new(alloc);
    let mut groups: Groups = HashMap::new(alloc);
    put_few(alloc, numbers, &mut few, &mut groups)?;
    Ok(few)
}

/// Adds numbers to others, each at most twice.
fn put_few(
    alloc: Global,
    numbers: &[usize],
    few: &mut Vec<usize>,
    groups: &mut Groups,
) -> Result<(), AllocError>
    ensures { OnOk result ((before : List ℕ) → AreFew before few.old.items (group_in groups.old) → AreFew (before ++ numbers.now) few.new.items (group_in
        groups.new)) }
{
    for number in numbers {
        put_one(alloc, *number, few, groups)?;
    }
    Ok(())
}

/// Adds a number, if it is not there twice.
fn put_one(
    alloc: Global,
    number: usize,
    few: &mut Vec<usize>,
    groups: &mut Groups,
) -> Result<(), AllocError>
    ensures { OnOk result ((before : List ℕ) → AreFew before few.old.items (group_in groups.old)
        → AreFew (before ++ number ∷ []) few.new.items (group_in groups.new)) }
{
    let mut group = take_group(alloc, groups, number);
    if are_two(&group) {
        put_group(groups, number, group)?;
        return Ok(());
    }
    group.push(number)?;
    few.push(number)?;
    put_group(groups, number, group)?;
    Ok(())
}

/// Whether these are two numbers, or more.
fn are_two(numbers: &[usize]) -> bool
    ensures { result ≡ true → 2 ≤ length numbers.now }
{
    numbers.len() >= 2
}
