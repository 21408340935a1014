//! A graph of written fields.

ghost use Rattle.std.specs.Prelude.{◌≡◌, ℕ, IfOk, List, Some, cond, length, map, not, true, []};
ghost use Rattle.std.specs.List.{find, slice_get};
ghost use Rattle.graphql_spec.specs.Documents as documents;
ghost use Rattle.graphql_spec.specs.Fields as fields;
ghost use Rattle.graphql_spec.specs.Schema.{Schema};
ghost use Rattle.juniper_merging.specs.MergingGraph.{view_vertex};
ghost use Rattle.juniper_meta.specs.MetaView.{view_type};
ghost use Rattle.juniper_schema.specs.SchemaView.{view_schema};
ghost use Rattle.juniper_syntax.specs.DocumentView.{view_field};
ghost use Rattle.juniper_field_graph.specs.GraphView.{IsGraphOf, IsPushed, WhereFits, vertices_of};
ghost use Rattle.juniper_field_graph.specs.KindsView as kinds_view;
ghost use Rattle.juniper_field_graph.specs.KindsView.{number_among, number_or, types_in};

use crate::call_parts::parts_of_call;
use crate::calls::{CallNumbers, number_of_call};
use crate::keys::{KeyNumbers, number_of_key};
use crate::types_agree;
use juniper_merging::{FieldSet, Graph, Groups, Vertex, put_group, take_group};
use juniper_schema::SchemaType;
use juniper_syntax::{Field, ScalarValue, Span, Spanning, Type};
use std::alloc::{AllocError, Global};
use std::collections::{BTreeMap, HashMap};

/// A field as it is written, with the type that is declared for it.
#[derive(Drop)]
struct WrittenField<'d, 'a, S> {
    /// The field.
    field: &'d Spanning<Field<'a, S>, Span>,
    /// Its declared type.
    declared_type: &'d Type<String>,
}

/// Written fields on their parent types, each a vertex with numbers for its response key, for its type, and for its name and arguments.
#[derive(Drop)]
pub struct FieldGraph<'d, 'a, S> {
    /// The vertices.
    pub vertices: Vec<Vertex<'d>>,
    /// The sets of vertices.
    pub sets: Vec<FieldSet>,
    /// The field that each of them stands for.
    fields: Vec<WrittenField<'d, 'a, S>>,
    /// The number of each response key: that of the first vertex that has it.
    keys: KeyNumbers<'d>,
    /// The number of each response key with a name and arguments: that of the first vertex that has them.
    calls: CallNumbers<'d>,
    /// For the number of each response key the first vertex of each shape.
    shapes: Groups,
    /// For the number of each call vertices that differ from one another.
    kinds: Groups,
}

impl<'d, 'a, S: ScalarValue> FieldGraph<'d, 'a, S> {
    /// No fields.
    pub fn new(alloc: Global) -> Self
        ensures graph { (s : Schema) → IsGraphOf S.shown s result }
        ensures empty { vertices_of S.shown result ≡ [] }
    {
        FieldGraph {
            vertices: Vec::new(alloc),
            sets: Vec::new(alloc),
            fields: Vec::new(alloc),
            keys: BTreeMap::new(alloc),
            calls: BTreeMap::new(alloc),
            shapes: HashMap::new(alloc),
            kinds: HashMap::new(alloc),
        }
    }

    /// Adds a field of this declared type on its parent type, which selects the fields of this set, and gives its number: that of
    /// an earlier field with the same vertex, if one is found. An error where memory is refused.
    pub fn push(
        &mut self,
        alloc: Global,
        schema: &'d SchemaType<S>,
        parent: &'d str,
        field: &'d Spanning<Field<'a, S>, Span>,
        declared_type: &'d Type<String>,
        below: Option<usize>,
    ) -> Result<usize, AllocError>
        ensures { IfOk result (λ i. WhereFits S.shown (view_schema S.shown schema.now) self.old
            (view_type declared_type.now) parent.now (view_field S.shown field.now) below
            (IsPushed S.shown (view_schema S.shown schema.now) self.old self.new parent.now (view_field S.shown field.now) below i)) }
    {
        let number = self.vertices.len();
        let key = number_of_key(&mut self.keys, Field::response_key(field), number)?;
        let parts = parts_of_call(alloc, key, field)?;
        let call = number_of_call(&mut self.calls, parts, number)?;
        let mut shapes = take_group(alloc, &mut self.shapes, key);
        let shape = shape_among(schema, &self.vertices, &self.fields, &shapes, declared_type);
        if shape == number {
            shapes.push(number)?;
        }
        put_group(&mut self.shapes, key, shapes)?;
        let vertex = Vertex {
            key,
            parent,
            on_object: schema.is_object(parent),
            shape,
            call,
            below,
        };
        let first = first_kind(alloc, &mut self.kinds, &self.vertices, &vertex)?;
        self.vertices.push(vertex)?;
        self.fields.push(WrittenField {
            field,
            declared_type,
        })?;
        Ok(first.unwrap_or(number))
    }

    /// The fields and the sets.
    pub fn as_graph(&self) -> Graph<'_, 'd>
        ensures { (result.vertices.now ≡ self.now.vertices.items) × (result.sets.now ≡ self.now.sets.items) }
    {
        Graph {
            vertices: &self.vertices,
            sets: &self.sets,
        }
    }
}

/// Of a call's kinds the first that has the same vertex. Where there is none, a field that selects nothing becomes a kind; one that does
/// select something has a vertex of its own. An error where memory is refused.
fn first_kind(
    alloc: Global,
    kinds: &mut Groups,
    vertices: &[Vertex<'_>],
    vertex: &Vertex<'_>,
) -> Result<Option<usize>, AllocError>
    ensures { IfOk result (λ first. (r : ℕ) → first ≡ Some r → (t : List (List ℕ)) →
        slice_get (map (view_vertex t) vertices.now) r ≡ Some (view_vertex t vertex.now)) }
{
    if vertex.below.is_some() {
        return Ok(None);
    }
    let mut of_call = take_group(alloc, kinds, vertex.call);
    let first = first_like(vertices, &of_call, vertex);
    if first.is_none() {
        of_call.push(vertices.len())?;
    }
    put_group(kinds, vertex.call, of_call)?;
    Ok(first)
}

/// The first of these kinds that has the same vertex.
fn first_like(vertices: &[Vertex<'_>], kinds: &[usize], vertex: &Vertex<'_>) -> Option<usize>
    ensures { (r : ℕ) → result ≡ Some r → (t : List (List ℕ)) →
        slice_get (map (view_vertex t) vertices.now) r ≡ Some (view_vertex t vertex.now) }
{
    for kind in kinds {
        if is_like(vertices, *kind, vertex) {
            return Some(*kind);
        }
    }
    None
}

/// Whether the vertex of this number is the same, and selects nothing.
fn is_like(vertices: &[Vertex<'_>], number: usize, vertex: &Vertex<'_>) -> bool
    ensures { result ≡ true → (t : List (List ℕ)) →
        slice_get (map (view_vertex t) vertices.now) number ≡ Some (view_vertex t vertex.now) }
{
    match vertices.get(number) {
        Some(other) => {
            if are_alike(other, vertex) {
                return select_nothing(other, vertex);
            }
            false
        }
        None => false,
    }
}

/// Whether neither field selects anything.
fn select_nothing(x: &Vertex<'_>, y: &Vertex<'_>) -> bool
    ensures { result ≡ true → x.now.below ≡ y.now.below }
{
    match (x.below, y.below) {
        (None, None) => true,
        (Some(_), _) => false,
        (None, Some(_)) => false,
    }
}

/// Whether both are the same but for what they select.
#[tactic(auto, unfolding(crate::specs::KindsView::are_alike, juniper_merging::specs::MergingGraph::view_vertex))]
fn are_alike(x: &Vertex<'_>, y: &Vertex<'_>) -> bool
    ensures { result ≡ kinds_view.are_alike (view_vertex [] x.now) (view_vertex [] y.now) }
{
    x.shape == y.shape
        && x.call == y.call
        && is_same_truth(x.on_object, y.on_object)
        && x.parent == y.parent
        && x.key == y.key
}

/// Whether both hold, or neither.
fn is_same_truth(a: bool, b: bool) -> bool
    ensures { result ≡ cond a b (not b) }
{
    if a { b } else { !b }
}

/// The shape of the first kind whose declared type agrees, else the number of a new vertex.
fn shape_among<S: ScalarValue>(
    schema: &SchemaType<S>,
    vertices: &[Vertex<'_>],
    fields: &[WrittenField<'_, '_, S>],
    kinds: &[usize],
    declared_type: &Type<String>,
) -> usize
    ensures { (t : List (List ℕ)) → result ≡ number_among (λ v. v.shape) (map (view_vertex t) vertices.now)
        (λ r. kinds_view.has_type (view_schema S.shown schema.now) (view_type declared_type.now) (slice_get (types_in S.shown fields.now) r)) kinds.now }
{
    for kind in kinds {
        if has_type(schema, fields, *kind, declared_type) {
            return shape_at(vertices, *kind);
        }
    }
    vertices.len()
}

/// The shape of a vertex, else the number of a new one.
#[tactic(auto, unfolding(crate::specs::KindsView::number_or, juniper_merging::specs::MergingGraph::view_vertex))]
fn shape_at(vertices: &[Vertex<'_>], number: usize) -> usize
    ensures { (t : List (List ℕ)) → result ≡ number_or (λ v. v.shape) (length vertices.now) (slice_get (map (view_vertex t) vertices.now) number) }
{
    match vertices.get(number) {
        Some(vertex) => vertex.shape,
        None => vertices.len(),
    }
}

/// Whether the field of this number has a declared type that agrees.
#[tactic(auto, unfolding(crate::specs::KindsView::has_type))]
fn has_type<S: ScalarValue>(
    schema: &SchemaType<S>,
    fields: &[WrittenField<'_, '_, S>],
    number: usize,
    declared_type: &Type<String>,
) -> bool
    ensures { result ≡ kinds_view.has_type (view_schema S.shown schema.now) (view_type declared_type.now) (slice_get (types_in S.shown fields.now) number) }
{
    match fields.get(number) {
        Some(field) => types_agree(schema, field.declared_type, declared_type),
        None => false,
    }
}
