//! Written fields as vertices of a graph.

use crate::sets::FieldSet;

/// A written field on its parent type. Equal `key`s say that two fields have one response key, equal `shape`s that two declared types
/// agree (SameResponseShape, section 5.3.2), and equal `call`s that two fields have one name and the same arguments.
#[derive(Drop)]
pub struct Vertex<'a> {
    /// The number of the response key.
    pub key: usize,
    /// The name of the parent type.
    pub parent: &'a str,
    /// Whether the parent type is an object type.
    pub on_object: bool,
    /// The number of the declared type.
    pub shape: usize,
    /// The number of the field's name with its arguments.
    pub call: usize,
    /// The number of the set of fields that it selects, if it selects any.
    pub below: Option<usize>,
}

/// A graph of fields and sets of them.
#[derive(Drop)]
pub struct Graph<'g, 'a> {
    /// The fields.
    pub vertices: &'g [Vertex<'a>],
    /// The sets.
    pub sets: &'g [FieldSet],
}
