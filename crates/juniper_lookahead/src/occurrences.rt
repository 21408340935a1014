//! The occurrences of a field, and the selections around them (sections 6.3.2 and 6.4.3 of the Specification).

ghost use Rattle.juniper_lookahead.specs.Expansion.{IsAcyclic};

use juniper_syntax::{Field, Fragments, ScalarValue, Selection, Span, Spanning, Variables};
use std::slice;

/// A field as it is written: one of its occurrences.
#[derive(Drop)]
pub struct Occurrence<'d, 'a, S> {
    pub field: &'d Spanning<Field<'a, S>, Span>,
}

/// Selections around a field.
#[derive(Drop)]
pub struct Enclosing<'d, 'a, S> {
    pub selections: &'d [Selection<'a, S>],
}

/// The occurrences of a field as look-ahead shows them, from both ends. It is seen as those that are left, and takes no memory.
#[derive(Drop)]
pub struct OccurrencesIter<'r, 'd, 'a, S: ScalarValue> {
    pub(crate) left: slice::Iter<'r, Occurrence<'d, 'a, S>>,
    pub(crate) variables: &'r Variables<S>,
    pub(crate) fragments: &'r Fragments<'d, 'a, S>,
    ghost acyclic: { IsAcyclic S.shown fragments.now },
}
