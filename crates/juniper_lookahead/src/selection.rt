//! What look-ahead shows of a field (this project's own, after section 6.3.2 of the Specification).

ghost use Rattle.std.specs.Prelude.{◌≡◌, ⊤};
ghost use Rattle.juniper_lookahead.specs.Expansion.{IsAcyclic};

use juniper_syntax::{Field, Fragments, ScalarValue, Variables};
use std::alloc::AllocError;

/// For which types a child is selected.
#[derive(Clone, Copy, Debug, PartialEq, Eq)]
pub enum Applies<'a> {
    /// For all.
    All,
    /// For the type of this name.
    OnlyType(&'a str),
}

/// A field of the request, with what is needed to look below it. It lends what the request lends: for `'d` the document, for
/// `'a` its text, and for `'r` the rest.
pub struct LookAheadSelection<'r, 'd, 'a, S: ScalarValue> {
    pub(crate) field: &'d Field<'a, S>,
    pub(crate) applies_for: Applies<'a>,
    pub(crate) variables: &'r Variables<S>,
    pub(crate) fragments: &'r Fragments<'d, 'a, S>,
    ghost acyclic: { IsAcyclic S.shown fragments.now },
}

impl<'r, 'd, 'a, S: ScalarValue> Clone for LookAheadSelection<'r, 'd, 'a, S> {
    ghost is_clone = { λ x y. y ≡ x };

    ghost is_infallible = { λ _. ⊤ };

    fn clone(&self) -> Result<LookAheadSelection<'r, 'd, 'a, S>, AllocError> {
        Ok(*self)
    }
}

impl<'r, 'd, 'a, S: ScalarValue> Copy for LookAheadSelection<'r, 'd, 'a, S> {}
