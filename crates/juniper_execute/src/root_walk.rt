//! What the root groups of a mutation are run with (section 6.2.2 of the Specification).

use crate::allowance::Allowance;
use juniper_lookahead::FragmentMap;
use juniper_syntax::{Selection, Variables};
use juniper_types::FieldPath;
use std::alloc::Global;
use std::rc::Rc;

/// The walk over the root fields of a mutation.
#[derive(Drop)]
pub(crate) struct RootWalk<'r, 'd, 'a, M, S> {
    pub(crate) alloc: Global,
    /// What takes the steps.
    pub(crate) steps: &'r M,
    /// The name of the mutation type.
    pub(crate) concrete: &'r str,
    /// What the operation selects of it.
    pub(crate) selections: &'d [Selection<'a, S>],
    pub(crate) fragments: &'r FragmentMap<'d, 'a, S>,
    pub(crate) variables: &'r Variables<S>,
    /// What it may make of arguments.
    pub(crate) allowance: &'r Allowance,
    /// The path of the root.
    pub(crate) path: &'r Rc<FieldPath<'a>>,
}
