//! The children of a selection of look-ahead.

ghost use Rattle.std.specs.Prelude.{◌≡◌, ◌==◌, [], IfOk, length, map};
ghost use Rattle.std.specs.Option.{is_some, option_map};
ghost use Rattle.juniper_lookahead.specs.SelectionView.{view_selection};
ghost use Rattle.juniper_lookahead.specs.ChildrenView.{child_named, view_children};

use crate::selection::LookAheadSelection;
use juniper_syntax::ScalarValue;
use std::alloc::{AllocError, Global};
use std::fmt;

/// The children of a selection, in order.
#[derive(Drop)]
pub struct LookAheadChildren<'r, 'd, 'a, S: ScalarValue> {
    pub(crate) items: Vec<LookAheadSelection<'r, 'd, 'a, S>>,
}

impl<'r, 'd, 'a, S: ScalarValue> LookAheadChildren<'r, 'd, 'a, S> {
    /// No children. It takes no memory.
    #[tactic(auto, unfolding(crate::specs::ChildrenView::view_children))]
    pub fn empty(alloc: Global) -> Self
        ensures { view_children result ≡ [] }
    {
        LookAheadChildren {
            items: Vec::new(alloc),
        }
    }

    /// How many children there are.
    #[tactic(auto, unfolding(crate::specs::ChildrenView::view_children))]
    pub fn len(&self) -> usize
        ensures { result ≡ length (view_children self.now) }
    {
        self.items.len()
    }

    /// Whether there are none.
    #[tactic(auto, unfolding(crate::specs::ChildrenView::view_children))]
    pub fn is_empty(&self) -> bool
        ensures { result ≡ (length (view_children self.now) == 0) }
    {
        self.items.is_empty()
    }

    /// The first child of a response name: the alias, else the name (2.7).
    #[tactic(auto, unfolding(crate::specs::ChildrenView::view_children, crate::specs::ChildrenView::child_named))]
    pub fn select(&self, name: &str) -> Option<LookAheadSelection<'r, 'd, 'a, S>>
        ensures { option_map view_selection result ≡ child_named name.now (view_children self.now) }
    {
        for child in &self.items {
            if child.field_name() == name {
                return Some(*child);
            }
        }
        None
    }

    /// Whether there is a child of a response name (2.7).
    pub fn has_child(&self, name: &str) -> bool
        ensures { result ≡ is_some (child_named name.now (view_children self.now)) }
    {
        self.select(name).is_some()
    }

    /// The same children once more.
    ///
    /// # Errors
    /// An [`AllocError`] where there is no memory for them.
    #[tactic(auto, unfolding(crate::specs::ChildrenView::view_children))]
    pub fn try_clone(&self, alloc: Global) -> Result<Self, AllocError>
        ensures { IfOk result (λ copy. view_children copy ≡ view_children self.now) }
    {
        let mut items = Vec::with_capacity(alloc, self.items.len())?;
        for child in &self.items {
            items.push(*child)?;
        }
        Ok(LookAheadChildren { items })
    }
}

impl<'r, 'd, 'a, S: ScalarValue> fmt::Debug for LookAheadChildren<'r, 'd, 'a, S> {
    fn fmt<W: fmt::Write>(&self, f: &mut fmt::Formatter<W>) -> fmt::Result {
        let mut out = f.debug_list();
        for child in &self.items {
            out.entry(&child.field_name());
        }
        out.finish()
    }
}
