//! The children that selections hold, in document order, through inline fragments and spreads (after section 6.3.2 of the
//! Specification).

ghost use Rattle.std.specs.Prelude.{◌≡◌, ◌++◌, OnOk, map};
ghost use Rattle.juniper_syntax.specs.DocumentView.{view_selections};
ghost use Rattle.juniper_lookahead.specs.Choices.{IsWithin, found};
ghost use Rattle.juniper_lookahead.specs.Expansion.{child_at, unplaced};
ghost use Rattle.juniper_lookahead.specs.SelectionView.{view_all, view_applies, view_selection};
ghost use Rattle.juniper_lookahead.specs.Choosing.{CanFind, any_type, choice_of};

use crate::choosing::{Choosing, Meets};
use crate::parts::{Part, part_of};
use crate::selection::{Applies, LookAheadSelection};
use juniper_syntax::{Field, ScalarValue, Selection};
use std::alloc::AllocError;

/// Adds the children that selections hold, which have at most so many spreads inside one another.
pub(crate) fn add_children<'r, 'd, 'a, S: ScalarValue, M: Meets>(
    parent: &LookAheadSelection<'r, 'd, 'a, S>,
    choosing: &Choosing<'_, 'd, 'a, S, M>,
    selections: &'d [Selection<'a, S>],
    applies_for: Applies<'a>,
    spreads_left: usize,
    children: &mut Vec<LookAheadSelection<'r, 'd, 'a, S>>,
) -> Result<(), AllocError>
    requires ready { CanFind S.shown choosing.now.fragments }
    requires any { choice_of S.shown M.met choosing.now ≡ any_type S.shown parent.now.variables.now parent.now.fragments.now }
    requires within { IsWithin (choice_of S.shown M.met choosing.now) spreads_left (view_selections S.shown selections.now) }
    ensures { OnOk result (view_all children.new.items ≡ view_all children.old.items
        ++ map unplaced (found (choice_of S.shown M.met choosing.now) (view_applies applies_for.entry) (view_selections S.shown selections.now))) }
{
    for selection in selections {
        match part_of(choosing, selection, applies_for, spreads_left) {
            Part::Nothing => {}
            Part::Field(field) => children.push(child_of(parent, &field.item, applies_for))?,
            Part::Selections(inner, within, left) => {
                add_children(parent, choosing, inner, within, left, children)?;
            }
        }
    }
    Ok(())
}

/// A field below a selection, as look-ahead shows it.
#[tactic(auto, unfolding(crate::specs::SelectionView::view_selection))]
fn child_of<'r, 'd, 'a, S: ScalarValue>(
    parent: &LookAheadSelection<'r, 'd, 'a, S>,
    field: &'d Field<'a, S>,
    applies_for: Applies<'a>,
) -> LookAheadSelection<'r, 'd, 'a, S>
    ensures { view_selection result ≡ child_at S.shown parent.now.variables.now parent.now.fragments.now field.now (view_applies applies_for.entry) }
{
    LookAheadSelection {
        field,
        applies_for,
        variables: parent.variables,
        fragments: parent.fragments,
    }
}
