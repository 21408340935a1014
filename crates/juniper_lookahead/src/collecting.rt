//! The fields that selections hold, in document order, through inline fragments and spreads (CollectFields, section 6.3.2 of the
//! Specification).

ghost use Rattle.std.specs.Prelude.{◌≡◌, ◌++◌, IfOk, OnOk};
ghost use Rattle.graphql_spec.specs.Fragments.{HasNoCycle};
ghost use Rattle.graphql_spec.specs.Selections.{occurrences};
ghost use Rattle.juniper_syntax.specs.DocumentView.{view_selections};
ghost use Rattle.juniper_lookahead.specs.Choices.{IsWithin};
ghost use Rattle.juniper_lookahead.specs.Choosing.{CanFind, choice_of};
ghost use Rattle.juniper_lookahead.specs.Collected.{IsReady, all_found, expansion, view_all, view_all_found};

use crate::choosing::{Choosing, ForType, FragmentSource, Meets};
use crate::conditions::Conditions;
use crate::fragments::FragmentMap;
use crate::occurrences::Occurrence;
use crate::parts::{Part, part_of};
use crate::selection::Applies;
use juniper_syntax::{ScalarValue, Selection, Variables};
use std::alloc::{AllocError, Global};

/// What one request collects fields with.
#[derive(Drop)]
pub struct Collector<'r, 'd, 'a, S, P> {
    pub fragments: &'r FragmentMap<'d, 'a, S>,
    pub variables: &'r Variables<S>,
    pub possible: P,
}

/// The fields that were collected, in document order.
pub type Collected<'d, 'a, S> = Vec<Occurrence<'d, 'a, S>>;

/// The fields that selections hold for an object type. An error where memory is refused.
pub fn collect_fields<'d, 'a, S: ScalarValue, P: Conditions>(
    alloc: Global,
    collector: &Collector<'_, 'd, 'a, S, P>,
    concrete: &str,
    selections: &'d [Selection<'a, S>],
) -> Result<Collected<'d, 'a, S>, AllocError>
    requires { IsReady S.shown collector.now }
    ensures { IfOk result (λ r. view_all S.shown collector.now r.items
        ≡ occurrences (P.possible collector.now.possible) concrete.now (expansion S.shown collector.now (view_selections S.shown selections.now))) }
{
    let mut fields = Vec::with_capacity(alloc, selections.len())?;
    let choosing = Choosing {
        fragments: FragmentSource::Document(collector.fragments),
        variables: collector.variables,
        conditions: ForType {
            possible: &collector.possible,
            concrete,
        },
    };
    let spreads_left = collector.fragments.count;
    add_fields(&choosing, selections, spreads_left, &mut fields)?;
    Ok(fields)
}

/// Adds the fields that selections hold, which have at most so many spreads inside one another.
fn add_fields<'d, 'a, S: ScalarValue, M: Meets>(
    choosing: &Choosing<'_, 'd, 'a, S, M>,
    selections: &'d [Selection<'a, S>],
    spreads_left: usize,
    fields: &mut Collected<'d, 'a, S>,
) -> Result<(), AllocError>
    requires ready { CanFind S.shown choosing.now.fragments }
    requires acyclic { HasNoCycle (choice_of S.shown M.met choosing.now).fragments }
    requires within { IsWithin (choice_of S.shown M.met choosing.now) spreads_left (view_selections S.shown selections.now) }
    ensures { OnOk result (view_all_found S.shown (choice_of S.shown M.met choosing.now) fields.new.items
        ≡ view_all_found S.shown (choice_of S.shown M.met choosing.now) fields.old.items
        ++ all_found (choice_of S.shown M.met choosing.now) (view_selections S.shown selections.now)) }
{
    for selection in selections {
        match part_of(choosing, selection, Applies::All, spreads_left) {
            Part::Nothing => {}
            Part::Field(field) => fields.push(Occurrence { field })?,
            Part::Selections(inner, _, left) => {
                add_fields(choosing, inner, left, fields)?;
            }
        }
    }
    Ok(())
}
