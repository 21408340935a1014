//! The fields that selections hold, each with its own selection alone (CollectFields, section 6.3.2 of the Specification).

ghost use Rattle.std.specs.Prelude.{◌≡◌, ◌<◌, ◌++◌, IfOk, OnOk, length, take, drop};
ghost use Rattle.graphql_spec.specs.Fragments.{HasNoCycle};
ghost use Rattle.graphql_spec.specs.Selections.{occurrences};
ghost use Rattle.juniper_syntax.specs.DocumentView.{view_selections};
ghost use Rattle.juniper_lookahead.specs.Choices.{IsWithin};
ghost use Rattle.juniper_lookahead.specs.Choosing.{CanFind, choice_of};
ghost use Rattle.juniper_lookahead.specs.Collected.{IsReady, all_found, expansion};
ghost use Rattle.juniper_lookahead.specs.Singles.{AreAlone, AreFoundAlone, view_found_singles, view_singles};

use crate::choosing::{Choosing, ForType, FragmentSource, Meets};
use crate::collecting::Collector;
use crate::conditions::Conditions;
use crate::parts::{Part, part_of};
use crate::selection::Applies;
use juniper_syntax::{Field, ScalarValue, Selection, Span, Spanning};
use std::alloc::{AllocError, Global};

/// A field, and the slice that holds its selection alone.
#[derive(Drop)]
pub struct Single<'d, 'a, S> {
    pub field: &'d Spanning<Field<'a, S>, Span>,
    pub alone: &'d [Selection<'a, S>],
}

/// The fields that selections hold for an object type, in document order, each with its selection alone. An error where memory is
/// refused.
pub fn collect_singles<'d, 'a, S: ScalarValue, P: Conditions>(
    alloc: Global,
    collector: &Collector<'_, 'd, 'a, S, P>,
    concrete: &str,
    selections: &'d [Selection<'a, S>],
) -> Result<Vec<Single<'d, 'a, S>>, AllocError>
    requires { IsReady S.shown collector.now }
    ensures fields { IfOk result (λ r. view_singles S.shown collector.now r.items
        ≡ occurrences (P.possible collector.now.possible) concrete.now (expansion S.shown collector.now (view_selections S.shown selections.now))) }
    ensures alone { IfOk result (λ r. AreAlone S.shown collector.now (P.possible collector.now.possible) concrete.now r.items) }
{
    let mut fields = Vec::new(alloc);
    let choosing = Choosing {
        fragments: FragmentSource::Document(collector.fragments),
        variables: collector.variables,
        conditions: ForType {
            possible: &collector.possible,
            concrete,
        },
    };
    let spreads_left = collector.fragments.count;
    add_singles(&choosing, selections, spreads_left, &mut fields)?;
    Ok(fields)
}

/// Adds the fields that selections hold, which have at most so many spreads inside one another.
fn add_singles<'d, 'a, S: ScalarValue, M: Meets>(
    choosing: &Choosing<'_, 'd, 'a, S, M>,
    selections: &'d [Selection<'a, S>],
    spreads_left: usize,
    fields: &mut Vec<Single<'d, 'a, S>>,
) -> Result<(), AllocError>
    requires ready { CanFind S.shown choosing.now.fragments }
    requires acyclic { HasNoCycle (choice_of S.shown M.met choosing.now).fragments }
    requires within { IsWithin (choice_of S.shown M.met choosing.now) spreads_left (view_selections S.shown selections.now) }
    requires alone { AreFoundAlone S.shown (choice_of S.shown M.met choosing.now) fields.old.items }
    ensures fields { OnOk result (view_found_singles S.shown (choice_of S.shown M.met choosing.now) fields.new.items
        ≡ view_found_singles S.shown (choice_of S.shown M.met choosing.now) fields.old.items
        ++ all_found (choice_of S.shown M.met choosing.now) (view_selections S.shown selections.now)) }
    ensures alone { OnOk result (AreFoundAlone S.shown (choice_of S.shown M.met choosing.now) fields.new.items) }
{
    for number in 0..selections.len() {
        let selection = &selections[number];
        match part_of(choosing, selection, Applies::All, spreads_left) {
            Part::Nothing => {}
            Part::Field(field) => fields.push(Single {
                field,
                alone: selection_alone(selections, number),
            })?,
            Part::Selections(inner, _, left) => {
                add_singles(choosing, inner, left, fields)?;
            }
        }
    }
    Ok(())
}

/// The selection at a position, alone.
fn selection_alone<'d, 'a, S>(
    selections: &'d [Selection<'a, S>],
    number: usize,
) -> &'d [Selection<'a, S>]
    requires { number < length selections.now }
    ensures { result.now ≡ take 1 (drop number selections.now) }
{
    &selections[number..number + 1]
}
