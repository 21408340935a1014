//! The whole answer to selections on a root (section 6.2 of the Specification).

ghost use Rattle.std.specs.Prelude.{◌≡◌, ◌≤◌, IfOk, map};
ghost use Rattle.graphql_spec.specs.ExactAnswers.{IsExactAnswerFor};
ghost use Rattle.juniper_syntax.specs.DocumentView.{view_selections};
ghost use Rattle.juniper_syntax.specs.ValueView.{view_value};
ghost use Rattle.juniper_conversions.specs.ErrorView.{view_listed};
ghost use Rattle.juniper_lookahead.specs.Collected.{expansion};
ghost use Rattle.juniper_walk.specs.Budget.{fields_in, most_fields};
ghost use Rattle.juniper_walk.specs.Entered.{EntersAtMost, SpendsGiven, entered};
ghost use Rattle.juniper_walk.specs.Plans.{IsBare};
ghost use Rattle.juniper_walk.specs.PlanWalks.{IsFirstsAnswer};
ghost use Rattle.juniper_walk.specs.Walking.{IsReadyWalk};

use crate::making::enter_root;
use crate::plan::Plan;
use crate::walking::execute_selection_set;
use crate::{Resolver, Stop, Walk, Walked, root_path, sort_errors};
use juniper_lookahead::Enclosing;
use juniper_syntax::{ScalarValue, Selection, SourcePosition};

/// For so many groups there is room in a plan at first.
const ROOM: usize = 16;

/// The data of selections on a root node as an object of this type, and the errors in their order: each at its exact place, no two at one,
/// each failure listed for the first of its field's occurrences. The operation starts at this place. At most so many fields are entered, or
/// without a budget any number: then it is never spent.
pub fn answer<'d, 'a, S: ScalarValue, R: Resolver<S>>(
    walk: &Walk<'_, 'd, 'a, S, R>,
    concrete: &str,
    root: &R::Node,
    start: SourcePosition,
    selections: &'d [Selection<'a, S>],
    fields: Option<usize>,
) -> Result<Walked<S>, Stop>
    requires ready { IsReadyWalk S.shown R.possible R.values (R.world walk.now.collector.possible) walk.now }
    ensures exact { IfOk result (λ r. IsExactAnswerFor (R.world walk.now.collector.possible) concrete.now root.now
        (expansion S.shown walk.now.collector (view_selections S.shown selections.now))
        (view_value S.shown r.value) (map (view_listed S.shown) r.errors.items)) }
    ensures firsts { IfOk result (λ r. IsFirstsAnswer (R.world walk.now.collector.possible) concrete.now root.now
        (expansion S.shown walk.now.collector (view_selections S.shown selections.now))
        (view_value S.shown r.value) (map (view_listed S.shown) r.errors.items)) }
    ensures counted { IfOk result (λ r. fields_in (view_value S.shown r.value) ≤ most_fields fields) }
    ensures spent { SpendsGiven fields (entered (R.world walk.now.collector.possible) concrete.now root.now
        (expansion S.shown walk.now.collector (view_selections S.shown selections.now))) result }
{
    let Ok(mut plan) = Plan::with_capacity(walk.alloc, ROOM, fields) else {
        return Err(Stop::Memory);
    };
    match answer_by(walk, &mut plan, concrete, root, start, selections, fields) {
        Ok(walked) => Ok(walked),
        Err(stop) => Err(stop.within(fields)),
    }
}

/// The same over a plan without groups, of this budget.
fn answer_by<'d, 'a, S: ScalarValue, R: Resolver<S>>(
    walk: &Walk<'_, 'd, 'a, S, R>,
    plan: &mut Plan<'d, 'a, S, R::Question>,
    concrete: &str,
    root: &R::Node,
    start: SourcePosition,
    selections: &'d [Selection<'a, S>],
    fields: Option<usize>,
) -> Result<Walked<S>, Stop>
    requires ready { IsReadyWalk S.shown R.possible R.values (R.world walk.now.collector.possible) walk.now }
    requires bare { IsBare (most_fields fields) plan.old }
    ensures exact { IfOk result (λ r. IsExactAnswerFor (R.world walk.now.collector.possible) concrete.now root.now
        (expansion S.shown walk.now.collector (view_selections S.shown selections.now))
        (view_value S.shown r.value) (map (view_listed S.shown) r.errors.items)) }
    ensures firsts { IfOk result (λ r. IsFirstsAnswer (R.world walk.now.collector.possible) concrete.now root.now
        (expansion S.shown walk.now.collector (view_selections S.shown selections.now))
        (view_value S.shown r.value) (map (view_listed S.shown) r.errors.items)) }
    ensures counted { IfOk result (λ r. fields_in (view_value S.shown r.value) ≤ most_fields fields) }
    ensures entered { EntersAtMost plan.old.left plan.new.left (entered (R.world walk.now.collector.possible) concrete.now root.now
        (expansion S.shown walk.now.collector (view_selections S.shown selections.now))) result }
{
    let enclosing = [Enclosing { selections }];
    let groups = enter_root(walk.alloc, &walk.collector, plan, concrete, &enclosing)?;
    let path = root_path(walk.alloc, start)?;
    let walked = execute_selection_set(walk, plan, &path, concrete, root, &enclosing, groups)?;
    let mut errors = walked.errors;
    sort_errors(&mut errors)?;
    Ok(Walked {
        value: walked.value,
        errors,
    })
}
