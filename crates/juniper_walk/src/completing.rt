//! A reply is completed for all fields of a group at once (CompleteValue and MergeSelectionSets, section 6.4.3 of the Specification).

ghost use Rattle.std.specs.Prelude.{◌≡◌, ◌<◌, ◌≤◌, ◌+◌, IfOk};
ghost use Rattle.graphql_spec.specs.GroupLaws.{first_start};
ghost use Rattle.juniper_conversions.specs.PathView.{path_place};
ghost use Rattle.juniper_syntax.specs.ValueView.{view_value};
ghost use Rattle.juniper_walk.specs.Budget.{fields_in};
ghost use Rattle.juniper_walk.specs.Completing.{CompletesAsked, IsTold};
ghost use Rattle.juniper_walk.specs.Entered.{CompletesWithin, UnlessMemory};
ghost use Rattle.juniper_walk.specs.Walking.{IsReadyWalk};
ghost use Rattle.juniper_walk.specs.Plans.{IsStanding, IsStep, group_at, group_count};
ghost use Rattle.juniper_walk.specs.PlanWalks.{HasFirst};

use crate::filling::fill_walked;
use crate::plan::{GroupNo, Plan};
use crate::walking::objects_of;
use crate::{Asked, Parted, Resolver, Stop, Walk, Walked, list_errors, part_reply};
use juniper_conversions::FieldPath;
use juniper_syntax::ScalarValue;
use std::rc::Rc;

/// The value of what the fields of a group answer, and the errors of what fails in it, for what all of them select. An error where memory
/// was refused to the answer, or is refused here, or where the budget is spent.
pub fn complete_value<'d, 'a, S: ScalarValue, R: Resolver<S>>(
    walk: &Walk<'_, 'd, 'a, S, R>,
    plan: &mut Plan<'d, 'a, S, R::Question>,
    path: &Rc<FieldPath<'a>>,
    asked: Asked<'_, R::Node, S>,
    group: GroupNo,
) -> Result<Walked<S>, Stop>
    requires ready { IsReadyWalk S.shown R.possible R.values (R.world walk.now.collector.possible) walk.now }
    requires standing { IsStanding S.shown walk.now.collector (R.asks walk.now.collector.possible) (R.possible walk.now.collector.possible) plan.old }
    requires bound { group.0 < group_count plan.old }
    requires some { HasFirst (group_at S.shown walk.now plan.old group.0) }
    ensures plan { IfOk result (λ _. IsStep S.shown walk.now.collector (R.asks walk.now.collector.possible) (R.possible walk.now.collector.possible) plan.old
        plan.new) }
    ensures told { UnlessMemory (IsTold asked.entry.answer) result }
    ensures completed { CompletesAsked S.shown first_start (R.world walk.now.collector.possible) (path_place path.now.value)
        (group_at S.shown walk.now plan.old group.0) asked.entry result }
    ensures counted { IfOk result (λ w. fields_in (view_value S.shown w.value) + plan.new.left ≤ plan.old.left) }
    ensures entered { CompletesWithin S.shown (R.world walk.now.collector.possible) (group_at S.shown walk.now plan.old group.0) asked.entry plan.old.left
        plan.new.left result }
{
    let Asked { declared, answer } = asked;
    let Parted {
        skeleton,
        nodes,
        errors,
    } = part_reply(walk.alloc, &walk.collector.possible, declared, answer, path)?;
    let start = plan.fields(group)[0].field.span.start;
    let mut listed = list_errors(walk.alloc, start, &errors)?;
    let mut objects = objects_of(walk, plan, &nodes, group)?.into_iter();
    let value = fill_walked(walk.alloc, skeleton, &mut objects, &mut listed)?;
    Ok(Walked {
        value,
        errors: listed,
    })
}
