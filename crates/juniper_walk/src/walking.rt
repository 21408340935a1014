//! The walk: the object of a node, and the objects of the nodes of a group's answer (ExecuteSelectionSet, section 6.3 of the
//! Specification).

ghost use Rattle.std.specs.Prelude.{◌<◌, ◌≤◌, ◌+◌, ◌-◌, ◌*◌, IfOk, length, map, slice_range};
ghost use Rattle.graphql_spec.specs.ExactAnswers.{whole};
ghost use Rattle.graphql_spec.specs.GroupLaws.{first_start};
ghost use Rattle.graphql_spec.specs.Selections.{all_below, occurrences};
ghost use Rattle.juniper_assemble.specs.SpotView.{view_nodes};
ghost use Rattle.juniper_conversions.specs.ErrorView.{view_listed};
ghost use Rattle.juniper_conversions.specs.PathView.{path_place};
ghost use Rattle.juniper_syntax.specs.ValueView.{view_value};
ghost use Rattle.juniper_walk.specs.Plans.{IsStanding, IsStep, StandsFor, all_expanded, group_at, group_count};
ghost use Rattle.graphql_spec.specs.NodeLaws.{AreWalkedOnce};
ghost use Rattle.juniper_walk.specs.PlanWalks.{IsObjectWalked};
ghost use Rattle.juniper_walk.specs.Budget.{fields_in, fields_in_all};
ghost use Rattle.juniper_walk.specs.Entered.{EntersAtMost, entered_below, entered_in, entered_nodes};
ghost use Rattle.juniper_walk.specs.Rows.{AreAdded, AreOfType, AreWholeRows, listed_of, row_fields, values_of};
ghost use Rattle.juniper_walk.specs.Walking.{IsReadyWalk};

use crate::adding::{add_value, put_leaf};
use crate::making::{enter_below, merge_selection_sets};
use crate::plan::{GroupNo, GroupRange, Plan};
use crate::preparing::{Taken, execute_field};
use crate::rows::{Row, ask_column, begin_rows, end_rows, fill_rows};
use crate::{Resolver, Stop, Walk, Walked};
use juniper_assemble::Spot;
use juniper_conversions::FieldPath;
use juniper_lookahead::Enclosing;
use juniper_syntax::{ScalarValue, Value};
use std::rc::Rc;

/// The object of a node of an object type, at this path, for these groups, which are those of the enclosing selections, and the errors
/// of what fails in it. A null at a non-null field ends the walk, and the object is null (6.4.4).
#[cycle(walking)]
pub fn execute_selection_set<'d, 'a, S: ScalarValue, R: Resolver<S>>(
    walk: &Walk<'_, 'd, 'a, S, R>,
    plan: &mut Plan<'d, 'a, S, R::Question>,
    path: &Rc<FieldPath<'a>>,
    concrete: &str,
    node: &R::Node,
    enclosing: &[Enclosing<'d, 'a, S>],
    groups: GroupRange,
) -> Result<Walked<S>, Stop>
    requires ready { IsReadyWalk S.shown R.possible R.values (R.world walk.now.collector.possible) walk.now }
    requires standing { IsStanding S.shown walk.now.collector (R.asks walk.now.collector.possible) (R.possible walk.now.collector.possible) plan.old }
    requires groups { StandsFor S.shown walk.now.collector (R.asks walk.now.collector.possible) concrete.now plan.old groups
        (occurrences (R.possible walk.now.collector.possible) concrete.now (all_expanded S.shown walk.now.collector enclosing.now)) }
    ensures plan { IfOk result (λ _. IsStep S.shown walk.now.collector (R.asks walk.now.collector.possible) (R.possible walk.now.collector.possible) plan.old
        plan.new) }
    ensures walked { IfOk result (λ r. IsObjectWalked (R.world walk.now.collector.possible) (path_place path.now.value)
        (all_expanded S.shown walk.now.collector enclosing.now) concrete.now node.now
        (view_value S.shown r.value) (map (view_listed S.shown) r.errors.items)) }
    ensures counted { IfOk result (λ r. fields_in (view_value S.shown r.value) + plan.new.left ≤ plan.old.left + (groups.end.0 - groups.first.0)) }
    ensures entered { EntersAtMost plan.old.left plan.new.left (entered_below (R.world walk.now.collector.possible) concrete.now node.now
        (all_expanded S.shown walk.now.collector enclosing.now)) result }
{
    let mut entries = plan.new_object(walk.alloc, groups)?;
    let mut errors = Vec::new(walk.alloc);
    for number in groups.first.0..groups.end.0 {
        let group = GroupNo(number);
        let taken = execute_field(walk, plan, path, concrete, node, enclosing, group)?;
        match taken {
            Taken::Leaf(key, scalar) => put_leaf(walk.alloc, &mut entries, key, scalar)?,
            Taken::Apart(prepared) => {
                let mut below = objects_of(walk, plan, &prepared.nodes, group)?.into_iter();
                let rises = add_value(walk.alloc, &mut entries, &mut errors, prepared, &mut below)?;
                if rises {
                    return Ok(Walked {
                        value: Value::Null,
                        errors,
                    });
                }
            }
        }
    }
    Ok(Walked {
        value: Value::Object(entries),
        errors,
    })
}

/// The objects of nodes, each at its place, for what all fields of a group select: those of one object type that stand one behind the other are
/// walked side by side where their fields are asked at once, and one after the other elsewhere.
#[cycle(walking)]
pub(crate) fn objects_of<'d, 'a, S: ScalarValue, R: Resolver<S>>(
    walk: &Walk<'_, 'd, 'a, S, R>,
    plan: &mut Plan<'d, 'a, S, R::Question>,
    nodes: &[Spot<'a, R::Node>],
    group: GroupNo,
) -> Result<Vec<Walked<S>>, Stop>
    requires ready { IsReadyWalk S.shown R.possible R.values (R.world walk.now.collector.possible) walk.now }
    requires standing { IsStanding S.shown walk.now.collector (R.asks walk.now.collector.possible) (R.possible walk.now.collector.possible) plan.old }
    requires bound { group.0 < group_count plan.old }
    ensures plan { IfOk result (λ _. IsStep S.shown walk.now.collector (R.asks walk.now.collector.possible) (R.possible walk.now.collector.possible) plan.old
        plan.new) }
    ensures walked { IfOk result (λ r. AreWalkedOnce whole first_start (R.world walk.now.collector.possible)
        (all_below (group_at S.shown walk.now plan.old group.0)) (view_nodes nodes.now)
        (values_of S.shown r.items) (listed_of S.shown r.items)) }
    ensures counted { IfOk result (λ r. fields_in_all (values_of S.shown r.items) + plan.new.left ≤ plan.old.left) }
    ensures entered { EntersAtMost plan.old.left plan.new.left (entered_nodes (R.world walk.now.collector.possible)
        (all_below (group_at S.shown walk.now plan.old group.0)) (view_nodes nodes.now)) result }
{
    let mut done = Vec::with_capacity(walk.alloc, nodes.len())?;
    if nodes.is_empty() {
        return Ok(done);
    }
    let enclosing = merge_selection_sets(walk.alloc, &walk.collector, plan.fields(group))?;
    let mut start = 0;
    while start < nodes.len() {
        let concrete = walk
            .collector
            .possible
            .concrete_type_name(&nodes[start].what);
        let at_once = walk.collector.possible.nodes_at_once(concrete);
        let end = run_end(walk, concrete, nodes, start, at_once);
        let groups = enter_below(walk, plan, group, concrete, &enclosing, end - start)?;
        if is_column(at_once, end - start) {
            let rows = rows_of(walk, plan, concrete, &nodes[start..end], &enclosing, groups)?;
            end_rows(rows, &mut done)?;
        } else {
            let run = &nodes[start..end];
            one_by_one(walk, plan, concrete, run, &enclosing, groups, &mut done)?;
        }
        start = end;
    }
    Ok(done)
}

/// Whether so many nodes of which so many are asked at once are asked at once.
fn is_column(at_once: usize, count: usize) -> bool {
    at_once > 1 && count > 1
}

/// The objects of nodes of an object type, each at its place, for these groups, which are those of the enclosing selections, one node after
/// the other; they are put behind those that are there.
#[cycle(walking)]
fn one_by_one<'d, 'a, S: ScalarValue, R: Resolver<S>>(
    walk: &Walk<'_, 'd, 'a, S, R>,
    plan: &mut Plan<'d, 'a, S, R::Question>,
    concrete: &str,
    nodes: &[Spot<'a, R::Node>],
    enclosing: &[Enclosing<'d, 'a, S>],
    groups: GroupRange,
    done: &mut Vec<Walked<S>>,
) -> Result<(), Stop>
    requires ready { IsReadyWalk S.shown R.possible R.values (R.world walk.now.collector.possible) walk.now }
    requires standing { IsStanding S.shown walk.now.collector (R.asks walk.now.collector.possible) (R.possible walk.now.collector.possible) plan.old }
    requires groups { StandsFor S.shown walk.now.collector (R.asks walk.now.collector.possible) concrete.now plan.old groups
        (occurrences (R.possible walk.now.collector.possible) concrete.now (all_expanded S.shown walk.now.collector enclosing.now)) }
    requires typed { AreOfType (R.world walk.now.collector.possible) concrete.now (view_nodes nodes.now) }
    ensures plan { IfOk result (λ _. IsStep S.shown walk.now.collector (R.asks walk.now.collector.possible) (R.possible walk.now.collector.possible) plan.old
        plan.new) }
    ensures walked { IfOk result (λ _. AreAdded (R.world walk.now.collector.possible) (all_expanded S.shown walk.now.collector enclosing.now) S.shown
        (view_nodes nodes.now) done.old.items done.new.items) }
    ensures counted { IfOk result (λ _. fields_in_all (values_of S.shown done.new.items) + plan.new.left
        ≤ fields_in_all (values_of S.shown done.old.items) + plan.old.left + length nodes.now * (groups.end.0 - groups.first.0)) }
    ensures entered { EntersAtMost plan.old.left plan.new.left (entered_in (R.world walk.now.collector.possible) concrete.now
        (all_expanded S.shown walk.now.collector enclosing.now) (view_nodes nodes.now)) result }
{
    for spot in nodes {
        let walked = execute_selection_set(
            walk, plan, &spot.path, concrete, &spot.what, enclosing, groups,
        )?;
        done.push(walked)?;
    }
    Ok(())
}

/// The end of the nodes of an object type that stand one behind the other from this one on, but of no more than so many where they are asked at
/// once.
fn run_end<'d, 'a, S: ScalarValue, R: Resolver<S>>(
    walk: &Walk<'_, 'd, 'a, S, R>,
    concrete: &str,
    nodes: &[Spot<'a, R::Node>],
    start: usize,
    at_once: usize,
) -> usize
    requires bound { start < length nodes.now }
    requires first { AreOfType (R.world walk.now.collector.possible) concrete.now (view_nodes (slice_range nodes.now start (start + 1))) }
    ensures some { start < result }
    ensures inside { result ≤ length nodes.now }
    ensures typed { AreOfType (R.world walk.now.collector.possible) concrete.now (view_nodes (slice_range nodes.now start result)) }
{
    let last = latest_end(nodes.len(), start, at_once);
    for place in start + 1..last {
        let named = walk
            .collector
            .possible
            .concrete_type_name(&nodes[place].what);
        if named != concrete {
            return place;
        }
    }
    last
}

/// Where nodes from this one on end that are asked at once, or one by one.
fn latest_end(count: usize, start: usize, at_once: usize) -> usize
    requires { start < count }
    ensures some { start < result }
    ensures inside { result ≤ count }
{
    if at_once > 1 && at_once < count - start {
        start + at_once
    } else {
        count
    }
}

/// The objects of nodes of an object type, each at its place, for these groups, which are those of the enclosing selections: group by group,
/// each asked of all nodes whose null has not risen.
#[cycle(walking)]
fn rows_of<'d, 'a, S: ScalarValue, R: Resolver<S>>(
    walk: &Walk<'_, 'd, 'a, S, R>,
    plan: &mut Plan<'d, 'a, S, R::Question>,
    concrete: &str,
    nodes: &[Spot<'a, R::Node>],
    enclosing: &[Enclosing<'d, 'a, S>],
    groups: GroupRange,
) -> Result<Vec<Row<S>>, Stop>
    requires ready { IsReadyWalk S.shown R.possible R.values (R.world walk.now.collector.possible) walk.now }
    requires standing { IsStanding S.shown walk.now.collector (R.asks walk.now.collector.possible) (R.possible walk.now.collector.possible) plan.old }
    requires groups { StandsFor S.shown walk.now.collector (R.asks walk.now.collector.possible) concrete.now plan.old groups
        (occurrences (R.possible walk.now.collector.possible) concrete.now (all_expanded S.shown walk.now.collector enclosing.now)) }
    requires some { 0 < length nodes.now }
    ensures plan { IfOk result (λ _. IsStep S.shown walk.now.collector (R.asks walk.now.collector.possible) (R.possible walk.now.collector.possible) plan.old
        plan.new) }
    ensures rows { IfOk result (λ r. AreWholeRows (R.world walk.now.collector.possible) (all_expanded S.shown walk.now.collector enclosing.now) concrete.now
        S.shown (R.possible walk.now.collector.possible) (view_nodes nodes.now) r.items) }
    ensures counted { IfOk result (λ r. row_fields S.shown r.items + plan.new.left ≤ plan.old.left + length nodes.now * (groups.end.0 - groups.first.0)) }
    ensures entered { EntersAtMost plan.old.left plan.new.left (entered_in (R.world walk.now.collector.possible) concrete.now
        (all_expanded S.shown walk.now.collector enclosing.now) (view_nodes nodes.now)) result }
{
    let mut rows = begin_rows(walk.alloc, plan, groups, nodes.len())?;
    for number in groups.first.0..groups.end.0 {
        let column = ask_column(
            walk,
            plan,
            concrete,
            nodes,
            enclosing,
            GroupNo(number),
            &mut rows,
        )?;
        let below = objects_of(walk, plan, &column.nodes, GroupNo(number))?;
        fill_rows(walk.alloc, column.opened, below, &mut rows)?;
    }
    Ok(rows)
}
