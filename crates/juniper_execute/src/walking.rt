//! The two ways to walk what a request selects (sections 6.3 and 6.4 of the Specification).

ghost use Rattle.std.specs.Prelude.{◌≡◌, ◌<◌, ◌≤◌, ◌+◌, ◌-◌, IfOk, drop, length, map, string_bytes};
ghost use Rattle.graphql_spec.specs.Fields.{is_possible};
ghost use Rattle.graphql_spec.specs.Laws.{Merges};
ghost use Rattle.graphql_spec.specs.Outcomes.{responds};
ghost use Rattle.graphql_spec.specs.Selections.{all_below};
ghost use Rattle.graphql_spec.specs.Types.{innermost};
ghost use Rattle.juniper_lookahead.specs.Collected.{IsReady, expansion};
ghost use Rattle.juniper_conversions.specs.ErrorView.{view_listed};
ghost use Rattle.juniper_conversions.specs.PathView.{path_place};
ghost use Rattle.juniper_lookahead.specs.Sites.{IsFirstOf};
ghost use Rattle.juniper_walk.specs.PlanWalks.{HasFirst};
ghost use Rattle.juniper_walk.specs.Plans.{IsStanding, IsStep, all_expanded, group_at, group_count};
ghost use Rattle.juniper_schema.specs.SchemaView.{view_schema};
ghost use Rattle.juniper_syntax.specs.DocumentView.{view_selections};
ghost use Rattle.juniper_syntax.specs.TypeView.{view_type};
ghost use Rattle.juniper_syntax.specs.ValueView.{view_value};
ghost use Rattle.juniper_walk.specs.Budget.{fields_in, most_fields};
ghost use Rattle.juniper_walk.specs.Entered.{CompletesWithin, EntersAtMost, SpendsGiven, UnlessMemory, entered, own_fields};
ghost use Rattle.juniper_walk.specs.Completing.{CompletesAsked, IsTold};
ghost use Rattle.juniper_walk.specs.Walking.{IsReadyWalk, SelectionsAgree};
ghost use Rattle.juniper_execute.specs.Walkings.{IsAnswerWalked, IsBounded, Lists, TellsQuery, collector_of, starts_by};
ghost use Rattle.juniper_execute.specs.Serving.{IsServiceMade, IsServicePlan, IsServiceStep, service_group, service_selected, service_world};

use crate::node_resolver::NodeResolver;
use crate::question::Question;
use crate::service::Service;
use juniper_lookahead::{Collector, Enclosing, FragmentMap, Occurrence};
use juniper_syntax::{ScalarValue, Selection, SourcePosition};
use juniper_twin::Group;
use juniper_types::{FieldPath, first_of};
use juniper_walk::{Asked, GroupNo, GroupRange, Plan, Resolver, Stop, Walk, Walked, enter_root};
use std::alloc::Global;
use std::rc::Rc;

/// How the occurrences of one response key are walked (6.4.3).
#[derive(Clone, Copy)]
pub enum Walking {
    /// All at once: each response key is resolved once for each object, for what all of its occurrences select.
    Grouped,
    /// One after the other: each occurrence is resolved for what it selects, and the values of one response key are joined.
    Joined,
}

impl Walking {
    /// The data of selections on a root node as an object of this type, and the errors in their order; the operation starts at this
    /// place, and at most so many fields are entered, where a budget is given (6.2.1). The walk that joins counts none.
    fn answer<'d, 'a, S: ScalarValue, R: Resolver<S>>(
        self,
        walk: &Walk<'_, 'd, 'a, S, R>,
        concrete: &str,
        root: &R::Node,
        start: SourcePosition,
        selections: &'d [Selection<'a, S>],
        fields: Option<usize>,
    ) -> Result<Walked<S>, Stop>
        requires ready { IsReadyWalk S.shown R.possible R.values (R.world walk.now.collector.possible) walk.now }
        requires agree { SelectionsAgree (R.world walk.now.collector.possible) concrete.now
            (expansion S.shown walk.now.collector (view_selections S.shown selections.now)) }
        ensures answers { IfOk result (λ r. IsAnswerWalked S.shown (R.world walk.now.collector.possible) concrete.now root.now
            (expansion S.shown walk.now.collector (view_selections S.shown selections.now)) r) }
        ensures lists { IfOk result (λ r. Lists self (responds (view_value S.shown r.value) (map (view_listed S.shown) r.errors.items))) }
        ensures firsts { IfOk result (λ r. TellsQuery self (R.world walk.now.collector.possible) concrete.now root.now
            (expansion S.shown walk.now.collector (view_selections S.shown selections.now)) (map (view_listed S.shown) r.errors.items)) }
        ensures counted { IfOk result (λ r. IsBounded self (fields_in (view_value S.shown r.value)) (most_fields fields)) }
        ensures spent { SpendsGiven fields (entered (R.world walk.now.collector.possible) concrete.now root.now
            (expansion S.shown walk.now.collector (view_selections S.shown selections.now))) result }
    {
        match self {
            Walking::Grouped => {
                juniper_walk::answer(walk, concrete, root, start, selections, fields)
            }
            Walking::Joined => {
                match juniper_twin::answer(walk, concrete, root, start, selections) {
                    Ok(walked) => Ok(walked),
                    Err(_) => Err(Stop::Memory),
                }
            }
        }
    }

    /// The value of what a field answers, and the errors of what fails in it, for all occurrences of a group of a plan (6.4.3).
    fn complete_value<'d, 'a, S: ScalarValue, R: Resolver<S>>(
        self,
        walk: &Walk<'_, 'd, 'a, S, R>,
        plan: &mut Plan<'d, 'a, S, R::Question>,
        path: &Rc<FieldPath<'a>>,
        asked: Asked<'_, R::Node, S>,
        group: GroupNo,
    ) -> Result<Walked<S>, Stop>
        requires ready { IsReadyWalk S.shown R.possible R.values (R.world walk.now.collector.possible) walk.now }
        requires standing { IsStanding S.shown walk.now.collector (R.asks walk.now.collector.possible)
            (R.possible walk.now.collector.possible) plan.old }
        requires bound { group.0 < group_count plan.old }
        requires some { HasFirst (group_at S.shown walk.now plan.old group.0) }
        requires merge { Merges (R.world walk.now.collector.possible) (innermost (view_type (λ n. string_bytes n) asked.declared.now))
            (all_below (group_at S.shown walk.now plan.old group.0)) }
        ensures plan { IfOk result (λ _. IsStep S.shown walk.now.collector (R.asks walk.now.collector.possible)
            (R.possible walk.now.collector.possible) plan.old plan.new) }
        ensures told { UnlessMemory (IsTold asked.entry.answer) result }
        ensures completed { CompletesAsked S.shown (starts_by self) (R.world walk.now.collector.possible) (path_place path.now.value)
            (group_at S.shown walk.now plan.old group.0) asked.entry result }
        ensures counted { IfOk result (λ w. IsBounded self (fields_in (view_value S.shown w.value) + plan.new.left) plan.old.left) }
        ensures entered { CompletesWithin S.shown (R.world walk.now.collector.possible) (group_at S.shown walk.now plan.old group.0) asked.entry
            plan.old.left plan.new.left result }
    {
        match self {
            Walking::Grouped => juniper_walk::complete_value(walk, plan, path, asked, group),
            Walking::Joined => {
                let group = group_of(plan.fields(group));
                match juniper_twin::complete_value(walk, path, asked, &group) {
                    Ok(walked) => Ok(walked),
                    Err(_) => Err(Stop::Memory),
                }
            }
        }
    }
}

impl<'c, 's, R: NodeResolver<S>, S: ScalarValue> Service<'c, 's, R, S> {
    /// The data of selections on a node as an object of this type, and the errors in their order, walked so within this budget of fields, if
    /// one is given (6.2.1).
    pub(crate) fn answer<'d, 'a>(
        self,
        alloc: Global,
        walking: Walking,
        fragments: &FragmentMap<'d, 'a, S>,
        concrete: &str,
        root: &R::Node,
        start: SourcePosition,
        selections: &'d [Selection<'a, S>],
        fields: Option<usize>,
    ) -> Result<Walked<S>, Stop>
        requires ready { IsReady S.shown (collector_of fragments self.variables self) }
        requires agree { SelectionsAgree (service_world R.meaning S.shown self) concrete.now (service_selected S.shown self fragments selections.now) }
        ensures answers { IfOk result (λ r. IsAnswerWalked S.shown (service_world R.meaning S.shown self.entry) concrete.now root.now
            (service_selected S.shown self.entry fragments.entry selections.now) r) }
        ensures lists { IfOk result (λ r. Lists walking (responds (view_value S.shown r.value) (map (view_listed S.shown) r.errors.items))) }
        ensures firsts { IfOk result (λ r. TellsQuery walking (service_world R.meaning S.shown self.entry) concrete.now root.now
            (service_selected S.shown self.entry fragments.entry selections.now) (map (view_listed S.shown) r.errors.items)) }
        ensures counted { IfOk result (λ r. IsBounded walking (fields_in (view_value S.shown r.value)) (most_fields fields)) }
        ensures spent { SpendsGiven fields (entered (service_world R.meaning S.shown self.entry) concrete.now root.now
            (service_selected S.shown self.entry fragments.entry selections.now)) result }
    {
        let walk = Walk {
            alloc,
            collector: Collector {
                fragments,
                variables: self.variables,
                possible: self,
            },
        };
        match walking.answer(&walk, concrete, root, start, selections, fields) {
            Ok(walked) => Ok(walked),
            Err(stop) => Err(stop),
        }
    }

    /// The groups that selections hold for an object type, put into a plan and taken off its fields (6.3.2).
    pub(crate) fn enter_root<'d, 'a>(
        self,
        alloc: Global,
        fragments: &FragmentMap<'d, 'a, S>,
        plan: &mut Plan<'d, 'a, S, Question<'s, S>>,
        concrete: &str,
        enclosing: &[Enclosing<'d, 'a, S>],
    ) -> Result<GroupRange, Stop>
        requires ready { IsReady S.shown (collector_of fragments self.variables self) }
        requires standing { IsServicePlan S.shown self fragments plan.old }
        ensures made { IfOk result (λ r. IsServiceMade S.shown self.entry fragments.entry concrete.now enclosing.now plan.old plan.new r) }
        ensures counted { IfOk result (λ r. plan.new.left + (r.end.0 - r.first.0) ≤ plan.old.left) }
        ensures entered { EntersAtMost plan.old.left plan.new.left (own_fields (is_possible (view_schema S.shown self.entry.schema.now)) concrete.now
            (all_expanded S.shown (collector_of fragments.entry self.entry.variables self.entry) enclosing.now)) result }
    {
        let collector = Collector {
            fragments,
            variables: self.variables,
            possible: self,
        };
        let groups = enter_root(alloc, &collector, plan, concrete, enclosing)?;
        Ok(groups)
    }

    /// The value of what a field answers, and the errors of what fails in it, for all occurrences of a group of a plan, walked so (6.4.3).
    pub(crate) fn complete_value<'d, 'a>(
        self,
        alloc: Global,
        walking: Walking,
        fragments: &FragmentMap<'d, 'a, S>,
        plan: &mut Plan<'d, 'a, S, Question<'s, S>>,
        path: &Rc<FieldPath<'a>>,
        asked: Asked<'_, R::Node, S>,
        group: GroupNo,
    ) -> Result<Walked<S>, Stop>
        requires ready { IsReady S.shown (collector_of fragments self.variables self) }
        requires standing { IsServicePlan S.shown self fragments plan.old }
        requires bound { group.0 < group_count plan.old }
        requires some { HasFirst (service_group S.shown self fragments plan.old group.0) }
        requires merge { Merges (service_world R.meaning S.shown self) (innermost (view_type (λ n. string_bytes n) asked.declared.now))
            (all_below (service_group S.shown self fragments plan.old group.0)) }
        ensures plan { IfOk result (λ _. IsServiceStep S.shown self.entry fragments.entry plan.old plan.new) }
        ensures told { UnlessMemory (IsTold asked.entry.answer) result }
        ensures completed { CompletesAsked S.shown (starts_by walking) (service_world R.meaning S.shown self.entry) (path_place path.now.value)
            (service_group S.shown self.entry fragments.entry plan.old group.0) asked.entry result }
        ensures counted { IfOk result (λ w. IsBounded walking (fields_in (view_value S.shown w.value) + plan.new.left) plan.old.left) }
        ensures entered { CompletesWithin S.shown (service_world R.meaning S.shown self.entry) (service_group S.shown self.entry fragments.entry plan.old group.0)
            asked.entry plan.old.left plan.new.left result }
    {
        let walk = Walk {
            alloc,
            collector: Collector {
                fragments,
                variables: self.variables,
                possible: self,
            },
        };
        let walked = walking.complete_value(&walk, plan, path, asked, group)?;
        Ok(walked)
    }
}

/// The fields of one response key, of which there is one at least.
fn group_of<'g, 'd, 'a, S>(fields: &'g [Occurrence<'d, 'a, S>]) -> Group<'g, 'd, 'a, S>
    requires { 0 < length fields.now }
    ensures first { IsFirstOf result.first.now fields.now }
    ensures others { result.others.now ≡ drop 1 fields.now }
{
    Group {
        first: first_of(fields),
        others: &fields[1..],
    }
}
