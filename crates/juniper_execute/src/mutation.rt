//! The root groups of a mutation take their steps one after the other (ExecuteMutation, section 6.2.2 of the Specification).

ghost use Rattle.std.specs.Prelude.{◌≡◌, ◌<◌, ◌≤◌, ◌+◌, ◌-◌, ◌∷◌, suc, codes, false, length, IfOk, string_bytes};
ghost use Rattle.std.specs.Str.{bytes_eq};
ghost use Rattle.graphql_spec.specs.Fields.{is_possible};
ghost use Rattle.graphql_spec.specs.Laws.{Merges};
ghost use Rattle.graphql_spec.specs.Mutation.{step_of};
ghost use Rattle.graphql_spec.specs.Selections.{all_below, occurrences};
ghost use Rattle.graphql_spec.specs.Types.{innermost};
ghost use Rattle.juniper_walk.specs.Budget.{fields_in, fields_in_entries};
ghost use Rattle.juniper_walk.specs.Entered.{CompletesWithin, EntersAtMost, UnlessMemory, own_fields};
ghost use Rattle.juniper_walk.specs.Plans.{IsBare, all_expanded};
ghost use Rattle.juniper_walk.specs.PlanWalks.{HasFirst};
ghost use Rattle.juniper_conversions.specs.PathView.{path_place};
ghost use Rattle.juniper_values.specs.ResolvedView.{Answers};
ghost use Rattle.juniper_syntax.specs.TypeView.{view_type};
ghost use Rattle.juniper_syntax.specs.ValueView.{view_object, view_value};
ghost use Rattle.juniper_values.specs.ArgumentView.{view_arguments};
ghost use Rattle.juniper_walk.specs.Completing.{CompletesAsked, IsTold};
ghost use Rattle.juniper_walk.specs.FieldWords.{head_of};
ghost use Rattle.juniper_execute.specs.Entered.{entered_group, entered_run};
ghost use Rattle.juniper_execute.specs.Questions.{IsFieldAsked, meant_arguments};
ghost use Rattle.juniper_execute.specs.RootFields.{IsReadyRoot, IsRootPlan, IsRootStep, collector_in, field_in, root_group, selected_in, values_in};
ghost use Rattle.juniper_execute.specs.RootFields.{IsRootAsked, IsRootGroup, IsRootMade};
ghost use Rattle.juniper_execute.specs.ServedView.{RootAgrees, RunsRoot, RunsRootGroup, mutation_in, schema_of, served_world};
ghost use Rattle.juniper_execute.specs.Stepping.{IsGivenTo, StepLeaves};
ghost use Rattle.juniper_execute.specs.Walkings.{IsBounded, starts_by};

use crate::coerce::coerce_arguments;
use crate::node_resolver::{MutationSteps, NodeResolver};
use crate::question::{Question, arguments_of};
use crate::replying::type_name;
use crate::root_walk::RootWalk;
use crate::served::Served;
use crate::service::Service;
use juniper_lookahead::Enclosing;
use juniper_syntax::{Field, Object, ScalarValue, Span, Spanning, Value};
use juniper_types::{Executor, FieldPath, Resolved, first_of};
use juniper_values::{Arguments, ExecutionError, ResolveError};
use juniper_walk::{Asked, GroupNo, GroupRange, Plan, Site, Stop, Walked, path_below};
use std::alloc::{AllocError, Global};
use std::rc::Rc;

/// Takes the step of a root field in the context; `__typename` leaves it (4.1).
#[tactic(auto, unfolding(graphql_spec::specs::Mutation::step_of, graphql_spec::specs::Mutation::torn_of, graphql_spec::specs::Resolvers::world_of))]
pub(crate) fn step<
    's,
    'd,
    'a,
    R: NodeResolver<S>,
    M: MutationSteps<S, Context = R::Context, Node = R::Node>,
    S: ScalarValue,
>(
    served: &Served<'s, R, S>,
    walk: &RootWalk<'_, 'd, 'a, M, S>,
    site: &Site<'_, 'd, 'a, S>,
    written: &Spanning<Field<'a, S>, Span>,
    question: &Question<'s, S>,
    context: &mut R::Context,
) -> Result<Resolved<R::Node, S>, ResolveError<S>>
    requires { IsFieldAsked S.shown served.now.schema.now walk.now.variables.now walk.now.concrete.now question.now site.now written.now }
    ensures answer { (os : _) → Answers S.shown result
        (step_of (mutation_in R.meaning S.shown served.now M.steps walk.now) walk.now.concrete.now
        context.old (field_in S.shown walk.now written.now ∷ os)).1 }
    ensures context { (os : _) → StepLeaves (mutation_in R.meaning S.shown served.now M.steps walk.now)
        walk.now.concrete.now (field_in S.shown walk.now written.now ∷ os) context.old result context.new }
{
    if written.item.name.item == "__typename" {
        return type_name(walk.alloc, walk.concrete);
    }
    match &question.arguments {
        Some(arguments) => step_with(served, walk, site, written, question, arguments, context),
        None => {
            let declared = arguments_of(question.declaration);
            let arguments = coerce_arguments(walk.alloc, declared, written, walk.variables)?;
            step_with(served, walk, site, written, question, &arguments, context)
        }
    }
}

/// The same with these arguments, for a field of the resolver.
#[tactic(auto, unfolding(graphql_spec::specs::Mutation::step_of, graphql_spec::specs::Mutation::torn_of, graphql_spec::specs::Resolvers::world_of))]
fn step_with<
    's,
    'd,
    'a,
    R: NodeResolver<S>,
    M: MutationSteps<S, Context = R::Context, Node = R::Node>,
    S: ScalarValue,
>(
    served: &Served<'s, R, S>,
    walk: &RootWalk<'_, 'd, 'a, M, S>,
    site: &Site<'_, 'd, 'a, S>,
    written: &Spanning<Field<'a, S>, Span>,
    question: &Question<'s, S>,
    arguments: &Arguments<S>,
    context: &mut R::Context,
) -> Result<Resolved<R::Node, S>, ResolveError<S>>
    requires asked { IsFieldAsked S.shown served.now.schema.now walk.now.variables.now walk.now.concrete.now question.now site.now written.now }
    requires arguments { view_arguments S.shown arguments.now ≡ meant_arguments (schema_of S.shown served.now) (values_in S.shown walk.now)
        walk.now.concrete.now (head_of S.shown written.now) }
    requires own { bytes_eq (head_of S.shown written.now).name.item (codes "__typename") ≡ false }
    ensures answer { (os : _) → Answers S.shown result
        (step_of (mutation_in R.meaning S.shown served.now M.steps walk.now) walk.now.concrete.now
        context.old (field_in S.shown walk.now written.now ∷ os)).1 }
    ensures context { (os : _) → StepLeaves (mutation_in R.meaning S.shown served.now M.steps walk.now)
        walk.now.concrete.now (field_in S.shown walk.now written.now ∷ os) context.old result context.new }
{
    let alloc = walk.alloc;
    let name = written.item.name.item;
    let executor = Executor::at_field(
        &(),
        served.schema,
        walk.variables,
        site.fragments,
        site.path,
        &question.shown,
        walk.concrete,
        site.enclosing,
        site.occurrences,
    );
    walk.steps
        .resolve_root(alloc, name, arguments, &executor, context)
}

/// Completes what a root field answered under the context that its step left (6.4.3).
fn complete<'s, 'd, 'a, R: NodeResolver<S>, M, S: ScalarValue>(
    served: &Served<'s, R, S>,
    walk: &RootWalk<'_, 'd, 'a, M, S>,
    plan: &mut Plan<'d, 'a, S, Question<'s, S>>,
    path: &Rc<FieldPath<'a>>,
    asked: Asked<'_, R::Node, S>,
    group: GroupNo,
    context: &R::Context,
) -> Result<Walked<S>, Stop>
    requires ready { IsReadyRoot S.shown walk.now }
    requires standing { IsRootPlan S.shown walk.now (schema_of S.shown served.now) plan.old }
    requires bound { group.0 < length plan.old.groups.items }
    requires some { HasFirst (root_group S.shown walk.now plan.old group.0) }
    requires merge { Merges (served_world R.meaning S.shown served.now (values_in S.shown walk.now) context.now)
        (innermost (view_type (λ n. string_bytes n) asked.declared.now))
        (all_below (root_group S.shown walk.now plan.old group.0)) }
    ensures plan { IfOk result (λ _. IsRootStep S.shown walk.now (schema_of S.shown served.now) plan.old plan.new) }
    ensures told { UnlessMemory (IsTold asked.entry.answer) result }
    ensures completed { CompletesAsked S.shown (starts_by served.now.walking)
        (served_world R.meaning S.shown served.now (values_in S.shown walk.now) context.now) (path_place path.now.value)
        (root_group S.shown walk.now plan.old group.0) asked.entry result }
    ensures counted { IfOk result (λ w. IsBounded served.now.walking (fields_in (view_value S.shown w.value) + plan.new.left) plan.old.left) }
    ensures entered { CompletesWithin S.shown (served_world R.meaning S.shown served.now (values_in S.shown walk.now) context.now)
        (root_group S.shown walk.now plan.old group.0) asked.entry plan.old.left plan.new.left result }
{
    let service = Service {
        resolver: served.resolver,
        context,
        schema: served.schema,
        variables: walk.variables,
        allowance: walk.allowance,
        query_type: served.query_type(),
        undeclared: served.undeclared,
    };
    let walked = service.complete_value(
        walk.alloc,
        served.walking,
        walk.fragments,
        plan,
        path,
        asked,
        group,
    )?;
    Ok(walked)
}

/// Puts the value of a root field into the object, unless its null rises, and lists what fails in it; whether it rises.
pub(crate) fn give<S: ScalarValue>(
    alloc: Global,
    key: &str,
    is_non_null: bool,
    walked: Walked<S>,
    entries: &mut Object<S>,
    errors: &mut Vec<ExecutionError<S>>,
) -> Result<bool, AllocError>
    ensures { IfOk result (λ rises. IsGivenTo S.shown key.now is_non_null walked rises entries.old entries.new errors.old.items errors.new.items) }
{
    let mut listed = walked.errors;
    errors.append(&mut listed)?;
    if walked.value.is_null() && is_non_null {
        return Ok(true);
    }
    let key = String::from_str(alloc, key)?;
    drop(entries.add_field(key, walked.value)?);
    Ok(false)
}

/// Runs a root group: its step, and what it answers; whether its null rises.
fn run_group<
    's,
    'd,
    'a,
    R: NodeResolver<S>,
    M: MutationSteps<S, Context = R::Context, Node = R::Node>,
    S: ScalarValue,
>(
    served: &Served<'s, R, S>,
    walk: &RootWalk<'_, 'd, 'a, M, S>,
    plan: &mut Plan<'d, 'a, S, Question<'s, S>>,
    enclosing: &[Enclosing<'d, 'a, S>],
    group: GroupNo,
    context: &mut R::Context,
    entries: &mut Object<S>,
    errors: &mut Vec<ExecutionError<S>>,
) -> Result<bool, Stop>
    requires ready { IsReadyRoot S.shown walk.now }
    requires standing { IsRootPlan S.shown walk.now (schema_of S.shown served.now) plan.old }
    requires agree { RootAgrees R.meaning S.shown served.now M.steps walk.now }
    requires bound { group.0 < length plan.old.groups.items }
    requires enclosing { all_expanded S.shown (collector_in S.shown walk.now) enclosing.now ≡ selected_in S.shown walk.now }
    requires asked { IsRootAsked S.shown walk.now (schema_of S.shown served.now) plan.old group.0 }
    requires group { IsRootGroup S.shown walk.now (schema_of S.shown served.now) plan.old group.0 }
    ensures plan { IfOk result (λ _. IsRootStep S.shown walk.now (schema_of S.shown served.now) plan.old plan.new) }
    ensures ran { RunsRootGroup R.meaning S.shown served.now M.steps walk.now plan.old group.0 context.old
        entries.old errors.old.items result entries.new errors.new.items context.new }
    ensures counted { IfOk result (λ _. IsBounded served.now.walking (fields_in_entries (view_object S.shown entries.new) + plan.new.left)
        (suc (fields_in_entries (view_object S.shown entries.old) + plan.old.left))) }
    ensures entered { EntersAtMost plan.old.left plan.new.left (entered_group (mutation_in R.meaning S.shown served.now M.steps walk.now) walk.now.concrete.now
        context.old (root_group S.shown walk.now plan.old group.0)) result }
{
    let fields = plan.fields(group);
    let first = first_of(fields);
    let path = path_below(walk.alloc, walk.path, first)?;
    let question = plan.question(group);
    let declared = question.declared;
    let site = Site {
        fragments: walk.fragments.by_name(),
        path: path.as_ref(),
        enclosing,
        occurrences: fields,
    };
    let answer = step(served, walk, &site, first, question, context);
    let key = plan.key(group);
    let asked = Asked { declared, answer };
    let walked = match complete(served, walk, plan, &path, asked, group, context) {
        Err(error) => return Err(error),
        Ok(walked) => walked,
    };
    match give(
        walk.alloc,
        key,
        declared.is_non_null(),
        walked,
        entries,
        errors,
    ) {
        Err(_) => Err(Stop::Memory),
        Ok(rises) => Ok(rises),
    }
}

/// The root groups, put into a plan and taken off its fields (6.3.2).
fn plan_root<'s, 'd, 'a, R: NodeResolver<S>, M, S: ScalarValue>(
    served: &Served<'s, R, S>,
    walk: &RootWalk<'_, 'd, 'a, M, S>,
    plan: &mut Plan<'d, 'a, S, Question<'s, S>>,
    enclosing: &[Enclosing<'d, 'a, S>],
    context: &R::Context,
) -> Result<GroupRange, Stop>
    requires ready { IsReadyRoot S.shown walk.now }
    requires standing { IsRootPlan S.shown walk.now (schema_of S.shown served.now) plan.old }
    ensures made { IfOk result (λ r. IsRootMade S.shown walk.now (schema_of S.shown served.now) enclosing.now plan.old plan.new r) }
    ensures counted { IfOk result (λ r. plan.new.left + (r.end.0 - r.first.0) ≤ plan.old.left) }
    ensures entered { EntersAtMost plan.old.left plan.new.left (own_fields (is_possible (schema_of S.shown served.now)) walk.now.concrete.now
        (all_expanded S.shown (collector_in S.shown walk.now) enclosing.now)) result }
{
    let service = Service {
        resolver: served.resolver,
        context,
        schema: served.schema,
        variables: walk.variables,
        allowance: walk.allowance,
        query_type: served.query_type(),
        undeclared: served.undeclared,
    };
    let groups = service.enter_root(walk.alloc, walk.fragments, plan, walk.concrete, enclosing)?;
    Ok(groups)
}

/// Runs the root groups over a plan without groups, up to and including the first whose null rises: the data, and the errors as they were
/// met.
pub(crate) fn run_groups<
    's,
    'd,
    'a,
    R: NodeResolver<S>,
    M: MutationSteps<S, Context = R::Context, Node = R::Node>,
    S: ScalarValue,
>(
    served: &Served<'s, R, S>,
    walk: &RootWalk<'_, 'd, 'a, M, S>,
    plan: &mut Plan<'d, 'a, S, Question<'s, S>>,
    context: &mut R::Context,
) -> Result<Walked<S>, Stop>
    requires ready { IsReadyRoot S.shown walk.now }
    requires bare { IsBare plan.old.left plan.old }
    requires agree { RootAgrees R.meaning S.shown served.now M.steps walk.now }
    ensures ran { RunsRoot R.meaning S.shown served.now M.steps walk.now context.old result context.new }
    ensures counted { IfOk result (λ w. IsBounded served.now.walking (fields_in (view_value S.shown w.value)) plan.old.left) }
    ensures entered { EntersAtMost plan.old.left plan.new.left (entered_run (mutation_in R.meaning S.shown served.now M.steps walk.now) walk.now.concrete.now
        (selected_in S.shown walk.now) context.old) result }
{
    let enclosing = [Enclosing {
        selections: walk.selections,
    }];
    let groups = plan_root(served, walk, plan, &enclosing, context)?;
    let mut entries = Object::with_capacity(walk.alloc, groups.end.0 - groups.first.0)?;
    let mut errors = Vec::new(walk.alloc);
    for number in groups.first.0..groups.end.0 {
        let group = GroupNo(number);
        match run_group(
            served,
            walk,
            plan,
            &enclosing,
            group,
            context,
            &mut entries,
            &mut errors,
        ) {
            Err(error) => return Err(error),
            Ok(rises) => {
                if rises {
                    return Ok(Walked {
                        value: Value::Null,
                        errors,
                    });
                }
            }
        }
    }
    Ok(Walked {
        value: Value::Object(entries),
        errors,
    })
}
