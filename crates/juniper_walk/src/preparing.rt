//! The fields of a response key are resolved once, and the answer taken apart from its nodes (sections 6.4.2 and 6.4.3 of the
//! Specification).

ghost use Rattle.std.specs.Prelude.{◌≡◌, ◌<◌, ◌++◌, ◌∷◌, [], IfOk};
ghost use Rattle.graphql_spec.specs.Selections.{occurrences};
ghost use Rattle.graphql_spec.specs.Documents.{response_key};
ghost use Rattle.graphql_spec.specs.Errors.{key};
ghost use Rattle.juniper_conversions.specs.PathView.{path_place};
ghost use Rattle.juniper_walk.specs.Plans.{IsAskedAt, IsStanding, all_expanded, group_at, group_count, key_at};
ghost use Rattle.juniper_walk.specs.Leaves.{IsTaken, TakesTold};
ghost use Rattle.juniper_walk.specs.PlanWalks.{HasFirst, IsGroupOf};
ghost use Rattle.juniper_walk.specs.FieldWords.{head_of};
ghost use Rattle.juniper_walk.specs.Walking.{IsReadyWalk};

use crate::leaf::{Reply, leaf_of};
use crate::plan::{GroupNo, Plan};
use crate::{Asked, Parted, Resolver, Site, Walk, list_errors, part_reply};
use juniper_assemble::{Skeleton, Spot};
use juniper_conversions::{ExecutionError, FieldPath};
use juniper_lookahead::Enclosing;
use juniper_syntax::{Field, ScalarValue, Span, Spanning};
use std::alloc::AllocError;
use std::rc::Rc;

/// What a group of a node answers.
#[derive(Drop)]
pub(crate) enum Taken<'a, N, S> {
    /// A scalar that its type takes, with the response key.
    Leaf(&'a str, S),
    /// Any other answer, taken apart.
    Apart(Prepared<'a, N, S>),
}

/// A group's answer without the objects of its nodes.
#[derive(Drop)]
pub(crate) struct Prepared<'a, N, S> {
    /// The response key.
    pub(crate) key: &'a str,
    /// Whether its type is non-null.
    pub(crate) is_non_null: bool,
    /// The answer, with a hole for each node.
    pub(crate) skeleton: Skeleton<S>,
    /// The nodes, each at its place.
    pub(crate) nodes: Vec<Spot<'a, N>>,
    /// What fails apart from them.
    pub(crate) errors: Vec<ExecutionError<S>>,
}

/// The path to a field below this path. It is shared only where a node or an error keeps it.
pub(crate) fn step_below<'a, S: ScalarValue>(
    path: &Rc<FieldPath<'a>>,
    field: &Spanning<Field<'a, S>, Span>,
) -> Result<FieldPath<'a>, AllocError>
    ensures { IfOk result (λ made. path_place made ≡ path_place path.now.value ++ key (response_key (head_of S.shown field.now)) ∷ []) }
{
    let parent = path.clone()?;
    let key = Field::response_key(field);
    Ok(FieldPath::Field(key, field.span.start, parent))
}

/// A group of a node: its answer, taken apart where it is more than a scalar that fits. What fails is listed where the first of its fields starts.
pub(crate) fn execute_field<'d, 'a, S: ScalarValue, R: Resolver<S>>(
    walk: &Walk<'_, 'd, 'a, S, R>,
    plan: &Plan<'d, 'a, S, R::Question>,
    path: &Rc<FieldPath<'a>>,
    concrete: &str,
    node: &R::Node,
    enclosing: &[Enclosing<'d, 'a, S>],
    group: GroupNo,
) -> Result<Taken<'a, R::Node, S>, AllocError>
    requires ready { IsReadyWalk S.shown R.possible R.values (R.world walk.now.collector.possible) walk.now }
    requires standing { IsStanding S.shown walk.now.collector (R.asks walk.now.collector.possible) (R.possible walk.now.collector.possible) plan.now }
    requires bound { group.0 < group_count plan.now }
    requires whole { IsGroupOf (key_at plan.now group.0) (occurrences (R.possible walk.now.collector.possible) concrete.now
        (all_expanded S.shown walk.now.collector enclosing.now)) (group_at S.shown walk.now plan.now group.0) }
    requires asked { IsAskedAt (R.asks walk.now.collector.possible) concrete.now plan.now group.0
        (group_at S.shown walk.now plan.now group.0) }
    ensures { IfOk result (λ a. IsTaken (R.world walk.now.collector.possible) S.shown (path_place path.now.value) concrete.now node.now
        (key_at plan.now group.0) (group_at S.shown walk.now plan.now group.0) a) }
{
    let alloc = walk.alloc;
    let fields = plan.fields(group);
    let first = fields[0].field;
    let here = step_below(path, first)?;
    let site = Site {
        fragments: walk.collector.fragments.by_name(),
        path: &here,
        enclosing,
        occurrences: fields,
    };
    let question = plan.question(group);
    let told = walk
        .collector
        .possible
        .resolve_field_value(alloc, question, concrete, node, &site);
    let taken = take(walk, plan, path, group, told)?;
    Ok(taken)
}

/// What a node answered to a group, taken apart where it is more than a scalar that fits. What fails is listed where the first of its fields starts.
pub(crate) fn take<'d, 'a, S: ScalarValue, R: Resolver<S>>(
    walk: &Walk<'_, 'd, 'a, S, R>,
    plan: &Plan<'d, 'a, S, R::Question>,
    path: &Rc<FieldPath<'a>>,
    group: GroupNo,
    told: Asked<'_, R::Node, S>,
) -> Result<Taken<'a, R::Node, S>, AllocError>
    requires standing { IsStanding S.shown walk.now.collector (R.asks walk.now.collector.possible) (R.possible walk.now.collector.possible) plan.now }
    requires bound { group.0 < group_count plan.now }
    requires some { HasFirst (group_at S.shown walk.now plan.now group.0) }
    ensures { TakesTold (R.world walk.now.collector.possible) S.shown (path_place path.now.value) (key_at plan.now group.0)
        (group_at S.shown walk.now plan.now group.0) told.entry result }
{
    let alloc = walk.alloc;
    let resolver = &walk.collector.possible;
    match leaf_of(resolver, told) {
        Reply::Leaf(scalar) => Ok(Taken::Leaf(plan.key(group), scalar)),
        Reply::Other(asked) => {
            let first = plan.fields(group)[0].field;
            let here = step_below(path, first)?;
            let declared = asked.declared;
            let place = Rc::new(alloc, here)?;
            let Parted {
                skeleton,
                nodes,
                errors,
            } = part_reply(alloc, resolver, declared, asked.answer, &place)?;
            let listed = list_errors(alloc, first.span.start, &errors)?;
            Ok(Taken::Apart(Prepared {
                key: plan.key(group),
                is_non_null: declared.is_non_null(),
                skeleton,
                nodes,
                errors: listed,
            }))
        }
    }
}
