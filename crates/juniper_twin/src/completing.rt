//! A reply is completed for all occurrences of a response key (CompleteValue and MergeSelectionSets, section 6.4.3 of the
//! Specification).

ghost use Rattle.std.specs.Prelude.{◌≡◌, IfOk, string_bytes, true};
ghost use Rattle.graphql_spec.specs.GroupLaws.{all_starts};
ghost use Rattle.graphql_spec.specs.Laws.{In, Merges};
ghost use Rattle.graphql_spec.specs.Selections as spec;
ghost use Rattle.graphql_spec.specs.Selections.{all_below};
ghost use Rattle.graphql_spec.specs.Types.{innermost};
ghost use Rattle.juniper_assemble.specs.Keyed.{is_keyed};
ghost use Rattle.juniper_assemble.specs.SpotView.{view_nodes};
ghost use Rattle.juniper_lookahead.specs.Collected.{view_collected};
ghost use Rattle.juniper_conversions.specs.PathView.{path_place};
ghost use Rattle.juniper_syntax.specs.TypeView.{view_type};
ghost use Rattle.juniper_syntax.specs.ValueView.{view_value};
ghost use Rattle.juniper_walk.specs.Completing.{CompletesAsked, IsTold};
ghost use Rattle.juniper_twin.specs.Completing.{AreAllOf, IsOneOf, view_group};
ghost use Rattle.juniper_walk.specs.Walking.{IsReadyWalk};
ghost use Rattle.juniper_twin.specs.Walking.{AreReached};

use crate::walking::objects_of;
use juniper_assemble::{fill, join};
use juniper_conversions::FieldPath;
use juniper_lookahead::Occurrence;
use juniper_syntax::{Field, ScalarValue, Span, Spanning};
use juniper_walk::{Asked, Parted, Resolver, Walk, Walked, list_errors, part_reply};
use std::alloc::AllocError;
use std::rc::Rc;

/// The fields of one response key.
#[derive(Drop)]
pub struct Group<'g, 'd, 'a, S> {
    /// The first of them.
    pub first: &'d Spanning<Field<'a, S>, Span>,
    /// Those that follow.
    pub others: &'g [Occurrence<'d, 'a, S>],
}

/// The value of what a field answers, and the errors of what fails in it, for all of its occurrences: the nodes are walked for
/// what each selects, one occurrence after the other, and the values are joined. An error where memory was refused to the
/// answer, or is refused here.
pub fn complete_value<'d, 'a, S: ScalarValue, R: Resolver<S>>(
    walk: &Walk<'_, 'd, 'a, S, R>,
    path: &Rc<FieldPath<'a>>,
    asked: Asked<'_, R::Node, S>,
    group: &Group<'_, 'd, 'a, S>,
) -> Result<Walked<S>, AllocError>
    requires ready { IsReadyWalk S.shown R.possible R.values (R.world walk.now.collector.possible) walk.now }
    requires merge { Merges (R.world walk.now.collector.possible) (innermost (view_type (λ n. string_bytes n) asked.declared.now))
        (all_below (view_group S.shown walk.now.collector group.now)) }
    ensures keyed { IfOk result (λ w. is_keyed (view_value S.shown w.value) ≡ true) }
    ensures told { IfOk result (λ _. IsTold asked.entry.answer) }
    ensures completed { CompletesAsked S.shown all_starts (R.world walk.now.collector.possible) (path_place path.now.value)
        (view_group S.shown walk.now.collector group.now) asked.entry result }
{
    let Asked { declared, answer } = asked;
    let parted = part_reply(walk.alloc, &walk.collector.possible, declared, answer, path)?;
    let walked = complete_all(walk, &parted, group)?;
    Ok(walked)
}

/// A reply that was taken apart, for the first occurrence and then for the others.
fn complete_all<'d, 'a, S: ScalarValue, R: Resolver<S>>(
    walk: &Walk<'_, 'd, 'a, S, R>,
    parted: &Parted<'a, R::Node, S>,
    group: &Group<'_, 'd, 'a, S>,
) -> Result<Walked<S>, AllocError>
    requires ready { IsReadyWalk S.shown R.possible R.values (R.world walk.now.collector.possible) walk.now }
    requires reached { (o : spec.Occurrence) → In o (view_group S.shown walk.now.collector group.now) →
        AreReached (R.world walk.now.collector.possible) (view_nodes parted.now.nodes.items) o.below }
    ensures { IfOk result (λ w. AreAllOf (R.world walk.now.collector.possible) S.shown parted.now (view_group S.shown walk.now.collector group.now) w) }
{
    let Walked {
        mut value,
        mut errors,
    } = complete_one(walk, parted, group.first)?;
    for occurrence in group.others {
        let more = complete_one(walk, parted, occurrence.field)?;
        let mut listed = more.errors;
        errors.append(&mut listed)?;
        value = join(walk.alloc, value, more.value)?;
    }
    Ok(Walked { value, errors })
}

/// A reply that was taken apart, for one occurrence: the nodes are walked for what it selects.
fn complete_one<'d, 'a, S: ScalarValue, R: Resolver<S>>(
    walk: &Walk<'_, 'd, 'a, S, R>,
    parted: &Parted<'a, R::Node, S>,
    field: &'d Spanning<Field<'a, S>, Span>,
) -> Result<Walked<S>, AllocError>
    requires ready { IsReadyWalk S.shown R.possible R.values (R.world walk.now.collector.possible) walk.now }
    requires reached { AreReached (R.world walk.now.collector.possible) (view_nodes parted.now.nodes.items)
        (view_collected S.shown walk.now.collector field.now).below }
    ensures { IfOk result (λ w. IsOneOf (R.world walk.now.collector.possible) S.shown parted.now
        (view_collected S.shown walk.now.collector field.now) w) }
{
    let mut errors = list_errors(walk.alloc, field.span.start, &parted.errors)?;
    let walked = objects_of(walk, &parted.nodes, field)?;
    let mut below = walked.errors;
    errors.append(&mut below)?;
    let skeleton = parted.skeleton.try_clone(walk.alloc)?;
    let mut values = walked.values.into_iter();
    let value = fill(walk.alloc, skeleton, &mut values)?;
    Ok(Walked { value, errors })
}
