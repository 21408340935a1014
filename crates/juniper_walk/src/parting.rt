//! A reply is taken apart from its nodes, and what fails of it is listed (sections 6.4.3 and 6.4.4 of the Specification).

ghost use Rattle.std.specs.Prelude.{◌≡◌, IfOk, map, string_bytes};
ghost use Rattle.juniper_assemble.specs.SkeletonView.{view_fault, view_skeleton};
ghost use Rattle.juniper_assemble.specs.SpotView.{view_faults, view_nodes};
ghost use Rattle.graphql_spec.specs.ExactAnswers.{whole};
ghost use Rattle.graphql_spec.specs.Skeletons.{listed_spots};
ghost use Rattle.juniper_conversions.specs.ErrorView.{view_error, view_listed};
ghost use Rattle.juniper_conversions.specs.PathView.{path_place};
ghost use Rattle.juniper_syntax.specs.Positions.{view_position};
ghost use Rattle.juniper_values.specs.ResolvedView.{Answers};
ghost use Rattle.juniper_syntax.specs.TypeView.{view_type};
ghost use Rattle.juniper_walk.specs.Completing.{IsParted, IsTold, view_errors};

use juniper_assemble::{Completer, Fault, Skeleton, Spot, take_apart};
use juniper_conversions::{ExecutionError, FieldError, FieldPath, ResolveError};
use juniper_syntax::{ScalarValue, SourcePosition, Type, Value};
use juniper_values::Resolved;
use std::alloc::{AllocError, Global};
use std::rc::Rc;

/// A reply without the objects of its nodes.
#[derive(Drop)]
pub struct Parted<'a, N, S> {
    /// The answer, with a hole for each node.
    pub skeleton: Skeleton<S>,
    /// The nodes, each at its place.
    pub nodes: Vec<Spot<'a, N>>,
    /// The errors of what fails apart from them, each at its place.
    pub errors: Vec<Spot<'a, FieldError<S>>>,
}

/// A reply at a declared type and a path, taken apart; an error where memory was refused to it, or is refused here.
pub fn part_reply<'a, S: ScalarValue, C: Completer<S>>(
    alloc: Global,
    completer: &C,
    declared: &Type<String>,
    answer: Result<Resolved<C::Node, S>, ResolveError<S>>,
    path: &Rc<FieldPath<'a>>,
) -> Result<Parted<'a, C::Node, S>, AllocError>
    ensures told { IfOk result (λ _. IsTold answer) }
    ensures parted { (reply : _) → Answers S.shown answer reply → IfOk result (λ p. IsParted (C.world completer.now) (path_place path.now.value)
        (view_type (λ n. string_bytes n) declared.now) reply (view_skeleton S.shown p.skeleton) (view_nodes p.nodes.items)
        (view_errors S.shown p.errors.items)) }
{
    let mut nodes = Vec::new(alloc);
    match answer {
        Ok(resolved) => {
            let mut faults = Vec::new(alloc);
            let skeleton = take_apart(
                alloc,
                completer,
                declared,
                resolved,
                path,
                &mut nodes,
                &mut faults,
            )?;
            let errors = fault_errors(alloc, &faults)?;
            Ok(Parted {
                skeleton,
                nodes,
                errors,
            })
        }
        Err(ResolveError::Field(error)) => {
            let mut errors = Vec::new(alloc);
            let here = path.clone()?;
            errors.push(Spot {
                path: here,
                what: error,
            })?;
            Ok(Parted {
                skeleton: Skeleton::Absent,
                nodes,
                errors,
            })
        }
        Err(ResolveError::Memory) => Err(AllocError),
    }
}

/// The field errors of faults, each at its place.
fn fault_errors<'a, S: ScalarValue>(
    alloc: Global,
    faults: &[Spot<'a, Fault>],
) -> Result<Vec<Spot<'a, FieldError<S>>>, AllocError>
    ensures { IfOk result (λ made. view_errors S.shown made.items ≡ view_faults faults.now) }
{
    if faults.is_empty() {
        return Ok(Vec::new(alloc));
    }
    let mut made = Vec::with_capacity(alloc, faults.len())?;
    for fault in faults {
        let error = fault_error(alloc, fault.what)?;
        let path = fault.path.clone()?;
        made.push(Spot { path, what: error })?;
    }
    Ok(made)
}

/// The field error of a fault.
fn fault_error<S: ScalarValue>(alloc: Global, fault: Fault) -> Result<FieldError<S>, AllocError>
    ensures { IfOk result (λ e. view_error S.shown e ≡ view_fault fault) }
{
    match fault {
        Fault::WrongShape => {
            let error = FieldError::new(alloc, "Answer of a wrong shape", Value::Null)?;
            Ok(error)
        }
        Fault::NullAtNonNull => {
            let error = FieldError::new(alloc, "Null at a non-null place", Value::Null)?;
            Ok(error)
        }
    }
}

/// The errors of one field, each listed at its path, where the field starts.
#[tactic(auto, unfolding(graphql_spec::specs::Skeletons::listed_spots))]
pub fn list_errors<S: ScalarValue>(
    alloc: Global,
    start: SourcePosition,
    errors: &[Spot<'_, FieldError<S>>],
) -> Result<Vec<ExecutionError<S>>, AllocError>
    ensures { IfOk result (λ made. map (view_listed S.shown) made.items
        ≡ listed_spots whole (view_position start) (view_errors S.shown errors.now)) }
{
    let mut made = Vec::with_capacity(alloc, errors.len())?;
    for error in errors {
        let parts = error.path.as_ref().parts(alloc)?;
        let copy = error.what.try_clone(alloc)?;
        let listed = ExecutionError::new(alloc, start, &parts, copy)?;
        made.push(listed)?;
    }
    Ok(made)
}
