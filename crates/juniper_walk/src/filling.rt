//! The objects of nodes fill the holes of an answer, and what fails in them is listed (sections 6.4.3 and 6.4.4 of the Specification).

ghost use Rattle.std.specs.Prelude.{IfOk};
ghost use Rattle.std.specs.Vec.Iter.{into_iter_items};
ghost use Rattle.juniper_assemble.specs.SkeletonView.{IsFilledFrom, view_skeleton};
ghost use Rattle.graphql_spec.specs.Skeletons.{fill};
ghost use Rattle.juniper_syntax.specs.ValueView.{view_value};
ghost use Rattle.juniper_walk.specs.Holes.{AreTaken, holes_of};
ghost use Rattle.juniper_walk.specs.Rows.{values_of};

use crate::Walked;
use juniper_assemble::{Skeleton, whole};
use juniper_conversions::ExecutionError;
use juniper_syntax::{ScalarValue, Value};
use std::alloc::{AllocError, Global};
use std::vec;

/// The value of a skeleton whose holes take the first of these objects in order; they are handed over, and what failed in them is put behind
/// these errors. A list is null where an item is null that may not be.
pub(crate) fn fill_walked<S: ScalarValue>(
    alloc: Global,
    skeleton: Skeleton<S>,
    objects: &mut vec::IntoIter<Walked<S>>,
    errors: &mut Vec<ExecutionError<S>>,
) -> Result<Value<S>, AllocError>
    ensures value { IfOk result (λ v. IsFilledFrom (fill (view_skeleton S.shown skeleton) (values_of S.shown (into_iter_items objects.old)))
        (view_value S.shown v) (values_of S.shown (into_iter_items objects.new))) }
    ensures taken { IfOk result (λ _. AreTaken S.shown (holes_of (view_skeleton S.shown skeleton)) (into_iter_items objects.old)
        (into_iter_items objects.new) errors.old.items errors.new.items) }
{
    match skeleton {
        Skeleton::Absent => Ok(Value::Null),
        Skeleton::Filled(scalar) => Ok(Value::Scalar(scalar)),
        Skeleton::Several(is_non_null, items) => {
            let mut made = Vec::with_capacity(alloc, items.len())?;
            for item in items {
                let value = fill_walked(alloc, item, objects, errors)?;
                made.push(value)?;
            }
            Ok(whole(is_non_null, made))
        }
        Skeleton::Hole => match objects.next() {
            Some(walked) => {
                let mut below = walked.errors;
                errors.append(&mut below)?;
                Ok(walked.value)
            }
            None => Ok(Value::Null),
        },
    }
}
