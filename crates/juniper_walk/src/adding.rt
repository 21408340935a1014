//! What was walked of a group is added to its object (section 6.4.4 of the Specification).

ghost use Rattle.std.specs.Prelude.{◌≡◌, ◌&&◌, IfOk, OnOk, drop};
ghost use Rattle.std.specs.Vec.Iter.{into_iter_items};
ghost use Rattle.graphql_spec.specs.Values.{is_null, put, scalar as leaf};
ghost use Rattle.juniper_syntax.specs.ValueView.{view_object, view_value};
ghost use Rattle.juniper_assemble.specs.SkeletonView.{view_skeleton};
ghost use Rattle.juniper_walk.specs.Holes.{holes_of};
ghost use Rattle.juniper_walk.specs.Rows.{IsPutWith};

use crate::filling::fill_walked;
use crate::preparing::Prepared;
use crate::walked::Walked;
use juniper_conversions::ExecutionError;
use juniper_syntax::{Object, ScalarValue, Value};
use std::alloc::{AllocError, Global};
use std::vec;

/// Puts a group's answer, with the first of these objects, those of its nodes, into the object, unless its null rises past it (6.4.4); whether it
/// rises. What failed in the objects is listed.
pub(crate) fn add_value<'a, N: Drop, S: ScalarValue>(
    alloc: Global,
    entries: &mut Object<S>,
    errors: &mut Vec<ExecutionError<S>>,
    prepared: Prepared<'a, N, S>,
    objects: &mut vec::IntoIter<Walked<S>>,
) -> Result<bool, AllocError>
    ensures put_in { IfOk result (λ rises. IsPutWith S.shown prepared.entry (into_iter_items objects.old) rises
        entries.old entries.new errors.old.items errors.new.items) }
    ensures left { IfOk result (λ _. into_iter_items objects.new
        ≡ drop (holes_of (view_skeleton S.shown prepared.entry.skeleton)) (into_iter_items objects.old)) }
{
    let key = prepared.key;
    let is_non_null = prepared.is_non_null;
    let mut listed = prepared.errors;
    errors.append(&mut listed)?;
    let value = fill_walked(alloc, prepared.skeleton, objects, errors)?;
    let rises = does_rise(&value, is_non_null);
    if rises {
        return Ok(true);
    }
    entries.put_field(alloc, key, value)?;
    Ok(false)
}

/// Puts a scalar at a key.
pub(crate) fn put_leaf<S: ScalarValue>(
    alloc: Global,
    entries: &mut Object<S>,
    key: &str,
    scalar: S,
) -> Result<(), AllocError>
    ensures { OnOk result (view_object S.shown entries.new ≡ put key.now (leaf (S.shown scalar)) (view_object S.shown entries.old)) }
{
    entries.put_field(alloc, key, Value::Scalar(scalar))
}

/// Whether a null rises past its field: the value is null at a non-null type (6.4.4).
pub fn does_rise<S: ScalarValue>(value: &Value<S>, is_non_null: bool) -> bool
    ensures { result ≡ (is_null (view_value S.shown value.now) && is_non_null) }
{
    value.is_null() && is_non_null
}
