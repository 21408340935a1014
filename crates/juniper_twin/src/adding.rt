//! What was walked of a field is added to its object (section 6.4.4 of the Specification).

ghost use Rattle.std.specs.Prelude.{◌≡◌, ◌++◌, ◌∷◌, [], IfOk, OnOk, IsTrue, map};
ghost use Rattle.graphql_spec.specs.Documents.{response_key as key_of};
ghost use Rattle.graphql_spec.specs.Values.{object};
ghost use Rattle.juniper_syntax.specs.ValueView.{view_object, view_value};
ghost use Rattle.juniper_conversions.specs.ErrorView.{view_listed};
ghost use Rattle.juniper_assemble.specs.Keyed.{is_keyed};
ghost use Rattle.juniper_walk.specs.FieldWords.{head_of};
ghost use Rattle.juniper_twin.specs.Walking.{IsAddedAt, all_keyed};

use crate::preparing::Prepared;
use crate::walking::AllWalked;
use juniper_assemble::{fill, settle};
use juniper_conversions::ExecutionError;
use juniper_syntax::{Field, Object, ScalarValue, Span, Spanning, Value};
use juniper_walk::{Walked, does_rise};
use std::alloc::{AllocError, Global};

/// Adds a field's answer, with the objects of its nodes, to the object; whether its null rises past it (6.4.4).
pub(crate) fn add_field<'a, N: Drop, S: ScalarValue>(
    alloc: Global,
    entries: &mut Object<S>,
    errors: &mut Vec<ExecutionError<S>>,
    field: &Spanning<Field<'a, S>, Span>,
    prepared: Prepared<'a, N, S>,
    walked: AllWalked<S>,
) -> Result<bool, AllocError>
    requires entries { IsTrue (is_keyed (object (view_object S.shown entries.old))) }
    requires walked { IsTrue (all_keyed (map (view_value S.shown) walked.values.items)) }
    ensures { IfOk result (λ rises. IsAddedAt S.shown (key_of (head_of S.shown field.now)) prepared.entry walked rises
        entries.old entries.new errors.old.items errors.new.items) }
{
    let mut listed = prepared.errors;
    errors.append(&mut listed)?;
    let mut below = walked.errors;
    errors.append(&mut below)?;
    let mut values = walked.values.into_iter();
    let value = fill(alloc, prepared.skeleton, &mut values)?;
    let rises = does_rise(&value, prepared.is_non_null);
    if rises {
        return Ok(true);
    }
    let key = String::from_str(alloc, Field::response_key(field))?;
    settle(alloc, entries, key, value)?;
    Ok(false)
}

/// Adds the object of a node, and what fails in it, to those before it.
pub fn add_object<S: ScalarValue>(
    values: &mut Vec<Value<S>>,
    errors: &mut Vec<ExecutionError<S>>,
    walked: Walked<S>,
) -> Result<(), AllocError>
    ensures values { OnOk result (map (view_value S.shown) values.new.items
        ≡ map (view_value S.shown) values.old.items ++ view_value S.shown walked.value ∷ []) }
    ensures errors { OnOk result (map (view_listed S.shown) errors.new.items
        ≡ map (view_listed S.shown) errors.old.items ++ map (view_listed S.shown) walked.errors.items) }
{
    let mut listed = walked.errors;
    errors.append(&mut listed)?;
    values.push(walked.value)?;
    Ok(())
}
