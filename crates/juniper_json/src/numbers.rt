//! Which numbers stand in a JSON value.

ghost use Rattle.std.specs.Prelude.{◌≡◌};
ghost use Rattle.juniper_json.specs.Given.{all_items, all_members, all_numbers, as_int, int_in, is_integer, is_minus_zero};
ghost use Rattle.juniper_json.specs.Wanted.{is_wanted};
ghost use Rattle.serde_json.specs.View.{items_view, members_view, number_view, view};

use crate::convert::Members;
use serde_json::{Number, Value};

/// What a number should be.
#[derive(Clone, Copy, Drop)]
pub enum Wanted {
    /// An integer: no float, or `-0`.
    Integer,
    /// An Int (3.5.1).
    Int,
}

/// The Int that a number is; `None` where it is none (3.5.1).
pub fn int_in(number: &Number) -> Option<i32>
    ensures { result ≡ int_in (number_view number.now) }
{
    if is_minus_zero(number) {
        return Some(0);
    }
    match number.as_i64() {
        Some(wide) => as_int(wide),
        None => None,
    }
}

/// The Int that an integer is; `None` where 32 bits do not hold it.
fn as_int(wide: i64) -> Option<i32>
    ensures { result ≡ as_int wide }
{
    i32::try_from(wide).ok()
}

/// Whether a number is `-0`, which is read as a float.
#[tactic(auto, unfolding(crate::specs::Given::is_minus_zero))]
fn is_minus_zero(number: &Number) -> bool
    ensures { result ≡ is_minus_zero (number_view number.now) }
{
    match number.as_f64() {
        Some(float) => float == 0.0 && float.is_sign_negative(),
        None => false,
    }
}

/// Whether a number is written as an integer that 64 bits hold.
fn is_integer(number: &Number) -> bool
    ensures { result ≡ is_integer (number_view number.now) }
{
    !number.is_f64() || is_minus_zero(number)
}

/// Whether a number is what it should be.
#[tactic(auto, unfolding(crate::specs::Wanted::is_wanted))]
fn is_wanted(wanted: Wanted, number: &Number) -> bool
    ensures { result ≡ is_wanted wanted (number_view number.now) }
{
    match wanted {
        Wanted::Integer => is_integer(number),
        Wanted::Int => int_in(number).is_some(),
    }
}

/// Whether each number in the value is what it should be.
#[cycle(all_numbers)]
#[tactic(auto, unfolding(crate::specs::Given::all_numbers))]
pub fn all_numbers(wanted: Wanted, value: &Value) -> bool
    ensures { result ≡ all_numbers (is_wanted wanted) (view value.now) }
{
    match value {
        Value::Null | Value::Bool(_) | Value::String(_) => true,
        Value::Number(number) => is_wanted(wanted, number),
        Value::Array(items) => all_items(wanted, items),
        Value::Object(members) => all_members(wanted, members),
    }
}

#[cycle(all_numbers)]
#[tactic(auto, unfolding(crate::specs::Given::all_numbers))]
fn all_items(wanted: Wanted, items: &Vec<Value>) -> bool
    ensures { result ≡ all_items (is_wanted wanted) (items_view items.now.items) }
{
    for item in items {
        if !all_numbers(wanted, item) {
            return false;
        }
    }
    true
}

/// Whether each number in the members is what it should be.
#[cycle(all_numbers)]
#[tactic(auto, unfolding(crate::specs::Given::all_numbers))]
pub fn all_members(wanted: Wanted, members: &Members) -> bool
    ensures { result ≡ all_members (is_wanted wanted) (members_view members.now.entries) }
{
    for (_name, value) in members.iter() {
        if !all_numbers(wanted, value) {
            return false;
        }
    }
    true
}
