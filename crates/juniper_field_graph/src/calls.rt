//! Numbers of calls (FieldsInSetCanMerge, section 5.3.2 of the Specification).

ghost use Rattle.std.specs.Prelude.{◌≡◌, IfOk};
ghost use Rattle.juniper_field_graph.specs.CallParts.{number_of_parts, view_parts};
ghost use Rattle.juniper_field_graph.specs.Keys.{IsNumbered};

use std::alloc::AllocError;
use std::collections::BTreeMap;

/// A part of a call: of what a field is asked for, and by which arguments. What stands in a list or in an object follows it, up to
/// an end.
#[derive(Clone, Copy, PartialEq, Eq, PartialOrd, Ord)]
pub(crate) enum Part<'d> {
    /// The number of a response key.
    Key(usize),
    /// A field's name, or that of an argument or of an object's field.
    Name(&'d str),
    /// Null (2.9.5).
    Null,
    /// An Int (2.9.1).
    Int(i32),
    /// A String (2.9.4).
    Text(&'d str),
    /// A Boolean (2.9.3).
    Boolean(bool),
    /// An enum's value (2.9.6).
    Enum(&'d str),
    /// A variable (2.10).
    Variable(&'d str),
    /// A list (2.9.7).
    List,
    /// An object (2.9.8).
    Object,
    /// The end of a list, of an object, or of the arguments.
    End,
}

/// The number of each call, by its parts. They are looked up by their order, so that no choice of calls makes it slow.
pub(crate) type CallNumbers<'d> = BTreeMap<Vec<Part<'d>>, usize>;

/// The number of a call; one that has none yet takes this number. An error where memory is refused.
pub(crate) fn number_of_call<'d>(
    calls: &mut CallNumbers<'d>,
    call: Vec<Part<'d>>,
    number: usize,
) -> Result<usize, AllocError>
    ensures { IfOk result (λ k. IsNumbered (view_parts call.entry.items) k number (number_of_parts calls.old) (number_of_parts calls.new)) }
{
    match calls.get(&call) {
        Some(known) => Ok(*known),
        None => {
            drop(calls.insert(call, number)?);
            Ok(number)
        }
    }
}
