//! Numbers of response keys.

ghost use Rattle.std.specs.Prelude.{◌≡◌, IfOk};
ghost use Rattle.juniper_field_graph.specs.Keys.{IsNumbered, number_at};

use juniper_syntax::name_number;
use std::alloc::AllocError;
use std::collections::BTreeMap;

/// The number of each response key. They stand in the order of numbers that are made of them, and those for which one number is made in
/// their own order: most look-ups compare numbers alone, and no choice of keys makes them slow.
pub(crate) type KeyNumbers<'d> = BTreeMap<(u64, &'d str), usize>;

/// The number of a response key; one that has none yet takes this number. An error where memory is refused.
pub(crate) fn number_of_key<'d>(
    keys: &mut KeyNumbers<'d>,
    name: &'d str,
    number: usize,
) -> Result<usize, AllocError>
    ensures { IfOk result (λ k. IsNumbered name.now k number (number_at keys.old) (number_at keys.new)) }
{
    let place = (name_number(name), name);
    match keys.get(&place) {
        Some(key) => Ok(*key),
        None => {
            drop(keys.insert(place, number)?);
            Ok(number)
        }
    }
}
