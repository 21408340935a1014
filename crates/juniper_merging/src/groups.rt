//! Numbers in groups, each by a number.

ghost use Rattle.std.specs.Prelude.{◌≡◌, ℕ, OnOk, cond, nat_eq, []};
ghost use Rattle.juniper_merging.specs.Groups.{group_in};

use std::alloc::{AllocError, Global};
use std::collections::HashMap;

/// Numbers of fields, by the number of their response key. A key that is missing has none.
pub type Groups = HashMap<usize, Vec<usize>>;

/// Takes the numbers at a response key out: the key then has none, and the others keep theirs.
pub fn take_group(alloc: Global, groups: &mut Groups, key: usize) -> Vec<usize>
    ensures numbers { result.items ≡ group_in groups.old key }
    ensures taken { (k : ℕ) → group_in groups.new k ≡ cond (nat_eq key k) [] (group_in groups.old k) }
{
    match groups.remove(&key) {
        Some(group) => group,
        None => Vec::new(alloc),
    }
}

/// Puts numbers at a response key, in place of those that it has; the other keys keep theirs. An error where memory is
/// refused.
pub fn put_group(groups: &mut Groups, key: usize, group: Vec<usize>) -> Result<(), AllocError>
    ensures { OnOk result ((k : ℕ) → group_in groups.new k ≡ cond (nat_eq key k) group.items (group_in groups.old k)) }
{
    drop(groups.insert(key, group)?);
    Ok(())
}
