//! Names that stand twice in a list.

ghost use Rattle.std.specs.Prelude.{◌≡◌, IfOk};
ghost use Rattle.graphql_spec.specs.Written.{repeats};
ghost use Rattle.juniper_written.specs.WrittenView.{view_names};

use crate::name_set::NameSet;
use std::alloc::{AllocError, Global};

/// Whether one of the names stands twice; the time grows with their number. An error where memory is refused.
pub fn repeats(alloc: Global, names: &[&str]) -> Result<bool, AllocError>
    ensures { IfOk result (λ b. b ≡ repeats (view_names names.now)) }
{
    let mut seen = NameSet::new(alloc);
    let mut left = names;
    while let [name, others @ ..] = left {
        if !seen.insert(*name)? {
            return Ok(true);
        }
        left = others;
    }
    Ok(false)
}
