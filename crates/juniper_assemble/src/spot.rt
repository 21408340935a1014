//! What stands at a place of an answer (section 7.1.2 of the Specification).

ghost use Rattle.std.specs.Prelude.{◌≡◌, ◌++◌, IfOk, map};
ghost use Rattle.graphql_spec.specs.Errors.{index};
ghost use Rattle.juniper_conversions.specs.PathView.{path_place};

use juniper_conversions::FieldPath;
use std::alloc::{AllocError, Global};
use std::rc::Rc;

/// Something at a place of an answer.
#[derive(Drop)]
pub struct Spot<'a, T> {
    /// The response keys and the positions in lists from the root to it.
    pub path: Rc<FieldPath<'a>>,
    /// What stands there.
    pub what: T,
}

/// The path to the item at these positions of lists within lists; an error where memory is refused.
pub(crate) fn path_within<'a>(
    alloc: Global,
    path: &Rc<FieldPath<'a>>,
    positions: &[usize],
) -> Result<Rc<FieldPath<'a>>, AllocError>
    ensures { IfOk result (λ made. path_place made.value ≡ path_place path.now.value ++ map index positions.now) }
{
    let mut made = path.clone()?;
    for position in positions {
        made = Rc::new(alloc, FieldPath::Item(*position, made))?;
    }
    Ok(made)
}
