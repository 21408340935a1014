//! Where a field, or an item of its list, stands under the root of a request (section 7.1.2 of the Specification).

ghost use Rattle.std.specs.Prelude.{◌≡◌, IfOk, map};
ghost use Rattle.juniper_conversions.specs.PathView.{path_place, path_starts};
ghost use Rattle.juniper_conversions.specs.SegmentView.{view_part};

use crate::segment::PathPart;
use juniper_syntax::SourcePosition;
use std::alloc::{AllocError, Global};
use std::rc::Rc;

/// The steps from the root to a field or to an item of a list, the last first; each field with its start. A copy shares its
/// parent.
#[derive(Drop)]
pub enum FieldPath<'a> {
    /// The root, with the start of what is executed there.
    Root(SourcePosition),
    /// The field of this response key and this start, below its parent.
    Field(&'a str, SourcePosition, Rc<FieldPath<'a>>),
    /// The item at this position, counted from 0, of the list that is its parent; it starts where that does.
    Item(usize, Rc<FieldPath<'a>>),
}

impl<'a> FieldPath<'a> {
    /// The response keys and the positions in lists from the root, in order; an error where memory is refused.
    pub fn parts(&self, alloc: Global) -> Result<Vec<PathPart<'a>>, AllocError>
        ensures { IfOk result (λ made. map view_part made.items ≡ path_place self.now) }
    {
        match self {
            FieldPath::Root(_) => Ok(Vec::new(alloc)),
            FieldPath::Field(key, _, parent) => {
                let mut parts = parent.parts(alloc)?;
                parts.push(PathPart::Key(*key))?;
                Ok(parts)
            }
            FieldPath::Item(position, parent) => {
                let mut parts = parent.parts(alloc)?;
                parts.push(PathPart::Index(*position))?;
                Ok(parts)
            }
        }
    }
}

impl<'a> Clone for FieldPath<'a> {
    ghost is_clone = { λ path copy. (path_place copy ≡ path_place path) × (path_starts copy ≡ path_starts path) };

    /// A path of the same steps and starts, which shares its parent.
    fn clone(&self) -> Result<FieldPath<'a>, AllocError> {
        match self {
            FieldPath::Root(start) => Ok(FieldPath::Root(*start)),
            FieldPath::Field(key, start, parent) => Ok(FieldPath::Field(
                key,
                *start,
                parent.clone()?,
            )),
            FieldPath::Item(position, parent) => Ok(FieldPath::Item(*position, parent.clone()?)),
        }
    }
}
