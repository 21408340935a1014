//! The steps of a path from the root of an answer (section 7.1.2 of the Specification).

ghost use Rattle.std.specs.Prelude.{◌≡◌, IfOk, map};
ghost use Rattle.juniper_conversions.specs.SegmentView.{view_part, view_segment};

use std::alloc::{AllocError, Global};

/// A step of a path, as an error holds it. A position comes before a key; positions go by number, keys by their bytes.
#[derive(Debug, PartialEq, Eq, PartialOrd, Ord, Drop)]
pub enum PathSegment {
    /// Into the item of a list that stands at this position, counted from 0.
    Index(usize),
    /// Into the value of a response key.
    Key(String),
}

/// A step of a path, of which an error is made.
#[derive(Clone, Copy, Debug, PartialEq, Eq)]
pub enum PathPart<'a> {
    /// Into the item of a list that stands at this position, counted from 0.
    Index(usize),
    /// Into the value of a response key.
    Key(&'a str),
}

/// The step in memory of its own.
fn own_part(alloc: Global, part: PathPart<'_>) -> Result<PathSegment, AllocError>
    ensures { IfOk result (λ made. view_segment made ≡ view_part part.entry) }
{
    match part {
        PathPart::Index(position) => Ok(PathSegment::Index(position)),
        PathPart::Key(key) => {
            let owned = String::from_str(alloc, key)?;
            Ok(PathSegment::Key(owned))
        }
    }
}

/// The steps, each in memory of its own.
pub(crate) fn own_path(
    alloc: Global,
    parts: &[PathPart<'_>],
) -> Result<Vec<PathSegment>, AllocError>
    ensures { IfOk result (λ made. map view_segment made.items ≡ map view_part parts.now) }
{
    let mut made = Vec::with_capacity(alloc, parts.len())?;
    for part in parts {
        let segment = own_part(alloc, *part)?;
        made.push(segment)?;
    }
    Ok(made)
}

/// An equal step; an error where memory is refused.
fn clone_segment(alloc: Global, segment: &PathSegment) -> Result<PathSegment, AllocError>
    ensures { IfOk result (λ made. view_segment made ≡ view_segment segment.now) }
{
    match segment {
        PathSegment::Index(position) => Ok(PathSegment::Index(*position)),
        PathSegment::Key(key) => {
            let owned = String::from_str(alloc, key.as_str())?;
            Ok(PathSegment::Key(owned))
        }
    }
}

/// The same steps, each in memory of its own.
pub(crate) fn clone_path(
    alloc: Global,
    path: &[PathSegment],
) -> Result<Vec<PathSegment>, AllocError>
    ensures { IfOk result (λ made. map view_segment made.items ≡ map view_segment path.now) }
{
    let mut made = Vec::with_capacity(alloc, path.len())?;
    for segment in path {
        let copy = clone_segment(alloc, segment)?;
        made.push(copy)?;
    }
    Ok(made)
}
