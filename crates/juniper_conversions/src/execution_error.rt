//! Errors of an execution as an answer lists them (section 7.1.2 of the Specification).

ghost use Rattle.std.specs.Prelude.{◌≡◌, IfOk, map, []};
ghost use Rattle.graphql_spec.specs.Errors.{compare};
ghost use Rattle.graphql_spec.specs.Positions.{origin};
ghost use Rattle.juniper_syntax.specs.Positions.{view_position};
ghost use Rattle.juniper_conversions.specs.ErrorView.{view_error, view_listed};
ghost use Rattle.juniper_conversions.specs.SegmentView.{view_part, view_segment};

use crate::field_error::FieldError;
use crate::segment::{PathPart, PathSegment, clone_path, own_path};
use juniper_syntax::{ScalarValue, SourcePosition};
use std::alloc::{AllocError, Global};
use std::cmp::Ordering;

/// An error of an execution: the start of the field that it belongs to, the path from the root to it, and the field error.
#[derive(Debug, PartialEq, Eq, Drop)]
pub struct ExecutionError<S> {
    location: SourcePosition,
    path: Vec<PathSegment>,
    error: FieldError<S>,
}

impl<S: ScalarValue> ExecutionError<S> {
    /// The error of the field at this place of the text, at this path from the root; an error where memory is refused.
    pub fn new(
        alloc: Global,
        location: SourcePosition,
        path: &[PathPart<'_>],
        error: FieldError<S>,
    ) -> Result<Self, AllocError>
        ensures { IfOk result (λ made. view_listed S.shown made ≡ record
            { path = map view_part path.now; start = view_position location; error = view_error S.shown error }) }
    {
        let path = own_path(alloc, path)?;
        Ok(ExecutionError {
            location,
            path,
            error,
        })
    }

    /// The error of no field: at the beginning of the text and the root of the answer.
    pub fn at_origin(alloc: Global, error: FieldError<S>) -> Self
        ensures { view_listed S.shown result ≡ record { path = []; start = origin; error = view_error S.shown error } }
    {
        ExecutionError {
            location: SourcePosition::new_origin(),
            path: Vec::new(alloc),
            error,
        }
    }

    /// Where the field starts in the text.
    pub fn location(&self) -> &SourcePosition
        ensures { view_position result.now ≡ (view_listed S.shown self.now).start }
    {
        &self.location
    }

    /// The response keys and the positions in lists, from 0, that lead from the root to what fails.
    pub fn path(&self) -> &[PathSegment]
        ensures { map view_segment result.now ≡ (view_listed S.shown self.now).path }
    {
        self.path.as_slice()
    }

    /// The field error.
    pub fn error(&self) -> &FieldError<S>
        ensures { view_error S.shown result.now ≡ (view_listed S.shown self.now).error }
    {
        &self.error
    }

    /// The order in which errors are listed: by location, then by path, segment by segment and a beginning first, then by
    /// message. A position comes before a key; positions go by number, keys and messages by their bytes. Errors that differ
    /// in their extensions alone compare equal, while `==` tells them apart.
    pub fn compare(&self, other: &ExecutionError<S>) -> Ordering
        ensures { result ≡ compare (view_listed S.shown self.now) (view_listed S.shown other.now) }
    {
        self.location
            .cmp(&other.location)
            .then(self.path.cmp(&other.path))
            .then(self.error.message().cmp(other.error.message()))
    }

    /// An equal error; an error where memory is refused.
    pub fn try_clone(&self, alloc: Global) -> Result<Self, AllocError>
        ensures { IfOk result (λ made. view_listed S.shown made ≡ view_listed S.shown self.now) }
    {
        Ok(ExecutionError {
            location: self.location,
            path: clone_path(alloc, self.path.as_slice())?,
            error: self.error.try_clone(alloc)?,
        })
    }
}
