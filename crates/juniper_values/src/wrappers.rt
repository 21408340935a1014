//! Nullable values, lists, results, and what stands for the value inside, as answers (sections 3.11, 3.12 and 6.4.4 of the
//! Specification).

ghost use Rattle.std.specs.Prelude.{map};
ghost use Rattle.juniper_conversions.specs.Nullable.{some};
ghost use Rattle.juniper_values.specs.Replies.{list_reply, option_reply, result_reply};

use crate::into_resolvable::IntoResolvable;
use crate::resolved::Resolved;
use crate::{IntoFieldError, ResolveError};
use juniper_conversions::Nullable;
use juniper_syntax::ScalarValue;
use std::alloc::Global;

/// Null for `None`, else as the value inside (3.12).
impl<T: IntoResolvable<N, S>, N, S: ScalarValue> IntoResolvable<N, S> for Option<T> {
    ghost resolves = { option_reply T.resolves };

    fn into_resolvable(self, alloc: Global) -> Result<Resolved<N, S>, ResolveError<S>> {
        match self {
            Some(value) => value.into_resolvable(alloc),
            None => Ok(Resolved::Null),
        }
    }
}

/// Null for both nulls, else as the value inside (3.12).
impl<T: IntoResolvable<N, S>, N, S: ScalarValue> IntoResolvable<N, S> for Nullable<T> {
    ghost resolves = { λ n. option_reply T.resolves (some n) };

    fn into_resolvable(self, alloc: Global) -> Result<Resolved<N, S>, ResolveError<S>> {
        self.some().into_resolvable(alloc)
    }
}

/// The list of what its items answer, in order, or the error of the first item that fails (3.11).
impl<T: IntoResolvable<N, S> + Drop, N: Drop, S: ScalarValue> IntoResolvable<N, S> for Vec<T> {
    ghost resolves = { λ v. list_reply (map T.resolves v.items) };

    fn into_resolvable(self, alloc: Global) -> Result<Resolved<N, S>, ResolveError<S>> {
        let mut items = Vec::new(alloc);
        for item in self {
            items.push(item.into_resolvable(alloc)?)?;
        }
        Ok(Resolved::List(items))
    }
}

/// As the value inside.
impl<T: IntoResolvable<N, S>, N, S: ScalarValue> IntoResolvable<N, S> for Box<T> {
    ghost resolves = { λ b. T.resolves b.value };

    fn into_resolvable(self, alloc: Global) -> Result<Resolved<N, S>, ResolveError<S>> {
        Box::into_inner(self).into_resolvable(alloc)
    }
}

/// As the value, or the error that the error becomes (6.4.4).
impl<T: IntoResolvable<N, S>, E: IntoFieldError<S>, N, S: ScalarValue> IntoResolvable<N, S>
    for Result<T, E> {
    ghost resolves = { result_reply T.resolves E.becomes };

    fn into_resolvable(self, alloc: Global) -> Result<Resolved<N, S>, ResolveError<S>> {
        match self {
            Ok(value) => value.into_resolvable(alloc),
            Err(error) => Err(ResolveError::Field(error.into_field_error(alloc)?)),
        }
    }
}
