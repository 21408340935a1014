//! Scalars as answers (section 3.5 of the Specification).

ghost use Rattle.std.specs.Prelude.{string_bytes};
ghost use Rattle.graphql_spec.specs.Resolvers.{answered, leaf};
ghost use Rattle.graphql_spec.specs.Shown.{boolean, int, text};
ghost use Rattle.juniper_conversions.specs.IdText.{id_text};

use crate::ResolveError;
use crate::into_resolvable::IntoResolvable;
use crate::resolved::Resolved;
use juniper_conversions::ID;
use juniper_syntax::ScalarValue;
use std::alloc::Global;

/// An Int (3.5.1).
impl<N, S: ScalarValue> IntoResolvable<N, S> for i32 {
    ghost resolves = { λ n. answered (leaf (int n)) };

    fn into_resolvable(self, _alloc: Global) -> Result<Resolved<N, S>, ResolveError<S>> {
        Ok(Resolved::Scalar(S::from_int(self)))
    }
}

/// A Boolean (3.5.4).
impl<N, S: ScalarValue> IntoResolvable<N, S> for bool {
    ghost resolves = { λ b. answered (leaf (boolean b)) };

    fn into_resolvable(self, _alloc: Global) -> Result<Resolved<N, S>, ResolveError<S>> {
        Ok(Resolved::Scalar(S::from_bool(self)))
    }
}

/// A String (3.5.3).
impl<N, S: ScalarValue> IntoResolvable<N, S> for String {
    ghost resolves = { λ s. answered (leaf (text (string_bytes s))) };

    fn into_resolvable(self, _alloc: Global) -> Result<Resolved<N, S>, ResolveError<S>> {
        Ok(Resolved::Scalar(S::from_text(self)?))
    }
}

/// An ID, by its text (3.5.5).
impl<N, S: ScalarValue> IntoResolvable<N, S> for ID {
    ghost resolves = { λ id. answered (leaf (text (id_text id))) };

    fn into_resolvable(self, _alloc: Global) -> Result<Resolved<N, S>, ResolveError<S>> {
        Ok(Resolved::Scalar(S::from_text(String::from(self))?))
    }
}
