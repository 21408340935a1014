//! What converts to a resolver's answer (section 6.4.2 of the Specification).

ghost use Rattle.graphql_spec.specs.Resolvers.{Reply};
ghost use Rattle.juniper_values.specs.ResolvedView.{Answers};

use crate::ResolveError;
use crate::resolved::Resolved;
use juniper_syntax::ScalarValue;
use std::alloc::Global;

/// A type that a resolver's answer is made of.
pub trait IntoResolvable<N, S: ScalarValue> {
    /// The reply that it stands for.
    ghost resolves: { Self → Reply N };

    /// The answer, or the error with which the field fails; `ResolveError::Memory` where memory is refused.
    fn into_resolvable(self, alloc: Global) -> Result<Resolved<N, S>, ResolveError<S>>
        ensures { Answers S.shown result (resolves self) };
}

/// Itself.
impl<N, S: ScalarValue> IntoResolvable<N, S> for Resolved<N, S> {
    ghost use Rattle.graphql_spec.specs.Resolvers.{answered};
    ghost use Rattle.juniper_values.specs.ResolvedView.{view_resolved};

    ghost resolves = { λ resolved. answered (view_resolved S.shown resolved) };

    fn into_resolvable(self, _alloc: Global) -> Result<Resolved<N, S>, ResolveError<S>> {
        Ok(self)
    }
}

/// An object, by what stands for it.
#[derive(Clone, Copy, Debug, PartialEq, Eq, Drop)]
pub struct OfNode<N>(pub N);

/// The object of its node.
impl<N, S: ScalarValue> IntoResolvable<N, S> for OfNode<N> {
    ghost use Rattle.graphql_spec.specs.Resolvers.{answered, node};

    ghost resolves = { λ object. answered (node object.0) };

    fn into_resolvable(self, _alloc: Global) -> Result<Resolved<N, S>, ResolveError<S>> {
        Ok(Resolved::Node(self.0))
    }
}
