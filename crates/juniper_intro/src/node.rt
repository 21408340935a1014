//! The nodes of a root (section 4 of the Specification).

use crate::handle::Handle;

/// What stands for an object under a root.
#[derive(Drop)]
pub enum RootedNode<N> {
    /// The root, which stands for the query's own root.
    Root,
    /// A node of the query's resolver.
    User(N),
    /// A node of introspection.
    Introspected(Handle),
}
