//! Selection sets that are put together.

/// A field of a node, at one place or at several, which differ in nothing but what they select.
#[derive(Clone, Copy)]
pub(crate) struct Entry {
    /// The number of the field at the first of these places.
    pub(crate) field: usize,
    /// The node of all that they select, if they select anything.
    pub(crate) child: Option<usize>,
    /// Whether there are several places.
    pub(crate) is_many: bool,
}

/// One selection set, or several that are put together, since fields of one response key that differ in nothing else select them: it has
/// fields alone, or nodes alone of which it is made.
#[derive(Drop)]
pub(crate) struct Node {
    /// Its fields.
    pub(crate) entries: Vec<Entry>,
    /// The nodes of which it is made.
    pub(crate) parts: Vec<usize>,
}
