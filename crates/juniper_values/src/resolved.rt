//! What resolvers answer (section 6.4.2 of the Specification).

/// An answer, of which the executor alone walks on: it completes the answer against the field's declared type.
#[derive(Debug, Drop)]
pub enum Resolved<N, S> {
    /// Null.
    Null,
    /// A scalar, or the name of an enum's value as a text.
    Scalar(S),
    /// A list.
    List(Vec<Resolved<N, S>>),
    /// An object, by what stands for it.
    Node(N),
}
