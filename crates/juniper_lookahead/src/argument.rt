//! An argument as look-ahead holds it.

use juniper_syntax::{InputValue, Span, Spanning, Variables};

/// An argument of a field (2.6), with the values of the variables that stand in its value.
#[derive_where(Clone, Copy)]
#[derive_where(Debug; S)]
pub struct LookAheadArgument<'r, 'a, S> {
    pub(crate) name: &'r Spanning<&'a str, Span>,
    pub(crate) value: &'r Spanning<InputValue<S>, Span>,
    pub(crate) variables: &'r Variables<S>,
}
