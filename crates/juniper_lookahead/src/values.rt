//! What look-ahead shows of input values (this project's own, after section 6.4.1 of the Specification).

ghost use Rattle.std.specs.Prelude.{◌≡◌, []};

use juniper_syntax::{InputField, InputValue, Span, Spanning, Variables};

/// A value of an argument, or inside one. A variable is its value: it is looked up once, as the value is read, and is null
/// where it has none. Two are equal where they show the same, with their items and fields in the same order at the same places.
#[derive_where(Clone, Copy)]
#[derive_where(Debug; S)]
pub enum LookAheadValue<'a, S> {
    /// Null.
    Null,
    /// An Int, a String or a Boolean.
    Scalar(&'a S),
    /// The name of an enum's value.
    Enum(&'a str),
    /// A list.
    List(LookAheadList<'a, S>),
    /// An object.
    Object(LookAheadObject<'a, S>),
}

/// A list, whose items are read as they are asked for (2.9.7). The default is empty. Two are equal where their items are, at the
/// same places.
#[derive_where(Clone, Copy)]
#[derive_where(Debug; S)]
pub struct LookAheadList<'a, S> {
    pub(crate) items: &'a [Spanning<InputValue<S>, Span>],
    pub(crate) variables: Option<&'a Variables<S>>,
}

/// An object, whose fields are read as they are asked for (2.9.8). The default is empty. Two are equal where their fields are, in
/// the same order at the same places.
#[derive_where(Clone, Copy)]
#[derive_where(Debug; S)]
pub struct LookAheadObject<'a, S> {
    pub(crate) fields: &'a [InputField<S>],
    pub(crate) variables: Option<&'a Variables<S>>,
}

impl<'a, S> Default for LookAheadList<'a, S> {
    ghost is_default = { λ list. list.items.now ≡ [] };

    fn default() -> Self {
        LookAheadList {
            items: &[],
            variables: None,
        }
    }
}

impl<'a, S> Default for LookAheadObject<'a, S> {
    ghost is_default = { λ object. object.fields.now ≡ [] };

    fn default() -> Self {
        LookAheadObject {
            fields: &[],
            variables: None,
        }
    }
}
