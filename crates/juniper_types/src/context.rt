//! What requests bring along, and what of it a resolver asks for.

ghost use Rattle.std.specs.Prelude.{◌≡◌};

/// What requests bring along.
pub trait Context {}

impl<'c, C: Context> Context for &'c C {}

/// What a resolver takes of contexts of type `T`.
pub trait FromContext<T> {
    /// What is taken of a context.
    ghost taken: { T → Self };

    /// What is taken of this context.
    fn from(value: &T) -> &Self
        ensures { result.now ≡ taken value.now };
}

/// All of it.
impl<T: Context> FromContext<T> for T {
    ghost taken = { λ value. value };

    fn from(value: &T) -> &T {
        value
    }
}
