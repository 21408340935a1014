//! What becomes the error of a field (section 6.4.4 of the Specification).

ghost use Rattle.std.specs.Prelude.{◌≡◌, IfOk, string_bytes};
ghost use Rattle.graphql_spec.specs.Resolvers.{Error};
ghost use Rattle.juniper_conversions.specs.ErrorView.{view_error};

use crate::field_error::{FieldError, error_of_message};
use juniper_syntax::ScalarValue;
use std::alloc::{AllocError, Global};
use std::borrow::CowStr;
use std::boxed::BoxedStr;

/// A type that becomes the error of a field.
pub trait IntoFieldError<S: ScalarValue> {
    /// The error that it becomes.
    ghost becomes: { Self → Error };

    /// The error of the field; an error where memory is refused.
    fn into_field_error(self, alloc: Global) -> Result<FieldError<S>, AllocError>
        ensures { IfOk result (λ made. view_error S.shown made ≡ becomes self) };
}

/// The error of the same message whose extensions show the same.
impl<S: ScalarValue, S1: ScalarValue> IntoFieldError<S> for FieldError<S1> {
    ghost becomes = { view_error S1.shown };

    fn into_field_error(self, alloc: Global) -> Result<FieldError<S>, AllocError> {
        self.map_scalar_value(alloc)
    }
}

/// The error of this message, with null for its extensions.
impl<S: ScalarValue> IntoFieldError<S> for &str {
    ghost use Rattle.juniper_conversions.specs.Messages.{message_alone};

    ghost becomes = { λ message. message_alone message.now };

    fn into_field_error(self, alloc: Global) -> Result<FieldError<S>, AllocError> {
        Ok(error_of_message(String::from_str(alloc, self)?))
    }
}

/// The error of this message, with null for its extensions.
impl<S: ScalarValue> IntoFieldError<S> for String {
    ghost use Rattle.juniper_conversions.specs.Messages.{message_alone};

    ghost becomes = { λ message. message_alone (string_bytes message) };

    fn into_field_error(self, _alloc: Global) -> Result<FieldError<S>, AllocError> {
        Ok(error_of_message(self))
    }
}

/// The error of this message, with null for its extensions.
impl<S: ScalarValue> IntoFieldError<S> for CowStr<'_> {
    ghost use Rattle.std.specs.Cow.{cow_str_bytes};
    ghost use Rattle.juniper_conversions.specs.Messages.{message_alone};

    ghost becomes = { λ message. message_alone (cow_str_bytes message) };

    fn into_field_error(self, alloc: Global) -> Result<FieldError<S>, AllocError> {
        Ok(error_of_message(self.into_owned(alloc)?))
    }
}

/// The error of this message, with null for its extensions.
impl<S: ScalarValue> IntoFieldError<S> for BoxedStr {
    ghost use Rattle.std.specs.Box.{boxed_str_bytes};
    ghost use Rattle.juniper_conversions.specs.Messages.{message_alone};

    ghost becomes = { λ message. message_alone (boxed_str_bytes message) };

    fn into_field_error(self, _alloc: Global) -> Result<FieldError<S>, AllocError> {
        Ok(error_of_message(self.into_string()))
    }
}
