//! Field errors (section 6.4.4 of the Specification).

ghost use Rattle.std.specs.Prelude.{◌≡◌, IfOk, IfSome, string_bytes};
ghost use Rattle.juniper_syntax.specs.ValueView.{view_value};
ghost use Rattle.juniper_conversions.specs.Messages.{message_alone};
ghost use Rattle.juniper_conversions.specs.ErrorView.{view_error};
ghost use Rattle.juniper_conversions.specs.declared.field_error.ResolveError.TheVariants.{Memory};

use juniper_syntax::{ScalarValue, Value};
use std::alloc::{AllocError, AllocFailed, Global};
use std::fmt::Display;

/// Why a field has no value: a message, and what more is said of it, which an answer shows as `extensions` (7.1.2).
#[derive(Debug, PartialEq, Eq, Drop)]
pub struct FieldError<S> {
    message: String,
    extensions: Value<S>,
}

impl<S: ScalarValue> FieldError<S> {
    /// The error whose message is the text that `e` prints, with these extensions; an error where memory is refused.
    pub fn new<T: Display + Drop>(
        alloc: Global,
        e: T,
        extensions: Value<S>,
    ) -> Result<Self, AllocError>
        ensures message { IfOk result (λ made. IfSome (T.output e) (λ text. (view_error S.shown made).message ≡ text)) }
        ensures extensions { IfOk result (λ made. (view_error S.shown made).extensions ≡ view_value S.shown extensions) }
    {
        let message = e.to_string(alloc)?;
        Ok(FieldError {
            message,
            extensions,
        })
    }

    /// The message.
    pub fn message(&self) -> &str
        ensures { result.now ≡ (view_error S.shown self.now).message }
    {
        self.message.as_str()
    }

    /// What more is said of the error; null where nothing is.
    pub fn extensions(&self) -> &Value<S>
        ensures { view_value S.shown result.now ≡ (view_error S.shown self.now).extensions }
    {
        &self.extensions
    }

    /// The error whose message is the answer of `f` on this one's message; the extensions stay.
    pub fn map_message<F: FnOnce(String) -> String>(self, f: F) -> Self
        requires { F.IsAlwaysCallable f }
        ensures message { (given answer : _) × (string_bytes given ≡ (view_error S.shown self).message) × F.post f given answer
            × ((view_error S.shown result).message ≡ string_bytes answer) }
        ensures extensions { (view_error S.shown result).extensions ≡ (view_error S.shown self).extensions }
    {
        FieldError {
            message: f(self.message),
            extensions: self.extensions,
        }
    }

    /// The error of the same message whose extensions show the same, each scalar being the `T` that shows what it showed
    /// (3.5); an error where memory is refused.
    pub fn map_scalar_value<T: ScalarValue>(
        self,
        alloc: Global,
    ) -> Result<FieldError<T>, AllocError>
        ensures { IfOk result (λ made. view_error T.shown made ≡ view_error S.shown self) }
    {
        Ok(FieldError {
            extensions: self.extensions.map_scalar_value(alloc)?,
            message: self.message,
        })
    }

    /// An equal error; an error where memory is refused.
    pub fn try_clone(&self, alloc: Global) -> Result<Self, AllocError>
        ensures { IfOk result (λ made. view_error S.shown made ≡ view_error S.shown self.now) }
    {
        Ok(FieldError {
            message: String::from_str(alloc, self.message.as_str())?,
            extensions: self.extensions.try_clone(alloc)?,
        })
    }
}

/// Why a resolver has no answer.
#[derive(Debug, Drop)]
pub enum ResolveError<S> {
    /// The field fails.
    Field(FieldError<S>),
    /// Memory was refused, which ends the whole execution.
    Memory,
}

impl<S> From<AllocError> for ResolveError<S> {
    ghost from_gives = { λ _ made. made ≡ Memory };

    fn from(_refused: AllocError) -> Self {
        ResolveError::Memory
    }
}

impl<S, X: Drop> From<AllocFailed<X>> for ResolveError<S> {
    ghost from_gives = { λ _ made. made ≡ Memory };

    fn from(_refused: AllocFailed<X>) -> Self {
        ResolveError::Memory
    }
}

/// A value, or the error of the field that has none.
pub type FieldResult<T, S> = Result<T, FieldError<S>>;

/// A value of an answer, or the error of the field that has none.
pub type ExecutionResult<S> = FieldResult<Value<S>, S>;

/// The error of this message, with null for its extensions.
pub fn error_of_message<S: ScalarValue>(message: String) -> FieldError<S>
    ensures { view_error S.shown result ≡ message_alone (string_bytes message) }
{
    FieldError {
        message,
        extensions: Value::Null,
    }
}
