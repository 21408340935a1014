//! Laws of errors. Each function does nothing; its contract is the law.

ghost use Rattle.std.specs.Prelude.{◌≡◌, true};
ghost use Rattle.std.specs.Cmp.{IsTotalOrder};
ghost use Rattle.std.specs.declared.cmp.Ordering.TheVariants.{Equal};
ghost use Rattle.graphql_spec.specs.Errors.{Listed, compare};
ghost use Rattle.juniper_conversions.specs.ErrorView.{view_error, view_listed};

use crate::execution_error::ExecutionError;
use crate::field_error::FieldError;
use juniper_syntax::ScalarValue;

/// `==` says that the messages are equal and that the extensions show the same.
pub fn equal_field_errors_show_the_same<S: ScalarValue>(a: &FieldError<S>, b: &FieldError<S>)
    ensures equal { ⟦<FieldError<S> as PartialEq>⟧.eq a.now b.now ≡ true → view_error S.shown a.now ≡ view_error S.shown b.now }
    ensures same { view_error S.shown a.now ≡ view_error S.shown b.now → ⟦<FieldError<S> as PartialEq>⟧.eq a.now b.now ≡ true }
{}

/// `==` says that locations, paths and messages are equal and that the extensions show the same.
pub fn equal_execution_errors_show_the_same<S: ScalarValue>(
    a: &ExecutionError<S>,
    b: &ExecutionError<S>,
)
    ensures equal { ⟦<ExecutionError<S> as PartialEq>⟧.eq a.now b.now ≡ true → view_listed S.shown a.now ≡ view_listed S.shown b.now }
    ensures same { view_listed S.shown a.now ≡ view_listed S.shown b.now → ⟦<ExecutionError<S> as PartialEq>⟧.eq a.now b.now ≡ true }
{}

/// The order of errors is a total preorder, in which errors are equal exactly where their locations, paths and messages
/// are equal.
pub fn errors_are_ordered()
    ensures order { IsTotalOrder compare }
    ensures equal { (a b : Listed) → compare a b ≡ Equal → (a.start ≡ b.start) × (a.path ≡ b.path) × (a.error.message ≡ b.error.message) }
    ensures same { (a b : Listed) → a.start ≡ b.start → a.path ≡ b.path → a.error.message ≡ b.error.message → compare a b ≡ Equal }
{}
