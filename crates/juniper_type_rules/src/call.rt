//! Arguments, with the declarations that they should meet.

use juniper_meta::meta::Argument;
use juniper_syntax::ast::Arguments;
use juniper_syntax::{ScalarValue, Span, Spanning};

/// The arguments of a field or directive, with their declarations (5.4).
#[derive(Drop)]
pub struct Call<'d, 'a, 's, S: ScalarValue> {
    /// What is declared.
    pub declared: &'s [Argument<S>],
    /// What is given.
    pub given: &'d Option<Spanning<Arguments<'a, S>, Span>>,
}
