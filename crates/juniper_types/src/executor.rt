//! Where a field is resolved (section 6.4.2 of the Specification).

ghost use Rattle.juniper_lookahead.specs.Expansion.{IsAcyclic};

use juniper_conversions::FieldPath;
use juniper_lookahead::{Enclosing, Occurrence};
use juniper_schema::{SchemaType, TypeType};
use juniper_syntax::{Field, Fragments, ScalarValue, Span, Spanning, Variables};

/// What a resolver may ask of the field that it resolves. It lends what the request lends: for `'s` the schema, for `'d` the
/// document, for `'a` its text, and for `'r` the rest.
#[derive(Drop)]
pub struct Executor<'r, 's, 'd, 'a, CtxT, S: ScalarValue> {
    pub(crate) context: &'r CtxT,
    pub(crate) schema: &'s SchemaType<S>,
    pub(crate) variables: &'r Variables<S>,
    pub(crate) fragments: &'r Fragments<'d, 'a, S>,
    pub(crate) path: &'r FieldPath<'a>,
    pub(crate) declared_type: &'r TypeType<'s, S>,
    pub(crate) concrete_type: &'r str,
    pub(crate) enclosing: &'r [Enclosing<'d, 'a, S>],
    pub(crate) occurrences: &'r [Occurrence<'d, 'a, S>],
    pub(crate) first: &'d Spanning<Field<'a, S>, Span>,
    ghost acyclic: { IsAcyclic S.shown fragments.now },
}
