//! Documents, and what is given for the variables of an operation.

use juniper_language::parse_document_source;
use juniper_schema_text::{Scalar, given_values, kept};
use juniper_syntax::{Definition, Document, Operation, Span, Spanning, Variables};
use std::alloc::Global;

/// A document that stays to the end of the program.
pub type StaticDocument = &'static Document<'static, Scalar>;

/// An operation, and values that are given for its variables.
#[derive(Drop)]
pub struct Given {
    /// The operation.
    pub operation: &'static Spanning<Operation<'static, Scalar>, Span>,
    /// The values by name.
    pub values: &'static Variables<Scalar>,
}

/// The document of a text; `None` where it is none, or memory is refused.
pub fn document_of(alloc: Global, text: &'static str) -> Option<StaticDocument> {
    kept(alloc, parse_document_source(alloc, text))
}

/// The first operation of a document, and as values the arguments of the field of the second one; `None` where there are no two operations,
/// or memory is refused.
pub fn given_in(alloc: Global, document: StaticDocument) -> Option<Given> {
    let Definition::Operation(operation) = document.first()? else {
        return None;
    };
    let values = given_values(alloc, document.get(1)?)?;
    Some(Given { operation, values })
}
