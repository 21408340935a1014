//! The language layer: the parser that reads a document from a text, beside the data that it reads.
#![tactic(auto)]

mod cursor;
mod definitions;
mod directives;
pub mod grammar;
mod parser;
mod references;
mod selections;
mod values;

pub use juniper_syntax::{
    DefaultScalarValue, DefinedVariable, Definition, Directive, Document, Field, Fragment,
    FragmentSpread, Fragments, InlineFragment, InputField, InputValue, LexerError, Object,
    Operation, OperationType, ParseError, RuleError, ScalarValue, Selection, SourcePosition, Span,
    Spanning, Type, Value, VariableDefinition, VariableDefinitions, Variables, WrittenArgument,
    ast, laws,
};
pub use juniper_tokens::{ScalarToken, decode_int, decode_string};
pub use parser::parse_document_source;
