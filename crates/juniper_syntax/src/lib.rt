//! What a document says: scalars, values, input values, types, and the selections of an operation, with their places in the text;
//! and why a text is refused. Only data stands here; `juniper_language` reads it from a text.
#![tactic(auto)]

pub mod ast;
mod display;
mod entries;
mod error;
mod fields;
mod input;
mod keys;
pub mod laws;
mod map_scalars;
mod places;
mod position;
pub mod position_laws;
mod rule;
mod scalar;
mod types;
mod value;
mod value_display;

pub use ast::{
    DefinedVariable, Definition, Directive, Document, Field, Fragment, FragmentSpread, Fragments,
    InlineFragment, Operation, OperationType, Selection, VariableDefinition, VariableDefinitions,
    WrittenArgument,
};
pub use entries::{Entries, IntoEntries};
pub use error::{LexerError, ParseError};
pub use fields::SharedKeys;
pub use input::{InputField, InputValue, Variables};
pub use places::name_number;
pub use position::{SourcePosition, Span, Spanning};
pub use rule::RuleError;
pub use scalar::{DefaultScalarValue, ScalarValue};
pub use types::Type;
pub use value::{Object, Value};
