//! Fields and input values by their texts. What is read stays to the end of the program.

use juniper_language::{
    DefaultScalarValue, Definition, Document, Field, InputValue, Selection, parse_document_source,
};
use juniper_schema_text::kept;
use std::alloc::Global;

/// The first field of a document; `None` where the text is no document, or its first selection is no field.
pub fn first_field<'t>(alloc: Global, text: &'t str) -> Option<&'t Field<'t, DefaultScalarValue>> {
    let document: &'t Document<'t, DefaultScalarValue> = kept(
        alloc,
        parse_document_source(alloc, text),
    )?;
    match document.first()? {
        Definition::Operation(operation) => match operation.item.selection_set.first()? {
            Selection::Field(field) => Some(&field.item),
            Selection::FragmentSpread(_) | Selection::InlineFragment(_) => None,
        },
        Definition::Fragment(_) => None,
    }
}

/// The input value of a text, if it is one.
pub fn input_value<'t>(alloc: Global, text: &str) -> Option<&'t InputValue<DefaultScalarValue>> {
    let document: &'t String = kept(alloc, format!(in alloc; "{{ f(v: {text}) }}"))?;
    let arguments = first_field(alloc, document.as_str())?.arguments.as_ref()?;
    let (_, value) = arguments.item.items.first()?;
    Some(&value.item)
}
