//! What the rules on names find.

use crate::pieces::{put_if, yes_or_no};
use juniper_schema_text::Scalar;
use juniper_syntax::{Definition, Document};
use juniper_written::{
    Earlier, argument_lists, count_operations, has_unknown_directive, is_not_alone, repeats,
    repeats_argument, repeats_input_field, repeats_variable, written_in,
};
use std::alloc::{AllocError, Global};

/// Whether one of these words stands twice.
pub fn repeats_word(alloc: Global, words: &str) -> Result<String, AllocError> {
    let words = words.split_whitespace().collect::<Vec<&str>>(alloc)?;
    String::from_str(alloc, yes_or_no(repeats(alloc, &words)?))
}

/// Writes what is found in each definition, and `;` behind it.
pub fn put_names(
    alloc: Global,
    document: &Document<'_, Scalar>,
    text: &mut String,
) -> Result<(), AllocError> {
    let mut earlier = Earlier::new(alloc);
    let operation_count = count_operations(document);
    for definition in document {
        put_if(earlier.repeats_operation(definition), "operation", text)?;
        put_if(earlier.repeats_fragment(definition), "fragment", text)?;
        put_if(is_not_alone(definition, operation_count), "alone", text)?;
        put_definition(alloc, definition, text)?;
        earlier.add(definition)?;
    }
    Ok(())
}

/// Writes what is found in a definition by itself.
fn put_definition(
    alloc: Global,
    definition: &Definition<'_, Scalar>,
    text: &mut String,
) -> Result<(), AllocError> {
    let written = written_in(alloc, definition)?;
    let arguments = argument_lists(alloc, &written)?;
    let repeats_field = repeats_input_field(alloc, definition, &arguments)?;
    put_if(repeats_variable(alloc, definition)?, "variable", text)?;
    put_if(repeats_argument(alloc, &arguments)?, "argument", text)?;
    put_if(repeats_field, "field", text)?;
    put_if(has_unknown_directive(&written), "directive", text)?;
    text.push(';')
}
