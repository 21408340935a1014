//! What is written in a definition.

use juniper_schema_text::Scalar;
use juniper_syntax::{Definition, Document};
use juniper_written::{ArgumentLists, Written, argument_lists, written_in};
use std::alloc::{AllocError, Global};

/// Writes what is written in each definition, and `;` behind it.
pub fn put_written(
    alloc: Global,
    document: &Document<'_, Scalar>,
    text: &mut String,
) -> Result<(), AllocError> {
    for definition in document {
        put_definition(alloc, definition, text)?;
    }
    Ok(())
}

/// Writes what is written in a definition.
fn put_definition(
    alloc: Global,
    definition: &Definition<'_, Scalar>,
    text: &mut String,
) -> Result<(), AllocError> {
    let written = written_in(alloc, definition)?;
    put_lists(&written, text)?;
    put_counts(&argument_lists(alloc, &written)?, text)?;
    text.push(';')
}

/// Writes the names of the fields, the fragments, the types of conditions and the directives.
fn put_lists(written: &Written<'_, '_, Scalar>, text: &mut String) -> Result<(), AllocError> {
    text.push_str("fields")?;
    for index in 0..written.fields.len() {
        write!(text, " {}", written.fields[index].item.name.item)?;
    }
    text.push_str(" spreads")?;
    for name in &written.spreads {
        write!(text, " {name}")?;
    }
    text.push_str(" conditions")?;
    for name in &written.conditions {
        write!(text, " {name}")?;
    }
    text.push_str(" directives")?;
    for index in 0..written.directives.len() {
        write!(text, " {}", written.directives[index].item.name.item)?;
    }
    Ok(())
}

/// Writes how many arguments each field and directive has.
fn put_counts(
    arguments: &ArgumentLists<'_, '_, Scalar>,
    text: &mut String,
) -> Result<(), AllocError> {
    text.push_str(" arguments")?;
    for index in 0..arguments.lists.len() {
        let count = match arguments.lists[index] {
            Some(given) => given.item.items.len(),
            None => 0,
        };
        write!(text, " {count}")?;
    }
    Ok(())
}
