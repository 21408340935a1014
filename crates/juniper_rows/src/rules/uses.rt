//! What the rules on uses of variables and on introspection find.

use crate::pieces::put_if;
use juniper_schema::SchemaType;
use juniper_schema_text::Scalar;
use juniper_syntax::{Definition, Document};
use juniper_type_rules::{
    Used, UsesOfFragments, calls, looks_at_schema, misuses_variable, placed_in, used_in,
    uses_of_fragments, uses_undefined,
};
use juniper_written::{argument_lists, fragments_by_name, written_in};
use std::alloc::{AllocError, Global};

/// Writes what is found in each definition, and `;` behind it.
pub fn put_uses(
    alloc: Global,
    schema: &SchemaType<Scalar>,
    document: &Document<'_, Scalar>,
    text: &mut String,
) -> Result<(), AllocError> {
    let by_name = fragments_by_name(alloc, document)?;
    let mut all = Vec::with_capacity(alloc, document.len())?;
    for definition in document {
        all.push(used(alloc, schema, definition)?)?;
    }
    let fragments = uses_of_fragments(alloc, &all, &by_name.spreads)?;
    for (definition, own) in document.iter().zip(&all) {
        put_definition(alloc, schema, definition, own, &fragments, text)?;
    }
    Ok(())
}

/// What a definition uses.
fn used<'d>(
    alloc: Global,
    schema: &'d SchemaType<Scalar>,
    definition: &'d Definition<'_, Scalar>,
) -> Result<Used<'d>, AllocError> {
    let written = written_in(alloc, definition)?;
    let arguments = argument_lists(alloc, &written)?;
    let parts = placed_in(alloc, schema, definition)?;
    let calls = calls(alloc, schema, &parts)?;
    used_in(alloc, schema, definition, &arguments, &calls)
}

/// Writes what is found in a definition that uses this of its own.
fn put_definition<'r, 'u>(
    alloc: Global,
    schema: &SchemaType<Scalar>,
    definition: &Definition<'_, Scalar>,
    own: &'r Used<'u>,
    fragments: &UsesOfFragments<'r, 'u>,
    text: &mut String,
) -> Result<(), AllocError> {
    let written = written_in(alloc, definition)?;
    let parts = fragments.with_reached(alloc, own, &written.spreads)?;
    let lacks = uses_undefined(alloc, schema, definition, &parts)?;
    let misuses = misuses_variable(alloc, schema, definition, &parts)?;
    put_if(lacks, "undefined", text)?;
    put_if(misuses, "misused", text)?;
    let looks = looks_at_schema(schema, true, definition, &written);
    put_if(looks, "looks", text)?;
    text.push(';')
}
