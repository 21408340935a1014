//! What is told of a schema as a whole.

use super::lookups::put_found;
use super::outline::put_type;
use crate::kinds::unknown;
use crate::pieces::{put_blank, yes_or_no};
use juniper_meta::{MetaType, ScalarKinds, ScalarMeta};
use juniper_schema::{SchemaType, schema_fault, schema_is_executable};
use juniper_schema_text::{Scalar, read_schema};
use juniper_sdl::as_sdl;
use std::alloc::{AllocError, Global};
use std::collections::HashMap;

/// What of this name is told of the schema of a text.
pub fn told(alloc: Global, told: &str, text: &str) -> Result<String, AllocError> {
    let Some(schema) = read_schema(alloc, text) else {
        return String::from_str(alloc, "no schema");
    };
    match told {
        "executable" => String::from_str(alloc, yes_or_no(schema_is_executable(&schema))),
        "faults" => fault(alloc, &schema),
        "roots" => roots(alloc, &schema),
        "types" => types(alloc, &schema),
        "directives" => directives(alloc, &schema),
        "sdl" => sdl_text(alloc, &schema),
        _ => unknown(alloc),
    }
}

/// The text of a schema, or why it has none.
pub fn sdl_text(alloc: Global, schema: &SchemaType<Scalar>) -> Result<String, AllocError> {
    match as_sdl(alloc, schema) {
        Ok(text) => Ok(text),
        Err(error) => error.to_string(alloc),
    }
}

/// Why requests cannot be executed: the first clause that fails, and where; `none` where they can.
fn fault(alloc: Global, schema: &SchemaType<Scalar>) -> Result<String, AllocError> {
    match schema_fault(alloc, schema)? {
        Some(fault) => format!(in alloc; "{fault}"),
        None => String::from_str(alloc, "none"),
    }
}

/// The name of the query type, that type, and the mutation type.
fn roots(alloc: Global, schema: &SchemaType<Scalar>) -> Result<String, AllocError> {
    let mut text = String::from_str(alloc, schema.query_name())?;
    text.push(' ')?;
    put_found(schema.query_type(), &mut text)?;
    text.push(' ')?;
    put_found(schema.mutation_type(), &mut text)?;
    Ok(text)
}

/// The names of the types that it lists.
fn types(alloc: Global, schema: &SchemaType<Scalar>) -> Result<String, AllocError> {
    let mut text = String::new(alloc);
    for made in &schema.type_list(alloc)? {
        put_blank(&mut text)?;
        put_type(made, &mut text)?;
    }
    Ok(text)
}

/// The names of the directives that it lists.
fn directives(alloc: Global, schema: &SchemaType<Scalar>) -> Result<String, AllocError> {
    let mut text = String::new(alloc);
    for directive in &schema.directive_list(alloc)? {
        put_blank(&mut text)?;
        text.push_str(directive.name.as_str())?;
    }
    Ok(text)
}

/// The text of a schema with one scalar of this description, or of none where it is empty.
pub fn described(alloc: Global, description: &str) -> Result<String, AllocError> {
    let kinds = ScalarKinds {
        int: true,
        text: false,
        boolean: false,
    };
    let mut meta = ScalarMeta::new(String::from_str(alloc, "Date")?, kinds);
    if !description.is_empty() {
        meta = meta.description(String::from_str(alloc, description)?);
    }
    let mut types: HashMap<String, MetaType<Scalar>> = HashMap::new(alloc);
    drop(types.insert(String::from_str(alloc, "Date")?, meta.into_meta())?);
    let query = String::from_str(alloc, "Query")?;
    sdl_text(alloc, &SchemaType::new(alloc, types, query, None)?)
}
