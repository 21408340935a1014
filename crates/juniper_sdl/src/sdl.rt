//! Whole schemas.

ghost use Rattle.std.specs.Prelude.{◌≡◌, ◌++◌, IfOk, MatchResult, None, option_map, string_bytes};
ghost use Rattle.std.specs.List.{flat_map};
ghost use Rattle.juniper_meta.specs.MetaView.{view_meta};
ghost use Rattle.juniper_schema.specs.MadeTypes.{view_made};
ghost use Rattle.juniper_schema.specs.SchemaView.{view_schema};
ghost use Rattle.juniper_sdl.specs.Definitions.{is_left_out, made_text, meta_text, mutation_text, root_text, schema_text};
ghost use Rattle.juniper_sdl.specs.Faults.{Tells, sdl_fault};
ghost use Rattle.juniper_sdl.specs.Grammar.{SpellsSchema};

use crate::definitions::named_text;
use crate::fault::SdlError;
use crate::faults::sdl_fault;
use juniper_meta::MetaType;
use juniper_schema::{SchemaType, TypeType, is_reserved};
use juniper_syntax::ScalarValue;
use std::alloc::{AllocError, Global};

/// The schema as a text of the language for type systems: the root types, and then each type with its description, in byte order of
/// their names (3, 3.3.1, 3.4). Built-in scalars and what introspection declares are left out. An error where the schema has no text
/// of the grammar, which tells the first type that is at fault ([`sdl_fault`]), or where memory is refused.
pub fn as_sdl<'s, S: ScalarValue>(
    alloc: Global,
    schema: &'s SchemaType<S>,
) -> Result<String, SdlError<'s>>
    ensures text { IfOk result (λ text. string_bytes text ≡ schema_text (view_schema S.shown schema.now)) }
    ensures spelled { IfOk result (λ text. SpellsSchema (string_bytes text) (view_schema S.shown schema.now)) }
    ensures fault { MatchResult result (λ _. sdl_fault (view_schema S.shown schema.now) ≡ None)
        (λ error. Tells (sdl_fault (view_schema S.shown schema.now)) error) }
{
    let found = sdl_fault(alloc, schema)?;
    match found {
        Some(fault) => Err(SdlError::Fault(fault)),
        None => {
            let text = schema_text(alloc, schema)?;
            Ok(text)
        }
    }
}

/// The text of the schema, whether or not it is one of the grammar.
fn schema_text<S: ScalarValue>(alloc: Global, schema: &SchemaType<S>) -> Result<String, AllocError>
    ensures { IfOk result (λ text. string_bytes text ≡ schema_text (view_schema S.shown schema.now)) }
{
    let mut text = root_text(alloc, schema)?;
    let types = schema.type_list(alloc)?;
    let definitions = types_text(alloc, types.as_slice())?;
    text.push_str(definitions.as_str())?;
    Ok(text)
}

/// The names of the root types (3.3.1).
fn root_text<S: ScalarValue>(alloc: Global, schema: &SchemaType<S>) -> Result<String, AllocError>
    ensures { IfOk result (λ text. string_bytes text ≡ root_text (view_schema S.shown schema.now)) }
{
    let query = schema.query_name();
    let mutation = mutation_text(alloc, schema.mutation_name())?;
    format!(in alloc; "schema {{\n  query: {query}\n{mutation}}}\n")
}

/// The name of the mutation type.
fn mutation_text(alloc: Global, name: Option<&str>) -> Result<String, AllocError>
    ensures { IfOk result (λ text. string_bytes text ≡ mutation_text (option_map (λ n. n.now) name.entry)) }
{
    match name {
        Some(name) => format!(in alloc; "  mutation: {name}\n"),
        None => Ok(String::new(alloc)),
    }
}

/// The texts of types, one behind the other.
fn types_text<S: ScalarValue>(
    alloc: Global,
    types: &[TypeType<'_, S>],
) -> Result<String, AllocError>
    ensures { IfOk result (λ text. string_bytes text ≡ flat_map (λ t. made_text (view_made S.shown t)) types.now) }
{
    let mut text = String::new(alloc);
    for declared in types {
        text.push_str(made_text(alloc, declared)?.as_str())?;
    }
    Ok(text)
}

/// The text of a type.
fn made_text<S: ScalarValue>(
    alloc: Global,
    declared: &TypeType<'_, S>,
) -> Result<String, AllocError>
    ensures { IfOk result (λ text. string_bytes text ≡ made_text (view_made S.shown declared.now)) }
{
    match declared {
        TypeType::Concrete(meta) => meta_text(alloc, meta),
        TypeType::List(_, _) | TypeType::NonNull(_) => Ok(String::new(alloc)),
    }
}

/// The text of a declaration, unless it is left out.
fn meta_text<S: ScalarValue>(alloc: Global, meta: &MetaType<S>) -> Result<String, AllocError>
    ensures { IfOk result (λ text. string_bytes text ≡ meta_text (view_meta S.shown meta.now)) }
{
    let name = meta.name().unwrap_or("");
    if is_left_out(name) {
        Ok(String::new(alloc))
    } else {
        named_text(alloc, name, meta)
    }
}

/// Whether every schema has what is declared at the name.
pub fn is_left_out(name: &str) -> bool
    ensures { result ≡ is_left_out name.now }
{
    is_reserved(name) || matches!(name, "Int" | "Float" | "String" | "Boolean" | "ID")
}
