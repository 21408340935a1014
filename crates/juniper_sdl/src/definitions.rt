//! Declarations of types (section 3.4 of the Specification).

ghost use Rattle.std.specs.Prelude.{◌≡◌, ◌++◌, IfOk, codes, map, string_bytes};
ghost use Rattle.std.specs.List.{flat_map, join_by};
ghost use Rattle.graphql_spec.specs.Schema.{union_type};
ghost use Rattle.juniper_meta.specs.MetaView.{view_field, view_meta, view_names};
ghost use Rattle.juniper_sdl.specs.Definitions.{block_text, definition_text, description_text, implements_text, listed_field};

use crate::members::{fields_text, input_fields_text, values_text};
use crate::parts::{description_text, specified_text};
use juniper_meta::MetaType;
use juniper_meta::meta::Field;
use juniper_syntax::ScalarValue;
use std::alloc::{AllocError, Global};

/// The text of a declaration of this name, behind a blank line and its description.
pub fn named_text<S: ScalarValue>(
    alloc: Global,
    name: &str,
    meta: &MetaType<S>,
) -> Result<String, AllocError>
    ensures { IfOk result (λ text. string_bytes text ≡ codes "\n" ++ (description_text (codes "\n") (view_meta S.shown meta.now).description
        ++ definition_text name.now (view_meta S.shown meta.now).shape)) }
{
    let description = description_text(alloc, meta.description(), "\n")?;
    let definition = definition_text(alloc, name, meta)?;
    format!(in alloc; "\n{description}{definition}")
}

/// The same without the description.
#[tactic(auto, unfolding(juniper_meta::specs::MetaView::view_meta))]
fn definition_text<S: ScalarValue>(
    alloc: Global,
    name: &str,
    meta: &MetaType<S>,
) -> Result<String, AllocError>
    ensures { IfOk result (λ text. string_bytes text ≡ definition_text name.now (view_meta S.shown meta.now).shape) }
{
    match meta {
        MetaType::Scalar(scalar) => {
            let specified = specified_text(alloc, &scalar.specified_by_url)?;
            format!(in alloc; "scalar {name}{specified}\n")
        }
        MetaType::Enum(declared) => {
            let values = values_text(alloc, declared.values.as_slice())?;
            format!(in alloc; "enum {name} {{\n{values}}}\n")
        }
        MetaType::Object(object) => composite_text(
            alloc,
            "type",
            name,
            object.interface_names.as_slice(),
            object.fields.as_slice(),
        ),
        MetaType::Interface(interface) => composite_text(
            alloc,
            "interface",
            name,
            interface.interface_names.as_slice(),
            interface.fields.as_slice(),
        ),
        MetaType::Union(union) => union_text(alloc, name, union.of_type_names.as_slice()),
        MetaType::InputObject(input) => {
            let fields = input_fields_text(alloc, input.input_fields.as_slice())?;
            format!(in alloc; "input {name} {{\n{fields}}}\n")
        }
        MetaType::List(_) | MetaType::Nullable(_) | MetaType::Placeholder(_) => {
            Ok(String::new(alloc))
        }
    }
}

/// An object or an interface, behind this word (3.6, 3.7).
fn composite_text<S: ScalarValue>(
    alloc: Global,
    word: &str,
    name: &str,
    interfaces: &[String],
    fields: &[Field<S>],
) -> Result<String, AllocError>
    ensures { IfOk result (λ text. string_bytes text ≡ word.now ++ (codes " " ++ (name.now
        ++ (implements_text (view_names interfaces.now) ++ block_text (flat_map listed_field (map (view_field S.shown) fields.now)))))) }
{
    let implements = implements_text(alloc, interfaces)?;
    let fields = fields_text(alloc, fields)?;
    format!(in alloc; "{word} {name}{implements} {{\n{fields}}}\n")
}

/// A union (3.8).
#[tactic(auto, using(crate::proofs::Lists::as_texts))]
fn union_text(alloc: Global, name: &str, members: &[String]) -> Result<String, AllocError>
    ensures { IfOk result (λ text. string_bytes text ≡ definition_text name.now (union_type (view_names members.now))) }
{
    let members = members.join(alloc, " | ")?;
    format!(in alloc; "union {name} = {members}\n")
}

/// The interfaces that are listed (3.6).
#[tactic(auto, using(crate::proofs::Lists::as_texts))]
fn implements_text(alloc: Global, interfaces: &[String]) -> Result<String, AllocError>
    ensures { IfOk result (λ text. string_bytes text ≡ implements_text (view_names interfaces.now)) }
{
    match interfaces {
        [] => Ok(String::new(alloc)),
        [_, ..] => {
            let names = interfaces.join(alloc, " & ")?;
            format!(in alloc; " implements {names}")
        }
    }
}
