//! FieldsOnCorrectType and ScalarLeafs (sections 5.3.1 and 5.3.3 of the Specification).

ghost use Rattle.std.specs.Prelude.{◌≡◌, ◌++◌, IfOk, OnOk, codes, map, string_bytes};
ghost use Rattle.std.specs.List.{flat_map};
ghost use Rattle.graphql_spec.specs.Fields.{fields_of, type_named};
ghost use Rattle.graphql_spec.specs.Types.{type_text};
ghost use Rattle.juniper_meta.specs.MetaView as metas;
ghost use Rattle.juniper_type_rules.specs.PlacedView.{view_parts, view_placed};
ghost use Rattle.juniper_schema.specs.SchemaView.{view_schema};
ghost use Rattle.juniper_written.specs.WrittenView.{view_names};
ghost use Rattle.juniper_explain.specs.Adding.{Adds};
ghost use Rattle.juniper_explain.specs.Nearest.{suggested};
ghost use Rattle.juniper_explain.specs.Nodes.{set_text, suggestion, unknown_field, wrong_set};

use crate::explanation::{Explanation, add};
use crate::nearest::{suggested, suggestion};
use crate::rule::Rule;
use juniper_schema::{SchemaType, meta};
use juniper_syntax::{ScalarValue, Type};
use juniper_type_rules::{Placed, PlacedParts, set_is_wrong};
use std::alloc::{AllocError, Global};

/// Explains the fields that their parent types lack.
pub(crate) fn explain_unknown_fields<'d, 'a, S: ScalarValue>(
    alloc: Global,
    schema: &SchemaType<S>,
    parts: &PlacedParts<'d, 'a, S>,
    explanations: &mut Vec<Explanation>,
) -> Result<(), AllocError>
    ensures { OnOk result (Adds explanations.old.items explanations.new.items
        (flat_map (unknown_field (view_schema S.shown schema.now)) (view_parts S.shown parts.now).fields)) }
{
    for placed in &parts.fields {
        explain_unknown_field(alloc, schema, placed, explanations)?;
    }
    Ok(())
}

/// Explains a field that its parent type lacks.
#[tactic(auto, unfolding(crate::specs::Nodes::unknown_field, crate::specs::Explanations::found))]
fn explain_unknown_field<'d, 'a, S: ScalarValue>(
    alloc: Global,
    schema: &SchemaType<S>,
    placed: &Placed<'d, 'a, S>,
    explanations: &mut Vec<Explanation>,
) -> Result<(), AllocError>
    ensures { OnOk result (Adds explanations.old.items explanations.new.items
        (unknown_field (view_schema S.shown schema.now) (view_placed S.shown placed.now))) }
{
    let field = placed.field;
    match placed.declared {
        Some(_) => Ok(()),
        None => {
            let message = unknown_text(alloc, schema, field.item.name.item, placed.parent)?;
            add(
                explanations,
                Rule::FieldsOnCorrectType,
                field.span.start,
                message,
            )
        }
    }
}

/// What is said of a field that its parent type lacks.
fn unknown_text<S: ScalarValue>(
    alloc: Global,
    schema: &SchemaType<S>,
    name: &str,
    parent: &str,
) -> Result<String, AllocError>
    ensures { IfOk result (λ t. string_bytes t ≡ codes "Unknown field `" ++ (name.now ++ (codes "` of `" ++ (parent.now ++ (codes "`"
        ++ suggestion (suggested name.now (map (λ f. f.name) (fields_of (type_named (view_schema S.shown schema.now) parent.now))))))))) }
{
    let names = field_names(alloc, schema, parent)?;
    let near = suggested(alloc, name, &names)?;
    let meant = suggestion(alloc, near)?;
    format!(in alloc; "Unknown field `{name}` of `{parent}`{meant}")
}

/// The names of the fields that a type declares.
#[tactic(auto, unfolding(graphql_spec::specs::Fields::fields_of))]
fn field_names<'s, S: ScalarValue>(
    alloc: Global,
    schema: &'s SchemaType<S>,
    parent: &str,
) -> Result<Vec<&'s str>, AllocError>
    ensures { IfOk result (λ ns. view_names ns.items ≡ map (λ f. f.name) (fields_of (type_named (view_schema S.shown schema.now) parent.now))) }
{
    match schema.concrete_type_by_name(parent) {
        Some(meta) => names_of(alloc, meta.fields()),
        None => Ok(Vec::new(alloc)),
    }
}

/// The names of fields.
fn names_of<'s, S: ScalarValue>(
    alloc: Global,
    fields: &'s [meta::Field<S>],
) -> Result<Vec<&'s str>, AllocError>
    ensures { IfOk result (λ ns. view_names ns.items ≡ map (λ f. f.name) (map (metas.view_field S.shown) fields.now)) }
{
    let mut names = Vec::with_capacity(alloc, fields.len())?;
    for field in fields {
        names.push(field.name.as_str())?;
    }
    Ok(names)
}

/// Explains the fields whose selection sets do not fit their types.
pub(crate) fn explain_sets<'d, 'a, S: ScalarValue>(
    alloc: Global,
    schema: &SchemaType<S>,
    parts: &PlacedParts<'d, 'a, S>,
    explanations: &mut Vec<Explanation>,
) -> Result<(), AllocError>
    ensures { OnOk result (Adds explanations.old.items explanations.new.items
        (flat_map (λ p. wrong_set (view_schema S.shown schema.now) p p.declared) (view_parts S.shown parts.now).fields)) }
{
    for placed in &parts.fields {
        explain_set(alloc, schema, placed, explanations)?;
    }
    Ok(())
}

/// Explains a field whose selection set does not fit its type.
#[tactic(auto, unfolding(crate::specs::Nodes::wrong_set, crate::specs::Explanations::found))]
fn explain_set<'d, 'a, S: ScalarValue>(
    alloc: Global,
    schema: &SchemaType<S>,
    placed: &Placed<'d, 'a, S>,
    explanations: &mut Vec<Explanation>,
) -> Result<(), AllocError>
    ensures { OnOk result (Adds explanations.old.items explanations.new.items
        (wrong_set (view_schema S.shown schema.now) (view_placed S.shown placed.now) (view_placed S.shown placed.now).declared)) }
{
    let field = placed.field;
    match placed.declared {
        Some(declared) => {
            let has_set = field.item.selection_set.is_some();
            let reference = &declared.field_type;
            if !set_is_wrong(schema, has_set, reference) {
                return Ok(());
            }
            let message = wrong_text(alloc, field.item.name.item, has_set, reference)?;
            add(explanations, Rule::ScalarLeafs, field.span.start, message)
        }
        None => Ok(()),
    }
}

/// What is said of such a field.
fn wrong_text(
    alloc: Global,
    name: &str,
    has_set: bool,
    reference: &Type<String>,
) -> Result<String, AllocError>
    ensures { IfOk result (λ t. string_bytes t ≡ codes "Field `" ++ (name.now ++ (codes "` is of `"
        ++ (type_text (metas.view_type reference.now) ++ set_text has_set)))) }
{
    let end = set_text(has_set);
    format!(in alloc; "Field `{name}` is of `{reference}{end}")
}

/// What is said of a field with a selection set, and of one without.
#[tactic(auto, unfolding(crate::specs::Nodes::set_text))]
fn set_text(has_set: bool) -> &'static str
    ensures { result.now ≡ set_text has_set }
{
    if has_set {
        "`, which has no fields"
    } else {
        "`, so it needs a selection set"
    }
}
