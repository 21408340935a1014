//! Explanations of a whole document (section 5 of the Specification).

ghost use Rattle.std.specs.Prelude.{◌≡◌, IfOk, []};
ghost use Rattle.std.specs.List.{flat_map};
ghost use Rattle.juniper_schema.specs.SchemaView.{view_schema};
ghost use Rattle.juniper_syntax.specs.DocumentView.{view_document};
ghost use Rattle.juniper_explain.specs.Adding.{WhereListed};
ghost use Rattle.juniper_explain.specs.Explanations.{explanations_at, judged, view_explanations};
ghost use Rattle.juniper_explain.specs.Nodes.{explanations, name_findings};

use crate::explanation::Explanation;
use crate::names::explain_names;
use crate::types::explain_types;
use crate::uses::explain_uses;
use juniper_field_graph::cannot_merge;
use juniper_rules::{Listed, listed_in, listed_on_types};
use juniper_schema::SchemaType;
use juniper_syntax::{Definition, Document, ScalarValue};
use juniper_written::{FragmentsByName, fragments_by_name};
use std::alloc::{AllocError, Global};

/// Why a document is not valid: for each error that [`validate`](juniper_rules::validate) lists, in the order of that list,
/// one explanation or more, each at a node that violates the error's rule. There are none exactly where the document is
/// valid (section 5). An error where memory is refused.
pub fn explain<'d, 'a, S: ScalarValue>(
    alloc: Global,
    document: &'d Document<'a, S>,
    schema: &'d SchemaType<S>,
    is_introspection_disabled: bool,
) -> Result<Vec<Explanation>, AllocError>
    ensures { IfOk result (λ es. view_explanations es.items ≡ explanations (view_schema S.shown schema.now) is_introspection_disabled
        (view_document S.shown document.now)) }
{
    let definitions = document.as_slice();
    let fragments = fragments_by_name(alloc, definitions)?;
    let listed = listed_in(alloc, definitions)?;
    let explained = explain_names(alloc, schema, definitions, &listed, &fragments)?;
    if !explained.is_empty() {
        return Ok(explained);
    }
    explain_later(
        alloc,
        schema,
        definitions,
        &listed,
        &fragments,
        is_introspection_disabled,
    )
}

/// Explains what the later phases find in a document on whose names no rule finds anything.
fn explain_later<'d, 'a, S: ScalarValue>(
    alloc: Global,
    schema: &'d SchemaType<S>,
    document: &'d [Definition<'a, S>],
    listed: &[Listed<'d, 'a, S>],
    fragments: &FragmentsByName<'d, 'a, S>,
    is_introspection_disabled: bool,
) -> Result<Vec<Explanation>, AllocError>
    ensures { IfOk result (λ es. WhereListed S.shown document.now listed.now fragments.now (λ d.
        [] ≡ flat_map explanations_at (judged (name_findings (view_schema S.shown schema.now) d) [] d) →
        view_explanations es.items ≡ explanations (view_schema S.shown schema.now) is_introspection_disabled d)) }
{
    let on_types = listed_on_types(alloc, schema, listed)?;
    let explained = explain_types(alloc, schema, &on_types)?;
    if !explained.is_empty() {
        return Ok(explained);
    }
    let cannot_merge = cannot_merge(alloc, schema, document, fragments)?;
    explain_uses(
        alloc,
        schema,
        &on_types,
        fragments,
        &cannot_merge,
        is_introspection_disabled,
    )
}
