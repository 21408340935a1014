//! Validation of a document against a schema (section 5 of the Specification).

ghost use Rattle.std.specs.Prelude.{◌≡◌, IfOk, map};
ghost use Rattle.graphql_spec.specs.Rules.{rule_errors};
ghost use Rattle.juniper_syntax.specs.RuleView.{view_rule_error};
ghost use Rattle.juniper_schema.specs.SchemaView.{view_schema};
ghost use Rattle.juniper_syntax.specs.DocumentView.{view_definition, view_document};
ghost use Rattle.juniper_rules.specs.Finding.{AreLaterErrors, WhereListed};

use crate::lists::{Listed, listed_in, listed_on_types};
use crate::names::name_errors;
use crate::types::type_errors;
use crate::uses::use_errors;
use juniper_field_graph::cannot_merge;
use juniper_schema::SchemaType;
use juniper_syntax::{Definition, Document, RuleError, ScalarValue};
use juniper_written::{FragmentsByName, fragments_by_name};
use std::alloc::{AllocError, Global};

/// The errors of a document: one for each rule that a definition violates, at the start of that definition, in the order of
/// the definitions, and of the rules at each. There are none exactly where the document is valid (section 5). The rules on
/// names come first; those on types are tested where these find nothing; those on variables, on merging and, where
/// introspection is disabled, on `__schema` and `__type`, where both find nothing. An error where memory is refused.
pub fn validate<'d, 'a, S: ScalarValue>(
    alloc: Global,
    document: &'d Document<'a, S>,
    schema: &'d SchemaType<S>,
    introspection_disabled: bool,
) -> Result<Vec<RuleError>, AllocError>
    ensures { IfOk result (λ es. map view_rule_error es.items ≡ rule_errors (view_schema S.shown schema.now) introspection_disabled
        (view_document S.shown document.now)) }
{
    let definitions = document.as_slice();
    let fragments = fragments_by_name(alloc, definitions)?;
    let listed = listed_in(alloc, definitions)?;
    let errors = name_errors(alloc, schema, definitions, &listed, &fragments)?;
    if !errors.is_empty() {
        return Ok(errors);
    }
    later_errors(
        alloc,
        schema,
        definitions,
        &listed,
        &fragments,
        introspection_disabled,
    )
}

/// What the rules on types find in a document, of whose definitions this is listed, with these fragments, and on whose names no
/// rule finds anything; and where these find nothing either, what the last rules find.
fn later_errors<'d, 'a, S: ScalarValue>(
    alloc: Global,
    schema: &'d SchemaType<S>,
    document: &'d [Definition<'a, S>],
    listed: &[Listed<'d, 'a, S>],
    fragments: &FragmentsByName<'d, 'a, S>,
    introspection_disabled: bool,
) -> Result<Vec<RuleError>, AllocError>
    ensures { IfOk result (λ es. WhereListed S.shown listed.now fragments.now (map (view_definition S.shown) document.now)
        (AreLaterErrors (view_schema S.shown schema.now) introspection_disabled (map (view_definition S.shown) document.now) es.items)) }
{
    let on_types = listed_on_types(alloc, schema, listed)?;
    let errors = type_errors(alloc, schema, &on_types)?;
    if !errors.is_empty() {
        return Ok(errors);
    }
    let cannot_merge = cannot_merge(alloc, schema, document, fragments)?;
    use_errors(
        alloc,
        schema,
        &on_types,
        fragments,
        &cannot_merge,
        introspection_disabled,
    )
}
