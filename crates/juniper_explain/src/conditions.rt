//! The names of types in conditions: KnownTypeNames and FragmentsOnCompositeTypes (sections 5.5.1.2 and 5.5.1.3 of the
//! Specification).

ghost use Rattle.std.specs.Prelude.{OnOk};
ghost use Rattle.std.specs.List.{flat_map};
ghost use Rattle.juniper_schema.specs.SchemaView.{view_schema};
ghost use Rattle.juniper_syntax.specs.DocumentView.{view_word};
ghost use Rattle.juniper_explain.specs.Adding.{Adds};
ghost use Rattle.juniper_explain.specs.Nodes.{other_condition, unknown_type};
ghost use Rattle.juniper_explain.specs.Words.{view_words};

use crate::explanation::{Explanation, Wording, add_named};
use crate::rule::Rule;
use juniper_schema::SchemaType;
use juniper_syntax::{ScalarValue, Span, Spanning};
use std::alloc::{AllocError, Global};

/// What is said of a name at which nothing is declared.
const UNKNOWN_TYPE: Wording<'static> = Wording {
    rule: Rule::KnownTypeNames,
    before: "Unknown type `",
    after: "`",
};

/// What is said of a condition that has no fields.
const OTHER_CONDITION: Wording<'static> = Wording {
    rule: Rule::FragmentsOnCompositeTypes,
    before: "Fragment on `",
    after: "`, which is no object, interface or union",
};

/// Explains the conditions at whose names nothing is declared.
pub(crate) fn explain_unknown_conditions<S: ScalarValue>(
    alloc: Global,
    schema: &SchemaType<S>,
    conditions: &Vec<Spanning<&str, Span>>,
    explanations: &mut Vec<Explanation>,
) -> Result<(), AllocError>
    ensures { OnOk result (Adds explanations.old.items explanations.new.items
        (flat_map (unknown_type (view_schema S.shown schema.now)) (view_words conditions.now.items))) }
{
    for index in 0..conditions.len() {
        let condition = conditions[index];
        explain_type(alloc, schema, &condition, explanations)?;
    }
    Ok(())
}

/// Explains a name at which nothing is declared.
#[tactic(auto, unfolding(crate::specs::Nodes::unknown_type))]
pub(crate) fn explain_type<S: ScalarValue>(
    alloc: Global,
    schema: &SchemaType<S>,
    word: &Spanning<&str, Span>,
    explanations: &mut Vec<Explanation>,
) -> Result<(), AllocError>
    ensures { OnOk result (Adds explanations.old.items explanations.new.items (unknown_type (view_schema S.shown schema.now) (view_word word.now))) }
{
    let is_unknown = schema.is_unknown(word.item);
    add_named(alloc, explanations, is_unknown, word, &UNKNOWN_TYPE)
}

/// Explains the conditions that are no objects, interfaces or unions.
pub(crate) fn explain_other_conditions<S: ScalarValue>(
    alloc: Global,
    schema: &SchemaType<S>,
    conditions: &Vec<Spanning<&str, Span>>,
    explanations: &mut Vec<Explanation>,
) -> Result<(), AllocError>
    ensures { OnOk result (Adds explanations.old.items explanations.new.items
        (flat_map (other_condition (view_schema S.shown schema.now)) (view_words conditions.now.items))) }
{
    for index in 0..conditions.len() {
        let condition = conditions[index];
        explain_other_condition(alloc, schema, &condition, explanations)?;
    }
    Ok(())
}

/// Explains a condition that is no object, interface or union.
#[tactic(auto, unfolding(crate::specs::Nodes::other_condition))]
fn explain_other_condition<S: ScalarValue>(
    alloc: Global,
    schema: &SchemaType<S>,
    word: &Spanning<&str, Span>,
    explanations: &mut Vec<Explanation>,
) -> Result<(), AllocError>
    ensures { OnOk result (Adds explanations.old.items explanations.new.items (other_condition (view_schema S.shown schema.now) (view_word word.now))) }
{
    let is_other = !schema.is_composite(word.item);
    add_named(alloc, explanations, is_other, word, &OTHER_CONDITION)
}
