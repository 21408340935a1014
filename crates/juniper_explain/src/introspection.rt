//! Introspection, where it is disabled (section 4.2 of the Specification). The rule is this project's own.

ghost use Rattle.std.specs.Prelude.{OnOk};
ghost use Rattle.std.specs.List.{flat_map};
ghost use Rattle.juniper_syntax.specs.DocumentView.{view_field};
ghost use Rattle.juniper_written.specs.WrittenView.{view_fields, view_written};
ghost use Rattle.juniper_explain.specs.Adding.{Adds};
ghost use Rattle.juniper_explain.specs.Nodes.{introspection_field, where_found};

use crate::explanation::{Explanation, Wording, add_named};
use crate::rule::Rule;
use juniper_syntax::{Field, ScalarValue, Span, Spanning};
use juniper_type_rules::is_introspection;
use juniper_written::Written;
use std::alloc::{AllocError, Global};

/// What is said of a field.
const INTROSPECTION: Wording<'static> = Wording {
    rule: Rule::DisableIntrospection,
    before: "Introspection is disabled, and with it `",
    after: "`",
};

/// Explains the fields `__schema` and `__type` that are written in a definition, where these may not stand.
#[tactic(auto, unfolding(crate::specs::Nodes::where_found))]
pub(crate) fn explain_introspection<'d, 'a, S: ScalarValue>(
    alloc: Global,
    written: &Written<'d, 'a, S>,
    is_violated: bool,
    explanations: &mut Vec<Explanation>,
) -> Result<(), AllocError>
    ensures { OnOk result (Adds explanations.old.items explanations.new.items
        (where_found is_violated (flat_map introspection_field (view_written S.shown written.now).fields))) }
{
    if is_violated {
        explain_fields(alloc, &written.fields, explanations)
    } else {
        Ok(())
    }
}

/// Explains those of the fields.
fn explain_fields<'d, 'a, S: ScalarValue>(
    alloc: Global,
    fields: &Vec<&'d Spanning<Field<'a, S>, Span>>,
    explanations: &mut Vec<Explanation>,
) -> Result<(), AllocError>
    ensures { OnOk result (Adds explanations.old.items explanations.new.items (flat_map introspection_field (view_fields S.shown fields.now.items))) }
{
    for index in 0..fields.len() {
        let field = fields[index];
        explain_field(alloc, field, explanations)?;
    }
    Ok(())
}

/// Explains a field, where it is one of these.
#[tactic(auto, unfolding(crate::specs::Nodes::introspection_field))]
fn explain_field<'a, S: ScalarValue>(
    alloc: Global,
    field: &Spanning<Field<'a, S>, Span>,
    explanations: &mut Vec<Explanation>,
) -> Result<(), AllocError>
    ensures { OnOk result (Adds explanations.old.items explanations.new.items (introspection_field (view_field S.shown field.now))) }
{
    let word = field.item.name;
    let is_introspection = is_introspection(word.item);
    add_named(alloc, explanations, is_introspection, &word, &INTROSPECTION)
}
