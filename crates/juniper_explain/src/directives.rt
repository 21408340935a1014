//! KnownDirectives (section 5.7.1 of the Specification).

ghost use Rattle.std.specs.Prelude.{◌≡◌, OnOk};
ghost use Rattle.std.specs.List.{flat_map};
ghost use Rattle.std.specs.Option.{is_none};
ghost use Rattle.graphql_spec.specs.Placed.{directive_named};
ghost use Rattle.juniper_syntax.specs.DocumentView.{view_directive};
ghost use Rattle.juniper_written.specs.WrittenView.{view_directives_at};
ghost use Rattle.juniper_explain.specs.Adding.{Adds};
ghost use Rattle.juniper_explain.specs.Nodes.{unknown_directive};

use crate::explanation::{Explanation, Wording, add_named};
use crate::rule::Rule;
use juniper_schema::SchemaType;
use juniper_syntax::{Directive, ScalarValue, Span, Spanning};
use std::alloc::{AllocError, Global};

/// What is said of a directive.
const UNKNOWN_DIRECTIVE: Wording<'static> = Wording {
    rule: Rule::KnownDirectives,
    before: "Unknown directive `@",
    after: "`",
};

/// Explains the directives that no schema has.
pub(crate) fn explain_directives<'d, 'a, S: ScalarValue>(
    alloc: Global,
    schema: &SchemaType<S>,
    directives: &Vec<&'d Spanning<Directive<'a, S>, Span>>,
    explanations: &mut Vec<Explanation>,
) -> Result<(), AllocError>
    ensures { OnOk result (Adds explanations.old.items explanations.new.items (flat_map unknown_directive (view_directives_at S.shown directives.now.items))) }
{
    for index in 0..directives.len() {
        let directive = directives[index];
        explain_directive(alloc, schema, directive, explanations)?;
    }
    Ok(())
}

/// Explains a directive that no schema has.
#[tactic(auto, unfolding(crate::specs::Nodes::unknown_directive, crate::specs::Words::directive_word))]
fn explain_directive<S: ScalarValue>(
    alloc: Global,
    schema: &SchemaType<S>,
    directive: &Spanning<Directive<'_, S>, Span>,
    explanations: &mut Vec<Explanation>,
) -> Result<(), AllocError>
    ensures { OnOk result (Adds explanations.old.items explanations.new.items (unknown_directive (view_directive S.shown directive.now))) }
{
    let name = directive.item.name.item;
    let is_unknown = is_unknown(schema, name);
    let word = Spanning::new(directive.span, name);
    add_named(alloc, explanations, is_unknown, &word, &UNKNOWN_DIRECTIVE)
}

/// Whether no schema has a directive of the name.
fn is_unknown<S: ScalarValue>(schema: &SchemaType<S>, name: &str) -> bool
    ensures { result ≡ is_none (directive_named name.now) }
{
    match schema.directive_by_name(name) {
        Some(_) => false,
        None => true,
    }
}
