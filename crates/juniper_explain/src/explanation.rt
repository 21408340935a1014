//! Explanations, and how they are listed.

ghost use Rattle.std.specs.Prelude.{◌≡◌, ◌++◌, ◌∷◌, [], IfOk, OnOk, string_bytes};
ghost use Rattle.juniper_syntax.specs.Positions.{view_position};
ghost use Rattle.juniper_syntax.specs.DocumentView.{view_definition, view_word};
ghost use Rattle.juniper_explain.specs.Adding.{Adds};
ghost use Rattle.juniper_explain.specs.Explanations.{named, whole};

use crate::rule::Rule;
use juniper_rules::start_of;
use juniper_syntax::{Definition, ScalarValue, SourcePosition, Span, Spanning};
use std::alloc::{AllocError, Global};

/// Why a document is not valid, at one node.
#[derive(Debug, Drop, Eq, PartialEq)]
pub struct Explanation {
    /// The rule that the node violates.
    pub rule: Rule,
    /// Where the node starts.
    pub location: SourcePosition,
    /// What is wrong there, with the names.
    pub message: String,
}

/// Adds an explanation.
pub(crate) fn add(
    explanations: &mut Vec<Explanation>,
    rule: Rule,
    location: SourcePosition,
    message: String,
) -> Result<(), AllocError>
    ensures { OnOk result (Adds explanations.old.items explanations.new.items
        (record { rule = rule; place = view_position location; text = string_bytes message } ∷ [])) }
{
    explanations.push(Explanation {
        rule,
        location,
        message,
    })?;
    Ok(())
}

/// What is said of a name.
#[derive(Clone, Copy)]
pub(crate) struct Wording<'t> {
    /// The rule that is violated.
    pub rule: Rule,
    /// What stands before the name.
    pub before: &'t str,
    /// What stands behind it.
    pub after: &'t str,
}

/// Adds that a name violates a rule, where it does.
#[tactic(auto, unfolding(crate::specs::Explanations::named, crate::specs::Explanations::found))]
pub(crate) fn add_named(
    alloc: Global,
    explanations: &mut Vec<Explanation>,
    is_violated: bool,
    word: &Spanning<&str, Span>,
    wording: &Wording<'_>,
) -> Result<(), AllocError>
    ensures { OnOk result (Adds explanations.old.items explanations.new.items
        (named is_violated wording.now.rule (view_word word.now) wording.now.before.now wording.now.after.now)) }
{
    if !is_violated {
        return Ok(());
    }
    let message = around(alloc, wording.before, word.item, wording.after)?;
    add(explanations, wording.rule, word.span.start, message)
}

/// A name between two texts.
fn around(alloc: Global, before: &str, name: &str, after: &str) -> Result<String, AllocError>
    ensures { IfOk result (λ t. string_bytes t ≡ before.now ++ (name.now ++ after.now)) }
{
    format!(in alloc; "{before}{name}{after}")
}

/// Adds that a definition violates a rule, where it does, with the text of the error that is listed.
#[tactic(auto, unfolding(crate::specs::Explanations::whole, crate::specs::Explanations::found))]
pub(crate) fn add_whole<S: ScalarValue>(
    alloc: Global,
    explanations: &mut Vec<Explanation>,
    is_violated: bool,
    rule: Rule,
    definition: &Definition<'_, S>,
) -> Result<(), AllocError>
    ensures { OnOk result (Adds explanations.old.items explanations.new.items (whole is_violated rule (view_definition S.shown definition.now))) }
{
    if !is_violated {
        return Ok(());
    }
    let message = String::from_str(alloc, rule.message())?;
    add(explanations, rule, start_of(definition), message)
}
