//! KnownFragmentNames and NoFragmentCycles (sections 5.5.2.1 and 5.5.2.2 of the Specification).

ghost use Rattle.std.specs.Prelude.{◌≡◌, OnOk};
ghost use Rattle.std.specs.List.{flat_map};
ghost use Rattle.std.specs.Option.{is_none};
ghost use Rattle.graphql_spec.specs.Documents as documents;
ghost use Rattle.graphql_spec.specs.Documents.{fragments};
ghost use Rattle.graphql_spec.specs.Fragments.{fragment_of, spreads};
ghost use Rattle.graphql_spec.specs.Written.{selections_of};
ghost use Rattle.juniper_written.specs.SpreadsView.{AreFragmentsOf};
ghost use Rattle.juniper_syntax.specs.DocumentView.{view_definition, view_word};
ghost use Rattle.juniper_written.specs.WrittenView.{view_names};
ghost use Rattle.juniper_explain.specs.Adding.{Adds};
ghost use Rattle.juniper_explain.specs.Nodes.{own_spread, unknown_spread};
ghost use Rattle.juniper_explain.specs.Words.{view_words};

use crate::explanation::{Explanation, Wording, add_named};
use crate::rule::Rule;
use crate::words::word_of;
use juniper_syntax::{Definition, ScalarValue, Span, Spanning};
use juniper_written::FragmentsByName;
use std::alloc::{AllocError, Global};

/// What is said of a spread.
const UNKNOWN_SPREAD: Wording<'static> = Wording {
    rule: Rule::KnownFragmentNames,
    before: "Unknown fragment `",
    after: "`",
};

/// What is said of a fragment.
const OWN_SPREAD: Wording<'static> = Wording {
    rule: Rule::NoFragmentCycles,
    before: "Fragment `",
    after: "` spreads itself",
};

/// Explains the spreads of no fragment.
pub(crate) fn explain_spreads<'d, 'a, S: ScalarValue>(
    alloc: Global,
    fragments: &FragmentsByName<'d, 'a, S>,
    spreads: &Vec<Spanning<&'a str, Span>>,
    explanations: &mut Vec<Explanation>,
) -> Result<(), AllocError>
    ensures { OnOk result ((d : documents.Document) → AreFragmentsOf S.shown fragments.now d →
        Adds explanations.old.items explanations.new.items (flat_map (unknown_spread d) (view_words spreads.now.items))) }
{
    for index in 0..spreads.len() {
        let spread = spreads[index];
        explain_spread(alloc, fragments, &spread, explanations)?;
    }
    Ok(())
}

/// Explains a spread of no fragment.
#[tactic(auto, unfolding(crate::specs::Nodes::unknown_spread))]
fn explain_spread<'d, 'a, S: ScalarValue>(
    alloc: Global,
    fragments: &FragmentsByName<'d, 'a, S>,
    word: &Spanning<&'a str, Span>,
    explanations: &mut Vec<Explanation>,
) -> Result<(), AllocError>
    ensures { OnOk result ((d : documents.Document) → AreFragmentsOf S.shown fragments.now d →
        Adds explanations.old.items explanations.new.items (unknown_spread d (view_word word.now))) }
{
    let is_unknown = is_unknown(fragments, word.item);
    add_named(alloc, explanations, is_unknown, word, &UNKNOWN_SPREAD)
}

/// Whether there is no fragment of the name.
fn is_unknown<'d, 'a, S: ScalarValue>(fragments: &FragmentsByName<'d, 'a, S>, name: &str) -> bool
    ensures { (d : documents.Document) → AreFragmentsOf S.shown fragments.now d → result ≡ is_none (fragment_of (documents.fragments d) name.now) }
{
    match fragments.fragment(name) {
        Some(_) => false,
        None => true,
    }
}

/// Explains a fragment that the names that it spreads lead to.
#[tactic(auto, unfolding(crate::specs::Nodes::own_spread))]
pub(crate) fn explain_own_spread<'d, 'a, S: ScalarValue>(
    alloc: Global,
    fragments: &FragmentsByName<'d, 'a, S>,
    definition: &Definition<'a, S>,
    names: &[&'a str],
    explanations: &mut Vec<Explanation>,
) -> Result<(), AllocError>
    ensures { OnOk result ((d : documents.Document) → AreFragmentsOf S.shown fragments.now d →
        view_names names.now ≡ spreads (selections_of (view_definition S.shown definition.now)) →
        Adds explanations.old.items explanations.new.items (own_spread d (view_definition S.shown definition.now))) }
{
    let spreads_itself = fragments.spreads_itself(alloc, definition, names)?;
    let word = word_of(definition);
    add_named(alloc, explanations, spreads_itself, &word, &OWN_SPREAD)
}
