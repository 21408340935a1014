//! UniqueOperationNames, LoneAnonymousOperation and UniqueFragmentNames (sections 5.2.1.1, 5.2.2.1 and 5.5.1.1 of the
//! Specification).

ghost use Rattle.std.specs.Prelude.{List, OnOk};
ghost use Rattle.graphql_spec.specs.Documents as documents;
ghost use Rattle.juniper_written.specs.NamesBefore.{IsEarlier};
ghost use Rattle.juniper_rules.specs.Operations.{OperationsOf};
ghost use Rattle.juniper_syntax.specs.DocumentView.{view_definition};
ghost use Rattle.juniper_explain.specs.Adding.{AddsOfName};

use crate::explanation::{Explanation, Wording, add_named, add_whole};
use crate::rule::Rule;
use crate::words::word_of;
use juniper_syntax::{Definition, ScalarValue};
use juniper_written::{Earlier, is_not_alone};
use std::alloc::{AllocError, Global};

/// What is said of an operation's name.
const REPEATED_OPERATION: Wording<'static> = Wording {
    rule: Rule::UniqueOperationNames,
    before: "Operation name `",
    after: "` is not unique",
};

/// What is said of a fragment's name.
const REPEATED_FRAGMENT: Wording<'static> = Wording {
    rule: Rule::UniqueFragmentNames,
    before: "Fragment name `",
    after: "` is not unique",
};

/// Explains what these rules find at a definition, behind these earlier ones, in a document of so many operations.
pub(crate) fn explain_definition<'a, S: ScalarValue>(
    alloc: Global,
    earlier: &Earlier<'a>,
    operation_count: usize,
    definition: &Definition<'a, S>,
    explanations: &mut Vec<Explanation>,
) -> Result<(), AllocError>
    ensures { OnOk result ((d : documents.Document) (ds : List documents.Definition) → OperationsOf operation_count d → IsEarlier earlier.now ds →
        AddsOfName explanations.old.items explanations.new.items d ds (view_definition S.shown definition.now)) }
{
    let word = word_of(definition);
    let repeats_operation = earlier.repeats_operation(definition);
    add_named(
        alloc,
        explanations,
        repeats_operation,
        &word,
        &REPEATED_OPERATION,
    )?;
    let is_not_alone = is_not_alone(definition, operation_count);
    add_whole(
        alloc,
        explanations,
        is_not_alone,
        Rule::LoneAnonymousOperation,
        definition,
    )?;
    let repeats_fragment = earlier.repeats_fragment(definition);
    add_named(
        alloc,
        explanations,
        repeats_fragment,
        &word,
        &REPEATED_FRAGMENT,
    )
}
