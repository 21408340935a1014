//! The spreads and the type conditions of a definition, with their places (section 2.8 of the Specification).

ghost use Rattle.std.specs.Prelude.{◌≡◌, ◌∷◌, [], IfOk, OnOk, option_map};
ghost use Rattle.graphql_spec.specs.Documents as documents;
ghost use Rattle.graphql_spec.specs.Documents.{Selections};
ghost use Rattle.juniper_syntax.specs.DocumentView.{put_selection, view_definition, view_fragment, view_operation, view_selections, view_word};
ghost use Rattle.juniper_explain.specs.Words.{definition_word, joined, view_marked, word_list, words_in, words_of};

use juniper_syntax::{Definition, Fragment, Operation, ScalarValue, Selection, Span, Spanning};
use std::alloc::{AllocError, Global};

/// The names that a definition spreads, and those of its type conditions, each in document order.
#[derive(Drop)]
pub(crate) struct Words<'a> {
    /// The fragments that are spread.
    pub spreads: Vec<Spanning<&'a str, Span>>,
    /// The types in conditions, a fragment's own first.
    pub conditions: Vec<Spanning<&'a str, Span>>,
}

/// The spreads and the conditions of a definition. An error where memory is refused.
pub(crate) fn words_in<'a, S: ScalarValue>(
    alloc: Global,
    definition: &Definition<'a, S>,
) -> Result<Words<'a>, AllocError>
    ensures { IfOk result (λ w. view_marked w ≡ words_of (view_definition S.shown definition.now)) }
{
    match definition {
        Definition::Operation(operation) => words_in_operation(alloc, operation),
        Definition::Fragment(fragment) => words_in_fragment(alloc, fragment),
    }
}

/// Those of an operation.
fn words_in_operation<'a, S: ScalarValue>(
    alloc: Global,
    operation: &Spanning<Operation<'a, S>, Span>,
) -> Result<Words<'a>, AllocError>
    ensures { IfOk result (λ w. view_marked w ≡ words_of (documents.operation (view_operation S.shown operation.now))) }
{
    let mut words = no_words(alloc);
    mark_selections(operation.item.selection_set.as_slice(), &mut words)?;
    Ok(words)
}

/// Those of a fragment.
fn words_in_fragment<'a, S: ScalarValue>(
    alloc: Global,
    fragment: &Spanning<Fragment<'a, S>, Span>,
) -> Result<Words<'a>, AllocError>
    ensures { IfOk result (λ w. view_marked w ≡ words_of (documents.fragment (view_fragment S.shown fragment.now))) }
{
    let mut words = no_words(alloc);
    words.conditions.push(fragment.item.type_condition)?;
    mark_selections(fragment.item.selection_set.as_slice(), &mut words)?;
    Ok(words)
}

/// None yet.
fn no_words<'a>(alloc: Global) -> Words<'a>
    ensures { view_marked result ≡ record { spreads = []; conditions = [] } }
{
    Words {
        spreads: Vec::new(alloc),
        conditions: Vec::new(alloc),
    }
}

/// Adds those of selections.
#[cycle(marking)]
fn mark_selections<'a, S: ScalarValue>(
    selections: &[Selection<'a, S>],
    words: &mut Words<'a>,
) -> Result<(), AllocError>
    ensures { OnOk result (view_marked words.new ≡ joined (view_marked words.old) (words_in (view_selections S.shown selections.now))) }
{
    for selection in selections {
        mark_selection(selection, words)?;
    }
    Ok(())
}

/// Adds those of a selection, before those that follow it.
#[cycle(marking)]
fn mark_selection<'a, S: ScalarValue>(
    selection: &Selection<'a, S>,
    words: &mut Words<'a>,
) -> Result<(), AllocError>
    ensures { OnOk result ((rest : Selections) → joined (view_marked words.new) (words_in rest)
        ≡ joined (view_marked words.old) (words_in (put_selection S.shown selection.now rest))) }
{
    match selection {
        Selection::Field(field) => match &field.item.selection_set {
            Some(below) => {
                mark_selections(below, words)?;
                Ok(())
            }
            None => Ok(()),
        },
        Selection::FragmentSpread(spread) => {
            mark_spread(&spread.item.name, words)?;
            Ok(())
        }
        Selection::InlineFragment(inline) => {
            mark_condition(&inline.item.type_condition, words)?;
            mark_selections(&inline.item.selection_set, words)?;
            Ok(())
        }
    }
}

/// Adds a spread.
fn mark_spread<'a>(name: &Spanning<&'a str, Span>, words: &mut Words<'a>) -> Result<(), AllocError>
    ensures { OnOk result (view_marked words.new ≡ joined (view_marked words.old) (record { spreads = view_word name.now ∷ []; conditions = [] })) }
{
    words.spreads.push(*name)?;
    Ok(())
}

/// Adds a condition, where there is one.
fn mark_condition<'a>(
    condition: &Option<Spanning<&'a str, Span>>,
    words: &mut Words<'a>,
) -> Result<(), AllocError>
    ensures { OnOk result (view_marked words.new ≡ joined (view_marked words.old)
        (record { spreads = []; conditions = word_list (option_map view_word condition.now) })) }
{
    match condition {
        Some(name) => {
            words.conditions.push(*name)?;
            Ok(())
        }
        None => Ok(()),
    }
}

/// The name of a definition; an operation without one has an empty name where it stands itself.
#[tactic(auto, unfolding(crate::specs::Words::definition_word, crate::specs::Words::word_or))]
pub(crate) fn word_of<'a, S: ScalarValue>(definition: &Definition<'a, S>) -> Spanning<&'a str, Span>
    ensures { view_word result ≡ definition_word (view_definition S.shown definition.now) }
{
    match definition {
        Definition::Operation(operation) => match operation.item.name {
            Some(name) => name,
            None => Spanning::new(operation.span, ""),
        },
        Definition::Fragment(fragment) => fragment.item.name,
    }
}
