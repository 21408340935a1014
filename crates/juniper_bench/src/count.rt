//! How much a document selects (section 2.5 of the Specification).

ghost use Rattle.std.specs.Prelude.{◌≡◌, ◌+◌};
ghost use Rattle.graphql_spec.specs.Documents.{Selections};
ghost use Rattle.juniper_syntax.specs.DocumentView.{put_selection, view_definition, view_document, view_selections};
ghost use Rattle.juniper_bench.specs.Counts.{capped, fields_in, fields_of, selections_of};

use juniper_language::{Definition, Document, ScalarValue, Selection};

/// How many fields stand in a document, at every level; more than a `usize` counts are told as the most that it counts.
pub fn count_fields<S: ScalarValue>(document: &Document<'_, S>) -> usize
    ensures { result ≡ capped (fields_of (view_document S.shown document.now)) }
{
    let definitions = document.as_slice();
    let mut count = 0;
    for definition in definitions {
        count = count_selections(selections_of(definition), count);
    }
    count
}

/// What a definition selects.
#[tactic(auto, unfolding(crate::specs::Counts::selections_of))]
fn selections_of<'b, 'a, S: ScalarValue>(
    definition: &'b Definition<'a, S>,
) -> &'b [Selection<'a, S>]
    ensures { view_selections S.shown result.now ≡ selections_of (view_definition S.shown definition.now) }
{
    match definition {
        Definition::Operation(operation) => operation.item.selection_set.as_slice(),
        Definition::Fragment(fragment) => fragment.item.selection_set.as_slice(),
    }
}

/// The fields of selections and those before them.
#[cycle(counting)]
fn count_selections<S: ScalarValue>(selections: &[Selection<'_, S>], before: usize) -> usize
    ensures { result ≡ capped (before + fields_in (view_selections S.shown selections.now)) }
{
    let mut count = before;
    for selection in selections {
        count = count_selection(selection, count);
    }
    count
}

/// The fields of a selection and those before it.
#[cycle(counting)]
fn count_selection<S: ScalarValue>(selection: &Selection<'_, S>, before: usize) -> usize
    ensures { (rest : Selections) → capped (result + fields_in rest) ≡ capped (before + fields_in (put_selection S.shown selection.now rest)) }
{
    match selection {
        Selection::Field(field) => match &field.item.selection_set {
            Some(below) => count_selections(below, before.saturating_add(1)),
            None => before.saturating_add(1),
        },
        Selection::FragmentSpread(_) => before,
        Selection::InlineFragment(inline) => {
            count_selections(&inline.item.selection_set, before)
        }
    }
}
