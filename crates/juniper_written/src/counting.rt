//! What operations ask for: each fragment is counted once, behind those that it spreads.

ghost use Rattle.std.specs.Prelude.{◌≡◌, ◌-◌, ◌^◌, IfOk, None, OnOk, Some, map, min};
ghost use Rattle.graphql_spec.specs.Shown.{Name};
ghost use Rattle.graphql_spec.specs.Documents as documents;
ghost use Rattle.graphql_spec.specs.Documents.{Document, Selections};
ghost use Rattle.juniper_syntax.specs.DocumentView.{put_selection, view_definition, view_fragment, view_operation, view_selections};
ghost use Rattle.juniper_written.specs.Order.{IsInOrder};
ghost use Rattle.juniper_written.specs.SpreadsView.{AreFragmentsOf};
ghost use Rattle.juniper_written.specs.ExpandedFields.{expanded_fields as expanded};
ghost use Rattle.juniper_written.specs.ExpandedLevels.{expanded_levels as levels};
ghost use Rattle.juniper_written.specs.Kept.{AreWhole, kept_at, kept_with, number_in, weight_in};
ghost use Rattle.juniper_written.specs.Measures.{Measure, expanded_number, join, number};

use crate::counts::Counts;
use crate::{FragmentsByName, fragments_by_name};
use juniper_syntax::{Definition, Fragment, Operation, ScalarValue, Selection, Span, Spanning};
use std::alloc::{AllocError, Global};
use std::collections::BTreeMap;

/// What fragments count where they are put in, by their names.
type Kept<'a> = BTreeMap<&'a str, Counts>;

/// The counts of each operation of a document, in the document's order: the numbers that [`expanded_fields`] and [`expanded_levels`] answer
/// for it. The time grows with the size of the document, whatever it answers. An error where memory is refused.
pub fn expanded_counts<'d, 'a, S: ScalarValue>(
    alloc: Global,
    document: &'d [Definition<'a, S>],
) -> Result<Vec<Counts>, AllocError>
    ensures fields { IfOk result (λ r. let d = map (view_definition S.shown) document.now in
        map (λ c. c.fields) r.items ≡ map (λ o. expanded (2 ^ 64 - 1) (documents.fragments d) o.selections) (documents.operations d)) }
    ensures levels { IfOk result (λ r. let d = map (view_definition S.shown) document.now in
        map (λ c. c.levels) r.items ≡ map (λ o. levels (2 ^ 64 - 1) (documents.fragments d) o.selections) (documents.operations d)) }
{
    let fragments = fragments_by_name(alloc, document)?;
    let kept = count_fragments(alloc, &fragments)?;
    let counts = count_operations(alloc, document, &fragments, &kept)?;
    Ok(counts)
}

/// How many fields an operation of a document selects, with each spread replaced by what its fragment holds, and counted each time:
/// those below other fields too, whatever directives and type conditions say. [`u64::MAX`] where there are more, or no end of them,
/// as a fragment that is reached spreads itself. A spread of an unknown fragment counts nothing; of fragments of one name the first
/// counts. The time grows with the size of the document, whatever it answers. An error where memory is refused.
pub fn expanded_fields<'d, 'a, S: ScalarValue>(
    alloc: Global,
    document: &'d [Definition<'a, S>],
    operation: &Spanning<Operation<'a, S>, Span>,
) -> Result<u64, AllocError>
    ensures { IfOk result (λ n. n ≡ expanded (2 ^ 64 - 1) (documents.fragments (map (view_definition S.shown) document.now))
        (view_operation S.shown operation.now).selections) }
{
    let counts = count_operation(alloc, document, operation)?;
    Ok(counts.fields)
}

/// How many fields, spreads and inline fragments of an operation of a document stand inside one another, with each spread replaced by
/// what its fragment holds, whatever directives and type conditions say. [`u64::MAX`] where there are more, or no end of them, as a
/// fragment that is reached spreads itself. A spread of an unknown fragment counts nothing; of fragments of one name the first
/// counts. The time grows with the size of the document, whatever it answers. An error where memory is refused.
pub fn expanded_levels<'d, 'a, S: ScalarValue>(
    alloc: Global,
    document: &'d [Definition<'a, S>],
    operation: &Spanning<Operation<'a, S>, Span>,
) -> Result<u64, AllocError>
    ensures { IfOk result (λ n. n ≡ levels (2 ^ 64 - 1) (documents.fragments (map (view_definition S.shown) document.now))
        (view_operation S.shown operation.now).selections) }
{
    let counts = count_operation(alloc, document, operation)?;
    Ok(counts.levels)
}

/// Counts an operation of a document.
fn count_operation<'d, 'a, S: ScalarValue>(
    alloc: Global,
    document: &'d [Definition<'a, S>],
    operation: &Spanning<Operation<'a, S>, Span>,
) -> Result<Counts, AllocError>
    ensures { IfOk result (λ r. (m : Measure) → number m r ≡ expanded_number m (2 ^ 64 - 1)
        (documents.fragments (map (view_definition S.shown) document.now)) (view_operation S.shown operation.now).selections) }
{
    let fragments = fragments_by_name(alloc, document)?;
    let kept = count_fragments(alloc, &fragments)?;
    Ok(counts_of(operation.item.selection_set.as_slice(), &fragments, &kept))
}

/// Counts the operations, in the document's order, by what is kept of the fragments.
fn count_operations<'d, 'a, S: ScalarValue>(
    alloc: Global,
    document: &[Definition<'a, S>],
    fragments: &FragmentsByName<'d, 'a, S>,
    kept: &Kept<'a>,
) -> Result<Vec<Counts>, AllocError>
    ensures { IfOk result (λ r. (m : Measure) (d : Document) → AreFragmentsOf S.shown fragments.now d → map (number m) r.items
        ≡ map (λ o. min (2 ^ 64 - 1) (number_in m d kept.now o.selections)) (documents.operations (map (view_definition S.shown) document.now))) }
{
    let mut counts = Vec::new(alloc);
    for definition in document {
        match definition {
            Definition::Operation(operation) => {
                counts.push(counts_of(operation.item.selection_set.as_slice(), fragments, kept))?;
            }
            Definition::Fragment(_) => {}
        }
    }
    Ok(counts)
}

/// Counts the fragments, all but those that lead to a cycle.
fn count_fragments<'d, 'a, S: ScalarValue>(
    alloc: Global,
    fragments: &FragmentsByName<'d, 'a, S>,
) -> Result<Kept<'a>, AllocError>
    ensures { IfOk result (λ r. (m : Measure) (d : Document) → AreFragmentsOf S.shown fragments.now d → AreWhole m d r) }
{
    let order = fragments.in_order(alloc)?;
    let mut kept = BTreeMap::new(alloc);
    count_in_order(&order, fragments, &mut kept)?;
    Ok(kept)
}

/// Counts fragments, each of which stands behind those that it spreads.
fn count_in_order<'d, 'a, S: ScalarValue>(
    order: &Vec<&'d Spanning<Fragment<'a, S>, Span>>,
    fragments: &FragmentsByName<'d, 'a, S>,
    kept: &mut Kept<'a>,
) -> Result<(), AllocError>
    ensures { OnOk result ((m : Measure) (d : Document) → AreFragmentsOf S.shown fragments.now d →
        IsInOrder (documents.fragments d) (map (λ f. view_fragment S.shown f.now) order.now.items) → ((k : Name) → kept_at m kept.old k ≡ None) →
        AreWhole m d kept.new) }
{
    for index in 0..order.len() {
        let fragment = order[index];
        count_fragment(fragment, fragments, kept)?;
    }
    Ok(())
}

/// Counts a fragment by what is kept.
fn count_fragment<'d, 'a, S: ScalarValue>(
    fragment: &'d Spanning<Fragment<'a, S>, Span>,
    fragments: &FragmentsByName<'d, 'a, S>,
    kept: &mut Kept<'a>,
) -> Result<(), AllocError>
    ensures { OnOk result ((m : Measure) (d : Document) → AreFragmentsOf S.shown fragments.now d → (k : Name) →
        kept_at m kept.new k ≡ kept_with m d kept.old (view_fragment S.shown fragment.now) k) }
{
    let held = counts_of(fragment.item.selection_set.as_slice(), fragments, kept);
    kept.insert(fragment.item.name.item, held.of_fragment())?;
    Ok(())
}

/// Counts selections.
#[cycle(counting)]
fn counts_of<'d, 'a, S: ScalarValue>(
    selections: &[Selection<'a, S>],
    fragments: &FragmentsByName<'d, 'a, S>,
    kept: &Kept<'a>,
) -> Counts
    ensures { (m : Measure) (d : Document) → AreFragmentsOf S.shown fragments.now d →
        number m result ≡ min (2 ^ 64 - 1) (number_in m d kept.now (view_selections S.shown selections.now)) }
{
    let mut counts = Counts::none();
    for selection in selections {
        counts = counts.join(counts_at(selection, fragments, kept));
    }
    counts
}

/// Counts a selection.
#[cycle(counting)]
fn counts_at<'d, 'a, S: ScalarValue>(
    selection: &Selection<'a, S>,
    fragments: &FragmentsByName<'d, 'a, S>,
    kept: &Kept<'a>,
) -> Counts
    ensures { (m : Measure) (d : Document) → AreFragmentsOf S.shown fragments.now d → (rest : Selections) →
        min (2 ^ 64 - 1) (join m (number m result) (number_in m d kept.now rest))
        ≡ min (2 ^ 64 - 1) (number_in m d kept.now (put_selection S.shown selection.now rest)) }
{
    match selection {
        Selection::Field(field) => match &field.item.selection_set {
            Some(below) => counts_of(below, fragments, kept).of_field(),
            None => Counts::none().of_field(),
        },
        Selection::FragmentSpread(spread) => counts_behind(spread.item.name.item, fragments, kept),
        Selection::InlineFragment(inline) => {
            counts_of(&inline.item.selection_set, fragments, kept).of_fragment()
        }
    }
}

/// What the fragment of a name counts where it is put in: what is kept; one that is not counted leads to a cycle.
fn counts_behind<'d, 'a, S: ScalarValue>(
    name: &str,
    fragments: &FragmentsByName<'d, 'a, S>,
    kept: &Kept<'a>,
) -> Counts
    ensures { (m : Measure) (d : Document) → AreFragmentsOf S.shown fragments.now d → number m result ≡ weight_in m d kept.now name.now }
{
    match kept.get(name) {
        Some(counts) => *counts,
        None => match fragments.fragment(name) {
            Some(_) => Counts::endless(),
            None => Counts::none(),
        },
    }
}
