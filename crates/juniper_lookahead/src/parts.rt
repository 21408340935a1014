//! What one selection holds: a field, or the selections of a fragment that applies (section 6.3.2 of the Specification).

ghost use Rattle.std.specs.Prelude.{◌≡◌, ◌<◌};
ghost use Rattle.std.specs.Option.{option_map};
ghost use Rattle.graphql_spec.specs.Documents as document;
ghost use Rattle.graphql_spec.specs.Fragments.{HasNoCycle, asked};
ghost use Rattle.graphql_spec.specs.Selections as selections;
ghost use Rattle.juniper_syntax.specs.Positions.{view_span};
ghost use Rattle.juniper_syntax.specs.DocumentView.{put_selection, view_spread, view_word};
ghost use Rattle.juniper_syntax.specs.declared.ast.InlineFragment.{out-InlineFragment};
ghost use Rattle.juniper_syntax.specs.declared.ast.Selection.{size-Selection};
ghost use Rattle.juniper_lookahead.specs.Choices.{is_met};
ghost use Rattle.juniper_lookahead.specs.Choosing.{CanFind, choice_of};
ghost use Rattle.juniper_lookahead.specs.SelectionView.{view_applies};
ghost use Rattle.juniper_lookahead.specs.Nesting.{nesting};
ghost use Rattle.juniper_lookahead.specs.Parts.{IsPart, field_before, inline_before};

use crate::choosing::{Choosing, Meets};
use crate::directives::is_admitted;
use crate::selection::Applies;
use juniper_syntax::{
    Field, FragmentSpread, InlineFragment, ScalarValue, Selection, Span, Spanning,
};

/// What is left to collect of one selection.
#[derive(Drop)]
pub(crate) enum Part<'d, 'a, S> {
    /// Nothing.
    Nothing,
    /// This field.
    Field(&'d Spanning<Field<'a, S>, Span>),
    /// The fields of these selections, for these types, with at most so many spreads inside one another.
    Selections(&'d [Selection<'a, S>], Applies<'a>, usize),
}

/// What a selection holds, where the nearest inline condition around it is this one.
pub(crate) fn part_of<'d, 'a, S: ScalarValue, M: Meets>(
    choosing: &Choosing<'_, 'd, 'a, S, M>,
    selection: &'d Selection<'a, S>,
    applies_for: Applies<'a>,
    spreads_left: usize,
) -> Part<'d, 'a, S>
    requires ready { CanFind S.shown choosing.now.fragments }
    requires acyclic { HasNoCycle (choice_of S.shown M.met choosing.now).fragments }
    ensures { IsPart S.shown (choice_of S.shown M.met choosing.now) (view_applies applies_for.entry) (put_selection S.shown selection.now) spreads_left
        (size-Selection S selection.now) result }
{
    match selection {
        Selection::Field(field) => field_part(choosing, field),
        Selection::FragmentSpread(spread) => {
            spread_part(choosing, spread, applies_for, spreads_left)
        }
        Selection::InlineFragment(inline) => {
            inline_part(choosing, inline, applies_for, spreads_left)
        }
    }
}

/// The field, where it is admitted.
fn field_part<'d, 'a, S: ScalarValue, M: Meets>(
    choosing: &Choosing<'_, 'd, 'a, S, M>,
    field: &'d Spanning<Field<'a, S>, Span>,
) -> Part<'d, 'a, S>
    ensures { (on : _) (n size : _) → IsPart S.shown (choice_of S.shown M.met choosing.now) on (field_before S.shown field.now) n size result }
{
    if is_admitted(&field.item.directives, choosing.variables) {
        Part::Field(field)
    } else {
        Part::Nothing
    }
}

/// The selections of the fragment that is spread, where the spread is admitted and the fragment applies.
fn spread_part<'d, 'a, S: ScalarValue, M: Meets>(
    choosing: &Choosing<'_, 'd, 'a, S, M>,
    spread: &Spanning<FragmentSpread<'a, S>, Span>,
    applies_for: Applies<'a>,
    spreads_left: usize,
) -> Part<'d, 'a, S>
    requires ready { CanFind S.shown choosing.now.fragments }
    requires acyclic { HasNoCycle (choice_of S.shown M.met choosing.now).fragments }
    ensures { (size : _) → IsPart S.shown (choice_of S.shown M.met choosing.now) (view_applies applies_for.entry)
        (document.spread (view_spread S.shown spread.now.item (view_span spread.now.span))) spreads_left size result }
{
    if spreads_left == 0 {
        return Part::Nothing;
    }
    if !is_admitted(&spread.item.directives, choosing.variables) {
        return Part::Nothing;
    }
    match choosing.fragments.named(spread.item.name.item) {
        Some(fragment) => {
            if choosing.conditions.meets(fragment.type_condition.item) {
                Part::Selections(&fragment.selection_set, applies_for, spreads_left - 1)
            } else {
                Part::Nothing
            }
        }
        None => Part::Nothing,
    }
}

/// The selections of an inline fragment, where it is admitted and applies.
fn inline_part<'d, 'a, S: ScalarValue, M: Meets>(
    choosing: &Choosing<'_, 'd, 'a, S, M>,
    inline: &'d Spanning<InlineFragment<'a, S>, Span>,
    applies_for: Applies<'a>,
    spreads_left: usize,
) -> Part<'d, 'a, S>
    ensures { (size : _) → nesting (out-InlineFragment S inline.now.item).selection_set.items < size →
        IsPart S.shown (choice_of S.shown M.met choosing.now) (view_applies applies_for.entry) (inline_before S.shown inline.now) spreads_left size result }
{
    if !is_admitted(&inline.item.directives, choosing.variables) {
        return Part::Nothing;
    }
    if applies(&choosing.conditions, &inline.item.type_condition) {
        let within = nearest(&inline.item.type_condition, applies_for);
        Part::Selections(&inline.item.selection_set, within, spreads_left)
    } else {
        Part::Nothing
    }
}

/// Whether an inline fragment applies: it has no condition, or one that is met.
#[tactic(auto, unfolding(crate::specs::Choices::is_met, graphql_spec::specs::Fragments::asked))]
fn applies<'a, M: Meets>(conditions: &M, condition: &Option<Spanning<&'a str, Span>>) -> bool
    ensures { result ≡ is_met (M.met conditions.now) (asked (option_map view_word condition.now)) }
{
    match condition {
        Some(named) => conditions.meets(named.item),
        None => true,
    }
}

/// The condition of an inline fragment, else the nearest one around it.
#[tactic(auto, unfolding(graphql_spec::specs::Selections::nearest, graphql_spec::specs::Fragments::asked))]
fn nearest<'a>(condition: &Option<Spanning<&'a str, Span>>, outer: Applies<'a>) -> Applies<'a>
    ensures { view_applies result ≡ selections.nearest (asked (option_map view_word condition.now)) (view_applies outer.entry) }
{
    match condition {
        Some(name) => Applies::OnlyType(name.item),
        None => outer,
    }
}
