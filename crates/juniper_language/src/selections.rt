//! Selections (sections 2.4 to 2.8 of the Specification).

ghost use Rattle.std.specs.Prelude.{option_map};
ghost use Rattle.juniper_syntax.specs.DocumentView.{put_selection, view_selections, view_word};
ghost use Rattle.juniper_syntax.specs.Positions.{view_position};
ghost use Rattle.juniper_language.specs.ParserViews.{view_label};
ghost use Rattle.juniper_language.specs.Readers as read;
ghost use Rattle.juniper_language.specs.Readers.{Gives};
ghost use Rattle.juniper_language.specs.Reading as rule;

use crate::cursor::{ParseResult, Parser, Word, too_deep};
use crate::directives::{directives, given};
use juniper_syntax::{
    Field, FragmentSpread, InlineFragment, ScalarValue, Selection, SourcePosition, Spanning,
};
use std::alloc::Global;

/// The name behind an alias and its colon (2.7).
fn aliased<'a>(
    alias: Word<'a>,
    parser: &mut Parser<'_, 'a>,
) -> ParseResult<(Option<Word<'a>>, Word<'a>)>
    ensures { Gives view_label result parser.new (rule.behind_alias (view_word alias.entry) parser.old) }
{
    parser.next()?;
    let name = parser.name()?;
    Ok((Some(alias), name))
}

/// A field's name, and its alias before it (2.7).
#[tactic(auto, unfolding(crate::specs::Reading::label))]
fn label<'a>(parser: &mut Parser<'_, 'a>) -> ParseResult<(Option<Word<'a>>, Word<'a>)>
    ensures { Gives view_label result parser.new (rule.label parser.old) }
{
    let first = parser.name()?;
    if parser.sees(b':') {
        aliased(first, parser)
    } else {
        Ok((None, first))
    }
}

/// A spread of a fragment behind its dots, which began at the place (2.8).
#[tactic(auto, using(crate::proofs::PartViews::view_of_spread))]
fn spread<'a, S: ScalarValue>(
    alloc: Global,
    parser: &mut Parser<'_, 'a>,
    depth: usize,
    start: SourcePosition,
) -> ParseResult<Selection<'a, S>>
    ensures { Gives (put_selection S.shown) result parser.new (rule.placed (rule.spread_from depth (view_position start)) parser.old) }
{
    let name = parser.name()?;
    let directives = directives(alloc, parser, false, depth)?;
    let span = parser.since(start);
    let item = FragmentSpread { name, directives };
    Ok(Selection::FragmentSpread(Spanning::new(span, item)))
}

/// A selection set: one or more selections in braces (2.4). At most so many brackets may be opened in it, its own brace
/// among them.
#[cycle(selections)]
#[tactic(auto, using(crate::proofs::RuleSteps::inside_at))]
pub fn selection_set<'a, S: ScalarValue>(
    alloc: Global,
    parser: &mut Parser<'_, 'a>,
    depth: usize,
) -> ParseResult<Vec<Selection<'a, S>>>
    ensures { Gives (λ v. view_selections S.shown v.items) result parser.new (rule.set_by (rule.inside_of depth) parser.old) }
{
    let start = parser.begin();
    parser.expect(b'{')?;
    if depth == 0 {
        return Err(too_deep(parser.since(start)));
    }
    selections(alloc, parser, depth - 1)
}

/// The selections behind an open brace, up to the closing brace.
#[cycle(selections)]
#[tactic(auto, unfolding(crate::specs::Readers::some_until), using(crate::proofs::RuleSteps::selections_is, crate::proofs::Loops::until_more, crate::proofs::Loops::until_end, crate::proofs::Loops::until_none, crate::proofs::Loops::put_none))]
fn selections<'a, S: ScalarValue>(
    alloc: Global,
    parser: &mut Parser<'_, 'a>,
    depth: usize,
) -> ParseResult<Vec<Selection<'a, S>>>
    ensures { Gives (λ v. view_selections S.shown v.items) result parser.new (rule.selections depth parser.old) }
{
    if parser.sees(b'}') {
        return Err(parser.unexpected()?);
    }
    let mut found = Vec::with_capacity(alloc, parser.room_for(3))?;
    for _turn in 0..parser.left() {
        if parser.sees(b'}') {
            parser.next()?;
            return Ok(found);
        }
        found.push(selection(alloc, parser, depth)?)?;
    }
    Err(parser.unexpected()?)
}

/// A field, a spread or an inline fragment (2.4).
#[cycle(selections)]
#[tactic(auto, unfolding(crate::specs::Reading::selection))]
fn selection<'a, S: ScalarValue>(
    alloc: Global,
    parser: &mut Parser<'_, 'a>,
    depth: usize,
) -> ParseResult<Selection<'a, S>>
    ensures { Gives (put_selection S.shown) result parser.new (rule.placed (rule.selection depth (rule.inside_of depth)) parser.old) }
{
    if !parser.sees(b'.') {
        return field(alloc, parser, depth);
    }
    let start = parser.begin();
    parser.expect(b'.')?;
    fragment(alloc, parser, depth, start)
}

/// A field (2.5).
#[cycle(selections)]
#[tactic(auto, unfolding(graphql_spec::specs::Grammar::span_of), using(crate::proofs::PartViews::view_of_field))]
fn field<'a, S: ScalarValue>(
    alloc: Global,
    parser: &mut Parser<'_, 'a>,
    depth: usize,
) -> ParseResult<Selection<'a, S>>
    ensures { Gives (put_selection S.shown) result parser.new (rule.placed (rule.field_by depth (rule.inside_of depth)) parser.old) }
{
    let start = parser.begin();
    let (alias, name) = label(parser)?;
    let arguments = given(alloc, parser, false, depth)?;
    let directives = directives(alloc, parser, false, depth)?;
    let selection_set = optional_set(alloc, parser, depth)?;
    let span = parser.since(start);
    let item = Field {
        alias,
        name,
        arguments,
        directives,
        selection_set,
    };
    Ok(Selection::Field(Spanning::new(span, item)))
}

/// The selection set of a field, if it has one (2.5).
#[cycle(selections)]
fn optional_set<'a, S: ScalarValue>(
    alloc: Global,
    parser: &mut Parser<'_, 'a>,
    depth: usize,
) -> ParseResult<Option<Vec<Selection<'a, S>>>>
    ensures { Gives (option_map (λ v. view_selections S.shown v.items)) result parser.new (read.optional 123 (rule.set_by (rule.inside_of depth)) parser.old) }
{
    if !parser.sees(b'{') {
        return Ok(None);
    }
    let selections = selection_set(alloc, parser, depth)?;
    Ok(Some(selections))
}

/// A spread or an inline fragment behind its dots, which began at the place (2.8).
#[cycle(selections)]
fn fragment<'a, S: ScalarValue>(
    alloc: Global,
    parser: &mut Parser<'_, 'a>,
    depth: usize,
    start: SourcePosition,
) -> ParseResult<Selection<'a, S>>
    ensures { Gives (put_selection S.shown) result parser.new (rule.placed
        (rule.dotted depth (rule.inside_of depth) (view_position start) (rule.first_word parser.old.ahead)) parser.old) }
{
    match parser.word() {
        None => inline_fragment(alloc, parser, depth, start, None),
        Some(word) => {
            if word != "on" {
                return spread(alloc, parser, depth, start);
            }
            parser.name()?;
            let condition = parser.name()?;
            inline_fragment(alloc, parser, depth, start, Some(condition))
        }
    }
}

/// An inline fragment behind its condition, which began at the place (2.8.2).
#[cycle(selections)]
#[tactic(auto, using(crate::proofs::PartViews::view_of_inline))]
fn inline_fragment<'a, S: ScalarValue>(
    alloc: Global,
    parser: &mut Parser<'_, 'a>,
    depth: usize,
    start: SourcePosition,
    type_condition: Option<Word<'a>>,
) -> ParseResult<Selection<'a, S>>
    ensures { Gives (put_selection S.shown) result parser.new (rule.placed
        (rule.inline_by depth (rule.inside_of depth) (view_position start) (option_map view_word type_condition.entry)) parser.old) }
{
    let directives = directives(alloc, parser, false, depth)?;
    let selection_set = selection_set(alloc, parser, depth)?;
    let span = parser.since(start);
    let item = InlineFragment {
        type_condition,
        directives,
        selection_set,
    };
    Ok(Selection::InlineFragment(Spanning::new(span, item)))
}
