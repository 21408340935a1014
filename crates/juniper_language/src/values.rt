//! Values (section 2.9 of the Specification), and an argument, which is a name with its value (2.6).

ghost use Rattle.std.specs.Prelude.{◌≡◌, ◌≢◌, Some, None, length, map, IfOk, IfErr, IsFalse, IsTrue, MatchResult};
ghost use Rattle.juniper_syntax.specs.DocumentView.{view_argument, view_word};
ghost use Rattle.juniper_syntax.specs.InputView.{view_input};
ghost use Rattle.juniper_syntax.specs.Positions.{view_spanning};
ghost use Rattle.juniper_syntax.specs.declared.error.ParseError.TheVariants.{Memory};
ghost use Rattle.juniper_language.specs.ParserViews.{view_member, view_owned};
ghost use Rattle.juniper_language.specs.Readers as read;
ghost use Rattle.juniper_language.specs.Readers.{Gives};
ghost use Rattle.juniper_language.specs.Reading as rule;

use crate::cursor::{ParseResult, Parser, Word, refused, too_deep};
use juniper_syntax::{InputValue, ScalarValue, Span, Spanning};
use juniper_tokens::{Lexeme, ScalarToken, decode_int, decode_string};
use std::alloc::{AllocError, Global};

/// A value and its place.
type PlacedValue<S> = Spanning<InputValue<S>, Span>;

/// An argument's name and value.
pub type Argument<'a, S> = (Word<'a>, PlacedValue<S>);

/// An object's field: its name and value.
type Member<S> = (Spanning<String, Span>, PlacedValue<S>);

/// The value that a word is: `true`, `false`, `null`, or a value of an enum (2.9.3, 2.9.5, 2.9.6).
#[tactic(auto, using(crate::proofs::PartViews::view_truth, juniper_syntax::proofs::Inputs::input_views))]
fn word_value<S: ScalarValue>(alloc: Global, word: &str) -> Result<InputValue<S>, AllocError>
    ensures { IfOk result (λ v. view_input S.shown v ≡ rule.word_value word.now) }
{
    if word == "true" {
        Ok(InputValue::Scalar(S::from_bool(true)))
    } else if word == "false" {
        Ok(InputValue::Scalar(S::from_bool(false)))
    } else if word == "null" {
        Ok(InputValue::Null)
    } else {
        Ok(InputValue::Enum(String::from_str(alloc, word)?))
    }
}

/// The Int at the place; refused where 32 bits do not hold it (2.9.1, 3.5.1).
#[tactic(auto, using(crate::proofs::PartViews::view_int))]
fn int_value<S: ScalarValue>(number: &str, place: Span) -> ParseResult<InputValue<S>>
    ensures value { MatchResult result
        (λ v. rule.number_value number.now ≡ Some (view_input S.shown v))
        (λ e. rule.number_value number.now ≡ None) }
    ensures place { IfErr result (λ e. e.span ≡ place) }
{
    match decode_int(number) {
        Ok(value) => Ok(InputValue::Scalar(S::from_int(value))),
        Err(error) => Err(Spanning::new(place, error)),
    }
}

/// The String at the place, from what stands between its quotes (2.9.4).
#[tactic(auto, using(crate::proofs::PartViews::view_text))]
fn string_value<S: ScalarValue>(alloc: Global, raw: &str, place: Span) -> ParseResult<InputValue<S>>
    ensures value { MatchResult result
        (λ v. rule.string_value raw.now ≡ Some (view_input S.shown v))
        (λ e. e.item ≢ Memory → rule.string_value raw.now ≡ None) }
    ensures place { IfErr result (λ e. e.item ≢ Memory → e.span ≡ place) }
{
    match decode_string(alloc, raw) {
        Ok(text) => Ok(InputValue::Scalar(S::from_text(text)?)),
        Err(error) => Err(Spanning::new(place, error)),
    }
}

/// A variable behind its `$`, which is refused where only a constant may stand (2.10).
#[tactic(auto, using(juniper_syntax::proofs::Inputs::input_views))]
fn variable<S: ScalarValue>(
    alloc: Global,
    parser: &mut Parser<'_, '_>,
    constant: bool,
    place: Span,
) -> ParseResult<InputValue<S>>
    ensures value { Gives (view_input S.shown) result parser.new (rule.variable_if constant parser.old) }
    ensures place { IsTrue constant → IfErr result (λ e. e.span ≡ place) }
{
    if constant {
        return Err(refused(place));
    }
    let name = parser.name()?;
    Ok(InputValue::Variable(String::from_str(alloc, name.item)?))
}

/// The name as a text of its own.
fn owned(alloc: Global, name: Word<'_>) -> Result<Spanning<String, Span>, AllocError>
    ensures { IfOk result (λ n. view_owned n ≡ view_word name.entry) }
{
    let text = String::from_str(alloc, name.item)?;
    Ok(Spanning::new(name.span, text))
}

/// A value (2.9). At most so many brackets may be opened in it, and no variable stands in a constant.
#[cycle(values)]
#[tactic(auto, using(crate::proofs::RuleSteps::value_is))]
#[inline(never)]
pub fn value<S: ScalarValue>(
    alloc: Global,
    parser: &mut Parser<'_, '_>,
    constant: bool,
    depth: usize,
) -> ParseResult<InputValue<S>>
    ensures { Gives (view_input S.shown) result parser.new (rule.value constant depth parser.old) }
{
    let token = parser.next()?;
    match token.lexeme {
        Lexeme::Mark(mark) => bracketed(alloc, parser, constant, depth, mark, token.span),
        Lexeme::Name(word) => Ok(word_value(alloc, word)?),
        Lexeme::Scalar(ScalarToken::Int(number)) => int_value(number, token.span),
        Lexeme::Scalar(ScalarToken::String(raw)) => string_value(alloc, raw, token.span),
    }
}

/// What begins with the punctuator at the place: a variable, a list or an object (2.9.7, 2.9.8, 2.10).
#[cycle(values)]
#[tactic(auto, using(crate::proofs::RuleSteps::list_at, crate::proofs::RuleSteps::object_at, crate::proofs::PartViews::view_list, crate::proofs::PartViews::view_object), unfolding(crate::specs::Reading::may_begin))]
fn bracketed<S: ScalarValue>(
    alloc: Global,
    parser: &mut Parser<'_, '_>,
    constant: bool,
    depth: usize,
    mark: u8,
    place: Span,
) -> ParseResult<InputValue<S>>
    ensures value { Gives (view_input S.shown) result parser.new (rule.bracketed constant (rule.list_within constant depth)
        (rule.object_within constant depth) mark parser.old) }
    ensures place { IsFalse (rule.may_begin constant depth mark) → IfErr result (λ e. e.span ≡ place) }
{
    if mark == b'$' {
        return variable(alloc, parser, constant, place);
    }
    if mark != b'[' && mark != b'{' {
        return Err(refused(place));
    }
    if depth == 0 {
        return Err(too_deep(place));
    }
    if mark == b'[' {
        let items = items(alloc, parser, constant, depth - 1)?;
        Ok(InputValue::List(items))
    } else {
        let fields = fields(alloc, parser, constant, depth - 1)?;
        Ok(InputValue::Object(fields))
    }
}

/// A value and its place.
#[cycle(values)]
#[tactic(auto, unfolding(graphql_spec::specs::Grammar::span_of))]
pub fn placed_value<S: ScalarValue>(
    alloc: Global,
    parser: &mut Parser<'_, '_>,
    constant: bool,
    depth: usize,
) -> ParseResult<PlacedValue<S>>
    ensures { Gives (view_spanning (view_input S.shown)) result parser.new (read.spanned (rule.value constant depth) parser.old) }
{
    let start = parser.begin();
    let item = value(alloc, parser, constant, depth)?;
    let span = parser.since(start);
    Ok(Spanning::new(span, item))
}

/// An argument: name, colon and value (2.6).
#[cycle(values)]
#[tactic(auto, unfolding(crate::specs::Reading::argument))]
#[inline(always)]
pub fn argument<'a, S: ScalarValue>(
    alloc: Global,
    parser: &mut Parser<'_, 'a>,
    constant: bool,
    depth: usize,
) -> ParseResult<Argument<'a, S>>
    ensures { Gives (view_argument S.shown) result parser.new (rule.argument constant depth parser.old) }
{
    let name = parser.name()?;
    parser.expect(b':')?;
    let value = placed_value(alloc, parser, constant, depth)?;
    Ok((name, value))
}

/// The values of a list, and the bracket behind them (2.9.7).
#[cycle(values)]
#[tactic(auto, using(crate::proofs::Loops::parts_more, crate::proofs::Loops::parts_end, crate::proofs::Loops::parts_none, crate::proofs::Loops::prepend_nil))]
fn items<S: ScalarValue>(
    alloc: Global,
    parser: &mut Parser<'_, '_>,
    constant: bool,
    depth: usize,
) -> ParseResult<Vec<PlacedValue<S>>>
    ensures { Gives (λ v. map (view_spanning (view_input S.shown)) v.items) result parser.new
        (read.until 93 (read.spanned (rule.value constant depth)) (length parser.old.ahead) parser.old) }
{
    let mut found = Vec::with_capacity(alloc, parser.room_for(2))?;
    for _turn in 0..parser.left() {
        if parser.sees(b']') {
            parser.next()?;
            return Ok(found);
        }
        found.push(placed_value(alloc, parser, constant, depth)?)?;
    }
    Err(parser.unexpected()?)
}

/// The fields of an object, and the brace behind them (2.9.8).
#[cycle(values)]
#[tactic(auto, using(crate::proofs::Loops::parts_more, crate::proofs::Loops::parts_end, crate::proofs::Loops::parts_none, crate::proofs::Loops::prepend_nil))]
fn fields<S: ScalarValue>(
    alloc: Global,
    parser: &mut Parser<'_, '_>,
    constant: bool,
    depth: usize,
) -> ParseResult<Vec<Member<S>>>
    ensures { Gives (λ v. map (view_member S.shown) v.items) result parser.new
        (read.until 125 (rule.argument constant depth) (length parser.old.ahead) parser.old) }
{
    let mut found = Vec::with_capacity(alloc, parser.room_for(2))?;
    for _turn in 0..parser.left() {
        if parser.sees(b'}') {
            parser.next()?;
            return Ok(found);
        }
        let (name, value) = argument(alloc, parser, constant, depth)?;
        found.push((owned(alloc, name)?, value))?;
    }
    Err(parser.unexpected()?)
}
