//! Arguments and directives (sections 2.6 and 2.12 of the Specification).

ghost use Rattle.std.specs.Prelude.{map};
ghost use Rattle.juniper_syntax.specs.DocumentView.{view_argument, view_arguments, view_directive, view_directives};
ghost use Rattle.juniper_language.specs.ParserViews.{view_given};
ghost use Rattle.juniper_language.specs.Readers as read;
ghost use Rattle.juniper_language.specs.Readers.{Gives};
ghost use Rattle.juniper_language.specs.Reading as rule;

use crate::cursor::{ParseResult, Parser, too_deep};
use crate::values::{Argument, argument};
use juniper_syntax::ast::Arguments;
use juniper_syntax::{Directive, ScalarValue, Span, Spanning};
use std::alloc::Global;

/// Directives, where some are written.
pub type Directives<'a, S> = Option<Vec<Spanning<Directive<'a, S>, Span>>>;

/// One or more arguments, and the bracket behind them.
#[tactic(auto, unfolding(crate::specs::Readers::some_until), using(crate::proofs::Loops::parts_more, crate::proofs::Loops::parts_end, crate::proofs::Loops::parts_none, crate::proofs::Loops::prepend_nil))]
fn some_arguments<'a, S: ScalarValue>(
    alloc: Global,
    parser: &mut Parser<'_, 'a>,
    constant: bool,
    depth: usize,
) -> ParseResult<Vec<Argument<'a, S>>>
    ensures { Gives (λ v. map (view_argument S.shown) v.items) result parser.new (read.some_until 41 (rule.argument constant depth) parser.old) }
{
    if parser.sees(b')') {
        return Err(parser.unexpected()?);
    }
    let mut found = Vec::with_capacity(alloc, parser.room_for(2))?;
    for _turn in 0..parser.left() {
        if parser.sees(b')') {
            parser.next()?;
            return Ok(found);
        }
        found.push(argument(alloc, parser, constant, depth)?)?;
    }
    Err(parser.unexpected()?)
}

/// Arguments in their brackets (2.6).
#[tactic(auto, unfolding(graphql_spec::specs::Grammar::span_of), using(crate::proofs::RuleSteps::brackets_at))]
fn arguments<'a, S: ScalarValue>(
    alloc: Global,
    parser: &mut Parser<'_, 'a>,
    constant: bool,
    depth: usize,
) -> ParseResult<Spanning<Arguments<'a, S>, Span>>
    ensures { Gives (view_given S.shown) result parser.new (rule.arguments constant depth parser.old) }
{
    let start = parser.begin();
    parser.expect(b'(')?;
    if depth == 0 {
        return Err(too_deep(parser.since(start)));
    }
    let items = some_arguments(alloc, parser, constant, depth - 1)?;
    let span = parser.since(start);
    Ok(Spanning::new(span, Arguments { items }))
}

/// The arguments of a field or a directive, if it has some (2.5, 2.12).
#[tactic(auto, unfolding(crate::specs::Reading::given))]
pub fn given<'a, S: ScalarValue>(
    alloc: Global,
    parser: &mut Parser<'_, 'a>,
    constant: bool,
    depth: usize,
) -> ParseResult<Option<Spanning<Arguments<'a, S>, Span>>>
    ensures { Gives (view_arguments S.shown) result parser.new (rule.given constant depth parser.old) }
{
    if !parser.sees(b'(') {
        return Ok(None);
    }
    Ok(Some(arguments(alloc, parser, constant, depth)?))
}

/// A directive (2.12).
#[tactic(auto, unfolding(crate::specs::Reading::directive, graphql_spec::specs::Grammar::span_of))]
fn directive<'a, S: ScalarValue>(
    alloc: Global,
    parser: &mut Parser<'_, 'a>,
    constant: bool,
    depth: usize,
) -> ParseResult<Spanning<Directive<'a, S>, Span>>
    ensures { Gives (view_directive S.shown) result parser.new (rule.directive constant depth parser.old) }
{
    let start = parser.begin();
    parser.expect(b'@')?;
    let name = parser.name()?;
    let arguments = given(alloc, parser, constant, depth)?;
    let span = parser.since(start);
    Ok(Spanning::new(span, Directive { name, arguments }))
}

/// The directives that stand here, if there are some (2.12). In those of a variable's definition no variable stands.
#[tactic(auto, unfolding(crate::specs::Reading::directives), using(crate::proofs::Loops::while_more, crate::proofs::Loops::while_done, crate::proofs::Loops::while_out, crate::proofs::Loops::while_none, crate::proofs::Loops::prepend_nil))]
pub fn directives<'a, S: ScalarValue>(
    alloc: Global,
    parser: &mut Parser<'_, 'a>,
    constant: bool,
    depth: usize,
) -> ParseResult<Directives<'a, S>>
    ensures { Gives (view_directives S.shown) result parser.new (rule.directives constant depth parser.old) }
{
    if !parser.sees(b'@') {
        return Ok(None);
    }
    let mut found = Vec::with_capacity(alloc, 1)?;
    for _turn in 0..parser.left() {
        if !parser.sees(b'@') {
            break;
        }
        found.push(directive(alloc, parser, constant, depth)?)?;
    }
    Ok(Some(found))
}
