//! Definitions: operations with their variables, and fragments (sections 2.2, 2.3, 2.8 and 2.10 of the Specification).

ghost use Rattle.std.specs.Prelude.{◌≡◌, length, map, option_map};
ghost use Rattle.graphql_spec.specs.Grammar.{most_brackets};
ghost use Rattle.juniper_syntax.specs.DocumentView.{view_definition, view_kind, view_variable, view_word};
ghost use Rattle.juniper_syntax.specs.InputView.{view_input};
ghost use Rattle.juniper_syntax.specs.Positions.{view_position, view_spanning};
ghost use Rattle.juniper_syntax.specs.TypeView.{view_type};
ghost use Rattle.juniper_language.specs.ParserViews.{view_variables};
ghost use Rattle.juniper_language.specs.Readers as read;
ghost use Rattle.juniper_language.specs.Readers.{Gives};
ghost use Rattle.juniper_language.specs.Reading as rule;

use crate::cursor::{ParseResult, Parser, Word, refused};
use crate::directives::directives;
use crate::references::type_reference;
use crate::selections::selection_set;
use crate::values::placed_value;
use juniper_syntax::{
    DefinedVariable, Definition, Fragment, InputValue, Operation, OperationType, ScalarValue,
    SourcePosition, Span, Spanning, Type, VariableDefinition, VariableDefinitions,
};
use std::alloc::Global;

/// How many brackets may be open at once.
const MOST_BRACKETS: usize = 256;

/// A type and its place.
#[tactic(auto, unfolding(graphql_spec::specs::Grammar::span_of))]
fn placed_type<'a>(
    alloc: Global,
    parser: &mut Parser<'_, 'a>,
    depth: usize,
) -> ParseResult<Spanning<Type<&'a str>, Span>>
    ensures { Gives (view_spanning (view_type (λ s. s.now))) result parser.new (read.spanned (rule.type_ref depth) parser.old) }
{
    let start = parser.begin();
    let item = type_reference(alloc, parser, depth)?;
    let span = parser.since(start);
    Ok(Spanning::new(span, item))
}

/// A variable's default, if it has one: `=` and a constant (2.10).
#[tactic(auto, unfolding(crate::specs::Reading::default_value))]
fn default_value<S: ScalarValue>(
    alloc: Global,
    parser: &mut Parser<'_, '_>,
    depth: usize,
) -> ParseResult<Option<Spanning<InputValue<S>, Span>>>
    ensures { Gives (option_map (view_spanning (view_input S.shown))) result parser.new (read.optional 61 (rule.default_value depth) parser.old) }
{
    if !parser.sees(b'=') {
        return Ok(None);
    }
    parser.expect(b'=')?;
    let value = placed_value(alloc, parser, true, depth)?;
    Ok(Some(value))
}

/// The definition of a variable (2.10).
#[tactic(auto, unfolding(crate::specs::Reading::variable_definition, graphql_spec::specs::Grammar::span_of))]
fn variable_definition<'a, S: ScalarValue>(
    alloc: Global,
    parser: &mut Parser<'_, 'a>,
    depth: usize,
) -> ParseResult<DefinedVariable<'a, S>>
    ensures { Gives (view_variable S.shown) result parser.new (rule.variable_definition depth parser.old) }
{
    let start = parser.begin();
    parser.expect(b'$')?;
    let name = parser.name()?;
    let name = Spanning::new(parser.since(start), name.item);
    parser.expect(b':')?;
    let var_type = placed_type(alloc, parser, depth)?;
    let default_value = default_value(alloc, parser, depth)?;
    let directives = directives(alloc, parser, true, depth)?;
    let definition = VariableDefinition {
        var_type,
        default_value,
        directives,
    };
    Ok((name, definition))
}

/// One or more definitions of variables, and the bracket behind them.
#[tactic(auto, unfolding(crate::specs::Readers::some_until), using(crate::proofs::Loops::parts_more, crate::proofs::Loops::parts_end, crate::proofs::Loops::parts_none, crate::proofs::Loops::prepend_nil))]
fn some_variables<'a, S: ScalarValue>(
    alloc: Global,
    parser: &mut Parser<'_, 'a>,
    depth: usize,
) -> ParseResult<Vec<DefinedVariable<'a, S>>>
    ensures { Gives (λ v. map (view_variable S.shown) v.items) result parser.new (read.some_until 41 (rule.variable_definition depth) parser.old) }
{
    if parser.sees(b')') {
        return Err(parser.unexpected()?);
    }
    let mut found = Vec::with_capacity(alloc, 1)?;
    for _turn in 0..parser.left() {
        if parser.sees(b')') {
            parser.next()?;
            return Ok(found);
        }
        found.push(variable_definition(alloc, parser, depth)?)?;
    }
    Err(parser.unexpected()?)
}

/// Definitions of variables in their brackets (2.10).
#[tactic(auto, unfolding(graphql_spec::specs::Grammar::span_of), using(crate::proofs::RuleSteps::brackets_at))]
fn variables<'a, S: ScalarValue>(
    alloc: Global,
    parser: &mut Parser<'_, 'a>,
) -> ParseResult<Spanning<VariableDefinitions<'a, S>, Span>>
    ensures { Gives (view_variables S.shown) result parser.new (rule.in_brackets rule.variable_definition most_brackets parser.old) }
{
    let start = parser.begin();
    parser.expect(b'(')?;
    let items = some_variables(alloc, parser, MOST_BRACKETS - 1)?;
    let span = parser.since(start);
    Ok(Spanning::new(span, VariableDefinitions { items }))
}

/// The variables that an operation defines, if it defines some (2.3).
fn optional_variables<'a, S: ScalarValue>(
    alloc: Global,
    parser: &mut Parser<'_, 'a>,
) -> ParseResult<Option<Spanning<VariableDefinitions<'a, S>, Span>>>
    ensures { Gives (option_map (view_variables S.shown)) result parser.new
        (read.optional 40 (rule.in_brackets rule.variable_definition most_brackets) parser.old) }
{
    if !parser.sees(b'(') {
        return Ok(None);
    }
    Ok(Some(variables(alloc, parser)?))
}

/// A name, if one comes next.
fn optional_name<'a>(parser: &mut Parser<'_, 'a>) -> ParseResult<Option<Word<'a>>>
    ensures { Gives (option_map view_word) result parser.new (rule.name_if parser.old) }
{
    match parser.word() {
        None => Ok(None),
        Some(_) => Ok(Some(parser.name()?)),
    }
}

/// A query that is its selection set alone (2.3).
#[tactic(auto, unfolding(graphql_spec::specs::Grammar::span_of))]
fn shorthand<'a, S: ScalarValue>(
    alloc: Global,
    parser: &mut Parser<'_, 'a>,
) -> ParseResult<Definition<'a, S>>
    ensures { Gives (view_definition S.shown) result parser.new (rule.as_operation (rule.shorthand most_brackets) parser.old) }
{
    let start = parser.begin();
    let selection_set = selection_set(alloc, parser, MOST_BRACKETS)?;
    let span = parser.since(start);
    let item = Operation {
        operation_type: OperationType::Query,
        name: None,
        variable_definitions: None,
        directives: None,
        selection_set,
    };
    Ok(Definition::Operation(Spanning::new(span, item)))
}

/// An operation behind its kind, which began at the place (2.3).
fn longhand<'a, S: ScalarValue>(
    alloc: Global,
    parser: &mut Parser<'_, 'a>,
    start: SourcePosition,
    operation_type: OperationType,
) -> ParseResult<Definition<'a, S>>
    ensures { Gives (view_definition S.shown) result parser.new (rule.as_operation
        (rule.longhand most_brackets (view_position start) (view_kind operation_type)) parser.old) }
{
    let name = optional_name(parser)?;
    let variable_definitions = optional_variables(alloc, parser)?;
    let directives = directives(alloc, parser, false, MOST_BRACKETS)?;
    let selection_set = selection_set(alloc, parser, MOST_BRACKETS)?;
    let span = parser.since(start);
    let item = Operation {
        operation_type,
        name,
        variable_definitions,
        directives,
        selection_set,
    };
    Ok(Definition::Operation(Spanning::new(span, item)))
}

/// A fragment's name: any but `on` (2.8).
fn fragment_name<'a>(parser: &mut Parser<'_, 'a>) -> ParseResult<Word<'a>>
    ensures { Gives view_word result parser.new (rule.fragment_name parser.old) }
{
    let name = parser.name()?;
    if name.item == "on" {
        Err(refused(name.span))
    } else {
        Ok(name)
    }
}

/// `on`, and the name of a type (2.8.1).
fn type_condition<'a>(parser: &mut Parser<'_, 'a>) -> ParseResult<Word<'a>>
    ensures { Gives view_word result parser.new (rule.condition parser.old) }
{
    let on = parser.name()?;
    if on.item == "on" {
        parser.name()
    } else {
        Err(refused(on.span))
    }
}

/// A fragment behind `fragment`, which began at the place (2.8).
fn fragment_definition<'a, S: ScalarValue>(
    alloc: Global,
    parser: &mut Parser<'_, 'a>,
    start: SourcePosition,
) -> ParseResult<Definition<'a, S>>
    ensures { Gives (view_definition S.shown) result parser.new (rule.as_fragment (rule.fragment_by most_brackets (view_position start)) parser.old) }
{
    let name = fragment_name(parser)?;
    let type_condition = type_condition(parser)?;
    let directives = directives(alloc, parser, false, MOST_BRACKETS)?;
    let selection_set = selection_set(alloc, parser, MOST_BRACKETS)?;
    let span = parser.since(start);
    let item = Fragment {
        name,
        type_condition,
        directives,
        selection_set,
    };
    Ok(Definition::Fragment(Spanning::new(span, item)))
}

/// The kind of an operation that begins with the word, if one does (2.3).
#[tactic(auto, unfolding(graphql_spec::specs::Grammar::kind_word))]
fn operation_type(word: &str) -> Option<OperationType>
    ensures { option_map view_kind result ≡ rule.kind_of word.now }
{
    if word == "query" {
        Some(OperationType::Query)
    } else if word == "mutation" {
        Some(OperationType::Mutation)
    } else if word == "subscription" {
        Some(OperationType::Subscription)
    } else {
        None
    }
}

/// A definition behind its first word, which stands at the place: an operation of a kind, or a fragment.
fn behind_word<'a, S: ScalarValue>(
    alloc: Global,
    parser: &mut Parser<'_, 'a>,
    start: SourcePosition,
    word: Word<'a>,
) -> ParseResult<Definition<'a, S>>
    ensures { Gives (view_definition S.shown) result parser.new (rule.behind_word most_brackets (view_position start) word.entry.item.now
        (rule.kind_of word.entry.item.now) parser.old) }
{
    match operation_type(word.item) {
        Some(kind) => longhand(alloc, parser, start, kind),
        None => {
            if word.item == "fragment" {
                fragment_definition(alloc, parser, start)
            } else {
                Err(refused(word.span))
            }
        }
    }
}

/// A definition (2.2).
#[tactic(auto, unfolding(crate::specs::Reading::definition), using(crate::proofs::RuleSteps::word_at))]
fn definition<'a, S: ScalarValue>(
    alloc: Global,
    parser: &mut Parser<'_, 'a>,
) -> ParseResult<Definition<'a, S>>
    ensures { Gives (view_definition S.shown) result parser.new (rule.definition most_brackets parser.old) }
{
    if parser.sees(b'{') {
        return shorthand(alloc, parser);
    }
    let start = parser.begin();
    let word = parser.name()?;
    behind_word(alloc, parser, start, word)
}

/// One definition or more, and no token after the last (2.2).
#[tactic(auto, unfolding(crate::specs::Reading::document), using(crate::proofs::Loops::definitions_more, crate::proofs::Loops::definitions_done, crate::proofs::Loops::definitions_none, crate::proofs::Loops::none_ahead, crate::proofs::Loops::some_ahead, crate::proofs::Loops::prepend_nil))]
pub fn document<'a, S: ScalarValue>(
    alloc: Global,
    parser: &mut Parser<'_, 'a>,
) -> ParseResult<Vec<Definition<'a, S>>>
    ensures { Gives (λ v. map (view_definition S.shown) v.items) result parser.new (rule.document parser.old) }
{
    if parser.left() == 0 {
        return Err(parser.unexpected()?);
    }
    let mut found = Vec::new(alloc);
    for _turn in 0..parser.left() {
        if parser.left() == 0 {
            break;
        }
        found.push(definition(alloc, parser)?)?;
    }
    if parser.left() != 0 {
        return Err(parser.unexpected()?);
    }
    Ok(found)
}
