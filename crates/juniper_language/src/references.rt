//! References to types (section 2.11 of the Specification).

ghost use Rattle.std.specs.Prelude.{◌≡◌, IfOk, None};
ghost use Rattle.graphql_spec.specs.Types.{list_of};
ghost use Rattle.juniper_syntax.specs.TypeView.{view_type};
ghost use Rattle.juniper_language.specs.Readers.{Gives};
ghost use Rattle.juniper_language.specs.Reading as rule;

use crate::cursor::{ParseResult, Parser, too_deep};
use juniper_syntax::Type;
use std::alloc::{AllocError, Global};

/// `!`, if it stands here.
fn bang(parser: &mut Parser<'_, '_>) -> ParseResult<bool>
    ensures { Gives (λ b. b) result parser.new (rule.bang parser.old) }
{
    if !parser.sees(b'!') {
        return Ok(false);
    }
    parser.next()?;
    Ok(true)
}

/// A name, and perhaps `!`.
fn named_type<'a>(parser: &mut Parser<'_, 'a>) -> ParseResult<Type<&'a str>>
    ensures { Gives (view_type (λ s. s.now)) result parser.new (rule.named_type parser.old) }
{
    let name = parser.name()?;
    let required = bang(parser)?;
    if required {
        Ok(Type::NonNullNamed(name.item))
    } else {
        Ok(Type::Named(name.item))
    }
}

/// The list of this type, which takes null or not.
fn list_type<'a>(
    alloc: Global,
    inner: Type<&'a str>,
    required: bool,
) -> Result<Type<&'a str>, AllocError>
    ensures { IfOk result (λ t. view_type (λ s. s.now) t ≡ list_of required None (view_type (λ s. s.now) inner.entry)) }
{
    let inner = Box::new(alloc, inner)?;
    if required {
        Ok(Type::NonNullList(inner, None))
    } else {
        Ok(Type::List(inner, None))
    }
}

/// A type: a name or a list, and perhaps `!`. At most so many brackets may be opened in it.
#[tactic(auto, using(crate::proofs::RuleSteps::type_list, crate::proofs::RuleSteps::type_deep, crate::proofs::RuleSteps::type_name))]
pub fn type_reference<'a>(
    alloc: Global,
    parser: &mut Parser<'_, 'a>,
    depth: usize,
) -> ParseResult<Type<&'a str>>
    ensures { Gives (view_type (λ s. s.now)) result parser.new (rule.type_ref depth parser.old) }
{
    if !parser.sees(b'[') {
        return named_type(parser);
    }
    let opening = parser.next()?;
    if depth == 0 {
        return Err(too_deep(opening.span));
    }
    let inner = type_reference(alloc, parser, depth - 1)?;
    parser.expect(b']')?;
    let required = bang(parser)?;
    Ok(list_type(alloc, inner, required)?)
}
