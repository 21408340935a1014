//! The parser: from a text to the document that it spells (section 2 of the Specification).

ghost use Rattle.std.specs.Prelude.{◌≡◌, ◌≢◌, MatchResult, true, false};
ghost use Rattle.graphql_spec.specs.Documents as spec;
ghost use Rattle.graphql_spec.specs.Grammar.{Spells};
ghost use Rattle.juniper_syntax.specs.DocumentView.{view_document};
ghost use Rattle.juniper_tokens.specs.Lexing as read_tokens;
ghost use Rattle.juniper_tokens.specs.TokenViews.{view_ending};

use crate::cursor::{ParseResult, Parser};
use crate::definitions::document;
use juniper_syntax::{Document, ParseError, ScalarValue, SourcePosition, Span, Spanning};
use juniper_tokens::{Ending, lex};
use std::alloc::Global;

/// That the tokens went on to the end of the text.
fn whole_text(alloc: Global, ending: Ending<'_>) -> ParseResult<()>
    ensures { MatchResult result (λ _. read_tokens.is_whole (view_ending ending.entry) ≡ true) (λ _. read_tokens.is_whole (view_ending ending.entry) ≡ false) }
{
    match ending {
        Ending::Whole(_) => Ok(()),
        Ending::Fault(_, _) => Err(ending.refusal(alloc)?),
    }
}

/// The document that the text spells (section 2 of the Specification). Its names borrow the text.
///
/// # Errors
/// Exactly where the text spells no document, the first fault in reading order, at the place where the token begins that
/// is at fault: a token that may not stand there is [`ParseError::UnexpectedToken`], and so is an Int that 32 bits do not
/// hold; a bracket that opens while 256 are open is [`ParseError::TooDeep`]; a character that begins no token is
/// [`LexerError::UnknownCharacter`](crate::LexerError::UnknownCharacter); a number that is no Int is
/// [`LexerError::InvalidNumber`](crate::LexerError::InvalidNumber), and a float [`ParseError::FloatLiteral`]; a string with
/// a fault is as [`decode_string`](crate::decode_string) says, or
/// [`LexerError::UnterminatedString`](crate::LexerError::UnterminatedString) where no quote ends it on its line, and one in
/// three quotes is [`ParseError::BlockString`]. A text that ends too early is [`ParseError::UnexpectedEndOfFile`], at its
/// end. Where memory is refused, [`ParseError::Memory`].
pub fn parse_document_source<'a, S: ScalarValue>(
    alloc: Global,
    text: &'a str,
) -> Result<Document<'a, S>, Spanning<ParseError, Span>>
    ensures { MatchResult result
        (λ d. Spells text.now (view_document S.shown d) × ((e : spec.Document) → Spells text.now e → e ≡ view_document S.shown d))
        (λ e. e.item ≢ ParseError.Memory → (d : spec.Document) → Spells text.now d → ⊥) }
{
    let lexed = lex(alloc, text)?;
    let beginning = SourcePosition::new_origin();
    let mut parser = Parser::new(alloc, &lexed.tokens, &beginning, lexed.ending);
    let found = document(alloc, &mut parser)?;
    whole_text(alloc, lexed.ending)?;
    Ok(found)
}
