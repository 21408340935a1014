//! Where a reader of tokens stands.

ghost use Rattle.std.specs.Prelude.{◌≡◌, ◌≢◌, length, map, option_map, IfOk};
ghost use Rattle.graphql_spec.specs.Grammar.{before_all, begin_of};
ghost use Rattle.graphql_spec.specs.Positions.{origin};
ghost use Rattle.juniper_syntax.specs.Positions.{view_position, view_span};
ghost use Rattle.juniper_syntax.specs.DocumentView.{view_word};
ghost use Rattle.juniper_language.specs.Readers as read;
ghost use Rattle.juniper_language.specs.Readers.{Gives};
ghost use Rattle.juniper_language.specs.Reading as rule;
ghost use Rattle.juniper_tokens.specs.TokenViews.{view_token};
ghost use Rattle.juniper_syntax.specs.declared.error.ParseError.TheVariants.{Memory, TooDeep, UnexpectedToken};

use juniper_syntax::{ParseError, SourcePosition, Span, Spanning};
use juniper_tokens::{Ending, Lexeme, ScalarToken, Token};
use std::alloc::{AllocError, Global};
use std::marker::Model;

/// A name of the text, and its place.
pub type Word<'a> = Spanning<&'a str, Span>;

/// What a reader answers, or why it refuses and where.
pub type ParseResult<T> = Result<T, Spanning<ParseError, Span>>;

/// Of a text with so many tokens left each list has room for one part at first.
const LONG: usize = 10_000;

/// The tokens left, the end of the last one taken, and what stands after all of them.
#[derive(Drop)]
pub struct Parser<'t, 'a> {
    tokens: &'t [Token<'a>],
    last: &'t SourcePosition,
    ending: Ending<'a>,
    alloc: Global,
}

impl<'t, 'a> Model for Parser<'t, 'a> {
    ghost use Rattle.graphql_spec.specs.Grammar.{At};

    ghost Value = { At };

    ghost use Rattle.juniper_language.specs.Cursors.{view_at};

    ghost view = { view_at };
}

impl<'t, 'a> Parser<'t, 'a> {
    /// Before all tokens of a text, with the place where it begins.
    pub fn new(
        alloc: Global,
        tokens: &'t [Token<'a>],
        beginning: &'t SourcePosition,
        ending: Ending<'a>,
    ) -> Self
        requires { view_position beginning.now ≡ origin }
        ensures { result ≡ before_all (map view_token tokens.now) }
    {
        Parser {
            tokens,
            last: beginning,
            ending,
            alloc,
        }
    }

    /// How many tokens are left.
    pub fn left(&self) -> usize
        ensures { result ≡ length self.now.ahead }
    {
        self.tokens.len()
    }

    /// For how many parts a list has room at first, of which mostly so many come. In a long text it is one: there memory counts for more than
    /// the time of a list that grows.
    pub(crate) fn room_for(&self, parts: usize) -> usize {
        if self.tokens.len() < LONG { parts } else { 1 }
    }

    /// Where the next token begins, and past all tokens where the last one ends.
    #[tactic(auto, unfolding(graphql_spec::specs::Grammar::begin_of))]
    pub fn begin(&self) -> SourcePosition
        ensures { view_position result ≡ begin_of self.now.last self.now.ahead }
    {
        match self.tokens {
            [] => *self.last,
            [first, ..] => first.span.start,
        }
    }

    /// From the place to the end of the last token that was taken.
    pub fn since(&self, start: SourcePosition) -> Span
        ensures { view_span result ≡ record { start = view_position start; end = self.now.last } }
    {
        Span {
            start,
            end: *self.last,
        }
    }

    /// The refusal of what comes next: a token, what is none, or the end of the text.
    #[cold]
    #[inline(never)]
    pub fn unexpected(&self) -> Result<Spanning<ParseError, Span>, AllocError>
        ensures { IfOk result (λ e. e.item ≢ Memory) }
    {
        match self.tokens {
            [first, ..] => Ok(Spanning::new(first.span, ParseError::UnexpectedToken)),
            [] => self.ending.refusal(self.alloc),
        }
    }

    /// Takes the next token.
    #[inline(always)]
    pub fn next(&mut self) -> ParseResult<Token<'a>>
        ensures { Gives view_token result self.new (read.next self.old) }
    {
        match self.tokens {
            [] => Err(self.unexpected()?),
            [first, rest @ ..] => {
                let token = *first;
                self.tokens = rest;
                self.last = &first.span.end;
                Ok(token)
            }
        }
    }

    /// Whether the next token is this punctuator.
    pub fn sees(&self, mark: u8) -> bool
        ensures { result ≡ read.sees mark self.now }
    {
        match self.tokens {
            [] => false,
            [first, ..] => match first.lexeme {
                Lexeme::Mark(found) => found == mark,
                Lexeme::Name(_) | Lexeme::Scalar(ScalarToken::Int(_) | ScalarToken::String(_)) =>
                    false,
            },
        }
    }

    /// The name that comes next, if one does.
    pub fn word(&self) -> Option<&'a str>
        ensures { option_map (λ w. w.now) result ≡ rule.first_word self.now.ahead }
    {
        match self.tokens {
            [] => None,
            [first, ..] => match first.lexeme {
                Lexeme::Name(word) => Some(word),
                Lexeme::Mark(_) | Lexeme::Scalar(ScalarToken::Int(_) | ScalarToken::String(_)) =>
                    None,
            },
        }
    }

    /// Takes this punctuator.
    #[tactic(auto, unfolding(crate::specs::Readers::expect))]
    #[inline(always)]
    pub fn expect(&mut self, mark: u8) -> ParseResult<()>
        ensures { Gives (λ _. tt) result self.new (read.expect mark self.old) }
    {
        match self.tokens {
            [] => Err(self.unexpected()?),
            [first, rest @ ..] => match first.lexeme {
                Lexeme::Mark(found) => {
                    if found == mark {
                        self.tokens = rest;
                        self.last = &first.span.end;
                        Ok(())
                    } else {
                        Err(refused(first.span))
                    }
                }
                Lexeme::Name(_) | Lexeme::Scalar(ScalarToken::Int(_) | ScalarToken::String(_)) =>
                    Err(refused(first.span)),
            },
        }
    }

    /// Takes a name.
    #[tactic(auto, unfolding(crate::specs::Readers::a_name))]
    #[inline(always)]
    pub fn name(&mut self) -> ParseResult<Word<'a>>
        ensures { Gives view_word result self.new (read.a_name self.old) }
    {
        match self.tokens {
            [] => Err(self.unexpected()?),
            [first, rest @ ..] => match first.lexeme {
                Lexeme::Name(word) => {
                    self.tokens = rest;
                    self.last = &first.span.end;
                    Ok(Spanning::new(first.span, word))
                }
                Lexeme::Mark(_) | Lexeme::Scalar(ScalarToken::Int(_) | ScalarToken::String(_)) =>
                    Err(refused(first.span)),
            },
        }
    }
}

/// The refusal of the token at the place.
pub fn refused(place: Span) -> Spanning<ParseError, Span>
    ensures kind { result.item ≡ UnexpectedToken }
    ensures place { result.span ≡ place }
{
    Spanning::new(place, ParseError::UnexpectedToken)
}

/// The refusal of the bracket at the place, which is one too many.
pub fn too_deep(place: Span) -> Spanning<ParseError, Span>
    ensures kind { result.item ≡ TooDeep }
    ensures place { result.span ≡ place }
{
    Spanning::new(place, ParseError::TooDeep)
}
