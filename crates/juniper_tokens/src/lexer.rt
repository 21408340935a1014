//! The lexer: from a text to its tokens (section 2.1 of the Specification).

ghost use Rattle.std.specs.Prelude.{take, ◌≡◌, ◌≤◌, ◌+◌, ◌^◌, ◌<◌, ◌≢◌, List, [], ◌∷◌, ◌++◌, ℕ, false, length, true};
ghost use Rattle.std.specs.Prelude.{IfOk, IsFalse, IsTrue, MatchOption, option_map};
ghost use Rattle.std.specs.List.{list_all, prefix_len};
ghost use Rattle.std.specs.Str.{IsCharBoundary};
ghost use Rattle.graphql_spec.specs.Positions as spec;
ghost use Rattle.graphql_spec.specs.Positions.{beginning};
ghost use Rattle.graphql_spec.specs.Tokens as tokens;
ghost use Rattle.juniper_tokens.specs.Spots.{HasRoom, begins_quoted, is_plain, is_space, view_spot};
ghost use Rattle.juniper_tokens.specs.Lexing as read;
ghost use Rattle.juniper_syntax.specs.Positions.{view_position, view_span};
ghost use Rattle.juniper_tokens.specs.TokenViews.{view_lexeme, view_lexed, view_token};

use crate::number::{int_len, number_fault, starts_int};
use crate::string::{string_fault, string_len, without_quotes};
use crate::token::{Ending, Fault, Lexed, Lexeme, ScalarToken, Token};
use juniper_syntax::{SourcePosition, Span, Spanning};
use std::alloc::{AllocError, Global};
use std::marker::Model;

/// For each byte what it is: `,` for a blank that ends no line, `!` for a punctuator, `0` for a digit, `a` for what a name begins with, and `.` for any
/// other. So a name goes on with the bytes that stand as `0` or above.
static CLASSES: [u8; 256] = *b"\
    .........,......................\
    ,!..!.!.!!..,...0000000000!..!..\
    !aaaaaaaaaaaaaaaaaaaaaaaaaa!.!.a\
    .aaaaaaaaaaaaaaaaaaaaaaaaaa!!!..\
    ................................\
    ................................\
    ................................\
    ................................";

/// Tab, line ends, space and comma (2.1.2, 2.1.3, 2.1.5).
#[tactic(auto, unfolding(graphql_spec::specs::Tokens::is_blank))]
fn is_blank(b: u8) -> bool
    ensures { result ≡ tokens.is_blank b }
{
    matches!(b, b'\t' | b'\n' | b'\r' | b' ' | b',')
}

/// What goes on in a comment: tab, and all that stands from the space up (2.1.4).
#[tactic(auto, unfolding(graphql_spec::specs::Tokens::is_source_byte))]
pub fn is_source_byte(b: u8) -> bool
    ensures { result ≡ tokens.is_source_byte b }
{
    b == b'\t' || b >= b' '
}

/// The punctuators of one byte (2.1.8).
fn is_mark(b: u8) -> bool
    ensures { result ≡ tokens.is_mark b }
{
    CLASSES[b as usize] == b'!'
}

/// What a name begins with (2.1.9).
fn starts_name(b: u8) -> bool
    ensures { result ≡ tokens.starts_name b }
{
    CLASSES[b as usize] == b'a'
}

/// What a name goes on with (2.1.9).
pub fn continues_name(b: u8) -> bool
    ensures { result ≡ tokens.continues_name b }
{
    CLASSES[b as usize] >= b'0'
}

/// The blanks that end no line: space, tab and comma.
fn is_space(b: u8) -> bool
    ensures { result ≡ is_space b }
{
    CLASSES[b as usize] == b','
}

/// How many blanks stand at the front before one that ends a line.
fn spaces_len(text: &[u8]) -> usize
    ensures { result ≡ prefix_len is_space text.now }
{
    text.iter().take_while(|b| is_space(**b)).count()
}

/// How many bytes of a comment stand at the front (2.1.4).
fn comment_len(text: &[u8]) -> usize
    ensures length { result ≤ length text.now }
    ensures run { result ≡ prefix_len tokens.is_source_byte text.now }
{
    text.iter().take_while(|b| is_source_byte(**b)).count()
}

/// How many bytes the first thing that is ignored has; 0 where the text begins with none.
#[tactic(auto, unfolding(crate::specs::Lexing::ignored_len))]
fn ignored_len(text: &[u8]) -> usize
    ensures { result ≡ read.ignored_len text.now }
{
    match text {
        [] => 0,
        [first, rest @ ..] => {
            if is_blank(*first) {
                1
            } else if *first == b'#' {
                comment_len(rest) + 1
            } else if text.starts_with(b"\xEF\xBB\xBF") {
                3
            } else {
                0
            }
        }
    }
}

/// How many bytes the name at the front has.
fn name_len(text: &[u8]) -> usize
    ensures { result ≡ prefix_len tokens.continues_name text.now }
{
    text.iter().take_while(|b| continues_name(**b)).count()
}

/// A place in a text, and whether a carriage return stands before it.
#[derive(Clone, Copy)]
struct Spot {
    position: SourcePosition,
    after_return: bool,
}

impl Spot {
    /// One byte further: LF, CR and CR LF each end one line, and a character's further bytes take no column.
    #[tactic(auto, unfolding(graphql_spec::specs::Positions::past_byte, graphql_spec::specs::Positions::next_line, graphql_spec::specs::Positions::continues_character))]
    fn past_byte(self, b: u8) -> Self
        requires { HasRoom (view_spot self) 1 }
        ensures { view_spot result ≡ spec.past_byte (view_spot self) b }
    {
        let index = self.position.index() + 1;
        let line = self.position.line();
        let column = self.position.column();
        let position = if b == b'\r' || b == b'\n' && !self.after_return {
            SourcePosition::new(index, line + 1, 0)
        } else if b == b'\n' {
            SourcePosition::new(index, line, 0)
        } else if b >= 128 && b < 192 {
            SourcePosition::new(index, line, column)
        } else {
            SourcePosition::new(index, line, column + 1)
        };
        Spot {
            position,
            after_return: b == b'\r',
        }
    }

    /// Past the word of a token: one that is quoted is gone over byte by byte, any other has a byte for each of its characters.
    fn past_lexeme(self, word: &[u8]) -> Self
        requires room { HasRoom (view_spot self) (length word.now) }
        requires plain { begins_quoted word.now ≡ false → list_all is_plain word.now ≡ true }
        ensures { view_spot result ≡ spec.walk (view_spot self) word.now }
    {
        match word {
            [] => self,
            [first, ..] => {
                if *first == b'"' {
                    self.past(word)
                } else {
                    self.past_plain(word)
                }
            }
        }
    }

    /// Past bytes of which each is a character, and none ends a line.
    fn past_plain(self, word: &[u8]) -> Self
        requires room { HasRoom (view_spot self) (length word.now) }
        requires some { 0 < length word.now }
        requires plain { list_all is_plain word.now ≡ true }
        ensures { view_spot result ≡ spec.walk (view_spot self) word.now }
    {
        let count = word.len();
        let index = self.position.index() + count;
        let column = self.position.column() + count;
        Spot {
            position: SourcePosition::new(index, self.position.line(), column),
            after_return: false,
        }
    }

    /// Past some bytes.
    #[tactic(auto, using(crate::proofs::Rooms::room_past_byte, crate::proofs::Rooms::walk_on, crate::proofs::Rooms::walk_none))]
    fn past(self, word: &[u8]) -> Self
        requires { HasRoom (view_spot self) (length word.now) }
        ensures { view_spot result ≡ spec.walk (view_spot self) word.now }
    {
        let mut at = self;
        for b in word {
            at = at.past_byte(*b);
        }
        at
    }
}

/// How many bytes the token at the front has; 0 where the text begins with none.
#[tactic(auto, unfolding(crate::specs::Lexing::lexeme_len))]
fn lexeme_len(text: &str) -> usize
    ensures { result ≡ read.lexeme_len text.now }
{
    let bytes = text.as_bytes();
    match bytes {
        [] => 0,
        [first, ..] => {
            if is_mark(*first) {
                1
            } else if starts_name(*first) {
                name_len(bytes)
            } else if bytes.starts_with(b"...") {
                3
            } else if *first == b'"' {
                string_len(text)
            } else {
                int_len(bytes)
            }
        }
    }
}

/// The token that is written so.
#[tactic(auto, unfolding(crate::specs::Lexing::lexeme_of))]
fn lexeme_of<'a>(word: &'a str) -> Lexeme<'a>
    ensures { view_lexeme result ≡ read.lexeme_of word.now }
{
    match word.as_bytes() {
        [] => Lexeme::Name(word),
        [first, ..] => {
            if starts_name(*first) {
                Lexeme::Name(word)
            } else if starts_int(*first) {
                Lexeme::Scalar(ScalarToken::Int(word))
            } else if *first == b'"' {
                Lexeme::Scalar(ScalarToken::String(without_quotes(word)))
            } else {
                Lexeme::Mark(*first)
            }
        }
    }
}

/// Why no token stands at the front.
fn fault(text: &str) -> Fault<'_> {
    match text.as_bytes() {
        [] => Fault::Character,
        [first, ..] => {
            if starts_int(*first) {
                number_fault(text.as_bytes())
            } else if *first == b'"' {
                string_fault(text)
            } else {
                Fault::Character
            }
        }
    }
}

/// Where a reader of a text stands.
#[derive(Drop)]
struct Lexer<'a> {
    rest: &'a str,
    spot: Spot,
}

impl<'a> Model for Lexer<'a> {
    ghost use Rattle.juniper_tokens.specs.Lexing.{Front};

    ghost Value = { Front };

    ghost use Rattle.std.specs.Prelude.{length};
    ghost use Rattle.juniper_tokens.specs.Spots.{HasRoom, view_front, view_spot};

    ghost view = { view_front };

    ghost invariant = { λ l. HasRoom (view_spot l.spot) (length l.rest.now) };
}

impl<'a> Lexer<'a> {
    /// At the beginning of the text.
    fn new(text: &'a str) -> Self
        ensures { result ≡ record { at = beginning; ahead = text.now } }
    {
        // The length of a text fits a `usize`, and so do the places in it.
        let _length = text.len();
        let spot = Spot {
            position: SourcePosition::new_origin(),
            after_return: false,
        };
        Lexer { rest: text, spot }
    }

    /// What is left of the text.
    fn rest(&self) -> &'a str
        ensures { result.now ≡ self.now.ahead }
    {
        self.rest
    }

    /// The place of what is left.
    fn position(&self) -> SourcePosition
        ensures { view_position result ≡ self.now.at.position }
    {
        self.spot.position
    }

    /// Takes so many bytes, in which no character is cut.
    fn take(&mut self, count: usize) -> &'a str
        requires { IsCharBoundary self.old.ahead count }
        ensures word { result.now ≡ take count self.old.ahead }
        ensures moved { self.new ≡ read.past count self.old }
    {
        let (word, rest) = self.rest.split_at(count);
        self.spot = self.spot.past(word.as_bytes());
        self.rest = rest;
        word
    }

    /// Takes so many bytes of which each is a character, and none ends a line. Answers them and their place.
    fn take_plain(&mut self, count: usize) -> Spanning<&'a str, Span>
        requires boundary { IsCharBoundary self.old.ahead count }
        requires some { 0 < count }
        requires plain { list_all is_plain (take count self.old.ahead) ≡ true }
        ensures word { result.item.now ≡ take count self.old.ahead }
        ensures place { view_span result.span ≡ read.span_past count self.old }
        ensures moved { self.new ≡ read.past count self.old }
    {
        let start = self.spot.position;
        let (word, rest) = self.rest.split_at(count);
        self.spot = self.spot.past_plain(word.as_bytes());
        self.rest = rest;
        let end = self.spot.position;
        Spanning::new(Span { start, end }, word)
    }

    /// Takes the blanks at the front up to one that ends a line, or that one, and answers whether some were there.
    fn skip_blanks(&mut self) -> bool
        ensures some { IsTrue result → read.IsSkipped self.old self.new }
        ensures none { IsFalse result → self.new ≡ self.old }
    {
        let bytes = self.rest().as_bytes();
        match bytes {
            [] => false,
            [first, ..] => {
                if is_space(*first) {
                    self.take_plain(spaces_len(bytes));
                    true
                } else if *first == b'\n' {
                    self.take(1);
                    true
                } else {
                    false
                }
            }
        }
    }

    /// Takes the token at the front, if it is a punctuator of one byte or a name.
    fn short_token(&mut self) -> Option<Token<'a>>
        ensures { MatchOption result (self.new ≡ self.old) (λ t. read.IsRead (view_token t) self.old self.new) }
    {
        let bytes = self.rest().as_bytes();
        match bytes {
            [] => None,
            [first, ..] => {
                if is_mark(*first) {
                    let taken = self.take_plain(1);
                    Some(Token {
                        lexeme: Lexeme::Mark(*first),
                        span: taken.span,
                    })
                } else if starts_name(*first) {
                    let taken = self.take_plain(name_len(bytes));
                    Some(Token {
                        lexeme: Lexeme::Name(taken.item),
                        span: taken.span,
                    })
                } else {
                    None
                }
            }
        }
    }

    /// Takes so many bytes, the word of a token, in which no character is cut.
    fn take_lexeme(&mut self, count: usize) -> &'a str
        requires boundary { IsCharBoundary self.old.ahead count }
        requires plain { begins_quoted (take count self.old.ahead) ≡ false → list_all is_plain (take count self.old.ahead) ≡ true }
        ensures word { result.now ≡ take count self.old.ahead }
        ensures moved { self.new ≡ read.past count self.old }
    {
        let (word, rest) = self.rest.split_at(count);
        self.spot = self.spot.past_lexeme(word.as_bytes());
        self.rest = rest;
        word
    }

    /// Takes the token at the front, if there is one.
    fn token(&mut self) -> Option<Token<'a>>
        ensures { MatchOption result ((read.lexeme_len self.old.ahead ≡ 0) × (self.new ≡ self.old))
            (λ t. (read.lexeme_len self.old.ahead ≢ 0) × (view_token t ≡ read.token_of (read.lexeme_len self.old.ahead) self.old)
            × (self.new ≡ read.past (read.lexeme_len self.old.ahead) self.old)) }
    {
        let length = lexeme_len(self.rest());
        if length == 0 {
            return None;
        }
        let start = self.position();
        let word = self.take_lexeme(length);
        let span = Span {
            start,
            end: self.position(),
        };
        Some(Token {
            lexeme: lexeme_of(word),
            span,
        })
    }
}

/// As many bytes of a text as a token and what is ignored around it mostly take: for so many tokens the list has room at first.
const BYTES_A_TOKEN: usize = 3;

/// And for so many more, since a short text has more tokens for its bytes.
const FIRST_TOKENS: usize = 8;

/// The tokens of a text, each as long as possible, with their places; up to the end of the text or to the first place where
/// none stands (2.1).
///
/// # Errors
/// An [`AllocError`] where there is no memory for the tokens.
#[tactic(auto, using(crate::proofs::LexSteps::lex_ignored, crate::proofs::LexSteps::shorter, crate::proofs::Fronts::ignored_fits, crate::proofs::Fronts::taken_fits))]
#[inline(never)]
pub fn lex<'a>(alloc: Global, text: &'a str) -> Result<Lexed<'a>, AllocError>
    ensures { IfOk result (λ l. view_lexed l ≡ read.lexed text.now) }
{
    let mut lexer = Lexer::new(text);
    let mut tokens = Vec::with_capacity(alloc, text.len() / BYTES_A_TOKEN + FIRST_TOKENS)?;
    while !lexer.rest().is_empty() {
        if lexer.skip_blanks() {
            continue;
        }
        if let Some(token) = lexer.short_token() {
            tokens.push(token)?;
            continue;
        }
        let ignored = ignored_len(lexer.rest().as_bytes());
        if ignored > 0 {
            lexer.take(ignored);
            continue;
        }
        let Some(token) = lexer.token() else {
            let ending = Ending::Fault(lexer.position(), fault(lexer.rest()));
            return Ok(Lexed { tokens, ending });
        };
        tokens.push(token)?;
    }
    let ending = Ending::Whole(lexer.position());
    Ok(Lexed { tokens, ending })
}
