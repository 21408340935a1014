//! Tokens (section 2.1.6 of the Specification).

ghost use Rattle.std.specs.Prelude.{◌≢◌, IfOk};
ghost use Rattle.juniper_syntax.specs.declared.error.ParseError.TheVariants.{Memory};

use crate::string::string_error;
use juniper_syntax::{LexerError, ParseError, SourcePosition, Span, Spanning};
use std::alloc::{AllocError, Global};

/// What a scalar is written as.
#[derive(Clone, Copy, Debug, PartialEq, Eq)]
pub enum ScalarToken<'a> {
    /// A string, by what stands between its quotes (2.9.4); [`decode_string`](crate::decode_string) says what it stands for.
    String(&'a str),
    /// An Int, by its characters (2.9.1); [`decode_int`](crate::decode_int) says what it stands for.
    Int(&'a str),
}

/// What a token is, without its place.
#[derive(Clone, Copy)]
pub enum Lexeme<'a> {
    /// A punctuator, by its first byte (2.1.8).
    Mark(u8),
    /// A name (2.1.9).
    Name(&'a str),
    /// An Int or a string.
    Scalar(ScalarToken<'a>),
}

/// A token, and the place from its first character to after its last.
#[derive(Clone, Copy)]
pub struct Token<'a> {
    pub lexeme: Lexeme<'a>,
    pub span: Span,
}

/// Why no token stands at a place.
#[derive(Clone, Copy)]
pub enum Fault<'a> {
    /// A character that begins no token.
    Character,
    /// A number without digits, with a zero too many, or with a letter or `_` right behind it (2.9.1).
    Number,
    /// A float (2.9.2).
    Float,
    /// A string in three quotes (2.9.4).
    BlockString,
    /// A string that does not go on with this text (2.9.4).
    String(&'a str),
}

impl<'a> Fault<'a> {
    /// How a text with this fault is refused.
    fn error(self, alloc: Global) -> Result<ParseError, AllocError>
        ensures { IfOk result (λ e. e ≢ Memory) }
    {
        match self {
            Fault::Character => Ok(ParseError::LexerError(LexerError::UnknownCharacter)),
            Fault::Number => Ok(ParseError::LexerError(LexerError::InvalidNumber)),
            Fault::Float => Ok(ParseError::FloatLiteral),
            Fault::BlockString => Ok(ParseError::BlockString),
            Fault::String(left) => Ok(ParseError::LexerError(string_error(alloc, left)?)),
        }
    }
}

/// How the tokens of a text ended, and where.
#[derive(Clone, Copy)]
pub enum Ending<'a> {
    /// At the end of the text.
    Whole(SourcePosition),
    /// Before what is no token.
    Fault(SourcePosition, Fault<'a>),
}

impl<'a> Ending<'a> {
    /// The refusal of a text that has to go on here with another token: at this place, that it ends too early, or what is
    /// wrong with what stands here.
    ///
    /// # Errors
    /// An [`AllocError`] where there is no memory for the error's text.
    pub fn refusal(self, alloc: Global) -> Result<Spanning<ParseError, Span>, AllocError>
        ensures { IfOk result (λ e. e.item ≢ Memory) }
    {
        match self {
            Ending::Whole(at) => Ok(Spanning::new(
                Span { start: at, end: at },
                ParseError::UnexpectedEndOfFile,
            )),
            Ending::Fault(at, fault) => {
                let error = fault.error(alloc)?;
                Ok(Spanning::new(Span { start: at, end: at }, error))
            }
        }
    }
}

/// The tokens of a text in its order, up to its end or to the first place where none stands, and which of the two it is.
#[derive(Drop)]
pub struct Lexed<'a> {
    pub tokens: Vec<Token<'a>>,
    pub ending: Ending<'a>,
}
