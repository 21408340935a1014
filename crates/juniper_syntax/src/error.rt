//! Why a text is refused.

ghost use Rattle.std.specs.Prelude.{◌≡◌, Some, IfOk};
ghost use Rattle.juniper_syntax.specs.Refusals.{fault_text, refusal_text, view_fault, view_refusal};
ghost use Rattle.juniper_syntax.specs.declared.error.ParseError.TheVariants.{Memory};

use crate::position::{Span, Spanning};
use std::alloc::{AllocError, AllocFailed, Global};
use std::error::Error;
use std::fmt;

/// What no token begins with, or goes on with (section 2.1 of the Specification).
///
/// Shown as `Unknown escape sequence "\x" in string`, `Unterminated string literal`, `Unknown character` and
/// `Invalid number literal`.
#[derive(Debug, Drop, Eq, PartialEq)]
pub enum LexerError {
    /// A backslash in a string, and what follows it, which stand for no character (2.9.4).
    UnknownEscapeSequence(String),
    /// A string that no quote ends on its line (2.9.4).
    UnterminatedString,
    /// A character that begins no token (2.1.6), or a control character in a string (2.9.4).
    UnknownCharacter,
    /// A number without digits, with a zero too many, or with a letter or `_` right behind it (2.9.1).
    InvalidNumber,
}

impl LexerError {
    /// An equal error, by `==`.
    ///
    /// # Errors
    /// An [`AllocError`] where there is no memory for its text.
    pub fn try_clone(&self, alloc: Global) -> Result<Self, AllocError>
        ensures { IfOk result (λ e. view_fault e ≡ view_fault self.now) }
    {
        match self {
            LexerError::UnknownEscapeSequence(escape) => Ok(LexerError::UnknownEscapeSequence(
                String::from_str(alloc, escape.as_str())?,
            )),
            LexerError::UnterminatedString => Ok(LexerError::UnterminatedString),
            LexerError::UnknownCharacter => Ok(LexerError::UnknownCharacter),
            LexerError::InvalidNumber => Ok(LexerError::InvalidNumber),
        }
    }
}

impl fmt::Display for LexerError {
    ghost output = { λ e. Some (fault_text (view_fault e)) };

    fn fmt<W: fmt::Write>(&self, f: &mut fmt::Formatter<W>) -> fmt::Result {
        match self {
            LexerError::UnknownEscapeSequence(escape) => write!(
                f,
                "Unknown escape sequence \"{escape}\" in string"
            ),
            LexerError::UnterminatedString => f.write_str("Unterminated string literal"),
            LexerError::UnknownCharacter => f.write_str("Unknown character"),
            LexerError::InvalidNumber => f.write_str("Invalid number literal"),
        }
    }
}

impl Error for LexerError {}

/// Why a text is no document.
#[derive(Debug, Drop, Eq, PartialEq)]
pub enum ParseError {
    /// What stands there is no token. Shown as the text of the [`LexerError`].
    LexerError(LexerError),
    /// A token that may not stand there. Shown as `Unexpected token`.
    UnexpectedToken,
    /// The text ends before the document does. Shown as `Unexpected end of input`.
    UnexpectedEndOfFile,
    /// An Int with `.`, `e` or `E` right behind it, as in a float (2.9.2). Shown as `Float literals are not supported`.
    FloatLiteral,
    /// A string in three quotes (2.9.4). Shown as `Block strings are not supported`.
    BlockString,
    /// A bracket that opens while 256 are open. Shown as `Brackets are nested too deeply`.
    TooDeep,
    /// There was no memory. Shown as `Out of memory`.
    Memory,
}

impl ParseError {
    /// An equal error, by `==`.
    ///
    /// # Errors
    /// An [`AllocError`] where there is no memory for its text.
    pub fn try_clone(&self, alloc: Global) -> Result<Self, AllocError>
        ensures { IfOk result (λ e. view_refusal e ≡ view_refusal self.now) }
    {
        match self {
            ParseError::LexerError(error) => Ok(ParseError::LexerError(error.try_clone(alloc)?)),
            ParseError::UnexpectedToken => Ok(ParseError::UnexpectedToken),
            ParseError::UnexpectedEndOfFile => Ok(ParseError::UnexpectedEndOfFile),
            ParseError::FloatLiteral => Ok(ParseError::FloatLiteral),
            ParseError::BlockString => Ok(ParseError::BlockString),
            ParseError::TooDeep => Ok(ParseError::TooDeep),
            ParseError::Memory => Ok(ParseError::Memory),
        }
    }
}

impl fmt::Display for ParseError {
    ghost output = { λ e. Some (refusal_text (view_refusal e)) };

    fn fmt<W: fmt::Write>(&self, f: &mut fmt::Formatter<W>) -> fmt::Result {
        match self {
            ParseError::LexerError(error) => write!(f, "{error}"),
            ParseError::UnexpectedToken => f.write_str("Unexpected token"),
            ParseError::UnexpectedEndOfFile => f.write_str("Unexpected end of input"),
            ParseError::FloatLiteral => f.write_str("Float literals are not supported"),
            ParseError::BlockString => f.write_str("Block strings are not supported"),
            ParseError::TooDeep => f.write_str("Brackets are nested too deeply"),
            ParseError::Memory => f.write_str("Out of memory"),
        }
    }
}

impl Error for ParseError {}

impl From<AllocError> for ParseError {
    ghost from_gives = { λ _ e. e ≡ Memory };

    fn from(_error: AllocError) -> Self {
        ParseError::Memory
    }
}

impl<T: Drop> From<AllocFailed<T>> for ParseError {
    ghost from_gives = { λ _ e. e ≡ Memory };

    fn from(_error: AllocFailed<T>) -> Self {
        ParseError::Memory
    }
}

/// Want of memory has no place in the text, so it is told at the beginning.
impl From<AllocError> for Spanning<ParseError, Span> {
    ghost from_gives = { λ _ e. e.item ≡ Memory };

    fn from(_error: AllocError) -> Self {
        Spanning::unlocated(ParseError::Memory)
    }
}

/// Want of memory has no place in the text, so it is told at the beginning.
impl<T: Drop> From<AllocFailed<T>> for Spanning<ParseError, Span> {
    ghost from_gives = { λ _ e. e.item ≡ Memory };

    fn from(_error: AllocFailed<T>) -> Self {
        Spanning::unlocated(ParseError::Memory)
    }
}
