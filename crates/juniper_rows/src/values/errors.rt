//! Errors of the language layer: how they are written, and their copies.

use crate::kinds::unknown;
use juniper_language::{LexerError, ParseError};
use std::alloc::{AllocError, Global};

/// How the error of this name is written, and behind that, whether its copy is another.
pub fn told(alloc: Global, name: &str) -> Result<String, AllocError> {
    let Some(error) = named(alloc, name)? else {
        return unknown(alloc);
    };
    let mut text = error.to_string(alloc)?;
    if error.try_clone(alloc)? != error {
        text.push_str(" and another copy")?;
    }
    Ok(text)
}

/// The error of this name; that of an escape has the escape behind its name.
fn named(alloc: Global, name: &str) -> Result<Option<ParseError>, AllocError> {
    if let Some(escape) = name.strip_prefix("UnknownEscapeSequence ") {
        let error = LexerError::UnknownEscapeSequence(String::from_str(alloc, escape)?);
        return Ok(Some(ParseError::LexerError(error)));
    }
    Ok(match name {
        "UnterminatedString" => Some(ParseError::LexerError(LexerError::UnterminatedString)),
        "UnknownCharacter" => Some(ParseError::LexerError(LexerError::UnknownCharacter)),
        "InvalidNumber" => Some(ParseError::LexerError(LexerError::InvalidNumber)),
        "UnexpectedToken" => Some(ParseError::UnexpectedToken),
        "UnexpectedEndOfFile" => Some(ParseError::UnexpectedEndOfFile),
        "FloatLiteral" => Some(ParseError::FloatLiteral),
        "BlockString" => Some(ParseError::BlockString),
        "TooDeep" => Some(ParseError::TooDeep),
        "Memory" => Some(ParseError::Memory),
        _ => None,
    })
}
