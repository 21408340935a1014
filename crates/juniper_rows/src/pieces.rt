//! Pieces of what is told.

use std::alloc::AllocError;

/// How a row says whether something holds.
pub fn yes_or_no(holds: bool) -> &'static str {
    if holds { "yes" } else { "no" }
}

/// Writes a word where it holds.
pub fn put_if(holds: bool, word: &str, text: &mut String) -> Result<(), AllocError> {
    if holds { text.push_str(word) } else { Ok(()) }
}

/// Writes a blank, unless nothing is written before it.
pub fn put_blank(text: &mut String) -> Result<(), AllocError> {
    put_if(!text.is_empty(), " ", text)
}
