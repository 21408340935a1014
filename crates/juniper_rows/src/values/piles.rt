//! Values that words make.

use crate::marks::unmarked;
use std::alloc::{AllocError, Global};

/// A value that words make.
pub trait Piled: Drop {
    /// The value that a word stands for, without parts, or with none yet; no value where it stands for none.
    fn leaf(alloc: Global, word: &str) -> Result<Option<Self>, AllocError>;

    /// Puts an item into a list, or at the key into an object.
    fn put_into(&mut self, alloc: Global, key: &str, item: Self) -> Result<(), AllocError>;
}

/// The value that words make, which are split at blanks before their marks are read. Each word but the last two kinds is put on a pile. A
/// `,` puts the last value into the list before it, and a `k:` into the object before it.
pub fn made<T: Piled>(alloc: Global, words: &str) -> Result<Option<T>, AllocError> {
    let mut pile = Vec::new(alloc);
    for word in words.split(' ') {
        let word = unmarked(alloc, word)?;
        step(alloc, &mut pile, word.as_str())?;
    }
    Ok(pile.pop())
}

/// Reads a word.
fn step<T: Piled>(alloc: Global, pile: &mut Vec<T>, word: &str) -> Result<(), AllocError> {
    match word.strip_suffix(':') {
        Some(key) => join(alloc, pile, key),
        None if word == "," => join(alloc, pile, ""),
        None => push(alloc, pile, word),
    }
}

/// Puts the last value of the pile into the one before it.
fn join<T: Piled>(alloc: Global, pile: &mut Vec<T>, key: &str) -> Result<(), AllocError> {
    match pile.pop() {
        None => Ok(()),
        Some(item) => match pile.last_mut() {
            None => Ok(()),
            Some(into) => into.put_into(alloc, key, item),
        },
    }
}

/// Puts the value of a word on the pile, if it has one.
fn push<T: Piled>(alloc: Global, pile: &mut Vec<T>, word: &str) -> Result<(), AllocError> {
    match T::leaf(alloc, word)? {
        None => Ok(()),
        Some(value) => Ok(pile.push(value)?),
    }
}
