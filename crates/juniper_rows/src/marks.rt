//! Marks in rows, each for what a line of a file does not show.

use std::alloc::{AllocError, Global};

/// The text that a marked one stands for: `␠` is a blank, `␉` a tab, `␤` LF, `␍` CR, `‹1F600›` the character of this number, and `«3 {a»`
/// is `{a{a{a`. An error where memory is refused.
pub fn unmarked(alloc: Global, marked: &str) -> Result<String, AllocError> {
    let mut text = String::new(alloc);
    for piece in marked.split('«') {
        put_repeated(&mut text, piece)?;
    }
    let text = numbered(alloc, text.as_str())?;
    let text = text.replace(alloc, "␤", "\n")?;
    let text = text.replace(alloc, "␍", "\r")?;
    let text = text.replace(alloc, "␉", "\t")?;
    text.replace(alloc, "␠", " ")
}

/// Writes what stands before `»` as often as it says, and what stands behind that.
fn put_repeated(text: &mut String, piece: &str) -> Result<(), AllocError> {
    let Some((repeated, behind)) = piece.split_once('»') else {
        return text.push_str(piece);
    };
    let (count, part) = repeated.split_once(' ').unwrap_or(("", ""));
    for _turn in 0..count.parse::<u16>().unwrap_or(0) {
        text.push_str(part)?;
    }
    text.push_str(behind)
}

/// The text with characters in the place of their numbers.
fn numbered(alloc: Global, marked: &str) -> Result<String, AllocError> {
    let mut text = String::new(alloc);
    for piece in marked.split('‹') {
        match piece.split_once('›') {
            Some((number, behind)) => {
                text.push(character(number).unwrap_or('?'))?;
                text.push_str(behind)?;
            }
            None => text.push_str(piece)?,
        }
    }
    Ok(text)
}

/// The character of a hexadecimal number, if there is one.
fn character(number: &str) -> Option<char> {
    char::from_u32(u32::from_str_radix(number, 16).ok()?)
}
