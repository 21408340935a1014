//! Texts whose names collide.

use std::alloc::{AllocError, Global};
use std::hash::{FoldHasher, Hasher};

/// How many names of eight letters there are.
const NAMES: u64 = 208_827_064_576;

/// A request of so many fields, each with an alias of its own. The aliases have eight letters each; of all such names, in
/// their order by the last letter first, they are the first whose hash, as the kit's maps and sets make it of a text, ends
/// with 16 zero bits. A map by hashes puts all of them in one place as long as it has no more than 65,536 places, and
/// then finds one only among all that came before.
pub fn colliding_text(alloc: Global, fields: usize) -> Result<String, AllocError> {
    let mut text = String::new(alloc);
    text.push_str("{")?;
    let mut left = fields;
    for number in 0..NAMES {
        if left == 0 {
            break;
        }
        let letters = letters_of(number);
        if last_bits(&letters) == 0 {
            push_field(&mut text, &letters)?;
            left -= 1;
        }
    }
    text.push_str(" }")?;
    Ok(text)
}

/// The name of this number: the digits of the number by 26, the last one first.
fn letters_of(number: u64) -> [u8; 8] {
    let mut letters = [b'a'; 8];
    let mut rest = number;
    for index in 0..8 {
        letters[index] = b'a' + (rest % 26) as u8;
        rest /= 26;
    }
    letters
}

/// The last 16 bits of the hash by which the kit's maps and sets place a text of these bytes.
fn last_bits(bytes: &[u8]) -> u64 {
    let mut hasher = FoldHasher::default();
    hasher.write(bytes);
    hasher.write_u8(0xff);
    let hash = hasher.finish();
    (hash ^ hash >> 32) & 0xffff
}

/// Appends a field with this alias.
fn push_field(text: &mut String, letters: &[u8]) -> Result<(), AllocError> {
    text.push(' ')?;
    for letter in letters {
        text.push(*letter as char)?;
    }
    text.push_str(": id")
}
