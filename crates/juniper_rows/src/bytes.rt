//! Bytes of rows.

use std::alloc::{AllocError, Global};

/// The bytes of a text, in which `^` stands for a byte that no text of UTF-8 has, 255.
pub fn bytes_of(alloc: Global, text: &str) -> Result<Vec<u8>, AllocError> {
    let mut bytes = Vec::new(alloc);
    for byte in text.bytes() {
        let byte = if byte == b'^' { 255 } else { byte };
        bytes.push(byte)?;
    }
    Ok(bytes)
}
