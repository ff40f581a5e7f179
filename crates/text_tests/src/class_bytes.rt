//! Class files in hexadecimal digits.

use std::alloc::{AllocError, Global};

/// A class E over java/lang/Object with the method `public static main()V`, whose code is one return: 100 bytes.
pub const E: &str =
    "cafebabe 0000 0031 0008 01000145 070001 0100106a6176612f6c616e672f4f626a656374 070003
    0100046d61696e 010003282956 010004436f6465 0021 0002 0004 0000 0000 0001
    0009 0005 0006 0001 0007 0000000d 0000 0000 00000001 b1 0000 0000 0000";

/// The text that has this class file.
pub const TEXT_OF_E: &str =
    ".class public E\n.super java/lang/Object\n.method public static main()V\n.limit stack 0\n.limit locals 0\nreturn\n.end method\n";

/// The bytes that a text gives, two hexadecimal digits each; what is no such digit is passed over.
pub fn hex(alloc: Global, text: &str) -> Result<Vec<u8>, AllocError> {
    let mut bytes = Vec::new(alloc);
    let mut high: Option<u8> = None;
    for letter in text.as_bytes() {
        let Some(digit) = char::from(*letter).to_digit(16) else {
            continue;
        };
        let digit = u8::try_from(digit).unwrap_or(0);
        high = match high {
            None => Some(digit),
            Some(first) => {
                bytes.push(first.wrapping_mul(16).wrapping_add(digit))?;
                None
            }
        };
    }
    Ok(bytes)
}
