//! Bytes that are written as hex digits.

use std::alloc::{AllocError, Global};

fn digit_of(digit: u8) -> Option<u8> {
    match digit {
        b'0'..=b'9' => Some(digit - b'0'),
        b'a'..=b'f' => Some(digit - b'a' + 10),
        _ => None,
    }
}

// Appends the byte of a digit and the one before it, and gives the digit that waits for another. A blank changes nothing.
fn put_digit(bytes: &mut Vec<u8>, high: Option<u8>, digit: u8) -> Result<Option<u8>, AllocError> {
    let Some(low) = digit_of(digit) else {
        return Ok(high);
    };
    let Some(high) = high else {
        return Ok(Some(low));
    };
    bytes.push(high.wrapping_mul(16).wrapping_add(low))?;
    Ok(None)
}

/// Appends the bytes that the digits encode, two digits for each, with blanks anywhere.
pub fn put_hex(bytes: &mut Vec<u8>, digits: &str) -> Result<(), AllocError> {
    let mut high = None;
    for digit in digits.as_bytes() {
        high = put_digit(bytes, high, *digit)?;
    }
    Ok(())
}

/// The bytes that the digits encode.
pub fn bytes_of(alloc: Global, digits: &str) -> Result<Vec<u8>, AllocError> {
    let mut bytes = Vec::new(alloc);
    put_hex(&mut bytes, digits)?;
    Ok(bytes)
}
