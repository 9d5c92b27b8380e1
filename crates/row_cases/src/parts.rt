//! The parts of a line, and bytes as they are printed.
use crate::fault::Fault;
use rup_base::{List, Text};
use std::alloc::{AllocError, Global};

/// A number in decimal.
pub fn number_of(text: &str) -> Result<u32, Fault> {
    match text.parse::<u32>() {
        Ok(number) => Ok(number),
        Err(_) => Err(Fault::BadLine),
    }
}

/// Numbers in decimal, separated by spaces.
pub fn numbers_of(alloc: Global, text: &str) -> Result<List<u32>, Fault> {
    let mut numbers = List::new(alloc);
    for word in text.split_whitespace() {
        numbers.push(number_of(word)?)?;
    }
    Ok(numbers)
}

/// Bytes in hexadecimal, with spaces where they please.
pub fn bytes_of(alloc: Global, text: &str) -> Result<Text, Fault> {
    let mut bytes = Text::new(alloc);
    for digits in text.split_whitespace() {
        let Ok(part) = hex::decode(alloc, digits) else {
            return Err(Fault::BadLine);
        };
        bytes.extend_from_slice(part.as_slice())?;
    }
    Ok(bytes)
}

/// The bytes as printable ASCII: a line feed as `\n`, and what has no letter as `\x` and two digits.
pub fn escaped(alloc: Global, bytes: &[u8]) -> Result<String, AllocError> {
    format!(in alloc; "{}", bytes.escape_ascii())
}
