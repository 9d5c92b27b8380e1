//! The parts of a row.
use row_cases::Fault;

/// A number in decimal with a sign.
pub fn signed_of(text: &str) -> Result<i32, Fault> {
    match text.parse::<i32>() {
        Ok(number) => Ok(number),
        Err(_) => Err(Fault::BadLine),
    }
}

/// A number in hexadecimal.
pub fn hex_of(text: &str) -> Result<u32, Fault> {
    match u32::from_str_radix(text, 16) {
        Ok(number) => Ok(number),
        Err(_) => Err(Fault::BadLine),
    }
}
