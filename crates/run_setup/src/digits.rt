//! Digits in the words of a command line and in printed results.
ghost use Rattle.std.specs.Prelude.{◌≡◌, ◌<◌, ◌++◌, IfOk, OnOk, option_map};
ghost use Rattle.std.specs.List.{flat_map};
ghost use Rattle.run_setup.specs.Digits as spec;

use rup_base::{NoMemory, Text, hex_digit, numeral};
use std::alloc::Global;

/// What is behind a text that the bytes begin with.
pub fn behind<'a>(prefix: &[u8], bytes: &'a [u8]) -> Option<&'a [u8]>
    ensures { option_map (λ rest. rest.now) result ≡ spec.behind prefix.now bytes.now }
{
    let mut left = bytes;
    for wanted in prefix {
        match left {
            [] => return None,
            [first, rest @ ..] => {
                if first != wanted {
                    return None;
                }
                left = rest;
            }
        }
    }
    Some(left)
}

/// The byte of two hexadecimal digits of either case.
#[tactic(auto, using(rup_base::proofs::laws::Numerals::two_digits))]
fn pair(high: u8, low: u8) -> Option<u8>
    ensures { result ≡ spec.pair high low }
{
    let value = numeral(16, &[high, low])?;
    Some(value as u8)
}

/// The bytes of an even number of hexadecimal digits of either case; None for other bytes.
pub fn hex_bytes(alloc: Global, digits: &[u8]) -> Result<Option<Text>, NoMemory>
    ensures { IfOk result (λ bytes. bytes ≡ spec.hex_bytes digits.now) }
{
    let mut bytes = Text::new(alloc);
    let mut left = digits;
    'pairs: while let [high, low, rest @ ..] = left {
        match pair(*high, *low) {
            None => return Ok(None),
            Some(byte) => bytes.push(byte)?,
        }
        left = rest;
    }
    if left.is_empty() {
        Ok(Some(bytes))
    } else {
        Ok(None)
    }
}

/// Prints a byte as two digits of lower case.
fn put_byte(out: &mut Text, byte: u8) -> Result<(), NoMemory>
    ensures { OnOk result (out.new ≡ out.old ++ spec.two_digits byte) }
{
    out.extend_from_slice(&[hex_digit(byte / 16), hex_digit(byte % 16)])
}

/// Prints each byte as two digits of lower case.
pub fn put_bytes(out: &mut Text, bytes: &[u8]) -> Result<(), NoMemory>
    ensures { OnOk result (out.new ≡ out.old ++ flat_map spec.two_digits bytes.now) }
{
    let mut left = bytes;
    'bytes: while let [first, rest @ ..] = left {
        put_byte(out, *first)?;
        left = rest;
    }
    Ok(())
}

/// Prints a word as eight digits of lower case.
pub fn put_word(out: &mut Text, word: u32) -> Result<(), NoMemory>
    ensures { OnOk result (out.new ≡ out.old ++ spec.eight_digits word) }
{
    put_bytes(out, &word.to_be_bytes())
}
