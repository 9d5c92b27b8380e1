//! The bytes that a row writes in printable letters.
ghost use Rattle.std.specs.Prelude.{◌<◌, IfOk};

use crate::fault::Fault;
use crate::parts::number_of;
use rup_base::Text;
use std::alloc::Global;

/// The bytes of a text in which `\n` and `\t` stand for a line feed and a tab, `\x` with two digits for a byte, and
/// `<N PIECE>` for N times the piece.
pub fn bytes_written(alloc: Global, text: &str) -> Result<Text, Fault> {
    let mut bytes = Text::new(alloc);
    for part in text.split('<') {
        let Some((inside, after)) = part.split_once('>') else {
            put(&mut bytes, part)?;
            continue;
        };
        let Some((count, piece)) = inside.split_once(' ') else {
            return Err(Fault::BadLine);
        };
        for _turn in 0..number_of(count)? {
            put(&mut bytes, piece)?;
        }
        put(&mut bytes, after)?;
    }
    Ok(bytes)
}

/// Puts the bytes of a text without repetition behind the others.
fn put(bytes: &mut Text, text: &str) -> Result<(), Fault> {
    let mut first = true;
    for part in text.split('\\') {
        if first {
            bytes.extend_from_slice(part.as_bytes())?;
        } else {
            put_behind(bytes, part.as_bytes())?;
        }
        first = false;
    }
    Ok(())
}

/// Puts the byte that a letter behind `\` stands for, and what follows it.
fn put_behind(bytes: &mut Text, part: &[u8]) -> Result<(), Fault> {
    let (byte, rest) = match part {
        [b'n', rest @ ..] => (b'\n', rest),
        [b't', rest @ ..] => (b'\t', rest),
        [b'x', high, low, rest @ ..] => (16 * digit_of(*high)? + digit_of(*low)?, rest),
        _ => return Err(Fault::BadLine),
    };
    bytes.push(byte)?;
    bytes.extend_from_slice(rest)?;
    Ok(())
}

/// A hexadecimal digit.
fn digit_of(letter: u8) -> Result<u8, Fault>
    ensures { IfOk result (λ digit. digit < 16) }
{
    match letter {
        b'0'..=b'9' => Ok(letter - b'0'),
        b'a'..=b'f' => Ok(letter - b'a' + 10),
        _ => Err(Fault::BadLine),
    }
}
