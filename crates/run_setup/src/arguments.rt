//! The argument that a text gives for a parameter.
ghost use Rattle.std.specs.Prelude.{◌≡◌, IfOk, codes};
ghost use Rattle.run_setup.specs.Arguments as spec;
ghost use Rattle.run_setup.specs.Digits as digits;

use crate::digits::{behind, hex_bytes};
use model_syntax::is_of_kind;
use rup_base::{Arg, Kind, List, NoMemory, Text, number_of};
use std::alloc::Global;

/// The argument, if it is one of the kind.
fn of_kind(kind: Kind, arg: Arg) -> Option<Arg>
    ensures { result ≡ spec.of_kind kind arg }
{
    if is_of_kind(kind, &arg) {
        Some(arg)
    } else {
        None
    }
}

/// The words that bytes hold, each in little endian.
pub fn words_of(alloc: Global, bytes: &[u8]) -> Result<List<u32>, NoMemory>
    ensures { IfOk result (λ words. words ≡ spec.words_of_bytes bytes.now) }
{
    let mut words = List::new(alloc);
    let mut left = bytes;
    'words: while let [a, b, c, d, rest @ ..] = left {
        words.push(u32::from_le_bytes([*a, *b, *c, *d]))?;
        left = rest;
    }
    Ok(words)
}

/// The array whose bytes these are, if it is one of the kind.
pub fn array_of(alloc: Global, kind: Kind, bytes: Text) -> Result<Option<Arg>, NoMemory>
    ensures { IfOk result (λ array. array ≡ spec.array_of kind bytes) }
{
    match kind {
        Kind::Word => Ok(None),
        Kind::Byte => Ok(None),
        Kind::Bytes(_) => Ok(of_kind(kind, Arg::Bytes(bytes))),
        Kind::Words(_) => {
            if bytes.len() % 4 == 0 {
                let words = words_of(alloc, bytes.as_slice())?;
                Ok(of_kind(kind, Arg::Words(words)))
            } else {
                Ok(None)
            }
        }
    }
}

/// Where a word of a command line has an argument.
#[derive(Debug, Drop)]
pub enum Source {
    /// In itself: the argument, or none where it is not one of the parameter's kind.
    ByItself(Option<Arg>),
    /// In the file of that name.
    ByFile,
}

fn scalar_of(kind: Kind, n: Option<u32>) -> Option<Arg>
    ensures { result ≡ spec.scalar_of kind n }
{
    of_kind(kind, Arg::Word(n?))
}

fn array_source(alloc: Global, kind: Kind, text: &[u8]) -> Result<Source, NoMemory>
    ensures { IfOk result (λ source. source ≡ spec.array_source kind (digits.behind (codes "hex:") text.now)) }
{
    match behind(b"hex:", text) {
        None => Ok(Source::ByFile),
        Some(digits) => match hex_bytes(alloc, digits)? {
            None => Ok(Source::ByItself(None)),
            Some(bytes) => {
                let array = array_of(alloc, kind, bytes)?;
                Ok(Source::ByItself(array))
            }
        },
    }
}

/// Where the text of a word has the argument of a parameter: a word or byte is a number, an array is `hex:` and an
/// even number of hexadecimal digits, or else in a file.
pub fn source_of(alloc: Global, kind: Kind, text: &[u8]) -> Result<Source, NoMemory>
    ensures { IfOk result (λ source. source ≡ spec.source_of kind text.now) }
{
    match kind {
        Kind::Word => Ok(Source::ByItself(scalar_of(kind, number_of(text)))),
        Kind::Byte => Ok(Source::ByItself(scalar_of(kind, number_of(text)))),
        Kind::Bytes(_) => array_source(alloc, kind, text),
        Kind::Words(_) => array_source(alloc, kind, text),
    }
}
