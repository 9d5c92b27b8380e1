//! Which arguments are of a kind, and the kinds of parameters.
ghost use Rattle.std.specs.Prelude.{◌≡◌, true, map};
ghost use Rattle.rup_base.specs.Gather.{all_true};
ghost use Rattle.model_syntax.specs.Kinds as spec;
ghost use Rattle.model_syntax.specs.Types.{kind_of};

use crate::program::{Len, Param};
use rup_base::{Arg, Kind};

/// Whether an argument is of a kind. Its words and the elements of its arrays have at most 32 bits and 8 bits by their
/// types; only a single byte, which is passed as a word, and the length of an array are tested.
pub fn is_of_kind(kind: Kind, arg: &Arg) -> bool
    ensures { result ≡ spec.is_of_kind kind arg.now }
{
    match (kind, arg) {
        (Kind::Word, Arg::Word(n)) => is_word(*n),
        (Kind::Byte, Arg::Word(n)) => *n <= 255,
        (Kind::Bytes(fixed), Arg::Bytes(bytes)) => {
            are_bytes(bytes.as_slice());
            is_length(fixed, bytes.len())
        }
        (Kind::Words(fixed), Arg::Words(words)) => {
            are_words(words.as_slice());
            is_length(fixed, words.len())
        }
        _ => false,
    }
}

/// The number is a word, by its type.
fn is_word(n: u32) -> bool
    ensures { result ≡ spec.is_word n }
{
    let _ = n;
    true
}

/// The numbers are bytes, by their type. It stands for the proof alone, in which a list has numbers without end.
fn are_bytes(bytes: &[u8])
    ensures { all_true (map spec.is_byte bytes.now) ≡ true }
{
    let _ = bytes;
}

/// The numbers are words, by their type. It stands for the proof alone, in which a list has numbers without end.
fn are_words(words: &[u32])
    ensures { all_true (map spec.is_word words.now) ≡ true }
{
    let _ = words;
}

/// An array may have so many elements: the number that is fixed, or any that a word holds.
fn is_length(fixed: Option<u32>, n: usize) -> bool
    ensures { result ≡ spec.is_length fixed n }
{
    match fixed {
        Some(fixed) => fixed as usize == n,
        None => n <= 0xffff_ffff,
    }
}

impl Param {
    /// What the parameter takes.
    pub fn kind(&self) -> Kind
        ensures { result ≡ kind_of self.now }
    {
        match self {
            Param::Word(_) => Kind::Word,
            Param::Byte(_) => Kind::Byte,
            Param::Bytes(_, Len::Fixed(n)) => Kind::Bytes(Some(*n)),
            Param::Bytes(_, Len::Named(_)) => Kind::Bytes(None),
            Param::Words(_, Len::Fixed(n)) => Kind::Words(Some(*n)),
            Param::Words(_, Len::Named(_)) => Kind::Words(None),
        }
    }
}
