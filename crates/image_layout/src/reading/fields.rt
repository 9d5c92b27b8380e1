//! The numbers at an offset, and how a field is refused.
ghost use Rattle.std.specs.Prelude.{◌≡◌, [], ◌∷◌, ◌+◌, ◌≤◌, ◌<◌, ◌^◌, length, true, OnOk};
ghost use Rattle.rup_base.specs.Answers.{Answers};
ghost use Rattle.rup_base.specs.declared.fail.Fail.TheVariants as fail;
ghost use Rattle.rup_base.specs.declared.refusal.Refusal.TheVariants as refusal;
ghost use Rattle.image_layout.specs.Reading as spec;

use crate::writing::NONE;
use byteorder::{ByteOrder, LittleEndian};
use rup_base::{Fail, Refusal};

/// The greatest magnitude of a number of a requirement, and the greatest coefficient of the bound.
pub const GREATEST_NUMBER: u64 = 1 << 40;

/// The first field that isn't whole or has a wrong value stands here.
pub fn wrong(at: usize) -> Fail
    requires { at < 2 ^ 32 }
    ensures { result ≡ fail.Refused (refusal.NotImage at) }
{
    Fail::Refused(Refusal::NotImage { at: at as u32 })
}

/// The number of four bytes.
pub fn word(bytes: &[u8], at: usize) -> Result<u32, Fail>
    requires { at < 2 ^ 32 }
    ensures answer { Answers result (spec.judged (spec.field bytes.now at 4 true ∷ []) (spec.word_at bytes.now at)) }
    ensures whole { OnOk result (at + 4 ≤ length bytes.now) }
{
    if at + 4 > bytes.len() {
        return Err(wrong(at));
    }
    Ok(LittleEndian::read_u32(&bytes[at..at + 4]))
}

/// The number of eight bytes.
pub fn wide(bytes: &[u8], at: usize) -> Result<u64, Fail>
    requires { at < 2 ^ 32 }
    ensures answer { Answers result (spec.judged (spec.field bytes.now at 8 true ∷ []) (spec.wide_at bytes.now at)) }
    ensures whole { OnOk result (at + 8 ≤ length bytes.now) }
{
    if at + 8 > bytes.len() {
        return Err(wrong(at));
    }
    Ok(LittleEndian::read_u64(&bytes[at..at + 8]))
}

/// The number of eight bytes in two's complement.
pub fn long(bytes: &[u8], at: usize) -> Result<i64, Fail>
    requires { at < 2 ^ 32 }
    ensures answer { Answers result (spec.judged (spec.field bytes.now at 8 true ∷ []) (spec.long_at bytes.now at)) }
    ensures whole { OnOk result (at + 8 ≤ length bytes.now) }
{
    let n = wide(bytes, at)?;
    Ok(n.cast_signed())
}

/// The symbol, or the array parameter, that a number stands for.
pub fn symbol_of(n: u32) -> Option<u32>
    ensures { result ≡ spec.symbol_of n }
{
    if n == NONE { None } else { Some(n) }
}

/// A number of the fixed fields, which are whole.
pub fn word_of(bytes: &[u8], at: usize) -> usize
    requires { at + 4 ≤ length bytes.now }
    ensures number { result ≡ spec.word_at bytes.now at }
    ensures small { result < 2 ^ 32 }
{
    LittleEndian::read_u32(&bytes[at..at + 4]) as usize
}

/// So many bytes.
pub fn judge_whole(bytes: &[u8], at: usize, size: usize) -> Result<(), Fail>
    requires short { length bytes.now < 2 ^ 32 }
    requires inside { at ≤ length bytes.now }
    ensures answer { Answers result (spec.judged (spec.field bytes.now at size true ∷ []) tt) }
    ensures whole { OnOk result (at + size ≤ length bytes.now) }
{
    if size > bytes.len() - at {
        return Err(wrong(at));
    }
    Ok(())
}
