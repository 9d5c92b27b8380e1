//! What stands behind the header: the filling, the code and the tables.
ghost use Rattle.std.specs.Prelude.{◌≡◌, [], ◌∷◌, ◌+◌, ◌≤◌, ◌<◌, ◌^◌, length, OnOk, nat_le};
ghost use Rattle.rup_base.specs.Answers.{Answers};
ghost use Rattle.image_layout.specs.Reading as spec;

use crate::reading::fields::{judge_whole, word_of, wrong};
use rup_base::Fail;

fn are_zeros(bytes: &[u8]) -> bool
    ensures { result ≡ spec.all_zeros bytes.now }
{
    let mut left = bytes;
    'bytes: while let [first, rest @ ..] = left {
        if *first != 0 {
            return false;
        }
        left = rest;
    }
    true
}

/// Zeros from the header's end up to the code.
fn judge_filling(bytes: &[u8], header: usize, offset: usize) -> Result<(), Fail>
    requires short { length bytes.now < 2 ^ 32 }
    requires inside { header ≤ length bytes.now }
    requires behind { header ≤ offset }
    ensures answer { Answers result (spec.judged (spec.filling_field bytes.now header offset ∷ []) tt) }
    ensures whole { OnOk result (offset ≤ length bytes.now) }
{
    if offset > bytes.len() || !are_zeros(&bytes[header..offset]) {
        return Err(wrong(header));
    }
    Ok(())
}

/// Nothing stands behind this offset.
fn judge_end(bytes: &[u8], at: usize) -> Result<(), Fail>
    requires short { length bytes.now < 2 ^ 32 }
    requires inside { at ≤ length bytes.now }
    ensures answer { Answers result (spec.judged (spec.field bytes.now at 0 (nat_le (length bytes.now) at) ∷ []) tt) }
    ensures end { OnOk result (at ≡ length bytes.now) }
{
    if at < bytes.len() {
        return Err(wrong(at));
    }
    Ok(())
}

/// The filling up to the code, the code, the tables, and nothing more.
pub fn judge_rest(bytes: &[u8], header: usize) -> Result<(), Fail>
    requires short { length bytes.now < 2 ^ 32 }
    requires fixed { 48 ≤ length bytes.now }
    requires inside { header ≤ length bytes.now }
    requires behind { header ≤ spec.word_at bytes.now 12 }
    ensures answer { Answers result (spec.judged (spec.rest_fields bytes.now header) tt) }
    ensures whole { OnOk result
        (spec.word_at bytes.now 12 + spec.word_at bytes.now 16 + spec.word_at bytes.now 20 ≡ length bytes.now) }
{
    let offset = word_of(bytes, 12);
    let tables_offset = offset + word_of(bytes, 16);
    let tables = word_of(bytes, 20);
    judge_filling(bytes, header, offset)?;
    judge_whole(bytes, offset, tables_offset - offset)?;
    judge_whole(bytes, tables_offset, tables)?;
    judge_end(bytes, tables_offset + tables)
}
