//! The fixed fields before the lists.
ghost use Rattle.std.specs.Prelude.{◌≡◌, [], ◌∷◌, ◌<◌, ◌^◌, length, Some, OnOk};
ghost use Rattle.rup_base.specs.Answers.{Answers};
ghost use Rattle.image_layout.specs.Reading as spec;

use crate::reading::fields::{word, wrong};
use rup_base::Fail;

/// The first four bytes of an image, as a number.
const MARK: u32 = 0x3150_5552;

/// The mark, the version and the length.
pub fn judge_start(bytes: &[u8]) -> Result<(), Fail>
    ensures answer { Answers result (spec.judged (spec.start_fields bytes.now) tt) }
    ensures short { OnOk result (length bytes.now < 2 ^ 32) }
{
    if word(bytes, 0)? != MARK {
        return Err(wrong(0));
    }
    if word(bytes, 4)? != 1 {
        return Err(wrong(4));
    }
    if word(bytes, 8)? as usize != bytes.len() {
        return Err(wrong(8));
    }
    Ok(())
}

/// The offset of the code, which is to be this one.
pub fn judge_offset(bytes: &[u8], offset: usize) -> Result<(), Fail>
    ensures answer { Answers result (spec.judged (spec.offset_fields bytes.now (Some offset)) tt) }
    ensures same { OnOk result (spec.word_at bytes.now 12 ≡ offset) }
{
    if word(bytes, 12)? as usize != offset {
        return Err(wrong(12));
    }
    Ok(())
}

/// The length of the code.
fn judge_code(bytes: &[u8]) -> Result<(), Fail>
    ensures answer { Answers result (spec.judged (spec.code_field bytes.now ∷ []) tt) }
{
    let code = word(bytes, 16)?;
    if code % 4 != 0 || code < 4 || code > 1_000_000 {
        return Err(wrong(16));
    }
    Ok(())
}

fn judge_tables(bytes: &[u8]) -> Result<(), Fail>
    ensures answer { Answers result (spec.judged (spec.tables_field bytes.now ∷ []) tt) }
{
    if word(bytes, 20)? > 131_072 {
        return Err(wrong(20));
    }
    Ok(())
}

/// The entry, by the offset and the length of the code as they stand.
fn judge_entry(bytes: &[u8]) -> Result<(), Fail>
    ensures answer { Answers result (spec.judged (spec.entry_field bytes.now ∷ []) tt) }
{
    let entry = word(bytes, 24)? as usize;
    let offset = word(bytes, 12)? as usize;
    let code = word(bytes, 16)? as usize;
    if entry % 4 != 0 || entry < offset || entry >= offset + code {
        return Err(wrong(24));
    }
    Ok(())
}

fn judge_stack(bytes: &[u8]) -> Result<(), Fail>
    ensures answer { Answers result (spec.judged (spec.stack_field bytes.now ∷ []) tt) }
{
    let stack = word(bytes, 28)?;
    if stack % 16 != 0 || stack > 4_096 {
        return Err(wrong(28));
    }
    Ok(())
}

/// The lengths of code and tables, the entry and the stack.
pub fn judge_middle(bytes: &[u8]) -> Result<(), Fail>
    ensures { Answers result (spec.judged (spec.middle_fields bytes.now) tt) }
{
    judge_code(bytes)?;
    judge_tables(bytes)?;
    judge_entry(bytes)?;
    judge_stack(bytes)
}
