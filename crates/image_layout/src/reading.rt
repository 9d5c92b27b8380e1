//! Reading an image's bytes: its parts one after another.
ghost use Rattle.std.specs.Prelude.{◌≡◌, ◌+◌, ◌≤◌, ◌<◌, ◌^◌, length, Ok, IfOk};
ghost use Rattle.rup_base.specs.Answers.{Answers};
ghost use Rattle.image_layout.specs.declared.image.Image.{Image};
ghost use Rattle.image_layout.specs.Spelling.{Layout};
ghost use Rattle.image_layout.specs.Reading as spec;

use crate::image::Image;
use crate::reading::fields::word_of;
use crate::reading::header::{judge_middle, judge_offset, judge_start};
use crate::reading::lists::{Lists, read_lists};
use crate::reading::rest::judge_rest;
use rup_base::{Fail, NoMemory, Text};
use std::alloc::Global;

mod bound_terms;
mod fields;
mod header;
mod lists;
mod parameters;
mod requirements;
mod rest;
mod results;

/// The image with these lists.
fn make_image(alloc: Global, bytes: &[u8], lists: Lists) -> Result<Image, NoMemory>
    requires fixed { 48 ≤ length bytes.now }
    requires whole { spec.word_at bytes.now 12 + spec.word_at bytes.now 16 + spec.word_at bytes.now 20 ≡ length bytes.now }
    requires lists { lists ≡ spec.lists_of bytes.now }
    ensures { IfOk result (λ i. i ≡ spec.image_of bytes.now) }
{
    let offset = word_of(bytes, 12);
    let tables_offset = offset + word_of(bytes, 16);
    let code = Text::from_slice(alloc, &bytes[offset..tables_offset])?;
    let tables = Text::from_slice(
        alloc,
        &bytes[tables_offset..tables_offset + word_of(bytes, 20)],
    )?;
    let Lists {
        params,
        requires_,
        rets,
        bound,
        header: _,
    } = lists;
    Ok(Image {
        version: word_of(bytes, 4) as u32,
        params,
        requires_,
        rets,
        bound,
        entry: word_of(bytes, 24) as u32,
        stack: word_of(bytes, 28) as u32,
        code,
        tables,
    })
}

/// The image whose lists are right, judged from the offset of the code on.
fn with_lists(alloc: Global, bytes: &[u8], lists: Lists) -> Result<Image, Fail>
    requires short { length bytes.now < 2 ^ 32 }
    requires fixed { 48 ≤ length bytes.now }
    requires inside { lists.header ≤ length bytes.now }
    requires lists { lists ≡ spec.lists_of bytes.now }
    ensures { Answers result (spec.judged (spec.rest_of bytes.now) (spec.image_of bytes.now)) }
{
    let header = lists.header;
    judge_offset(bytes, header.next_multiple_of(16))?;
    judge_middle(bytes)?;
    judge_rest(bytes, header)?;
    Ok(make_image(alloc, bytes, lists)?)
}

/// Reads the fields in the order in which they are judged.
fn read_fields(alloc: Global, bytes: &[u8]) -> Result<Image, Fail>
    ensures { Answers result (spec.read bytes.now) }
{
    judge_start(bytes)?;
    match read_lists(alloc, bytes) {
        Ok(lists) => with_lists(alloc, bytes, lists),
        Err(Fail::NoMemory) => Err(Fail::NoMemory),
        Err(Fail::Refused(refusal)) => {
            judge_middle(bytes)?;
            Err(Fail::Refused(refusal))
        }
    }
}

/// The image that the bytes are. NotImage has the offset of the first field that isn't whole or has a wrong value, in
/// the order of the fields.
pub fn read_image(alloc: Global, bytes: &[u8]) -> Result<Image, Fail>
    ensures found { IfOk result (λ i. Layout i bytes.now) }
    ensures only { (i : Image) → Layout i bytes.now → Answers result (Ok i) }
    ensures exact { Answers result (spec.read bytes.now) }
{
    read_fields(alloc, bytes)
}
