//! `show IMAGE`: the listing of an image.
ghost use Rattle.std.specs.Prelude.{◌≡◌, ◌<◌, ◌+◌, ◌^◌, ◌++◌, map, length, IfOk, OnOk};
ghost use Rattle.image_layout.specs.Reading.{read};
ghost use Rattle.image_layout.specs.Spelling.{IsWithinLimits};
ghost use Rattle.run_setup.specs.Arguments.{words_of_bytes};
ghost use Rattle.rup_top.specs.Frame.{read_between};
ghost use Rattle.rup_top.specs.Steps.{Gives, Follows};
ghost use Rattle.rup_top.specs.commands.Show as spec;

use crate::answer::{Answer, Stop};
use crate::answers::done;
use crate::bounds::push_bound;
use crate::frame::fetch_word;
use crate::inputs::IMAGE_LIMIT;
use image_layout::{Image, code_offset, read_image};
use run_setup::put_word;
use rup_base::{List, NoMemory, Text};
use rup_io::Files;
use std::alloc::Global;

/// The entry symbols that a bound can name.
const SYMBOLS: [u32; 8] = [0, 1, 2, 3, 4, 5, 6, 7];

/// Fetches the image, and lists it.
pub fn show<F: Files>(alloc: Global, image: &str, files: &mut F) -> Result<Answer, Stop>
    ensures held { F.held files.new ≡ F.held files.old }
    ensures follows { Follows (spec.show_script image.now) (read_between F.held F.faults F.last files.old files.new) result }
{
    let bytes = fetch_word(alloc, 1, image, IMAGE_LIMIT, files)?;
    show_bytes(alloc, bytes.as_slice())
}

/// Lists the image of these bytes.
fn show_bytes(alloc: Global, bytes: &[u8]) -> Result<Answer, Stop>
    ensures { Gives result (λ a. a ≡ spec.show_answer (read bytes.now)) }
{
    let image = read_image(alloc, bytes)?;
    let out = listing(alloc, &image)?;
    Ok(done(out, Text::new(alloc)))
}

/// The header in a line, and a line for each word of the code.
fn listing(alloc: Global, image: &Image) -> Result<Text, NoMemory>
    requires { IsWithinLimits image.now }
    ensures { IfOk result (λ text. text ≡ spec.listing image.now) }
{
    let mut out = header_line(alloc, image)?;
    let offset = code_offset(image);
    put_words(&mut out, offset, image.code.as_slice())?;
    Ok(out)
}

fn header_line(alloc: Global, image: &Image) -> Result<Text, NoMemory>
    ensures { IfOk result (λ text. text ≡ spec.header_line image.now) }
{
    let names = names_of(alloc, &SYMBOLS)?;
    let mut out = Text::from_slice(alloc, b"image ")?;
    out.push_number(u128::from(image.version))?;
    out.extend_from_slice(b" entry ")?;
    out.push_number(u128::from(image.entry))?;
    out.extend_from_slice(b" stack ")?;
    out.push_number(u128::from(image.stack))?;
    out.extend_from_slice(b" code ")?;
    out.push_number(image.code.len() as u128)?;
    out.extend_from_slice(b" tables ")?;
    out.push_number(image.tables.len() as u128)?;
    out.extend_from_slice(b" bound ")?;
    push_bound(&mut out, names.as_slice(), &image.bound)?;
    out.push(b'\n')?;
    Ok(out)
}

/// An image doesn't keep the names of its entry symbols.
fn names_of(alloc: Global, symbols: &[u32]) -> Result<List<Text>, NoMemory>
    ensures { IfOk result (λ names. names ≡ map spec.symbol_name symbols.now) }
{
    let mut names = List::new(alloc);
    let mut left = symbols;
    'symbols: while let [first, rest @ ..] = left {
        names.push(symbol_name(alloc, *first)?)?;
        left = rest;
    }
    Ok(names)
}

fn symbol_name(alloc: Global, symbol: u32) -> Result<Text, NoMemory>
    ensures { IfOk result (λ name. name ≡ spec.symbol_name symbol) }
{
    let mut name = Text::from_slice(alloc, b"s")?;
    name.push_number(u128::from(symbol))?;
    Ok(name)
}

/// Puts a line for each word of the code, of which the first is at this offset.
fn put_words(out: &mut Text, offset: u32, code: &[u8]) -> Result<(), NoMemory>
    requires { offset + length code.now < 2 ^ 32 }
    ensures { OnOk result (out.new ≡ out.old ++ spec.word_lines offset (words_of_bytes code.now)) }
{
    let mut at = offset;
    let mut left = code;
    'words: while let [a, b, c, d, rest @ ..] = left {
        put_line(out, at, u32::from_le_bytes([*a, *b, *c, *d]))?;
        at += 4;
        left = rest;
    }
    Ok(())
}

fn put_line(out: &mut Text, offset: u32, word: u32) -> Result<(), NoMemory>
    ensures { OnOk result (out.new ≡ out.old ++ spec.word_line offset word) }
{
    put_column(out, offset, b' ')?;
    put_column(out, word, b'\n')
}

/// Puts a number in eight digits, and a byte behind it.
fn put_column(out: &mut Text, number: u32, byte: u8) -> Result<(), NoMemory>
    ensures { OnOk result (out.new ≡ out.old ++ spec.column number byte) }
{
    put_word(out, number)?;
    out.push(byte)
}
