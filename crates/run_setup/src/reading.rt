//! Reading the words of a command line as arguments.
ghost use Rattle.std.specs.Prelude.{◌≡◌, ◌≤◌, ◌<◌, ◌+◌, ◌^◌, Some, length, map, drop, slice_get, string_bytes};
ghost use Rattle.run_setup.specs.declared.arguments.Source.TheVariants.{ByFile};
ghost use Rattle.run_setup.specs.Reading as spec;

use crate::arguments::{Source, array_of, source_of};
use rup_base::{Arg, ArgFault, Args, Kind, List, NoMemory, Refusal};
use rup_io::{FetchFault, Files};
use std::alloc::Global;

/// The greatest number of bytes of a file of an array.
const FILE_LIMIT: u32 = 67_108_864;

/// Why words give no arguments.
#[derive(Debug, Drop)]
pub enum ArgsFail {
    Refused(Refusal),
    /// The file that the word at this place names could not be read.
    ReadFault { word: u32 },
    NoMemory,
}

impl From<NoMemory> for ArgsFail {
    ghost use Rattle.std.specs.Prelude.{◌≡◌};
    ghost use Rattle.run_setup.specs.declared.reading.ArgsFail.TheVariants as fail;

    ghost from_gives = { λ _ f. f ≡ fail.NoMemory };

    fn from(_error: NoMemory) -> ArgsFail {
        ArgsFail::NoMemory
    }
}

/// Reads the words from place `first` on as arguments, one for each kind of parameter. A word or byte is a number; an
/// array is `hex:` and an even number of hexadecimal digits, or else the name of a file of at most 67,108,864 bytes.
///
/// The refusals are `count` where there are more or fewer words, and else the first of the words in their order:
/// `param K` where it gives no argument of the kind, or that its file is too long.
pub fn read_args<F: Files>(
    alloc: Global,
    kinds: &[Kind],
    words: &[String],
    first: u32,
    files: &mut F,
) -> Result<Args, ArgsFail>
    requires inside { first ≤ length words.now }
    requires places { first + length kinds.now < 2 ^ 32 }
    ensures held { F.held files.new ≡ F.held files.old }
    ensures reads { spec.ReadsAll (F.held files.old) first kinds.now (drop first (map string_bytes words.now)) result }
    ensures cause { spec.HasCause (F.faults files.old) (F.faults files.new) (F.last files.old) (F.last files.new)
        (slice_get (map string_bytes words.now)) result }
{
    let given = &words[first as usize..];
    if given.len() != kinds.len() {
        return Err(refused(ArgFault::Count));
    }
    read_each(alloc, kinds, given, first, files)
}

/// Reads as many words as there are kinds; the first of them stands at place `first`.
fn read_each<F: Files>(
    alloc: Global,
    kinds: &[Kind],
    words: &[String],
    first: u32,
    files: &mut F,
) -> Result<Args, ArgsFail>
    requires count { length words.now ≡ length kinds.now }
    requires places { first + length kinds.now < 2 ^ 32 }
    ensures held { F.held files.new ≡ F.held files.old }
    ensures reads { spec.ReadsEach (F.held files.old) first kinds.now (map string_bytes words.now) result }
    ensures cause { spec.HasCause (F.faults files.old) (F.faults files.new) (F.last files.old) (F.last files.new)
        (spec.name_from first (map string_bytes words.now)) result }
{
    let mut args = List::new(alloc);
    for k in 0..kinds.len() {
        let number = k as u32;
        match read_one(
            alloc,
            kinds[k],
            words[k].as_str(),
            first + number,
            number,
            files,
        ) {
            Ok(arg) => args.push(arg)?,
            Err(fault) => return Err(fault),
        }
    }
    Ok(args)
}

/// Reads the word at a place for parameter k.
fn read_one<F: Files>(
    alloc: Global,
    kind: Kind,
    word: &str,
    place: u32,
    k: u32,
    files: &mut F,
) -> Result<Arg, ArgsFail>
    ensures held { F.held files.new ≡ F.held files.old }
    ensures reads { spec.ReadsOne (F.held files.old) place k kind word.now result }
    ensures cause { spec.HasCause (F.faults files.old) (F.faults files.new) (F.last files.old) (F.last files.new)
        (spec.only place word.now) result }
{
    match source_of(alloc, kind, word.as_bytes())? {
        Source::ByItself(Some(arg)) => Ok(arg),
        Source::ByItself(None) => Err(refused(ArgFault::Param(k))),
        Source::ByFile => read_file(alloc, kind, word, place, k, files),
    }
}

/// Reads the file of an array.
fn read_file<F: Files>(
    alloc: Global,
    kind: Kind,
    name: &str,
    place: u32,
    k: u32,
    files: &mut F,
) -> Result<Arg, ArgsFail>
    ensures held { F.held files.new ≡ F.held files.old }
    ensures reads { spec.ReadsFrom (F.held files.old) place k kind name.now ByFile result }
    ensures cause { spec.HasCause (F.faults files.old) (F.faults files.new) (F.last files.old) (F.last files.new)
        (spec.only place name.now) result }
{
    match files.fetch(alloc, name, FILE_LIMIT) {
        Ok(bytes) => match array_of(alloc, kind, bytes)? {
            Some(arg) => Ok(arg),
            None => Err(refused(ArgFault::Param(k))),
        },
        Err(FetchFault::Failed) => Err(ArgsFail::ReadFault { word: place }),
        Err(FetchFault::TooLong) => Err(ArgsFail::Refused(Refusal::TooLong {
            word: place,
            limit: FILE_LIMIT,
        })),
        Err(FetchFault::NoMemory) => Err(ArgsFail::NoMemory),
    }
}

fn refused(which: ArgFault) -> ArgsFail
    ensures { result ≡ spec.refused which }
{
    ArgsFail::Refused(Refusal::BadArguments { which })
}
