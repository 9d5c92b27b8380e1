//! Arguments from words, and results as lines.
use row_cases::{Fault, bytes_of, number_of, refused, shown};
use run_setup::{ArgsFail, print_results, read_args};
use rup_base::{Arg, Args, Fail, Kind, List, Text};
use rup_io::MemFiles;
use std::alloc::Global;

/// A kind, as `bytes/3`.
fn kind_of(text: &str) -> Result<Kind, Fault> {
    let Some((word, length)) = text.split_once('/') else {
        return match text.as_bytes() {
            b"word" => Ok(Kind::Word),
            b"byte" => Ok(Kind::Byte),
            b"bytes" => Ok(Kind::Bytes(None)),
            b"words" => Ok(Kind::Words(None)),
            _ => Err(Fault::BadLine),
        };
    };
    let length = Some(number_of(length)?);
    match word.as_bytes() {
        b"bytes" => Ok(Kind::Bytes(length)),
        b"words" => Ok(Kind::Words(length)),
        _ => Err(Fault::BadLine),
    }
}

/// One file of the name `data`, with the bytes 1, 0, 0 and 2.
fn files(alloc: Global) -> Result<MemFiles, Fault> {
    let mut held = List::new(alloc);
    let name = Text::from_slice(alloc, b"data")?;
    held.push((name, Text::from_slice(alloc, &[1, 0, 0, 2])?))?;
    Ok(MemFiles::new(held, List::new(alloc)))
}

/// The argument that a word gives for a parameter, as `word 0xFf`, or why it gives none.
pub fn read(alloc: Global, line: &str) -> Result<String, Fault> {
    let (kind, text) = line.split_once(' ').unwrap_or((line, ""));
    let kind = kind_of(kind)?;
    let mut words = Vec::new(alloc);
    words.push(String::from_str(alloc, text)?)?;
    let mut files = files(alloc)?;
    match read_args(alloc, &[kind], words.as_slice(), 0, &mut files) {
        Ok(args) => args_text(alloc, args.as_slice()),
        Err(ArgsFail::Refused(refusal)) => refused(alloc, &Fail::Refused(refusal)),
        Err(ArgsFail::ReadFault { word }) => fault_text(alloc, word),
        Err(ArgsFail::NoMemory) => Err(Fault::NoMemory),
    }
}

fn fault_text(alloc: Global, word: u32) -> Result<String, Fault> {
    Ok(format!(in alloc; "read fault at word {word}")?)
}

fn args_text(alloc: Global, args: &[Arg]) -> Result<String, Fault> {
    let mut line = String::from_str(alloc, "argument")?;
    for arg in args {
        put_arg(&mut line, arg)?;
    }
    Ok(line)
}

/// Puts an argument behind a line, as `of_words` reads it.
fn put_arg(line: &mut String, arg: &Arg) -> Result<(), Fault> {
    match arg {
        Arg::Word(number) => write!(line, " {number}")?,
        Arg::Bytes(bytes) => {
            line.push_str(" bytes:")?;
            for byte in bytes.as_slice() {
                write!(line, "{byte:02x}")?;
            }
        }
        Arg::Words(words) => {
            line.push_str(" words:")?;
            for word in words.as_slice() {
                write!(line, "{word},")?;
            }
        }
    }
    Ok(())
}

/// Arguments or results, as `1 bytes:0a0b words:7,8`.
pub fn of_words(alloc: Global, line: &str) -> Result<Args, Fault> {
    let mut args = List::new(alloc);
    for word in line.split_whitespace() {
        args.push(of_word(alloc, word)?)?;
    }
    Ok(args)
}

fn of_word(alloc: Global, word: &str) -> Result<Arg, Fault> {
    if let Some(digits) = word.strip_prefix("bytes:") {
        return Ok(Arg::Bytes(bytes_of(alloc, digits)?));
    }
    let Some(numbers) = word.strip_prefix("words:") else {
        return Ok(Arg::Word(number_of(word)?));
    };
    let mut words = List::new(alloc);
    if !numbers.is_empty() {
        for number in numbers.split(',') {
            words.push(number_of(number)?)?;
        }
    }
    Ok(Arg::Words(words))
}

/// The lines of results.
pub fn lines(alloc: Global, line: &str) -> Result<String, Fault> {
    let results = of_words(alloc, line)?;
    let printed = print_results(alloc, &results)?;
    shown(alloc, printed.as_slice())
}
