//! The files of a case, part after part.
use row_cases::{Fault, bytes_of, number_of};
use rup_base::{NoMemory, Text};
use rup_io::Files;
use std::alloc::Global;

/// The most bytes of a file of the disk.
const LIMIT: u32 = 1_048_576;

/// How many zeros are written at once.
const CHUNK: usize = 4096;

/// Names and the bytes of their files.
pub type Held = Vec<(Text, Text)>;

/// Adds the file of a line: its name, and its first part.
pub fn add_file<D: Files>(
    alloc: Global,
    disk: &mut D,
    files: &mut Held,
    line: &str,
) -> Result<(), Fault> {
    let (name, part) = line.split_once(' ').unwrap_or((line, "text"));
    let bytes = part_of(alloc, disk, part)?;
    files.push((Text::from_slice(alloc, name.as_bytes())?, bytes))?;
    Ok(())
}

/// Adds copies of files.
pub fn add_copies(alloc: Global, files: &mut Held, more: &[(Text, Text)]) -> Result<(), Fault> {
    for (name, bytes) in more {
        let name = Text::from_slice(alloc, name.as_slice())?;
        files.push((name, Text::from_slice(alloc, bytes.as_slice())?))?;
    }
    Ok(())
}

/// Adds a part to the last file.
pub fn add_part<D: Files>(
    alloc: Global,
    disk: &mut D,
    files: &mut Held,
    part: &str,
) -> Result<(), Fault> {
    let more = part_of(alloc, disk, part)?;
    let Some((_, bytes)) = files.last_mut() else {
        return Err(Fault::BadLine);
    };
    bytes.extend_from_slice(more.as_slice())?;
    Ok(())
}

/// The bytes of a part: a text, bytes in hexadecimal, a file of the disk, so many zeros, or a text so often.
fn part_of<D: Files>(alloc: Global, disk: &mut D, part: &str) -> Result<Text, Fault> {
    let (kind, rest) = part.split_once(' ').unwrap_or((part, ""));
    match kind.as_bytes() {
        b"text" => Ok(Text::from_slice(alloc, rest.as_bytes())?),
        b"hex" => bytes_of(alloc, rest),
        b"disk" => Ok(disk.fetch(alloc, rest, LIMIT)?),
        b"zeros" => Ok(zeros(alloc, number_of(rest)?)?),
        b"times" => {
            let (count, text) = rest.split_once(' ').unwrap_or((rest, ""));
            repeated(alloc, count, text.as_bytes())
        }
        _ => Err(Fault::BadLine),
    }
}

/// So many zeros.
fn zeros(alloc: Global, count: u32) -> Result<Text, NoMemory> {
    let chunk = [0u8; CHUNK];
    let mut bytes = Text::new(alloc);
    for _ in 0..count as usize / CHUNK {
        bytes.extend_from_slice(&chunk)?;
    }
    bytes.extend_from_slice(&chunk[..count as usize % CHUNK])?;
    Ok(bytes)
}

/// The bytes as often as the number says.
fn repeated(alloc: Global, count: &str, bytes: &[u8]) -> Result<Text, Fault> {
    let count = number_of(count)?;
    Ok(Text::from_vec(bytes.repeat(alloc, count as usize)?))
}
