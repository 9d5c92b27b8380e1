//! What no clause says: that calls succeed with ample memory, and what a disk and a writer do.
use super::*;
use crate::disk::read_within;
use rup_base::{List, Text};
use std::io::{Read, Write};
use std::test::Fail;
use std::{fs, io};

/// The bytes of a fetch, or its fault, as a table of rows has them.
fn bytes_of(answer: &Result<Text, FetchFault>) -> Result<&[u8], FetchFault> {
    match answer {
        Ok(bytes) => Ok(bytes.as_slice()),
        Err(fault) => Err(*fault),
    }
}

#[test]
fn a_file_in_memory_is_fetched(rt: HostRuntime) -> Result<(), Fail> {
    let mut files = List::new(rt.alloc());
    let name = Text::from_slice(rt.alloc(), b"one")?;
    files.push((name, Text::from_slice(rt.alloc(), b"first")?))?;
    let mut files = MemFiles::new(files, List::new(rt.alloc()));
    let answer = files.fetch(rt.alloc(), "one", 5);
    assert_eq!(rt; bytes_of(&answer), Ok(b"first".as_slice()));
    Ok(())
}

#[test]
fn a_sink_in_memory_takes_bytes(rt: HostRuntime) -> Result<(), Fail> {
    let mut sink = MemSink::new(rt.alloc(), 6, List::new(rt.alloc()))?;
    assert_eq!(rt; sink.write(b"ab"), Ok(()));
    assert_eq!(rt; sink.taken(), b"ab".as_slice());
    Ok(())
}

const HELD: &str = "rup_io_held_test";

#[test]
fn a_file_on_disk_is_fetched(rt: HostRuntime) -> Result<(), Fail> {
    fs::write(&rt, HELD, b"held".as_slice())?;
    let mut files = DiskFiles::new(&rt);
    let answer = files.fetch(rt.alloc(), HELD, 4);
    assert_eq!(rt; bytes_of(&answer), Ok(b"held".as_slice()));
    let answer = files.fetch(rt.alloc(), HELD, 3);
    assert_eq!(rt; bytes_of(&answer), Err(FetchFault::TooLong));
    // A folder opens, and no read of it succeeds.
    let answer = files.fetch(rt.alloc(), ".", 4);
    assert_eq!(rt; bytes_of(&answer), Err(FetchFault::Failed));
    fs::remove_file(&rt, HELD)?;
    Ok(())
}

/// A reader that gives a byte at a time, and then an error.
#[derive(Drop)]
struct Broken {
    left: u32,
}

impl Read for Broken {
    fn read(&mut self, buf: &mut [u8]) -> io::Result<usize> {
        if self.left == 0 {
            return Err(io::Error::from(io::ErrorKind::Other));
        }
        if buf.is_empty() {
            return Ok(0);
        }
        buf[0] = b'x';
        self.left -= 1;
        Ok(1)
    }
}

#[test]
fn a_read_that_breaks_off_gives_no_bytes(rt: HostRuntime) {
    let broken = read_within(rt.alloc(), &mut Broken { left: 3 }, 3);
    assert_eq!(rt; bytes_of(&broken), Err(FetchFault::Failed));
    // Three bytes are more than the limit: no further read comes.
    let long = read_within(rt.alloc(), &mut Broken { left: 3 }, 2);
    assert_eq!(rt; bytes_of(&long), Err(FetchFault::TooLong));
}

/// A writer that takes a few bytes at a time, and none, or an error, once it is full.
#[derive(Drop)]
struct Narrow {
    taken: Vec<u8>,
    at_once: usize,
    capacity: usize,
    fails: bool,
}

impl Write for Narrow {
    fn write(&mut self, buf: &[u8]) -> io::Result<usize> {
        if self.taken.len() >= self.capacity && self.fails {
            return Err(io::Error::from(io::ErrorKind::BrokenPipe));
        }
        let room = self.capacity.saturating_sub(self.taken.len());
        let count = buf.len().min(self.at_once).min(room);
        self.taken.extend_from_slice(&buf[..count])?;
        Ok(count)
    }

    fn flush(&mut self) -> io::Result<()> {
        Ok(())
    }
}

#[test]
fn a_writer_takes_piece_after_piece(rt: HostRuntime) -> Result<(), Fail> {
    for fails in [false, true] {
        let mut writer = Narrow {
            taken: Vec::new(rt.alloc()),
            at_once: 2,
            capacity: 8,
            fails,
        };
        let mut sink = StdSink::new(&mut writer);
        let rows = [
            ("abcde", Ok(()), 0),
            ("", Ok(()), 0),
            ("fghi", Err(SinkFailed), 1),
            ("j", Err(SinkFailed), 2),
        ];
        for (bytes, want, faults) in rows {
            assert_eq!(rt; sink.write(bytes.as_bytes()), want, "at {bytes}");
            assert_eq!(rt; sink.faults(), faults, "at {bytes}");
        }
        drop(sink);
        assert_eq!(rt; writer.taken.as_slice(), b"abcdefgh".as_slice());
    }
    Ok(())
}
