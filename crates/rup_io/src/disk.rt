//! Files of the file system. What a disk holds, no contract can say: this is a trusted edge.
ghost use Rattle.std.specs.Prelude.{◌≡◌, None, option_copied};
ghost use Rattle.rup_io.specs.Edge.{after_fetch, ReadsWithin};
ghost use Rattle.rup_io.specs.Files.{FetchCause, FetchGives};

use crate::fetch::{FetchFault, Files};
use rup_base::Text;
use std::alloc::Global;
use std::fs;
use std::io::Read;
use std::marker::Model;
use std::rt::Files as SystemFiles;

/// How many bytes are read at once.
const CHUNK: usize = 4096;

/// The files of a runtime, by their paths. Their bytes are not told.
#[derive(Drop)]
pub struct DiskFiles<'a, R> {
    rt: &'a R,
    faults: u64,
    last: Option<Text>,
}

impl<'a, R> Model for DiskFiles<'a, R> {
    ghost use Rattle.rup_io.specs.Edge.{Failures};

    ghost Value = { Failures };

    ghost view = { λ d. record { faults = d.faults; last = d.last } };
}

impl<'a, R: SystemFiles> DiskFiles<'a, R> {
    /// The files that this runtime reaches.
    pub fn new(rt: &'a R) -> DiskFiles<'a, R>
        ensures { result ≡ record { faults = 0; last = None } }
    {
        DiskFiles {
            rt,
            faults: 0,
            last: None,
        }
    }

    /// How many fetches failed.
    pub fn faults(&self) -> u64
        ensures { result ≡ self.now.faults }
    {
        self.faults
    }

    /// The name of the last fetch that failed.
    pub fn last(&self) -> Option<&Text>
        ensures { option_copied result ≡ self.now.last }
    {
        self.last.as_ref()
    }
}

impl<R: SystemFiles> Files for DiskFiles<'_, R> {
    ghost held = { λ _. None };

    ghost faults = { λ d. d.faults };

    ghost last = { λ d. d.last };

    fn fetch(&mut self, alloc: Global, name: &str, limit: u32) -> Result<Text, FetchFault>
        ensures cause { FetchCause self.old.faults self.new.faults self.old.last self.new.last
            name.now result }
        ensures gives { FetchGives None name.now limit result }
        ensures after { self.new ≡ after_fetch self.old name.now result }
    {
        let copy = Text::from_slice(alloc, name.as_bytes())?;
        let answer = read_file(self.rt, alloc, name, limit);
        if let Err(FetchFault::Failed) = answer {
            self.faults = self.faults.saturating_add(1);
            self.last = Some(copy);
        }
        answer
    }
}

/// The bytes of the file at this path.
fn read_file<R: SystemFiles>(
    rt: &R,
    alloc: Global,
    path: &str,
    limit: u32,
) -> Result<Text, FetchFault>
    ensures { FetchGives None path.now limit result }
{
    let Ok(mut file) = fs::open(rt, path) else {
        return Err(FetchFault::Failed);
    };
    read_within(alloc, &mut file, limit)
}

/// The bytes of a reader to its end. Where it has more than `limit`, one more than `limit` are read.
pub(crate) fn read_within<F: Read>(
    alloc: Global,
    file: &mut F,
    limit: u32,
) -> Result<Text, FetchFault>
    ensures { ReadsWithin (F.remaining file.old) (F.remaining file.new) limit result }
{
    let mut chunk = [0; CHUNK];
    let mut bytes = Text::new(alloc);
    for _ in 0..u64::MAX {
        let room = limit as usize + 1 - bytes.len();
        let Ok(count) = file.read(&mut chunk[..room.min(CHUNK)]) else {
            return Err(FetchFault::Failed);
        };
        if count == 0 {
            return Ok(bytes);
        }
        bytes.extend_from_slice(&chunk[..count])?;
        if bytes.len() > limit as usize {
            return Err(FetchFault::TooLong);
        }
    }
    Err(FetchFault::Failed)
}
