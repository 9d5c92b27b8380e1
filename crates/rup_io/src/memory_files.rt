//! Files in memory, of which each answer is known: for tests, and for callers that hold their files.
ghost use Rattle.std.specs.Prelude.{◌≡◌, false, Some, None, option_copied};
ghost use Rattle.rup_io.specs.Files.{file_of, FetchCause, FetchGives};
ghost use Rattle.rup_io.specs.MemoryFiles.{fetched, IsAnswer, after_fetch, answer_of};

use crate::calls::is_listed;
use crate::fetch::{FetchFault, Files};
use rup_base::{List, Text};
use std::alloc::Global;
use std::marker::Model;

/// Pairs of a name and the bytes of its file, with the numbers of the calls that are to fail.
#[derive(Debug, Drop)]
pub struct MemFiles {
    files: List<(Text, Text)>,
    fails: List<u32>,
    calls: u64,
    faults: u64,
    last: Option<Text>,
}

impl Model for MemFiles {
    ghost use Rattle.rup_io.specs.MemoryFiles.{MemoryFiles};

    ghost Value = { MemoryFiles };

    ghost view = { λ m. record {
      files = m.files;
      fails = m.fails;
      calls = m.calls;
      faults = m.faults;
      last = m.last;
    } };
}

impl MemFiles {
    /// Of two pairs with one name the first counts. The calls whose numbers, from 0, stand in
    /// `fails` fail, and so does a call for a name that is not held. A call that is to fail answers
    /// `NoMemory` where its name can't be copied.
    pub fn new(files: List<(Text, Text)>, fails: List<u32>) -> MemFiles
        ensures { result ≡ record { files = files; fails = fails; calls = 0; faults = 0; last = None } }
    {
        MemFiles {
            files,
            fails,
            calls: 0,
            faults: 0,
            last: None,
        }
    }

    /// How many calls came so far.
    pub fn calls(&self) -> u64
        ensures { result ≡ self.now.calls }
    {
        self.calls
    }

    /// How many calls failed.
    pub fn faults(&self) -> u64
        ensures { result ≡ self.now.faults }
    {
        self.faults
    }

    /// The name of the last call that failed.
    pub fn last(&self) -> Option<&Text>
        ensures { option_copied result ≡ self.now.last }
    {
        self.last.as_ref()
    }
}

impl Files for MemFiles {
    ghost held = { λ m. Some m.files };

    ghost faults = { λ m. m.faults };

    ghost last = { λ m. m.last };

    fn fetch(&mut self, alloc: Global, name: &str, limit: u32) -> Result<Text, FetchFault>
        ensures held { Some self.new.files ≡ Some self.old.files }
        ensures cause { FetchCause self.old.faults self.new.faults self.old.last self.new.last
            name.now result }
        ensures gives { FetchGives (Some self.old.files) name.now limit result }

        // each answer but want of memory, and the numbers of the calls, of which `fails` speaks
        ensures answer { IsAnswer result (fetched self.old name.now limit) }
        ensures after { self.new ≡ after_fetch self.old name.now result }
    {
        let is_to_fail = is_listed(self.fails.as_slice(), self.calls);
        self.calls = self.calls.saturating_add(1);
        match find(self.files.as_slice(), name) {
            Some(bytes) if !is_to_fail => copy_within(alloc, bytes.as_slice(), limit),
            _ => {
                let name = Text::from_slice(alloc, name.as_bytes())?;
                self.faults = self.faults.saturating_add(1);
                self.last = Some(name);
                Err(FetchFault::Failed)
            }
        }
    }
}

/// The bytes of the first file with this name.
fn find<'a>(files: &'a [(Text, Text)], name: &str) -> Option<&'a Text>
    ensures { option_copied result ≡ file_of files.now name.now }
{
    files
        .iter()
        .find(|(held, _)| held.as_slice() == name.as_bytes())
        .map(|(_, bytes)| bytes)
}

/// A copy of a file that is within the limit.
fn copy_within(alloc: Global, bytes: &[u8], limit: u32) -> Result<Text, FetchFault>
    ensures { IsAnswer result (answer_of false (Some bytes.now) limit) }
{
    if bytes.len() > limit as usize {
        return Err(FetchFault::TooLong);
    }
    Ok(Text::from_slice(alloc, bytes)?)
}
