// The memory as its users see it.

ghost use Rattle.std.specs.Prelude.{◌≡◌, ℕ, ◌+◌, ◌^◌, ◌≤◌, ◌↔◌, All, length, IsTrue, IsSome, IfOk, is_some, if◌then◌else◌};
ghost use Rattle.std.specs.FinMap as map;
ghost use Rattle.rv_memory.specs.Bytes.{bytes_of, AreDisjoint};
ghost use Rattle.rv_memory.specs.Numbers.{number_at, with_number};

use crate::cutting::cut;
use crate::page::{Hints, Page, RECENT, remembered};
use crate::{numbers, page};
use rup_base::{List, NoMemory, Text};
use std::alloc::Global;
use std::array;
use std::cell::Cell;
use std::collections::BTreeMap;
use std::marker::Model;

/// A finite map from addresses to bytes.
#[derive(Drop)]
pub struct Memory {
    pages: Vec<Page>,
    /// Where a page stands, by its number.
    places: BTreeMap<usize, usize>,
    /// The place of the page of the last fetch, and those of the pages that were used last, by the ends of their numbers.
    fetched: Cell<usize>,
    used: [Cell<usize>; RECENT],
}

impl Model for Memory {
    ghost use Rattle.std.specs.Prelude.{ℕ};
    ghost use Rattle.std.specs.Ordering.{nat_cmp};
    ghost use Rattle.std.specs.Coded.{coded_ℕ};
    ghost use Rattle.std.specs.FinMap as map;
    ghost use Rattle.rv_memory.specs.Bytes.{AreDisjoint};
    ghost use Rattle.rv_memory.specs.Contents.{contents, parts};

    ghost Value = { map.FinMap nat_cmp ℕ };

    ghost coded = { map.code coded_ℕ coded_ℕ };

    ghost view = { λ m. contents m.pages.items };

    ghost invariant = { λ m. AreDisjoint (parts m.pages.items) };
}

impl Memory {
    /// The memory of the given regions: of each the address of its first byte, and its bytes.
    pub fn new(alloc: Global, regions: List<(u32, Text)>) -> Result<Memory, NoMemory>
        requires disjoint { AreDisjoint regions }
        requires ends { All (λ region. region.0 + length region.1 ≤ 2 ^ 32) regions }
        ensures { IfOk result (λ memory. memory ≡ bytes_of regions) }
    {
        let mut pages = Vec::new(alloc);
        let mut places = BTreeMap::new(alloc);
        let mut left = regions.as_slice();
        'regions: while let [(start, text), others @ ..] = left {
            cut(
                alloc,
                &mut pages,
                &mut places,
                *start as usize,
                text.as_slice(),
            )?;
            left = others;
        }
        Ok(Memory {
            pages,
            places,
            fetched: Cell::new(0),
            used: array::from_fn(|_| Cell::new(0)),
        })
    }

    /// The byte at an address: none exactly outside the map.
    pub fn get(&self, at: u32) -> Option<u8>
        ensures { result ≡ map.get self.now at }
    {
        page::read(&self.pages, self.hints(at as usize), at as usize)
    }

    /// Puts a byte at an address of the map, and says whether it is one. Outside the map nothing changes.
    pub fn set(&mut self, at: u32, byte: u8) -> bool
        ensures found { IsTrue result ↔ IsSome (map.get self.old at) }
        ensures value { self.new ≡ (if result then map.insert self.old at byte else self.old) }
    {
        let at = at as usize;
        page::write(&mut self.pages, &mut self.places, &mut self.used, at, byte)
    }

    /// The number of the two bytes at an address, the lowest first: none exactly where one is outside the map.
    pub fn get_two(&self, at: u32) -> Option<u16>
        ensures { result ≡ number_at self.now 2 at }
    {
        numbers::read_two(&self.pages, self.hints(at as usize), at as usize)
    }

    /// The number of the four bytes at an address, the lowest first: none exactly where one is outside the map.
    pub fn get_four(&self, at: u32) -> Option<u32>
        ensures { result ≡ number_at self.now 4 at }
    {
        numbers::read_four(&self.pages, self.hints(at as usize), at as usize)
    }

    /// The four bytes at an address, as `get_four` reads them, for an instruction: the page is remembered apart from the
    /// pages of data.
    pub fn fetch(&self, at: u32) -> Option<u32>
        ensures { result ≡ number_at self.now 4 at }
    {
        numbers::read_four(
            &self.pages,
            Hints {
                last: &self.fetched,
                places: &self.places,
            },
            at as usize,
        )
    }

    /// Puts the two bytes of a number at an address, the lowest first, and says whether the map has both addresses.
    /// Else nothing changes.
    pub fn set_two(&mut self, at: u32, value: u16) -> bool
        ensures found { result ≡ is_some (number_at self.old 2 at) }
        ensures value { self.new ≡ (if result then with_number self.old 2 at value else self.old) }
    {
        let at = at as usize;
        numbers::write_two(&mut self.pages, &mut self.places, &mut self.used, at, value)
    }

    /// Puts the four bytes of a number at an address, the lowest first, and says whether the map has all four
    /// addresses. Else nothing changes.
    pub fn set_four(&mut self, at: u32, value: u32) -> bool
        ensures found { result ≡ is_some (number_at self.old 4 at) }
        ensures value { self.new ≡ (if result then with_number self.old 4 at value else self.old) }
    {
        let at = at as usize;
        numbers::write_four(&mut self.pages, &mut self.places, &mut self.used, at, value)
    }

    // Where to look for data first.
    #[inline(always)]
    fn hints(&self, at: usize) -> Hints<'_> {
        Hints {
            last: remembered(&self.used, at),
            places: &self.places,
        }
    }
}
