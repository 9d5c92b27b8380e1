// Pages: the bytes of a region at the addresses of one page of 4,096, and the look-up of an address in a list of them.

ghost use Rattle.std.specs.Prelude.{◌≡◌, ℕ, ◌+◌, ◌-◌, ◌<◌, ◌≤◌, ◌↔◌, Some, IsTrue, IsSome, if◌then◌else◌};
ghost use Rattle.std.specs.FinMap as map;
ghost use Rattle.std.specs.List.{position};
ghost use Rattle.rv_memory.specs.Bytes.{AreDisjoint};
ghost use Rattle.rv_memory.specs.Contents.{contents, holds, parts};

use std::cell::Cell;
use std::collections::BTreeMap;

/// The number of addresses in a page.
pub const PAGE_SIZE: usize = 4096;

/// How many pages of data are remembered.
pub const RECENT: usize = 64;

/// Bytes of one region at consecutive addresses, all of one page.
#[derive(Drop)]
pub struct Page {
    /// The address of the first byte.
    pub start: usize,
    pub bytes: Vec<u8>,
    /// The place of what another region has in this page, if one has.
    pub next: usize,
}

impl Page {
    /// Whether a byte of this page has the address.
    #[inline(always)]
    pub fn holds(&self, at: usize) -> bool
        ensures { result ≡ holds at self.now }
    {
        at >= self.start && at - self.start < self.bytes.len()
    }
}

/// Whether the page at a place holds the address.
#[inline(always)]
pub fn is_at(pages: &[Page], place: usize, at: usize) -> bool
    requires { AreDisjoint (parts pages.now) }
    ensures { IsTrue result → position (holds at) pages.now ≡ Some place }
{
    place < pages.len() && pages[place].holds(at)
}

/// Where to look for an address first: at the page that was last used, and then where an ordered map from the numbers of
/// pages says.
#[derive(Clone, Copy)]
pub struct Hints<'a> {
    pub last: &'a Cell<usize>,
    pub places: &'a BTreeMap<usize, usize>,
}

/// Where the page of an address is remembered: by the end of its number.
#[inline(always)]
pub fn remembered(used: &[Cell<usize>; RECENT], at: usize) -> &Cell<usize> {
    &used[at / PAGE_SIZE % RECENT]
}

/// The place of the page that holds the address.
#[inline(always)]
pub fn find(pages: &[Page], hints: Hints<'_>, at: usize) -> Option<usize>
    requires { AreDisjoint (parts pages.now) }
    ensures { result ≡ position (holds at) pages.now }
{
    let place = hints.last.get();
    if is_at(pages, place, at) {
        Some(place)
    } else {
        search(pages, hints, at)
    }
}

// The same by the ordered map; that no page holds the address is said only after all were asked.
#[inline(never)]
fn search(pages: &[Page], hints: Hints<'_>, at: usize) -> Option<usize>
    requires { AreDisjoint (parts pages.now) }
    ensures { result ≡ position (holds at) pages.now }
{
    let place = look_up(pages, hints.places, at);
    if is_at(pages, place, at) {
        hints.last.set(place);
        Some(place)
    } else {
        pages.iter().position(|page| page.holds(at))
    }
}

// The place of the page that holds the address, as the ordered map says.
fn look_up(pages: &[Page], places: &BTreeMap<usize, usize>, at: usize) -> usize {
    let Some(place) = places.get(&(at / PAGE_SIZE)) else {
        return 0;
    };
    let mut place = *place;
    for _ in 0..pages.len() {
        match pages.get(place) {
            Some(page) if !page.holds(at) => place = page.next,
            _ => break,
        }
    }
    place
}

/// The byte at the address, if a page holds it.
#[inline(always)]
pub fn read(pages: &[Page], hints: Hints<'_>, at: usize) -> Option<u8>
    requires { AreDisjoint (parts pages.now) }
    ensures { result ≡ map.get (contents pages.now) at }
{
    let i = find(pages, hints, at)?;
    let page = &pages[i];
    Some(page.bytes[at - page.start])
}

/// Writes the byte at the address, and says whether a page holds it.
#[inline(always)]
pub fn write(
    pages: &mut [Page],
    places: &mut BTreeMap<usize, usize>,
    used: &mut [Cell<usize>; RECENT],
    at: usize,
    byte: u8,
) -> bool
    requires { AreDisjoint (parts pages.old) }
    ensures found { IsTrue result ↔ IsSome (map.get (contents pages.old) at) }
    ensures value { contents pages.new ≡ (if result then map.insert (contents pages.old) at byte else contents pages.old) }
    ensures apart { AreDisjoint (parts pages.new) }
{
    let last = remembered(used, at);
    let Some(i) = find(pages, Hints { last, places }, at) else {
        return false;
    };
    let page = &mut pages[i];
    let k = at - page.start;
    page.bytes[k] = byte;
    true
}
