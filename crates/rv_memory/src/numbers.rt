// Numbers of two and four bytes, the lowest byte first: with one look-up where one page holds them all, and else
// byte by byte.

ghost use Rattle.std.specs.Prelude.{◌≡◌, ℕ, ◌+◌, ◌^◌, ◌<◌, ◌≤◌, Some, length, is_some};
ghost use Rattle.rv_memory.specs.Bytes.{AreDisjoint};
ghost use Rattle.rv_memory.specs.Contents.{contents, parts, stored_if};
ghost use Rattle.rv_memory.specs.Numbers.{number_at, number_in, with_number_in};

use crate::page::{Hints, Page, RECENT, find, read, remembered, write};
use std::cell::Cell;
use std::collections::BTreeMap;

/// The number of the two bytes at an address, if pages hold both.
#[inline(always)]
pub fn read_two(pages: &[Page], hints: Hints<'_>, at: usize) -> Option<u16>
    requires apart { AreDisjoint (parts pages.now) }
    requires below { at < 2 ^ 32 }
    ensures { result ≡ number_at (contents pages.now) 2 at }
{
    let i = find(pages, hints, at)?;
    let page = &pages[i];
    let k = at - page.start;
    if page.bytes.len() - k < 2 {
        return gather_two(pages, hints, at);
    }
    Some(two_in(&page.bytes, k))
}

/// The number of the four bytes at an address, if pages hold all.
#[inline(always)]
pub fn read_four(pages: &[Page], hints: Hints<'_>, at: usize) -> Option<u32>
    requires apart { AreDisjoint (parts pages.now) }
    requires below { at < 2 ^ 32 }
    ensures { result ≡ number_at (contents pages.now) 4 at }
{
    let i = find(pages, hints, at)?;
    let page = &pages[i];
    let k = at - page.start;
    if page.bytes.len() - k < 4 {
        return gather_four(pages, hints, at);
    }
    Some(four_in(&page.bytes, k))
}

/// Writes two bytes at an address, and says whether pages hold both. Else nothing changes.
#[inline(always)]
pub fn write_two(
    pages: &mut [Page],
    places: &mut BTreeMap<usize, usize>,
    used: &mut [Cell<usize>; RECENT],
    at: usize,
    value: u16,
) -> bool
    requires apart { AreDisjoint (parts pages.old) }
    requires below { at < 2 ^ 32 }
    ensures found { result ≡ is_some (number_at (contents pages.old) 2 at) }
    ensures value { contents pages.new ≡ stored_if result 2 pages.old at value }
    ensures apart { AreDisjoint (parts pages.new) }
{
    let last = remembered(used, at);
    let Some(i) = find(pages, Hints { last, places }, at) else {
        return false;
    };
    let page = &pages[i];
    let k = at - page.start;
    if page.bytes.len() - k < 2 {
        return scatter_two(pages, places, used, at, value);
    }
    put_two(&mut pages[i].bytes, k, value);
    true
}

/// Writes four bytes at an address, and says whether pages hold all. Else nothing changes.
#[inline(always)]
pub fn write_four(
    pages: &mut [Page],
    places: &mut BTreeMap<usize, usize>,
    used: &mut [Cell<usize>; RECENT],
    at: usize,
    value: u32,
) -> bool
    requires apart { AreDisjoint (parts pages.old) }
    requires below { at < 2 ^ 32 }
    ensures found { result ≡ is_some (number_at (contents pages.old) 4 at) }
    ensures value { contents pages.new ≡ stored_if result 4 pages.old at value }
    ensures apart { AreDisjoint (parts pages.new) }
{
    let last = remembered(used, at);
    let Some(i) = find(pages, Hints { last, places }, at) else {
        return false;
    };
    let page = &pages[i];
    let k = at - page.start;
    if page.bytes.len() - k < 4 {
        return scatter_four(pages, places, used, at, value);
    }
    put_four(&mut pages[i].bytes, k, value);
    true
}

#[tactic(auto, unfolding(crate::specs::Numbers::number_in))]
fn two_in(bytes: &[u8], k: usize) -> u16
    requires { k + 2 ≤ length bytes.now }
    ensures { Some result ≡ number_in bytes.now 2 k }
{
    u16::from(bytes[k]) + (u16::from(bytes[k + 1]) << 8)
}

#[tactic(auto, unfolding(crate::specs::Numbers::number_in))]
fn four_in(bytes: &[u8], k: usize) -> u32
    requires { k + 4 ≤ length bytes.now }
    ensures { Some result ≡ number_in bytes.now 4 k }
{
    let low = u32::from(bytes[k]) + (u32::from(bytes[k + 1]) << 8);
    let high = u32::from(bytes[k + 2]) + (u32::from(bytes[k + 3]) << 8);
    low + (high << 16)
}

#[tactic(auto, unfolding(crate::specs::Numbers::with_number_in))]
fn put_two(bytes: &mut [u8], k: usize, value: u16)
    requires { k + 2 ≤ length bytes.old }
    ensures { bytes.new ≡ with_number_in bytes.old 2 k value }
{
    bytes[k] = (value & 0xff) as u8;
    bytes[k + 1] = (value >> 8) as u8;
}

#[tactic(auto, unfolding(crate::specs::Numbers::with_number_in))]
fn put_four(bytes: &mut [u8], k: usize, value: u32)
    requires { k + 4 ≤ length bytes.old }
    ensures { bytes.new ≡ with_number_in bytes.old 4 k value }
{
    bytes[k] = (value & 0xff) as u8;
    bytes[k + 1] = (value >> 8 & 0xff) as u8;
    bytes[k + 2] = (value >> 16 & 0xff) as u8;
    bytes[k + 3] = (value >> 24) as u8;
}

#[tactic(auto, unfolding(crate::specs::Numbers::number_at))]
#[inline(never)]
fn gather_two(pages: &[Page], hints: Hints<'_>, at: usize) -> Option<u16>
    requires apart { AreDisjoint (parts pages.now) }
    requires below { at < 2 ^ 32 }
    ensures { result ≡ number_at (contents pages.now) 2 at }
{
    let low = read(pages, hints, at)?;
    let high = read(pages, hints, at + 1)?;
    Some(u16::from(low) + (u16::from(high) << 8))
}

#[tactic(auto, unfolding(crate::specs::Numbers::number_at))]
#[inline(never)]
fn gather_four(pages: &[Page], hints: Hints<'_>, at: usize) -> Option<u32>
    requires apart { AreDisjoint (parts pages.now) }
    requires below { at < 2 ^ 32 }
    ensures { result ≡ number_at (contents pages.now) 4 at }
{
    let first = read(pages, hints, at)?;
    let second = read(pages, hints, at + 1)?;
    let third = read(pages, hints, at + 2)?;
    let fourth = read(pages, hints, at + 3)?;
    let low = u32::from(first) + (u32::from(second) << 8);
    let high = u32::from(third) + (u32::from(fourth) << 8);
    Some(low + (high << 16))
}

#[inline(never)]
fn scatter_two(
    pages: &mut [Page],
    places: &mut BTreeMap<usize, usize>,
    used: &mut [Cell<usize>; RECENT],
    at: usize,
    value: u16,
) -> bool
    requires apart { AreDisjoint (parts pages.old) }
    requires below { at < 2 ^ 32 }
    ensures found { result ≡ is_some (number_at (contents pages.old) 2 at) }
    ensures value { contents pages.new ≡ stored_if result 2 pages.old at value }
    ensures apart { AreDisjoint (parts pages.new) }
{
    let last = remembered(used, at);
    if gather_two(pages, Hints { last, places }, at).is_none() {
        return false;
    }
    write(pages, places, used, at, (value & 0xff) as u8);
    write(pages, places, used, at + 1, (value >> 8) as u8);
    true
}

#[inline(never)]
fn scatter_four(
    pages: &mut [Page],
    places: &mut BTreeMap<usize, usize>,
    used: &mut [Cell<usize>; RECENT],
    at: usize,
    value: u32,
) -> bool
    requires apart { AreDisjoint (parts pages.old) }
    requires below { at < 2 ^ 32 }
    ensures found { result ≡ is_some (number_at (contents pages.old) 4 at) }
    ensures value { contents pages.new ≡ stored_if result 4 pages.old at value }
    ensures apart { AreDisjoint (parts pages.new) }
{
    let last = remembered(used, at);
    if gather_four(pages, Hints { last, places }, at).is_none() {
        return false;
    }
    write(pages, places, used, at, (value & 0xff) as u8);
    write(pages, places, used, at + 1, (value >> 8 & 0xff) as u8);
    write(pages, places, used, at + 2, (value >> 16 & 0xff) as u8);
    write(pages, places, used, at + 3, (value >> 24) as u8);
    true
}
