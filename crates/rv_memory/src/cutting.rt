// Cutting regions where pages end.

ghost use Rattle.std.specs.Prelude.{◌≡◌, ℕ, ◌+◌, ◌^◌, ◌≤◌, List, [], ◌∷◌, ◌++◌, length, OnOk};
ghost use Rattle.rv_memory.specs.Contents.{parts, IsRecut};

use crate::page::{PAGE_SIZE, Page};
use rup_base::NoMemory;
use std::alloc::Global;
use std::collections::BTreeMap;

/// Appends the bytes of a region, cut where pages end. The ordered map leads from a page's number to its place.
pub fn cut(
    alloc: Global,
    pages: &mut Vec<Page>,
    places: &mut BTreeMap<usize, usize>,
    start: usize,
    bytes: &[u8],
) -> Result<(), NoMemory>
    requires { start + length bytes.now ≤ 2 ^ 32 }
    ensures { OnOk result ((rest : List (ℕ × List ℕ))
        → IsRecut (parts pages.old.items ++ (start, bytes.now) ∷ rest) (parts pages.new.items ++ rest)) }
{
    let mut at = start;
    let mut left = bytes;
    while left.len() > PAGE_SIZE - at % PAGE_SIZE {
        let (first, others) = left.split_at(PAGE_SIZE - at % PAGE_SIZE);
        add(alloc, pages, places, at, first)?;
        at += first.len();
        left = others;
    }
    add(alloc, pages, places, at, left)
}

// Appends bytes of one page.
fn add(
    alloc: Global,
    pages: &mut Vec<Page>,
    places: &mut BTreeMap<usize, usize>,
    start: usize,
    bytes: &[u8],
) -> Result<(), NoMemory>
    ensures { OnOk result (parts pages.new.items ≡ parts pages.old.items ++ (start, bytes.now) ∷ []) }
{
    let place = pages.len();
    let bytes = Vec::from_slice(alloc, bytes)?;
    let next = places.insert(start / PAGE_SIZE, place)?.unwrap_or(place);
    pages.push(Page { start, bytes, next })?;
    Ok(())
}
