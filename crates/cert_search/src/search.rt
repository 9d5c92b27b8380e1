//! The search itself: the first candidate that leaves a goal which closes is taken.
ghost use Rattle.std.specs.Prelude.{◌≡◌, ◌<◌, ◌^◌, [], ◌∷◌, length, IfOk, None};
ghost use Rattle.std.specs.Option.{ForSome};
ghost use Rattle.side_certs.specs.Closes.{Closes};
ghost use Rattle.cert_search.specs.Limits.{Limited};
ghost use Rattle.cert_search.specs.Search as spec;

use crate::candidates::{newest_fact, next_goal, symbol_entry};
use rup_base::{List, NoMemory};
use side_certs::{Cert, Entry, Form};
use std::alloc::Global;

/// The greatest number of entries, one after the other.
const LEVELS: u32 = 4;

/// The greatest number of facts that are tried for a goal.
const MOST_FACTS: u32 = 16;

/// The certificate of the search for `goal`. None exactly where the search has none.
pub fn find(
    alloc: Global,
    facts: &[Form],
    tops: &[u32],
    goal: &Form,
) -> Result<Option<Cert>, NoMemory>
    requires { length facts.now < 2 ^ 32 }
    ensures found { IfOk result (λ certificate. certificate ≡ spec.found facts.now tops.now goal.now) }
    ensures limits { IfOk result (λ certificate. ForSome certificate (Limited facts.now tops.now)) }
    ensures closes { IfOk result (λ certificate. ForSome certificate (Closes facts.now tops.now goal.now)) }
{
    match entries(alloc, facts, tops, LEVELS, goal)? {
        None => Ok(None),
        Some(entries) => Ok(Some(Cert { d: 1, entries })),
    }
}

/// The entries by which the goal closes, where there are at most so many.
#[cycle(search)]
fn entries(
    alloc: Global,
    facts: &[Form],
    tops: &[u32],
    levels: u32,
    goal: &Form,
) -> Result<Option<List<Entry>>, NoMemory>
    requires { length facts.now < 2 ^ 32 }
    ensures { IfOk result (λ entries. entries ≡ spec.entries facts.now tops.now levels goal.now) }
{
    if goal.terms() == 0 {
        return Ok(no_entries(alloc, goal.constant_part()));
    }
    if levels == 0 {
        return Ok(None);
    }
    first_candidate(alloc, facts, tops, levels - 1, goal, goal.term_at(0))
}

/// No entry closes a goal that is a number, where that is at least 0.
fn no_entries(alloc: Global, constant: i64) -> Option<List<Entry>>
    ensures { result ≡ spec.by_least (λ t. None) constant [] }
{
    if constant >= 0 {
        Some(List::new(alloc))
    } else {
        None
    }
}

/// The entries that the first candidate for this term begins with which leaves a goal that closes.
#[cycle(search)]
fn first_candidate(
    alloc: Global,
    facts: &[Form],
    tops: &[u32],
    levels: u32,
    goal: &Form,
    term: (u32, i64),
) -> Result<Option<List<Entry>>, NoMemory>
    requires { length facts.now < 2 ^ 32 }
    ensures { IfOk result (λ entries. entries ≡ spec.taken
        (spec.entries facts.now tops.now levels)
        facts.now
        tops.now
        goal.now
        term) }
{
    let mut older = facts.len();
    let mut tries = MOST_FACTS;
    'facts: while tries > 0 {
        match newest_fact(facts, term, older) {
            None => break,
            Some(entry) => {
                if let Some(entries) = beginning(alloc, facts, tops, levels, goal, entry)? {
                    return Ok(Some(entries));
                }
                older = entry.number as usize;
                tries -= 1;
            }
        }
    }
    match symbol_entry(tops, term) {
        None => Ok(None),
        Some(entry) => beginning(alloc, facts, tops, levels, goal, entry),
    }
}

/// The entry, and then those by which what it leaves of the goal closes.
#[cycle(search)]
fn beginning(
    alloc: Global,
    facts: &[Form],
    tops: &[u32],
    levels: u32,
    goal: &Form,
    entry: Entry,
) -> Result<Option<List<Entry>>, NoMemory>
    requires { length facts.now < 2 ^ 32 }
    ensures { IfOk result (λ entries. entries ≡ spec.beginning
        (spec.entries facts.now tops.now levels)
        (spec.next_goal facts.now tops.now goal.now)
        entry) }
{
    match next_goal(facts, tops, goal, entry) {
        None => Ok(None),
        Some(rest) => match entries(alloc, facts, tops, levels, &rest)? {
            None => Ok(None),
            Some(more) => Ok(Some(led(alloc, entry, more.as_slice())?)),
        },
    }
}

/// The entry, and more after it.
fn led(alloc: Global, entry: Entry, more: &[Entry]) -> Result<List<Entry>, NoMemory>
    ensures { IfOk result (λ entries. entries ≡ entry ∷ more.now) }
{
    let mut entries = List::new(alloc);
    entries.push(entry)?;
    for e in more {
        entries.push(*e)?;
    }
    Ok(entries)
}
