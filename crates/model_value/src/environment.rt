//! The values of names.
ghost use Rattle.std.specs.Prelude.{◌≡◌, ◌%◌, [], min, length, Some, None, IfOk, OnOk};
ghost use Rattle.std.specs.Option.{option_copied};
ghost use Rattle.std.proofs.Math.ListN.{get_or, set};
ghost use Rattle.rup_base.specs.declared.arg.Arg.{Arg};
ghost use Rattle.model_syntax.specs.Environment as spec;
ghost use Rattle.model_value.specs.Bindings.{Assigns};

use indexmap::IndexMap;
use rup_base::{Arg, List, Name, NoMemory, Text};
use std::alloc::Global;
use std::marker::Model;
use std::mem;

/// The values of the names that have one, in a map from names that changes in place.
#[derive(Drop)]
pub struct Environment {
    values: IndexMap<Name, Arg>,
}

impl Model for Environment {
    ghost use Rattle.model_syntax.specs.Environment.{Env};
    ghost use Rattle.model_value.specs.Bindings.{bindings};

    ghost Value = { Env };

    ghost view = { λ e. bindings e.values.entries };
}

impl Environment {
    /// The environment in which no name has a value.
    pub fn new(alloc: Global) -> Environment
        ensures { result ≡ [] }
    {
        Environment {
            values: IndexMap::new(alloc),
        }
    }

    /// The value of a name.
    #[tactic(auto, using(crate::proofs::Entries::found))]
    pub fn get(&self, x: &Name) -> Option<&Arg>
        ensures { option_copied result ≡ spec.value_of self.now x.now }
    {
        self.values.get(x)
    }

    /// Gives a name a value.
    #[tactic(auto, using(crate::proofs::Entries::written, crate::proofs::Entries::inserted))]
    pub fn put(&mut self, alloc: Global, x: &Name, value: Arg) -> Result<(), NoMemory>
        ensures { OnOk result (self.new ≡ spec.put x.now value self.old) }
    {
        match self.values.get_mut(x) {
            Some(place) => *place = value,
            None => {
                self.values.insert(x.copy(alloc)?, value)?;
            }
        }
        Ok(())
    }

    /// Puts an element into an array, where it stands.
    #[tactic(auto, using(crate::proofs::Entries::changed, crate::proofs::Entries::unchanged))]
    pub fn put_element(&mut self, a: &Name, i: u32, n: u32)
        ensures { self.new ≡ spec.put_some a.now (spec.with_element i n (spec.value_of self.old a.now)) self.old }
    {
        if let Some(place) = self.values.get_mut(a) {
            put_into(place, i, n);
        }
    }

    /// Takes a name's value away.
    #[tactic(auto, using(crate::proofs::Entries::removed))]
    pub fn remove(&mut self, x: &Name)
        ensures { Assigns x.now None self.old self.new }
    {
        self.values.swap_remove(x);
    }
}

/// The number of a word, byte or flag.
pub fn number(value: Option<&Arg>) -> u32
    ensures { result ≡ spec.number (option_copied value.entry) }
{
    match value {
        Some(Arg::Word(n)) => *n,
        _ => 0,
    }
}

/// The number of elements of an array, or the greatest word where there are more.
pub fn size(value: Option<&Arg>) -> u32
    ensures { result ≡ spec.size (spec.elements (option_copied value.entry)) }
{
    match value {
        Some(Arg::Bytes(bytes)) => word(bytes.len()),
        Some(Arg::Words(words)) => word(words.len()),
        _ => 0,
    }
}

fn word(n: usize) -> u32
    ensures { result ≡ min n 4294967295 }
{
    if n < 0xffff_ffff { n as u32 } else { u32::MAX }
}

/// The number of elements of an array, whatever it is.
pub fn count(value: Option<&Arg>) -> usize
    ensures { result ≡ length (spec.elements (option_copied value.entry)) }
{
    match value {
        Some(Arg::Bytes(bytes)) => bytes.len(),
        Some(Arg::Words(words)) => words.len(),
        _ => 0,
    }
}

/// The element of an array, 0 outside it.
pub fn element(value: Option<&Arg>, i: usize) -> u32
    ensures { result ≡ get_or (spec.elements (option_copied value.entry)) i 0 }
{
    match value {
        Some(Arg::Bytes(bytes)) => byte_at(bytes.as_slice(), i),
        Some(Arg::Words(words)) => word_at(words.as_slice(), i),
        _ => 0,
    }
}

fn byte_at(bytes: &[u8], i: usize) -> u32
    ensures { result ≡ get_or bytes.now i 0 }
{
    match bytes.get(i) {
        Some(byte) => u32::from(*byte),
        None => 0,
    }
}

/// The word of a list at a place, 0 outside it.
pub fn word_at(words: &[u32], i: usize) -> u32
    ensures { result ≡ get_or words.now i 0 }
{
    match words.get(i) {
        Some(word) => *word,
        None => 0,
    }
}

/// An array with an element put.
pub fn with_element(value: Arg, i: u32, n: u32) -> Arg
    ensures { Some result ≡ spec.with_element i n (Some value) }
{
    match value {
        Arg::Word(word) => Arg::Word(word),
        Arg::Bytes(bytes) => Arg::Bytes(bytes_with(bytes, i, n)),
        Arg::Words(words) => Arg::Words(words_with(words, i, n)),
    }
}

fn put_into(array: &mut Arg, i: u32, n: u32)
    ensures { Some array.new ≡ spec.with_element i n (Some array.old) }
{
    let value = mem::replace(array, Arg::Word(0));
    *array = with_element(value, i, n);
}

fn bytes_with(bytes: Text, i: u32, n: u32) -> Text
    ensures { result ≡ set bytes i (n % 256) }
{
    let mut changed = bytes.into_vec();
    let i = i as usize;
    if i < changed.len() {
        changed[i] = (n & 0xff) as u8;
    }
    Text::from_vec(changed)
}

fn words_with(words: List<u32>, i: u32, n: u32) -> List<u32>
    ensures { result ≡ set words i n }
{
    let mut changed = words.into_vec();
    let i = i as usize;
    if i < changed.len() {
        changed[i] = n;
    }
    List::from_vec(changed)
}

/// An equal value.
pub fn copy_value(alloc: Global, value: &Arg) -> Result<Arg, NoMemory>
    ensures { IfOk result (λ copy. copy ≡ value.now) }
{
    match value {
        Arg::Word(n) => Ok(Arg::Word(*n)),
        Arg::Bytes(bytes) => Ok(Arg::Bytes(Text::from_slice(alloc, bytes.as_slice())?)),
        Arg::Words(words) => {
            let copy = Vec::from_slice(alloc, words.as_slice())?;
            Ok(Arg::Words(List::from_vec(copy)))
        }
    }
}
