//! The names of the model language: of models, parameters, lengths and scalars.
ghost use Rattle.std.specs.Prelude.{◌≡◌, ◌&&◌, IfOk, IsTrue};
ghost use Rattle.std.specs.List.{list_all};
ghost use Rattle.rup_base.specs.Name.{begins_name, continues_name, is_word, is_name, name_of};

use crate::no_memory::NoMemory;
use crate::text::Text;
use std::alloc::Global;
use std::hash::{Hash, Hasher};
use std::marker::Model;

/// The greatest number of bytes in a name.
const LONGEST: usize = 64;

/// 1 to 64 bytes of ASCII: a letter or `_`, then letters, digits and `_`. Names are equal where their bytes are.
#[derive(Debug, Drop)]
pub struct Name {
    text: Text,
}

impl Model for Name {
    ghost use Rattle.std.specs.Prelude.{ℕ, List, IsTrue};
    ghost use Rattle.rup_base.specs.Name.{is_name};

    ghost Value = { List ℕ };

    ghost view = { λ n. n.text };

    ghost invariant = { λ n. IsTrue (is_name n.text) };
}

impl Name {
    /// The name that the bytes are, `None` exactly where they are none.
    pub fn read(alloc: Global, text: &[u8]) -> Result<Option<Name>, NoMemory>
        ensures { IfOk result (λ read. read ≡ name_of text.now) }
    {
        if !is_name(text) {
            return Ok(None);
        }
        let text = Text::from_slice(alloc, text)?;
        Ok(Some(Name { text }))
    }

    /// The bytes of the name.
    pub fn text(&self) -> &[u8]
        ensures bytes { result.now ≡ self.now }
        ensures name { IsTrue (is_name self.now) }
    {
        self.text.as_slice()
    }

    /// An equal name.
    pub fn copy(&self, alloc: Global) -> Result<Name, NoMemory>
        ensures { IfOk result (λ copy. copy ≡ self.now) }
    {
        let text = Text::from_slice(alloc, self.text.as_slice())?;
        Ok(Name { text })
    }
}

impl PartialEq for Name {
    ghost use Rattle.std.specs.Prelude.{nat_eq};
    ghost use Rattle.std.specs.Cmp.{partial_equiv_from_equiv};
    ghost use Rattle.std.specs.Cmp.Lexicographic.{pointwise, nat_list_eq_equiv};

    ghost eq = { pointwise nat_eq };

    ghost laws = { partial_equiv_from_equiv nat_list_eq_equiv };

    fn eq(&self, other: &Name) -> bool {
        self.text.as_slice() == other.text.as_slice()
    }
}

impl Eq for Name {
    ghost use Rattle.std.specs.Cmp.Lexicographic.{nat_list_eq_equiv};

    ghost laws = { nat_list_eq_equiv };
}

impl Hash for Name {
    ghost use Rattle.std.specs.Hash as fed;
    ghost use Rattle.std.specs.Cmp.Rules.{hashing};
    ghost use Rattle.std.proofs.Common.{rules};

    ghost hash_input = { fed.slice fed.u8 };

    ghost respects_eq = { Prim.search (hashing, rules) };

    fn hash<H: Hasher>(&self, state: &mut H) {
        self.text.as_slice().hash(state);
    }
}

fn begins_name(byte: u8) -> bool
    ensures { result ≡ begins_name byte }
{
    byte.is_ascii_alphabetic() || byte == b'_'
}

fn continues_name(byte: u8) -> bool
    ensures { result ≡ continues_name byte }
{
    byte.is_ascii_alphanumeric() || byte == b'_'
}

fn all_continue_name(bytes: &[u8]) -> bool
    ensures { result ≡ list_all continues_name bytes.now }
{
    bytes.iter().all(|byte| continues_name(*byte))
}

fn is_word(bytes: &[u8]) -> bool
    ensures { result ≡ is_word bytes.now }
{
    match bytes {
        [] => false,
        [first, rest @ ..] => begins_name(*first) && all_continue_name(rest),
    }
}

fn is_name(bytes: &[u8]) -> bool
    ensures { result ≡ is_name bytes.now }
{
    bytes.len() <= LONGEST && is_word(bytes)
}
