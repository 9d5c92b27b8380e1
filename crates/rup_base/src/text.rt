//! A growable text of bytes that contracts see as the list of its bytes.
ghost use Rattle.std.specs.Prelude.{◌≡◌, [], ◌∷◌, ◌++◌, ◌↔◌, length, IsTrue, IfOk, OnOk, OnErr};
ghost use Rattle.std.specs.Fmt.{decimal};

use crate::no_memory::NoMemory;
use itoa::Buffer;
use std::alloc::Global;
use std::fmt;
use std::marker::Model;

/// Bytes. Nothing is said of their encoding: what the compiler prints is ASCII, and a file may hold any byte.
#[derive(Debug, Drop)]
pub struct Text {
    bytes: Vec<u8>,
}

impl Model for Text {
    ghost use Rattle.std.specs.Prelude.{ℕ, List};

    ghost Value = { List ℕ };

    ghost view = { λ t. t.bytes.items };
}

impl Text {
    /// The empty text. It takes no memory until it grows.
    pub fn new(alloc: Global) -> Text
        ensures { result ≡ [] }
    {
        Text {
            bytes: Vec::new(alloc),
        }
    }

    pub fn from_vec(bytes: Vec<u8>) -> Text
        ensures { result ≡ bytes.items }
    {
        Text { bytes }
    }

    /// A text of its own with these bytes.
    pub fn from_slice(alloc: Global, bytes: &[u8]) -> Result<Text, NoMemory>
        ensures { IfOk result (λ text. text ≡ bytes.now) }
    {
        let bytes = Vec::from_slice(alloc, bytes)?;
        Ok(Text { bytes })
    }

    pub fn as_slice(&self) -> &[u8]
        ensures { result.now ≡ self.now }
    {
        self.bytes.as_slice()
    }

    pub fn into_vec(self) -> Vec<u8>
        ensures { result.items ≡ self }
    {
        let Text { bytes } = self;
        bytes
    }

    pub fn len(&self) -> usize
        ensures { result ≡ length self.now }
    {
        self.bytes.len()
    }

    pub fn is_empty(&self) -> bool
        ensures { IsTrue result ↔ (self.now ≡ []) }
    {
        self.bytes.is_empty()
    }

    /// Puts `byte` behind the last one.
    pub fn push(&mut self, byte: u8) -> Result<(), NoMemory>
        ensures appended { OnOk result (self.new ≡ self.old ++ byte ∷ []) }
        ensures no_memory { OnErr result (self.new ≡ self.old) }
    {
        self.bytes.push(byte)?;
        Ok(())
    }

    /// Puts all of `bytes` behind the last byte, or none of them.
    pub fn extend_from_slice(&mut self, bytes: &[u8]) -> Result<(), NoMemory>
        ensures appended { OnOk result (self.new ≡ self.old ++ bytes.now) }
        ensures no_memory { OnErr result (self.new ≡ self.old) }
    {
        self.bytes.extend_from_slice(bytes)?;
        Ok(())
    }

    /// Puts the number behind the last byte, in decimal without leading zeros.
    pub fn push_number(&mut self, number: u128) -> Result<(), NoMemory>
        ensures appended { OnOk result (self.new ≡ self.old ++ decimal number) }
        ensures no_memory { OnErr result (self.new ≡ self.old) }
    {
        let mut digits = Buffer::new();
        self.extend_from_slice(digits.format(number).as_bytes())
    }
}

/// Each byte as the character of its number.
impl fmt::Display for Text {
    fn fmt<W: fmt::Write>(&self, f: &mut fmt::Formatter<W>) -> fmt::Result {
        for byte in self.as_slice() {
            write!(f, "{}", char::from(*byte))?;
        }
        Ok(())
    }
}
