//! What a byte outside a comment does.
ghost use Rattle.std.specs.Prelude.{◌≡◌, ◌+◌, ◌≤◌, length, drop};
ghost use Rattle.sx_text.specs.Bytes.{class, in_atom, word_length, line_length};

/// What a byte does that stands outside a comment and continues no atom.
#[derive(Clone, Copy, Debug, PartialEq, Eq)]
pub enum Class {
    /// It separates forms.
    Space,
    /// It begins a comment.
    Note,
    /// It opens a list.
    Open,
    /// It closes a list.
    Close,
    /// It begins an atom.
    Word,
    /// No text has it.
    Bad,
}

pub fn class_of(byte: u8) -> Class
    ensures { result ≡ class byte }
{
    match byte {
        b' ' | b'\t' | b'\n' | b'\r' => Class::Space,
        b';' => Class::Note,
        b'(' => Class::Open,
        b')' => Class::Close,
        0x21..=0x7e => Class::Word,
        _ => Class::Bad,
    }
}

fn in_atom(byte: u8) -> bool
    ensures { result ≡ in_atom byte }
{
    matches!(class_of(byte), Class::Word)
}

/// The number of bytes from `from` on that continue an atom.
pub fn word_length(bytes: &[u8], from: usize) -> usize
    requires { from ≤ length bytes.now }
    ensures within { from + result ≤ length bytes.now }
    ensures count { result ≡ word_length (drop from bytes.now) }
{
    let mut at = from;
    while at < bytes.len() && in_atom(bytes[at]) {
        at += 1;
    }
    at - from
}

/// The number of bytes from `from` on that stand before the next line feed.
pub fn line_length(bytes: &[u8], from: usize) -> usize
    requires { from ≤ length bytes.now }
    ensures within { from + result ≤ length bytes.now }
    ensures count { result ≡ line_length (drop from bytes.now) }
{
    let mut at = from;
    while at < bytes.len() && bytes[at] != b'\n' {
        at += 1;
    }
    at - from
}
