//! The words that begin the lists of patterns.
ghost use Rattle.std.specs.Prelude.{◌≡◌};
ghost use Rattle.model_syntax.specs.Names.{same};
ghost use Rattle.model_reader.specs.Words as model;
ghost use Rattle.lemma_files.specs.Words as spec;

use model_syntax::{Cmp, Op, Scalar};

/// What begins a pattern that is a list.
#[derive(Clone, Copy)]
pub(crate) enum Word {
    Bin(Op),
    Test(Cmp),
    Length,
    Not,
    Both,
    Either,
    ToWord,
    ToByte,
    Get,
    Tab,
}

/// The bytes are this word.
pub(crate) fn is(text: &[u8], word: &[u8]) -> bool
    ensures { result ≡ same text.now word.now }
{
    text == word
}

fn op_of(text: &[u8]) -> Option<Op>
    ensures { result ≡ model.op_of text.now }
{
    if is(text, b"add") {
        Some(Op::Add)
    } else if is(text, b"sub") {
        Some(Op::Sub)
    } else if is(text, b"mul") {
        Some(Op::Mul)
    } else if is(text, b"mulhuu") {
        Some(Op::Mulhuu)
    } else if is(text, b"divu") {
        Some(Op::Divu)
    } else if is(text, b"remu") {
        Some(Op::Remu)
    } else if is(text, b"and") {
        Some(Op::And)
    } else if is(text, b"or") {
        Some(Op::Or)
    } else if is(text, b"xor") {
        Some(Op::Xor)
    } else if is(text, b"shl") {
        Some(Op::Shl)
    } else if is(text, b"shr") {
        Some(Op::Shr)
    } else if is(text, b"sar") {
        Some(Op::Sar)
    } else {
        None
    }
}

fn cmp_of(text: &[u8]) -> Option<Cmp>
    ensures { result ≡ model.cmp_of text.now }
{
    if is(text, b"eq") {
        Some(Cmp::Eq)
    } else if is(text, b"lt") {
        Some(Cmp::Lt)
    } else if is(text, b"slt") {
        Some(Cmp::Slt)
    } else {
        None
    }
}

fn form_of(text: &[u8]) -> Option<Word>
    ensures { result ≡ spec.form_of text.now }
{
    if is(text, b"len") {
        Some(Word::Length)
    } else if is(text, b"not") {
        Some(Word::Not)
    } else if is(text, b"both") {
        Some(Word::Both)
    } else if is(text, b"either") {
        Some(Word::Either)
    } else if is(text, b"word") {
        Some(Word::ToWord)
    } else if is(text, b"byte") {
        Some(Word::ToByte)
    } else if is(text, b"get") {
        Some(Word::Get)
    } else if is(text, b"tab") {
        Some(Word::Tab)
    } else {
        None
    }
}

/// What a pattern is that a word begins.
pub(crate) fn word_of(text: &[u8]) -> Option<Word>
    ensures { result ≡ spec.word_of text.now }
{
    match (op_of(text), cmp_of(text)) {
        (Some(op), _) => Some(Word::Bin(op)),
        (None, Some(cmp)) => Some(Word::Test(cmp)),
        (None, None) => form_of(text),
    }
}

/// The type that `word` or `byte` names.
pub(crate) fn scalar_of(text: &[u8]) -> Option<Scalar>
    ensures { result ≡ model.scalar_of text.now }
{
    if is(text, b"word") {
        Some(Scalar::Word)
    } else if is(text, b"byte") {
        Some(Scalar::Byte)
    } else {
        None
    }
}
