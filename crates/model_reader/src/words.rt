//! The words that begin the lists of the grammar.
ghost use Rattle.std.specs.Prelude.{◌≡◌};
ghost use Rattle.model_syntax.specs.Names.{same};
ghost use Rattle.model_reader.specs.Words as spec;

use model_syntax::{Cmp, Op, Scalar};

/// What begins an expression that is a list.
#[derive(Clone, Copy)]
pub enum ExprWord {
    Bin(Op),
    Test(Cmp),
    Length,
    Not,
    Both,
    Either,
    ToWord,
    ToByte,
    Get,
    Tab,
}

/// What begins a statement.
#[derive(Clone, Copy)]
pub enum StmtWord {
    Let,
    Put,
    Move,
    If,
    For,
    Map,
    Fold,
}

/// The bytes are this word.
pub fn is(text: &[u8], word: &[u8]) -> bool
    ensures { result ≡ same text.now word.now }
{
    text == word
}

fn op_of(text: &[u8]) -> Option<Op>
    ensures { result ≡ spec.op_of text.now }
{
    if is(text, b"add") {
        Some(Op::Add)
    } else if is(text, b"sub") {
        Some(Op::Sub)
    } else if is(text, b"mul") {
        Some(Op::Mul)
    } else if is(text, b"mulhuu") {
        Some(Op::Mulhuu)
    } else if is(text, b"divu") {
        Some(Op::Divu)
    } else if is(text, b"remu") {
        Some(Op::Remu)
    } else if is(text, b"and") {
        Some(Op::And)
    } else if is(text, b"or") {
        Some(Op::Or)
    } else if is(text, b"xor") {
        Some(Op::Xor)
    } else if is(text, b"shl") {
        Some(Op::Shl)
    } else if is(text, b"shr") {
        Some(Op::Shr)
    } else if is(text, b"sar") {
        Some(Op::Sar)
    } else {
        None
    }
}

fn cmp_of(text: &[u8]) -> Option<Cmp>
    ensures { result ≡ spec.cmp_of text.now }
{
    if is(text, b"eq") {
        Some(Cmp::Eq)
    } else if is(text, b"lt") {
        Some(Cmp::Lt)
    } else if is(text, b"slt") {
        Some(Cmp::Slt)
    } else {
        None
    }
}

fn form_of(text: &[u8]) -> Option<ExprWord>
    ensures { result ≡ spec.form_of text.now }
{
    if is(text, b"len") {
        Some(ExprWord::Length)
    } else if is(text, b"not") {
        Some(ExprWord::Not)
    } else if is(text, b"both") {
        Some(ExprWord::Both)
    } else if is(text, b"either") {
        Some(ExprWord::Either)
    } else if is(text, b"word") {
        Some(ExprWord::ToWord)
    } else if is(text, b"byte") {
        Some(ExprWord::ToByte)
    } else if is(text, b"get") {
        Some(ExprWord::Get)
    } else if is(text, b"tab") {
        Some(ExprWord::Tab)
    } else {
        None
    }
}

/// What an expression is that a word begins.
pub fn expr_word(text: &[u8]) -> Option<ExprWord>
    ensures { result ≡ spec.expr_word text.now }
{
    match (op_of(text), cmp_of(text)) {
        (Some(op), _) => Some(ExprWord::Bin(op)),
        (None, Some(cmp)) => Some(ExprWord::Test(cmp)),
        (None, None) => form_of(text),
    }
}

/// What a statement is that a word begins.
pub fn stmt_word(text: &[u8]) -> Option<StmtWord>
    ensures { result ≡ spec.stmt_word text.now }
{
    if is(text, b"let") {
        Some(StmtWord::Let)
    } else if is(text, b"put") {
        Some(StmtWord::Put)
    } else if is(text, b"move") {
        Some(StmtWord::Move)
    } else if is(text, b"if") {
        Some(StmtWord::If)
    } else if is(text, b"for") {
        Some(StmtWord::For)
    } else if is(text, b"map") {
        Some(StmtWord::Map)
    } else if is(text, b"fold") {
        Some(StmtWord::Fold)
    } else {
        None
    }
}

/// The type that `word` or `byte` names.
pub fn scalar_of(text: &[u8]) -> Option<Scalar>
    ensures { result ≡ spec.scalar_of text.now }
{
    if is(text, b"word") {
        Some(Scalar::Word)
    } else if is(text, b"byte") {
        Some(Scalar::Byte)
    } else {
        None
    }
}

/// The type of the elements of an array that `words` or `bytes` names.
pub fn array_of(text: &[u8]) -> Option<Scalar>
    ensures { result ≡ spec.array_of text.now }
{
    if is(text, b"words") {
        Some(Scalar::Word)
    } else if is(text, b"bytes") {
        Some(Scalar::Byte)
    } else {
        None
    }
}
