//! The terms of lemma files.
use model_syntax::{Cmp, Le, Op, Scalar};
use rup_base::{Box, List, Name};

/// An expression in which holes stand for any expressions, the same hole for equal ones.
#[derive(Debug, Drop)]
pub enum Pattern {
    /// `?` and a name.
    Hole(Name),
    Lit(u32),
    Var(Name),
    Length(Name),
    Bin(Op, Box<Pattern>, Box<Pattern>),
    Test(Cmp, Box<Pattern>, Box<Pattern>),
    Not(Box<Pattern>),
    Both(Box<Pattern>, Box<Pattern>),
    Either(Box<Pattern>, Box<Pattern>),
    ToWord(Box<Pattern>),
    ToByte(Box<Pattern>),
    Get(Name, Box<Pattern>),
    Tab(Scalar, List<u32>, Box<Pattern>),
}

/// The statements of a kind whose name is this one: their first name, in a move the second.
#[derive(Debug, Drop)]
pub enum Shape {
    Let(Name),
    Put(Name),
    Move(Name),
    Map(Name),
    Fold(Name),
    For(Name),
    If,
}

/// A lemma and its name.
#[derive(Debug, Drop)]
pub enum Lemma {
    /// Expressions that the pattern matches are rewritten by these steps in turn.
    Rewrite(Name, Pattern, List<u32>),
    /// Before statements that the shape fits these facts are noted.
    Note(Name, Shape, List<Le>),
}
