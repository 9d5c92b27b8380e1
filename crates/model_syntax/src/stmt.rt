//! Requirements and statements of models.
use crate::expr::Expr;
use rup_base::{Box, List, Name};

/// A sum of names and numbers with factors, a side of a requirement.
#[derive(Debug, Drop)]
pub enum Lin {
    Const(u32),
    Var(Name),
    Sum(Box<Lin>, Box<Lin>),
    Scale(u32, Box<Lin>),
}

/// The requirement that `low` is at most `high`.
#[derive(Debug, Drop)]
pub struct Le {
    pub low: Lin,
    pub high: Lin,
}

/// A statement. The names are given in the order of the text.
#[derive(Debug, Drop)]
pub enum Stmt {
    /// `(let x e)`
    Let(Name, Expr),
    /// `(put a i e)`: array, index, element.
    Put(Name, Expr, Expr),
    /// `(move b a i e)`: `b` is `a` with an element put.
    Move(Name, Name, Expr, Expr),
    /// `(if e (NAME*) (keep C*) (do S*) (do S*))`: test, carried names, facts, and the block of each answer.
    If(Expr, List<Name>, List<Le>, List<Stmt>, List<Stmt>),
    /// `(for x lo hi (NAME*) (keep C*) (do S*))`: counter, its range, carried names, facts, block.
    For(Name, Expr, Expr, List<Name>, List<Le>, List<Stmt>),
    /// `(map a (x) e)`: array, the name of an element, the new element.
    Map(Name, Name, Expr),
    /// `(fold s a (x) e)`: scalar, array, the name of an element, the new scalar.
    Fold(Name, Name, Name, Expr),
}
