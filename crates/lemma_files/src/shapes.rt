//! The statements that a note is for.
ghost use Rattle.std.specs.Prelude.{◌≡◌};
ghost use Rattle.lemma_files.specs.Fits as spec;

use crate::terms::{Lemma, Shape};
use model_syntax::Stmt;

fn shape_fits(shape: &Shape, s: &Stmt) -> bool
    ensures { result ≡ spec.shape_fits shape.now s.now }
{
    match (shape, s) {
        (Shape::Let(x), Stmt::Let(y, _)) => x == y,
        (Shape::Put(x), Stmt::Put(y, _, _)) => x == y,
        (Shape::Move(x), Stmt::Move(_, y, _, _)) => x == y,
        (Shape::Map(x), Stmt::Map(y, _, _)) => x == y,
        (Shape::Fold(x), Stmt::Fold(y, _, _, _)) => x == y,
        (Shape::For(x), Stmt::For(y, _, _, _, _, _)) => x == y,
        (Shape::If, Stmt::If(_, _, _, _, _)) => true,
        _ => false,
    }
}

/// Whether the lemma is a note whose shape fits the statement.
pub fn fits(l: &Lemma, s: &Stmt) -> bool
    ensures { result ≡ spec.fits l.now s.now }
{
    match l {
        Lemma::Rewrite(_, _, _) => false,
        Lemma::Note(_, shape, _) => shape_fits(shape, s),
    }
}
