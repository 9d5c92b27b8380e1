//! What every book of equations keeps.
ghost use Rattle.std.specs.Prelude.{◌≡◌, IfOk};
ghost use Rattle.equations.specs.Book.{Turn, Laws};

use model_syntax::Expr;
use rup_base::NoMemory;
use std::alloc::Global;

/// Equations by their steps. A step rewrites the root of an expression from its left side to its right side. Both sides
/// have one type and one value wherever the left one is formed and well typed, and the right side has no more table bytes.
pub trait Book {
    // what a step makes of an expression, or none where it does not apply
    ghost turn: { Self → Turn };

    /// What the step makes of the expression, where it applies.
    fn apply(&self, alloc: Global, step: u32, e: &Expr) -> Result<Option<Expr>, NoMemory>
        ensures { IfOk result (λ answer. answer ≡ turn self.now step e.now) };

    // a step keeps the meaning of every formed expression, and makes nothing worse
    ghost laws: { (book : Self) → Laws (turn book) };
}
