//! What the tests of this crate tell.
ghost use Rattle.std.specs.Prelude.{◌≡◌, ◌↔◌, true};
ghost use Rattle.model_syntax.specs.declared.expr.Expr.{Expr};
ghost use Rattle.lemma_files.specs.declared.terms.Pattern.{Pattern};
ghost use Rattle.lemma_files.specs.Matching as matching;
ghost use Rattle.lemma_files.specs.Same as same;
ghost use Rattle.lemma_files.specs.Substitution.{IsInstance};

/// A law: the test of expressions tells exactly the equal ones.
pub fn same_expressions_are_equal()
    ensures { (a b : Expr) → (same.same_expr a b ≡ true) ↔ (a ≡ b) }
{}

/// A law: a pattern matches exactly the expressions that it becomes where each of its holes stands for an expression.
pub fn matches_are_instances()
    ensures { (a : Pattern) (b : Expr) → (matching.matches a b ≡ true) ↔ IsInstance a b }
{}
