//! What is printed is read back.
ghost use Rattle.std.specs.Prelude.{◌≡◌, ◌≤◌, ℕ, true};
ghost use Rattle.sx_text.specs.declared.tree.Sx.{Sx};
ghost use Rattle.sx_text.specs.Forms.{deepest};
ghost use Rattle.sx_text.specs.Spelling.{is_spelled, levels, IsReadBack};

/// A law: each form whose atoms are atoms, with at most 256 lists open at one place, is read back from
/// its canonical spelling.
pub fn printed_form_is_read()
    ensures { (word : ℕ) (s : Sx) → is_spelled s ≡ true → levels s ≤ deepest → IsReadBack word s }
{}
