//! Laws of trees, their lists and their files.
ghost use Rattle.std.specs.Prelude.{◌≡◌, ℕ, List, true};
ghost use Rattle.deriv_tree.specs.declared.tree.Block.{Block};
ghost use Rattle.deriv_tree.specs.Shape.{block_shaped};
ghost use Rattle.deriv_tree.specs.Preorder.{block_list};
ghost use Rattle.deriv_tree.specs.declared.tree.Derivation.{Derivation};
ghost use Rattle.deriv_file.specs.File.{File};
ghost use Rattle.deriv_file.specs.FileText.{text_of};
ghost use Rattle.deriv_file.specs.Forest.{body_of};
ghost use Rattle.deriv_file.specs.Limits.{Within};

/// A law: a block whose nodes have their rules' numbers of kids and blocks is grown back from its preorder list. So no
/// list is that of two trees.
pub fn list_grows_back()
    ensures { (block : Block) → block_shaped block ≡ true → body_of (block_list block).count (block_list block).nodes ≡ block }
{}

/// A law: the text of a derivation within the limits is a file of it. So what `print_derivation` gives of it,
/// `read_derivation` reads as the same derivation.
pub fn text_is_file()
    ensures { (derivation : Derivation) → Within derivation → File (text_of derivation) derivation }
{}

/// A law: bytes are a file of one derivation at most.
pub fn file_is_one()
    ensures { (bytes : List ℕ) (one other : Derivation) → File bytes one → File bytes other → one ≡ other }
{}
