//! What holds of each text that has a tree.
ghost use Rattle.std.specs.Prelude.{◌≡◌, ℕ, List, Some, true};
ghost use Rattle.model.specs.Texts.{tree_of};
ghost use Rattle.model.specs.Texts.ListingOfTree.{listing_of};
ghost use Rattle.model.specs.Texts.Spelled.{is_spelled};
ghost use Rattle.model.specs.Texts.Trees.{Tree};

/// The listing of each text that has a tree is spelled: operands, flags, names and counts have the ranges and forms
/// that a text has for them, branches and handlers are pcs of instructions, and 255 different numbers at most go with
/// `ldc`.
pub fn texts_are_spelled()
    ensures { (text : List ℕ) (t : Tree) → tree_of text ≡ Some t → is_spelled (listing_of t) ≡ true }
{}
