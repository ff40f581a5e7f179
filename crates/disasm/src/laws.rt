//! What holds of the texts that are written here.
ghost use Rattle.std.specs.Prelude.{◌≡◌, ◌↔◌, ℕ, List, Some, None, true};
ghost use Rattle.std.specs.List.{list_all};
ghost use Rattle.model.specs.Accepted.Refusals.{refusal_of};
ghost use Rattle.model.specs.ClassFiles.Classes.{ClassPart, IsClassFile};
ghost use Rattle.model.specs.ClassFiles.Listing.{listing_of as file_listing};
ghost use Rattle.model.specs.ClassListings.{ClassListing};
ghost use Rattle.model.specs.Texts.{tree_of};
ghost use Rattle.model.specs.Texts.Assembling.{listing_assembles};
ghost use Rattle.model.specs.Texts.Disassembling.{text_of};
ghost use Rattle.model.specs.Texts.ListingOfTree.{listing_of};
ghost use Rattle.model.specs.Texts.Spelled.{is_spelled};
ghost use Rattle.disasm.specs.Back.{tree_back, pcs_fit};
ghost use Rattle.disasm.specs.Sayable.{is_sayable, is_plain, are_named};

/// The text of each listing that some text has, whose pcs have two bytes, is read back: it has a tree, with that
/// listing.
pub fn texts_come_back()
    ensures { (l : ClassListing) → is_spelled l ≡ true → pcs_fit l ≡ true
        → (tree_of (text_of l) ≡ Some (tree_back l)) × (listing_of (tree_back l) ≡ l) }
{}

/// A class file's listing is that of a text exactly where a text can say it, and it assembles. No text can say a
/// superclass of an interface other than java/lang/Object, a field or a method of an array, a count of 0 after
/// invokeinterface, an exception row with a bound or a handler at no instruction, but for a bound at the code's end,
/// and one that takes an array or a class named `all`; all else that is in a class file (JVMS 4) it can.
pub fn class_files_are_spelled()
    ensures spelled { (bytes : List ℕ) (c : ClassPart) → IsClassFile bytes c
        → (is_spelled (file_listing c) ≡ true) ↔ (is_sayable (file_listing c) ≡ true) }
    ensures assembled { (bytes : List ℕ) (c : ClassPart) → IsClassFile bytes c
        → listing_assembles (file_listing c) ≡ true }
{}

/// In the classes of an accepted program only two of these stand in the way: an interface with another superclass than
/// java/lang/Object, and an exception row of a class named `all`. Where no class has one, a text can say each of them.
pub fn programs_are_sayable()
    ensures { (program : List ClassListing) → refusal_of program ≡ None → are_named program ≡ true
        → list_all is_plain program ≡ true → list_all is_sayable program ≡ true }
{}
