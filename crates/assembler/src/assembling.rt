//! The class file of a text's tree.
ghost use Rattle.std.specs.Prelude.{◌≡◌, ◌<◌, ◌^◌, true, IfOk, MatchResult, ⊤};
ghost use Rattle.model.specs.ClassFiles.Listing.{listing_of as file_listing};
ghost use Rattle.model.specs.Texts.Assembling.{assembles};
ghost use Rattle.model.specs.Texts.Flags.{has};
ghost use Rattle.model.specs.Texts.ListingOfTree.{listing_of};
ghost use Rattle.model.specs.Texts.Spelled.{is_spelled};
ghost use Rattle.assembler.specs.Assembled.{assembled_tree};
ghost use Rattle.assembler.specs.declared.error.AsmError.TheVariants as error;

use crate::counts::has_short_lists;
use crate::error::AsmError;
use crate::ldc_numbers::used_in_methods;
use crate::listings::listing;
use crate::numbered_class::class_file;
use crate::pool_numbers::Numbers;
use bitflags::Flags;
use classfile::ClassFile;
use classfile::flags::SUPER;
use model::listings::Listing;
use model::trees::ClassTree;
use std::alloc::Global;

/// What a tree assembles to.
#[derive(Drop)]
pub struct Assembled {
    /// the class file
    pub file: ClassFile,
    /// the listing that the tree and the class file have
    pub listing: Listing,
}

/// The class file of a tree (JVMS 4), and the listing of both.
///
/// A1 where a method's code is empty or has more than 65,535 bytes, A2 where a branch offset is larger than two bytes
/// have room for, A4 where the keys of a switch don't rise or a table ends past the greatest int: of the first method
/// in order that has a fault, A4 before A1 before A2. Then A3 where the pool or a list has more than 65,535. A5 where
/// memory runs out. A tree that no text spells, as one with SUPER, may be refused with A3. The tree is taken: each of
/// its methods is let go as soon as it has its listing.
pub fn assemble(alloc: Global, tree: ClassTree) -> Result<Assembled, AsmError>
    // The class file has the tree's listing, and the tree is one that can be assembled.
    ensures found { IfOk result (λ made. (file_listing made.file ≡ listing_of tree) × (assembles tree ≡ true)) }
    // Its pool is that of the listing, after the numbers of `ldc`.
    ensures made { IfOk result (λ made. made.file ≡ assembled_tree tree) }
    // The listing is the tree's.
    ensures listed { IfOk result (λ made. made.listing ≡ listing_of tree) }
    // A tree that some text spells and that can be assembled has one, unless memory runs out.
    ensures only { is_spelled (listing_of tree) ≡ true → assembles tree ≡ true
        → MatchResult result (λ _. ⊤) (λ e. e ≡ error.Memory) }
{
    let used = used_in_methods(alloc, tree.methods.as_slice())?;
    let listing = listing(alloc, tree)?;
    if has_super(&listing) || !has_short_lists(&listing) {
        return Err(AsmError::Full);
    }
    let mut numbers = Numbers::new(alloc);
    numbers.ints(used.as_slice())?;
    let file = class_file(alloc, numbers, &listing)?;
    Ok(Assembled { file, listing })
}

fn has_super(listing: &Listing) -> bool
    ensures is { result ≡ has listing.now.flags.0 0x0020 }
    ensures fits { listing.now.flags.0 < 2 ^ 16 }
{
    listing.flags.bits() & SUPER != 0
}
