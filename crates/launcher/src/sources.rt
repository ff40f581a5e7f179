//! Sources: class files, and texts that are assembled.
ghost use Rattle.std.specs.Prelude.{◌≡◌, IfOk, IfErr};
ghost use Rattle.model.specs.ClassFiles.Listing.{listing_of};
ghost use Rattle.model.specs.ClassListings.{ClassListing};
ghost use Rattle.launcher.specs.Launching.{IsListing, IsClassListing, IsTextListing, LacksMemory, begins_as_class};

use assembler::{AsmError, Assembled, assemble};
use classfile::ClassError;
use jasmin::TextError;
use model::listings::Listing;
use model::watching::{Unwatched, Watch};
use std::alloc::Global;
use thiserror::Error;

/// Why a source has no listing.
#[derive(Debug, Drop, Error)]
pub enum SourceError {
    /// It is no text of the syntax: `J5 at line 6`.
    #[error("{0}")]
    Text(TextError),
    /// It doesn't assemble: `A1 in method main()V`.
    #[error("{0}")]
    Assembly(AsmError),
    /// It is no class file: `C3`, `O4 in method main()V`.
    #[error("{0}")]
    Class(ClassError),
    /// Memory ran out.
    #[error("memory")]
    Memory,
}

/// Whether a source is to be a class file, which begins with these bytes (JVMS 4.1).
fn begins_as_class(source: &[u8]) -> bool
    ensures { result ≡ begins_as_class source.now }
{
    source.starts_with(&[0xca, 0xfe, 0xba, 0xbe])
}

/// What a text assembles to. A refusal of the text or of the assembler, or for memory. While the text is read, a watch is
/// told how many lines are read and how many are left.
pub fn assembled<P: Watch>(
    alloc: Global,
    text: &[u8],
    watch: &mut P,
) -> Result<Assembled, SourceError>
    // The class file has the text's listing.
    ensures found { IfOk result (λ made. IsTextListing text.now (listing_of made.file)) }
    // The listing is the text's.
    ensures listed { IfOk result (λ made. IsTextListing text.now made.listing) }
    ensures refused { IfErr result (λ e. (LacksMemory e → ⊥) → (listing : ClassListing)
        → IsTextListing text.now listing → ⊥) }
{
    let tree = match jasmin::read_watched(alloc, text, watch) {
        Ok(tree) => tree,
        Err(error) => return Err(SourceError::Text(error)),
    };
    jasmin::texts_are_spelled();
    match assemble(alloc, tree) {
        Ok(made) => Ok(made),
        Err(error) => Err(SourceError::Assembly(error)),
    }
}

/// The listing of a text that assembles.
fn text_listing(alloc: Global, text: &[u8]) -> Result<Listing, SourceError>
    ensures found { IfOk result (λ listing. IsTextListing text.now listing) }
    ensures refused { IfErr result (λ e. (LacksMemory e → ⊥) → (listing : ClassListing)
        → IsTextListing text.now listing → ⊥) }
{
    let mut watch = Unwatched;
    match assembled(alloc, text, &mut watch) {
        Ok(made) => Ok(made.listing),
        Err(error) => Err(error),
    }
}

/// The listing of a class file.
fn class_listing(alloc: Global, bytes: &[u8]) -> Result<Listing, SourceError>
    ensures found { IfOk result (λ listing. IsClassListing bytes.now listing) }
    ensures refused { IfErr result (λ e. (LacksMemory e → ⊥) → (listing : ClassListing)
        → IsClassListing bytes.now listing → ⊥) }
{
    let file = match classfile::read(alloc, bytes) {
        Ok(file) => file,
        Err(error) => return Err(SourceError::Class(error)),
    };
    match classfile::listing(alloc, &file) {
        Ok(listing) => Ok(listing),
        Err(_) => Err(SourceError::Memory),
    }
}

/// The listing of a source: read from its class file, or made from its text.
pub fn source_listing(alloc: Global, source: &[u8]) -> Result<Listing, SourceError>
    ensures found { IfOk result (λ listing. IsListing source.now listing) }
    ensures refused { IfErr result (λ e. (LacksMemory e → ⊥) → (listing : ClassListing) → IsListing source.now listing
        → ⊥) }
{
    if begins_as_class(source) {
        class_listing(alloc, source)
    } else {
        text_listing(alloc, source)
    }
}
