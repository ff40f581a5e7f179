//! The text of a class file, read again.
ghost use Rattle.std.specs.Prelude.{◌≡◌, true, MatchResult};
ghost use Rattle.disasm.specs.Rereading.{LacksMemory, IsForMemory};
ghost use Rattle.disasm.specs.Sayable.{is_sayable};
ghost use Rattle.model.specs.ClassFiles.Listing.{listing_of};
ghost use Rattle.model.specs.Texts.Assembling.{assembles};
ghost use Rattle.model.specs.Texts.ListingOfTree as texts;

use crate::files::disassemble;
use crate::laws::class_files_are_spelled;
use assembler::{AsmError, assemble};
use classfile::ClassFile;
use jasmin::TextError;
use model::trees::ClassTree;
use std::alloc::Global;
use thiserror::Error;

/// Why the text of a class file has no tree.
#[derive(Debug, Drop, Error)]
pub enum TreeError {
    /// The text is refused: `J5 at line 6`.
    #[error("{0}")]
    Text(TextError),
    /// Memory ran out.
    #[error("memory")]
    Memory,
}

/// The tree of a class file's text. Where a text can say what the file does (`class_files_are_spelled`), the tree has
/// the file's listing and assembles, and memory alone is an error.
pub fn tree(alloc: Global, file: &ClassFile) -> Result<ClassTree, TreeError>
    ensures { is_sayable (listing_of file.now) ≡ true
        → MatchResult result (λ tree. (texts.listing_of tree ≡ listing_of file.now)
        × (assembles tree ≡ true)) LacksMemory }
{
    file.has_bytes();
    class_files_are_spelled();
    let text = match disassemble(alloc, file) {
        Ok(text) => text,
        Err(_) => return Err(TreeError::Memory),
    };
    match jasmin::read(alloc, text.as_slice()) {
        Ok(tree) => Ok(tree),
        Err(error) => Err(TreeError::Text(error)),
    }
}

/// Why the text of a class file gives no class file.
#[derive(Debug, Drop, Error)]
pub enum AgainError {
    /// The text has no tree.
    #[error("{0}")]
    Tree(TreeError),
    /// The tree doesn't assemble: `A1 in method main()V`.
    #[error("{0}")]
    Assembly(AsmError),
}

/// The class file that the text of a class file assembles to. Where a text can say what the file does
/// (`class_files_are_spelled`), it has the same listing, and memory alone is an error.
pub fn again(alloc: Global, file: &ClassFile) -> Result<ClassFile, AgainError>
    ensures { is_sayable (listing_of file.now) ≡ true
        → MatchResult result (λ made. listing_of made ≡ listing_of file.now) IsForMemory }
{
    file.has_bytes();
    class_files_are_spelled();
    let tree = match tree(alloc, file) {
        Ok(tree) => tree,
        Err(error) => return Err(AgainError::Tree(error)),
    };
    match assemble(alloc, tree) {
        Ok(made) => Ok(made.file),
        Err(error) => Err(AgainError::Assembly(error)),
    }
}
