//! The text of a class file.
ghost use Rattle.std.specs.Prelude.{◌≡◌, IfOk};
ghost use Rattle.model.specs.ClassFiles.Listing.{listing_of};
ghost use Rattle.model.specs.Texts.Disassembling.{text_of};

use crate::classes::text;
use classfile::ClassFile;
use std::alloc::{AllocError, Global};

/// The Jasmin text of a class file: that of its listing, as `text` writes it. `AllocError` where memory runs out.
pub fn disassemble(alloc: Global, file: &ClassFile) -> Result<Vec<u8>, AllocError>
    ensures { IfOk result (λ text. text.items ≡ text_of (listing_of file.now)) }
{
    text(alloc, &classfile::listing(alloc, file)?)
}
