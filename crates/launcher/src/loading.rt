//! From listings, or from class files, to a program.
ghost use Rattle.std.specs.Prelude.{◌≡◌, map, IfOk, IfErr, None};
ghost use Rattle.acceptance.specs.Errors.{IsRefusedBy};
ghost use Rattle.model.specs.Accepted.Refusals.{refusal_of};
ghost use Rattle.model.specs.ClassFiles.Listing.{listing_of};

use acceptance::{LoadError, accept};
use classfile::ClassFile;
use loader::programs::Program;
use model::listings::Listing;
use std::alloc::{AllocError, Global};

/// The program of these listings, in order, whose first declares main (JVMS 5.3, 5.4.3). A refusal tells the first rule
/// that they break, L1 to L11, and the first class that breaks it; L12 may come in place of any, where memory runs out.
pub fn load_listings(alloc: Global, listings: Vec<Listing>) -> Result<Program, LoadError>
    ensures loaded { IfOk result (λ program. program ≡ listings.items) }
    ensures accepted { IfOk result (λ program. refusal_of program ≡ None) }
    ensures refused { IfErr result (IsRefusedBy listings.items) }
{
    match accept(alloc, listings.as_slice()) {
        Ok(()) => {}
        Err(error) => return Err(error),
    }
    match Program::new(alloc, listings) {
        Ok(program) => Ok(program),
        Err(error) => Err(LoadError::Memory(error)),
    }
}

/// The listings of class files, in order. `AllocError` where memory runs out.
fn listings_of(alloc: Global, files: &[ClassFile]) -> Result<Vec<Listing>, AllocError>
    ensures { IfOk result (λ listings. listings.items ≡ map listing_of files.now) }
{
    let mut listings = Vec::new(alloc);
    for file in files {
        listings.push(classfile::listing(alloc, file)?)?;
    }
    Ok(listings)
}

/// The program of these class files, in order, whose first declares main (JVMS 5.3, 5.4.3); refusals are those of
/// `load_listings`.
pub fn load(alloc: Global, files: Vec<ClassFile>) -> Result<Program, LoadError>
    ensures loaded { IfOk result (λ program. program ≡ map listing_of files.items) }
    ensures accepted { IfOk result (λ program. refusal_of program ≡ None) }
    ensures refused { IfErr result (IsRefusedBy (map listing_of files.items)) }
{
    let listings = match listings_of(alloc, files.as_slice()) {
        Ok(listings) => listings,
        Err(error) => return Err(LoadError::Memory(error)),
    };
    match load_listings(alloc, listings) {
        Ok(program) => Ok(program),
        Err(error) => Err(error),
    }
}
