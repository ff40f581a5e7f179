//! Class files by hand, and their texts by the grammar.

use crate::class_bytes::{E, TEXT_OF_E, hex};
use classfile::{ClassFile, read};
use disasm::{again, disassemble, text, texts_come_back, tree};
use jasmin::texts_are_spelled;
use model::listings::Listing;
use model::trees::ClassTree;
use std::alloc::Global;
use std::test::Fail;

/// A class file, given in hexadecimal digits.
fn file_of(alloc: Global, digits: &str) -> Result<ClassFile, Fail> {
    Ok(read(alloc, hex(alloc, digits)?.as_slice())?)
}

/// Whether a class file has this text.
fn has_text(alloc: Global, file: &ClassFile, wanted: &str) -> Result<bool, Fail> {
    Ok(disassemble(alloc, file)?.as_slice() == wanted.as_bytes())
}

/// Whether the class file that is made of a class file's text has this text too.
fn comes_back(alloc: Global, file: &ClassFile, wanted: &str) -> Result<bool, Fail> {
    let made = again(alloc, file)?;
    has_text(alloc, &made, wanted)
}

/// Whether the class file of these digits has this text, which comes back.
fn have_text(alloc: Global, digits: &str, wanted: &str) -> Result<bool, Fail> {
    let file = file_of(alloc, digits)?;
    Ok(has_text(alloc, &file, wanted)? && comes_back(alloc, &file, wanted)?)
}

/// Whether a tree has E's name, and so many parts.
fn is_of_e(tree: &ClassTree) -> bool {
    tree.name.is("E") && (tree.fields.len(), tree.methods.len()) == (0, 1)
}

/// Whether the class file of these digits has such a tree.
fn has_tree(alloc: Global, digits: &str) -> Result<bool, Fail> {
    let file = file_of(alloc, digits)?;
    Ok(is_of_e(&tree(alloc, &file)?))
}

/// Where the instructions of a listing's first method stand, each with that after it.
fn has_pcs(listing: &Listing, pcs: &[(u16, u16)]) -> bool {
    let Some(code) = listing
        .methods
        .first()
        .and_then(|method| method.code.as_ref())
    else {
        return false;
    };
    let mut places = code.instructions.iter().zip(pcs);
    code.instructions.len() == pcs.len()
        && places.all(|(placed, pcs)| (placed.pc, placed.next) == *pcs)
}

const FIVE: &str =
    ".class A\n.super B\n.method static main()V\n.limit stack 2\n.limit locals 0\nldc 2147483647\niconst_1\niadd\ninvokestatic vm/Sys/print(I)V\nreturn\n.end method\n";

const PCS: &[(u16, u16)] = &[(0, 2), (2, 3), (3, 4), (4, 7), (7, 8)];

/// The listing of a text.
fn listed(alloc: Global, text: &str) -> Result<Listing, Fail> {
    let tree = jasmin::read(alloc, text.as_bytes())?;
    Ok(assembler::listing(alloc, tree)?)
}

/// Whether the listing of the text of five instructions has these pcs, and that text.
fn is_of_five(alloc: Global) -> Result<bool, Fail> {
    let listing = listed(alloc, FIVE)?;
    Ok(has_pcs(&listing, PCS) && text(alloc, &listing)?.as_slice() == FIVE.as_bytes())
}

#[test]
fn class_files_have_texts(rt: HostRuntime) -> Result<(), Fail> {
    assert!(rt; have_text(rt.alloc(), E, TEXT_OF_E)?, "{TEXT_OF_E}");
    assert!(rt; has_tree(rt.alloc(), E)?, "tree");
    assert!(rt; is_of_five(rt.alloc())?, "listing");
    texts_are_spelled();
    texts_come_back();
    Ok(())
}
