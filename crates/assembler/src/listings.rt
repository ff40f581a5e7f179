//! The listing of a text's tree.
ghost use Rattle.std.specs.Prelude.{◌≡◌, ◌≤◌, true, map, IfOk, IfErr};
ghost use Rattle.std.specs.List.{list_all};
ghost use Rattle.model.specs.Texts.Assembling.{assembles, method_assembles};
ghost use Rattle.model.specs.Texts.Labels.{pc_following};
ghost use Rattle.model.specs.Texts.ListingOfTree.{placed_from, row_with, code_listing, method_listing, listing_of};
ghost use Rattle.model.specs.Texts.Widths.{widened_line};
ghost use Rattle.assembler.specs.Checks.{pc_in, code_is_right, method_is_right};
ghost use Rattle.assembler.specs.declared.error.AsmError.TheVariants as error;
ghost use Rattle.assembler.specs.declared.listings.CodeFault.TheVariants as fault;

use crate::checks::{all_reach, lines_agree};
use crate::error::AsmError;
use crate::instructions::listed;
use crate::labels::{label_pc, label_pcs};
use crate::ldc_numbers::narrow_numbers;
use crate::sizes::{has_right_size, pc_after};
use jasmin::Labels;
use model::listings::{Code, ExceptionRow, Listing, Method, Placed};
use model::names::Name;
use model::trees::{BodyTree, CatchRow, ClassTree, MethodTree, TextLine};
use std::alloc::{AllocError, Global};

/// What is wrong with a method's code.
#[derive(Clone, Copy, Debug)]
enum CodeFault {
    Switch,
    Size,
    Branch,
    Memory,
}

impl From<AllocError> for CodeFault {
    ghost use Rattle.std.specs.Prelude.{◌≡◌};
    ghost use Rattle.assembler.specs.declared.listings.CodeFault.TheVariants.{Memory};

    ghost from_gives = { λ _ e. e ≡ Memory };

    fn from(_e: AllocError) -> CodeFault {
        CodeFault::Memory
    }
}

/// The listing of a tree. A method's switches, size and branches are tested, in this order, and the first fault of the
/// first method that has one is reported: A4, A1 or A2, and A5 where memory runs out. The tree is taken, method by
/// method.
#[tactic(auto, unfolding(model::specs::Texts::ListingOfTree::listing_of, model::specs::Texts::Assembling::assembles, model::specs::Texts::Assembling::listing_assembles))]
pub fn listing(alloc: Global, tree: ClassTree) -> Result<Listing, AsmError>
    ensures found { IfOk result (λ listing. (listing ≡ listing_of tree)
        × (list_all method_is_right listing.methods ≡ true)) }
    ensures only { IfErr result (λ e. assembles tree ≡ true → e ≡ error.Memory) }
{
    let ClassTree {
        flags,
        name,
        superclass,
        interfaces,
        fields,
        methods,
    } = tree;
    let narrow = narrow_numbers(alloc, methods.as_slice())?;
    let methods = method_listings(alloc, narrow.as_slice(), methods)?;
    Ok(Listing {
        name,
        flags,
        superclass,
        interfaces,
        fields,
        methods,
    })
}

/// The methods of a listing, for each of which the tree's is let go. `narrow` are the numbers that go with `ldc`.
fn method_listings(
    alloc: Global,
    narrow: &[i32],
    methods: Vec<MethodTree>,
) -> Result<Vec<Method>, AsmError>
    ensures found { IfOk result (λ listings. (listings.items ≡ map (method_listing narrow.now) methods.items)
        × (list_all method_is_right (map (method_listing narrow.now) methods.items) ≡ true)) }
    ensures only { IfErr result (λ e. list_all method_assembles (map (method_listing narrow.now) methods.items) ≡ true
        → e ≡ error.Memory) }
{
    let mut listings = Vec::new(alloc);
    for method in methods {
        let listing = method_listing(alloc, narrow, method)?;
        listings.push(listing)?;
    }
    Ok(listings)
}

fn method_listing(alloc: Global, narrow: &[i32], method: MethodTree) -> Result<Method, AsmError>
    ensures found { IfOk result (λ listing. (listing ≡ method_listing narrow.now method)
        × (method_is_right (method_listing narrow.now method) ≡ true)) }
    ensures only { IfErr result (λ e. method_assembles (method_listing narrow.now method) ≡ true
        → e ≡ error.Memory) }
{
    let MethodTree {
        flags,
        name,
        descriptor,
        body,
    } = method;
    let code = match body {
        None => None,
        Some(body) => match code_listing(alloc, narrow, &body) {
            Ok(code) => Some(code),
            Err(fault) => return Err(reported(fault, name, descriptor)),
        },
    };
    Ok(Method {
        flags,
        name,
        descriptor,
        code,
    })
}

/// A fault with the method that has it.
fn reported(what: CodeFault, name: Name, descriptor: Name) -> AsmError
    ensures { what ≡ fault.Memory → result ≡ error.Memory }
{
    match what {
        CodeFault::Switch => AsmError::Switch { name, descriptor },
        CodeFault::Size => AsmError::Size { name, descriptor },
        CodeFault::Branch => AsmError::Branch { name, descriptor },
        CodeFault::Memory => AsmError::Memory,
    }
}

/// The code of a body.
fn code_listing(alloc: Global, narrow: &[i32], body: &BodyTree) -> Result<Code, CodeFault>
    ensures found { IfOk result (λ code. (code ≡ code_listing narrow.now body.now)
        × (code_is_right (code_listing narrow.now body.now) ≡ true)) }
    ensures only { IfErr result (λ e. code_is_right (code_listing narrow.now body.now) ≡ true → e ≡ fault.Memory) }
{
    let lines = body.lines.as_slice();
    if !lines_agree(lines) {
        return Err(CodeFault::Switch);
    }
    if !has_right_size(narrow, lines) {
        return Err(CodeFault::Size);
    }
    let code = settled(alloc, narrow, body)?;
    if !all_reach(code.instructions.as_slice()) {
        return Err(CodeFault::Branch);
    }
    Ok(code)
}

/// The code of a body of 65,535 bytes at most.
fn settled(alloc: Global, narrow: &[i32], body: &BodyTree) -> Result<Code, AllocError>
    requires { pc_following 0 (map (widened_line narrow.now) body.now.lines) ≤ 65535 }
    ensures { IfOk result (λ code. code ≡ code_listing narrow.now body.now) }
{
    let lines = body.lines.as_slice();
    let pcs = label_pcs(alloc, narrow, lines)?;
    Ok(Code {
        max_stack: body.max_stack,
        max_locals: body.max_locals,
        rows: listed_rows(alloc, &pcs, body.rows.as_slice())?,
        instructions: placed(alloc, narrow, &pcs, lines)?,
    })
}

/// The exception rows of a method.
fn listed_rows(
    alloc: Global,
    pcs: &Labels<'_, u16>,
    rows: &[CatchRow],
) -> Result<Vec<ExceptionRow>, AllocError>
    ensures { IfOk result (λ listed. listed.items ≡ map (row_with (pc_in pcs.now)) rows.now) }
{
    let mut listed = Vec::new(alloc);
    for row in rows {
        listed.push(listed_row(pcs, row)?)?;
    }
    Ok(listed)
}

fn listed_row(pcs: &Labels<'_, u16>, row: &CatchRow) -> Result<ExceptionRow, AllocError>
    ensures { IfOk result (λ listed. listed ≡ row_with (pc_in pcs.now) row.now) }
{
    Ok(ExceptionRow {
        start: label_pc(pcs, &row.start),
        end: label_pc(pcs, &row.end),
        handler: label_pc(pcs, &row.handler),
        class: shared_class(&row.class)?,
    })
}

fn shared_class(class: &Option<Name>) -> Result<Option<Name>, AllocError>
    ensures { IfOk result (λ shared. shared ≡ class.now) }
{
    match class {
        Some(name) => Ok(Some(name.share()?)),
        None => Ok(None),
    }
}

/// The instructions of the lines that hold a method's code, one after the other.
fn placed(
    alloc: Global,
    narrow: &[i32],
    pcs: &Labels<'_, u16>,
    lines: &[TextLine],
) -> Result<Vec<Placed>, AllocError>
    requires { pc_following 0 (map (widened_line narrow.now) lines.now) ≤ 65535 }
    ensures { IfOk result (λ placed. placed.items
        ≡ placed_from (pc_in pcs.now) 0 (map (widened_line narrow.now) lines.now)) }
{
    let mut placed = Vec::new(alloc);
    let mut pc = 0u16;
    for line in lines {
        match line {
            TextLine::Label(_) => {}
            TextLine::Instruction(instruction) => match pc_after(narrow, pc, instruction) {
                Some(next) => {
                    let listed = listed(alloc, narrow, pcs, instruction)?;
                    placed.push(Placed {
                        pc,
                        next,
                        instruction: listed,
                    })?;
                    pc = next;
                }
                None => unreachable!(),
            },
        }
    }
    Ok(placed)
}
