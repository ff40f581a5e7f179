//! The pcs of a body's labels.
ghost use Rattle.std.specs.Prelude.{◌≡◌, ◌≤◌, ℕ, List, map, IfOk, OnOk, if◌then◌else◌};
ghost use Rattle.std.specs.Option.{unwrap_or};
ghost use Rattle.std.specs.Str.{bytes_eq};
ghost use Rattle.model.specs.Texts.Labels.{pc_following, pc_of};
ghost use Rattle.model.specs.Texts.Tables.{named};
ghost use Rattle.model.specs.Texts.Widths.{widened_line};
ghost use Rattle.assembler.specs.Checks.{pc_in};

use crate::sizes::pc_after;
use jasmin::Labels;
use model::names::Name;
use model::trees::TextLine;
use std::alloc::{AllocError, Global};

/// The pcs of the labels of lines that hold a method's code. `narrow` are the numbers that go with `ldc`.
pub fn label_pcs<'a>(
    alloc: Global,
    narrow: &[i32],
    lines: &'a [TextLine],
) -> Result<Labels<'a, u16>, AllocError>
    requires { pc_following 0 (map (widened_line narrow.now) lines.now) ≤ 65535 }
    ensures { IfOk result (λ pcs. (name : List ℕ)
        → pc_in pcs name ≡ pc_of 0 (map (widened_line narrow.now) lines.now) name) }
{
    let mut pcs = Labels::new(alloc);
    let mut pc = 0u16;
    for line in lines {
        match line {
            TextLine::Label(name) => note(&mut pcs, name, pc)?,
            TextLine::Instruction(instruction) => match pc_after(narrow, pc, instruction) {
                Some(next) => pc = next,
                None => unreachable!(),
            },
        }
    }
    Ok(pcs)
}

/// Notes the pc of a label, unless one was noted before.
fn note<'a>(pcs: &mut Labels<'a, u16>, name: &'a Name, pc: u16) -> Result<(), AllocError>
    ensures { OnOk result ((other : List ℕ) (later : ℕ)
        → unwrap_or (named pcs.new other) later
        ≡ unwrap_or (named pcs.old other) (if bytes_eq name.now other then pc else later)) }
{
    let name = name.as_bytes();
    if pcs.get(name).is_none() {
        pcs.note(name, pc)?;
    }
    Ok(())
}

/// The pc of a label, and 0 of one that is not given.
pub fn label_pc(pcs: &Labels<'_, u16>, name: &Name) -> u16
    ensures { result ≡ pc_in pcs.now name.now }
{
    pcs.get(name.as_bytes()).unwrap_or(0)
}
