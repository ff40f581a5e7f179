//! The text of the heap's cells and of the collector's phase.
ghost use Rattle.std.specs.Prelude.{◌≡◌, ◌++◌, ◌∷◌, [], IfOk, codes};
ghost use Rattle.debug_texts.specs.Answers.{cell_line, colour_word, held_text, phase_line, phase_word};

use crate::values::{write_birth, write_number};
use model::colours::{Colour, Phase};
use model::views::CellView;
use std::alloc::AllocError;

fn colour_word(colour: Colour) -> &'static [u8]
    ensures { result.now ≡ colour_word colour }
{
    match colour {
        Colour::White => b"white",
        Colour::Grey => b"grey",
        Colour::Black => b"black",
    }
}

/// Adds what a cell holds.
fn write_held(text: &mut Vec<u8>, held: Option<(u32, Colour)>) -> Result<(), AllocError>
    ensures { IfOk result (λ _. text.new.items ≡ text.old.items ++ held_text held) }
{
    match held {
        None => text.extend_from_slice(b"free"),
        Some((birth, colour)) => {
            write_birth(text, birth)?;
            text.push(b' ')?;
            text.extend_from_slice(colour_word(colour))
        }
    }
}

/// Adds the line of a cell.
pub fn write_cell(text: &mut Vec<u8>, number: u32, cell: CellView) -> Result<(), AllocError>
    ensures { IfOk result (λ _. text.new.items ≡ text.old.items ++ cell_line number cell) }
{
    text.extend_from_slice(b"cell ")?;
    write_number(text, number)?;
    text.push(b' ')?;
    write_number(text, cell.words)?;
    text.push(b' ')?;
    write_held(text, cell.held)?;
    text.push(b'\n')?;
    Ok(())
}

fn phase_word(phase: Phase) -> &'static [u8]
    ensures { result.now ≡ phase_word phase }
{
    match phase {
        Phase::Idle => b"idle",
        Phase::Statics { .. } => b"statics",
        Phase::Frames { .. } => b"frames",
        Phase::Mark { .. } => b"mark",
        Phase::Append { .. } => b"append",
    }
}

/// Adds the line of the collector's phase.
pub fn write_phase(text: &mut Vec<u8>, phase: Phase) -> Result<(), AllocError>
    ensures { IfOk result (λ _. text.new.items ≡ text.old.items ++ phase_line phase) }
{
    text.extend_from_slice(b"phase ")?;
    text.extend_from_slice(phase_word(phase))?;
    text.push(b'\n')?;
    Ok(())
}
