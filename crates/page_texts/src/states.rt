//! The line of a world's state.
ghost use Rattle.std.specs.Prelude.{◌≡◌, ◌++◌, IfOk};
ghost use Rattle.debug_texts.specs.Answers.{numbered};
ghost use Rattle.page_texts.specs.Shown.{fault_line, next_word, position_words, state_line, status_word};

use debug_texts::values::write_number;
use model::colours::Phase;
use model::turns::{Fault, Status};
use std::alloc::AllocError;

fn status_word(status: Status) -> &'static [u8]
    ensures { result.now ≡ status_word status }
{
    match status {
        Status::Running => b"running",
        Status::Finished => b"finished",
        Status::Stuck => b"stuck",
        Status::Faulted => b"faulted",
    }
}

/// Adds the number of a thread, or a hyphen where there is none.
fn write_next(text: &mut Vec<u8>, next: Option<u8>) -> Result<(), AllocError>
    ensures { IfOk result (λ _. text.new.items ≡ text.old.items ++ next_word next) }
{
    match next {
        Some(thread) => write_number(text, u32::from(thread)),
        None => text.extend_from_slice(b"-"),
    }
}

/// Adds a word and a number after it.
fn write_numbered(text: &mut Vec<u8>, word: &[u8], number: u32) -> Result<(), AllocError>
    ensures { IfOk result (λ _. text.new.items ≡ text.old.items ++ numbered word.now number) }
{
    text.extend_from_slice(word)?;
    text.push(b' ')?;
    write_number(text, number)
}

/// Adds where the collector stands.
fn write_position(text: &mut Vec<u8>, phase: Phase) -> Result<(), AllocError>
    ensures { IfOk result (λ _. text.new.items ≡ text.old.items ++ position_words phase) }
{
    match phase {
        Phase::Idle => text.extend_from_slice(b"idle"),
        Phase::Statics { slot } => write_numbered(text, b"statics", slot),
        Phase::Frames {
            thread,
            frame,
            entry,
        } => {
            write_numbered(text, b"frames", thread)?;
            text.push(b' ')?;
            write_number(text, frame)?;
            text.push(b' ')?;
            write_number(text, entry)
        }
        Phase::Mark { word } => write_numbered(text, b"mark", word),
        Phase::Append { cell } => write_numbered(text, b"append", cell),
    }
}

/// Adds the line of a world's state: how it stands, how many rows its journal has, the number that the next object
/// gets, the thread whose turn is next, and where the collector stands.
pub fn write_state(
    text: &mut Vec<u8>,
    status: Status,
    rows: u32,
    births: u32,
    next: Option<u8>,
    phase: Phase,
) -> Result<(), AllocError>
    ensures { IfOk result (λ _. text.new.items ≡ text.old.items ++ state_line status rows births next phase) }
{
    text.extend_from_slice(b"state ")?;
    text.extend_from_slice(status_word(status))?;
    write_numbered(text, b" rows", rows)?;
    write_numbered(text, b" births", births)?;
    text.extend_from_slice(b" next ")?;
    write_next(text, next)?;
    text.extend_from_slice(b" phase ")?;
    write_position(text, phase)?;
    text.push(b'\n')?;
    Ok(())
}

/// Adds the line of a fault, if there was one.
pub fn write_fault(text: &mut Vec<u8>, fault: Option<(Fault, u8)>) -> Result<(), AllocError>
    ensures { IfOk result (λ _. text.new.items ≡ text.old.items ++ fault_line fault) }
{
    match fault {
        None => Ok(()),
        Some((fault, thread)) => {
            text.extend_from_slice(b"fault F")?;
            write_number(text, u32::from(fault.number()))?;
            write_numbered(text, b" thread", u32::from(thread))?;
            text.push(b'\n')?;
            Ok(())
        }
    }
}
