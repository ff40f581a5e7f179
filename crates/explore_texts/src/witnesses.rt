//! The turns of a witness, as lines, and back.
ghost use Rattle.std.specs.Prelude.{◌≡◌, ◌++◌, IfOk, IfSome};
ghost use Rattle.std.specs.Fmt.{decimal};
ghost use Rattle.std.specs.List.{flat_map};
ghost use Rattle.explore_texts.specs.Witnesses.{move_line, room_words};

use exploring::{Choice, Move};
use itoa::Buffer;
use std::alloc::{AllocError, Global};

/// What stands after the thread of a turn.
fn room_words(choice: Choice) -> &'static [u8]
    ensures { result.now ≡ room_words choice }
{
    match choice {
        Choice::NewObject => b"\n",
        Choice::NoRoom => b" no room\n",
    }
}

/// Adds the line of a turn.
fn write_move(text: &mut Vec<u8>, turn: Move) -> Result<(), AllocError>
    ensures { IfOk result (λ _. text.new.items ≡ text.old.items ++ move_line turn) }
{
    let mut buffer = Buffer::new();
    text.extend_from_slice(buffer.format(turn.thread).as_bytes())?;
    text.extend_from_slice(room_words(turn.choice))
}

/// A line for each turn: its thread, and ` no room` where it asks for a cell and finds none. `AllocError` where memory
/// runs out.
pub fn turns_text(alloc: Global, turns: &[Move]) -> Result<Vec<u8>, AllocError>
    ensures { IfOk result (λ text. text.items ≡ flat_map move_line turns.now) }
{
    let mut text = Vec::new(alloc);
    for turn in turns {
        write_move(&mut text, *turn)?;
    }
    Ok(text)
}

/// The number that the first digits spell, three at most; 0 where there is none, and none past 255.
fn first_number(text: &[u8]) -> Option<u8> {
    let mut number = 0_u32;
    for byte in text.iter().take(3) {
        if !byte.is_ascii_digit() {
            break;
        }
        let digit = u32::from(byte.saturating_sub(b'0'));
        number = number.saturating_mul(10).saturating_add(digit);
    }
    u8::try_from(number).ok()
}

/// The thread with whose number a text begins, and what stands after it.
fn thread_at(text: &[u8]) -> Option<(u8, &[u8])>
    ensures { IfSome result (λ r. text.now ≡ decimal r.0 ++ r.1.now) }
{
    let thread = first_number(text)?;
    let mut buffer = Buffer::new();
    let rest = text.strip_prefix(buffer.format(thread).as_bytes())?;
    Some((thread, rest))
}

/// Whether a turn finds a cell, and what stands after the words that say so.
fn room_at(text: &[u8]) -> Option<(Choice, &[u8])>
    ensures { IfSome result (λ r. text.now ≡ room_words r.0 ++ r.1.now) }
{
    if let Some(rest) = text.strip_prefix(room_words(Choice::NewObject)) {
        return Some((Choice::NewObject, rest));
    }
    let rest = text.strip_prefix(room_words(Choice::NoRoom))?;
    Some((Choice::NoRoom, rest))
}

/// The turn with whose line a text begins, and what stands after it.
fn move_at(text: &[u8]) -> Option<(Move, &[u8])>
    ensures { IfSome result (λ r. text.now ≡ move_line r.0 ++ r.1.now) }
{
    let (thread, rest) = thread_at(text)?;
    let (choice, rest) = room_at(rest)?;
    Some((Move { thread, choice }, rest))
}

/// The turns whose lines make up a text, as `turns_text` writes them; `None` of any other text, and where there is no line.
/// `AllocError` where memory runs out.
pub fn turns_in(alloc: Global, text: &[u8]) -> Result<Option<Vec<Move>>, AllocError>
    ensures { IfOk result (λ turns. IfSome turns (λ moves. text.now ≡ flat_map move_line moves.items)) }
{
    let mut moves = Vec::new(alloc);
    let mut rest = text;
    for _line in 0..text.len() {
        let Some((turn, after)) = move_at(rest) else {
            return Ok(None);
        };
        moves.push(turn)?;
        rest = after;
        if rest.is_empty() {
            return Ok(Some(moves));
        }
    }
    Ok(None)
}
