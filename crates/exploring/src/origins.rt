//! How states were found, and so by which turns of the opening.
ghost use Rattle.std.specs.Prelude.{◌≡◌, ◌++◌, IfOk, OnOk, replicate, slice_get};
ghost use Rattle.exploring.specs.Origins.{moves_back, plain_after, trail};

use crate::explored::Move;
use ideal_run::Choice;
use std::alloc::{AllocError, Global};

/// A state was found by a turn of an earlier one, which is known by its number, and by so many plain steps of the same
/// thread.
#[derive(Clone, Copy)]
pub struct Origin {
    pub parent: u32,
    pub by: Move,
    pub ahead: u32,
}

/// A plain step of the thread that moved.
fn plain_after(by: Move) -> Move
    ensures { result ≡ plain_after by }
{
    let thread = by.thread;
    let choice = Choice::NewObject;
    Move { thread, choice }
}

/// A move is added so many times. `AllocError` where memory runs out.
fn add_times(moves: &mut Vec<Move>, one: Move, times: u32) -> Result<(), AllocError>
    ensures { OnOk result (moves.new.items ≡ moves.old.items ++ replicate times one) }
{
    for _time in 0..times {
        moves.push(one)?;
    }
    Ok(())
}

/// The origin of a state, if its number has one.
fn origin_at(origins: &[Origin], place: u32) -> Option<Origin>
    ensures { result ≡ slice_get origins.now place }
{
    match origins.get(place as usize) {
        None => None,
        Some(origin) => Some(*origin),
    }
}

/// The moves that led to a state by way of so many parents, the last one first; fewer where a number has no origin.
fn moves_back(
    alloc: Global,
    origins: &[Origin],
    level: u32,
    place: u32,
) -> Result<Vec<Move>, AllocError>
    ensures { IfOk result (λ moves. moves.items ≡ moves_back origins.now level place) }
{
    let mut moves = Vec::new(alloc);
    let mut at = place;
    for _turn in 0..level {
        match origin_at(origins, at) {
            None => return Ok(moves),
            Some(origin) => {
                add_times(&mut moves, plain_after(origin.by), origin.ahead)?;
                moves.push(origin.by)?;
                at = origin.parent;
            }
        }
    }
    Ok(moves)
}

/// The moves that led to a state by way of so many parents, in order. `AllocError` where memory runs out.
pub fn trail(
    alloc: Global,
    origins: &[Origin],
    level: u32,
    place: u32,
) -> Result<Vec<Move>, AllocError>
    ensures { IfOk result (λ moves. moves.items ≡ trail origins.now level place) }
{
    let mut moves = moves_back(alloc, origins, level, place)?;
    moves.reverse();
    Ok(moves)
}
