//! Where an exploration starts: at the opening, or after the turns of a run.
ghost use Rattle.std.specs.Prelude.{◌<◌, List, IfOk, length};
ghost use Rattle.exploration.specs.ClosedLists.{IsWitnessed};
ghost use Rattle.exploring.specs.declared.explored.Move.{Move};
ghost use Rattle.exploring.specs.Origins.{LeadsOn, LeadsTo, pairs_in};

use crate::explored::Move;
use crate::forms::canonical;
use ideal_run::Transitions;
use ideal_run::worlds::World;
use std::alloc::{AllocError, Global};

/// The canonical form of what a move of a state leads to; `None` where it's refused. `AllocError` where memory runs out,
/// or a number has no room.
fn after_move(
    alloc: Global,
    transitions: &Transitions<'_>,
    world: &World,
    turn: Move,
) -> Result<Option<World>, AllocError>
    ensures { (earlier : List Move)
        → IsWitnessed transitions.now.program transitions.now.limits (pairs_in earlier) world.now
        → length earlier < transitions.now.limits.steps
        → IfOk result (LeadsOn transitions.now.program transitions.now.limits earlier turn) }
{
    match transitions.successor(world, turn.thread, turn.choice)? {
        None => Ok(None),
        Some(made) => Ok(Some(canonical(alloc, &made.world)?)),
    }
}

/// The canonical form of what these moves of the opening lead to; `None` where one of them is refused. `AllocError` where
/// memory runs out, or a number has no room.
pub fn after_moves(
    alloc: Global,
    transitions: &Transitions<'_>,
    moves: &[Move],
) -> Result<Option<World>, AllocError>
    ensures { IfOk result (LeadsTo transitions.now.program transitions.now.limits moves.now) }
{
    if (transitions.limits().steps as usize) < moves.len() {
        return Ok(None);
    }
    let mut world = transitions.opening()?;
    for turn in moves {
        match after_move(alloc, transitions, &world, *turn)? {
            None => return Ok(None),
            Some(after) => world = after,
        }
    }
    Ok(Some(world))
}
