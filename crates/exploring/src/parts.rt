//! Parts of an exploration: turns by which to begin, so that what can follow any of them is all.
ghost use Rattle.std.specs.Prelude.{◌≡◌, ◌++◌, ℕ, Bool, List, IfOk, IfSome, OnOk, None};
ghost use Rattle.exploring.specs.declared.explored.Move.{Move};
ghost use Rattle.exploring.specs.Explorations.{IsFurther, IsOnItsWay};
ghost use Rattle.exploring.specs.Origins.{AreTurns};
ghost use Rattle.exploring.specs.Parts.{AreParts, rests, ways};

use crate::explored::{Bounds, Cut, Found, Move};
use crate::schedules::{Exploration, begun};
use ideal_run::Transitions;
use std::alloc::{AllocError, Global};
use std::marker::Model;

/// The turns of a run by which a part begins.
#[derive(Drop)]
pub struct Part {
    pub moves: Vec<Move>,
}

impl Model for Part {
    ghost Value = { List Move };

    ghost view = { λ a. a.moves.items };
}

/// Expands states until there would be more parts than so many; whether some state is left.
fn divide(
    exploration: &mut Exploration,
    alloc: Global,
    transitions: &Transitions<'_>,
    first: &[Move],
    bounds: Bounds,
    most: u32,
) -> Result<bool, Cut>
    ensures { IsOnItsWay transitions.now.program transitions.now.limits first.now bounds.no_room exploration.old
        → IfOk result
        (IsFurther transitions.now.program transitions.now.limits first.now bounds.no_room exploration.new) }
{
    for _state in 0..bounds.states {
        if exploration.is_divided(transitions, bounds, most) {
            return Ok(true);
        }
        if !exploration.advance(alloc, transitions, first, bounds)? {
            return Ok(false);
        }
    }
    Ok(true)
}

/// The runs that came to rest, as parts. `AllocError` where memory runs out.
fn rests(alloc: Global, found: &[Found]) -> Result<Vec<Part>, AllocError>
    ensures { IfOk result (λ parts. parts.items ≡ rests found.now) }
{
    let mut parts = Vec::new(alloc);
    for each in found {
        let moves = Vec::from_slice(alloc, &each.witness)?;
        parts.push(Part { moves })?;
    }
    Ok(parts)
}

/// Adds the ways to the states that wait, which wait no longer. `AllocError` where memory runs out.
fn add_ways(
    alloc: Global,
    first: &[Move],
    exploration: Exploration,
    parts: &mut Vec<Part>,
) -> Result<(), AllocError>
    ensures { OnOk result (parts.new.items ≡ parts.old.items ++ ways first.now exploration.search) }
{
    let mut left = exploration;
    for _state in 0..=u32::MAX {
        let Some(state) = left.next() else {
            return Ok(());
        };
        let way = left.way_to(alloc, first, &state)?;
        parts.push(Part { moves: way })?;
    }
    Err(AllocError)
}

/// Divides what can follow the first moves into parts, at most so many (0 is as 1): the turns of runs by which to begin,
/// each of which begins with the first moves. Outcomes that tell all that follows each of the parts tell all that follows
/// the first moves. So a large exploration can be made part by part, by several machines at once. `None` where one of the
/// first moves is refused. A part may have come to rest; and where nothing that follows the first moves ever does, and it
/// was all explored, there is none.
///
/// The states of the bounds are those that may be kept while it's divided. `Err` where memory runs out, or a number has
/// no room.
pub fn split(
    alloc: Global,
    transitions: &Transitions<'_>,
    first: &[Move],
    bounds: Bounds,
    most: u32,
) -> Result<Option<Vec<Part>>, Cut>
    ensures parts { IfOk result (λ made. IfSome made (λ parts. AreParts transitions.now.program transitions.now.limits
        first.now bounds.no_room parts.items)) }
    ensures refused { IfOk result (λ made. made ≡ None
        → AreTurns transitions.now.program transitions.now.limits first.now → ⊥) }
{
    let Some(mut exploration) = begun(alloc, transitions, first)? else {
        return Ok(None);
    };
    let left = divide(&mut exploration, alloc, transitions, first, bounds, most)?;
    let mut parts = rests(alloc, exploration.found())?;
    if left {
        add_ways(alloc, first, exploration, &mut parts)?;
    }
    Ok(Some(parts))
}
