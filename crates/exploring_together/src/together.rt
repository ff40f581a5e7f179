//! One exploration, by several threads.
ghost use Rattle.std.specs.Prelude.{◌≡◌, ◌<◌, [], IfSome, None, length, slice_index_or};
ghost use Rattle.exploration.specs.Outcomes.{TellsOutcomes};
ghost use Rattle.exploring.specs.Explorations.{AreSoundAfter, outcomes_in};
ghost use Rattle.exploring.specs.Origins.{AreTurns, start_of};
ghost use Rattle.exploring_together.specs.Together.{AreOfParts, IsExplored};

use crate::merging::put_together;
use exploring::{Bounds, Explored, Move, Part, explore_after, split};
use ideal_run::Transitions;
use model::watching::Unwatched;
use std::alloc::Global;
use std::thread::{Threads, map_indices};

/// What is found of one of the parts. `None` where its moves aren't turns.
fn explored_part(
    alloc: Global,
    transitions: &Transitions<'_>,
    parts: &[Part],
    place: usize,
    bounds: Bounds,
) -> Option<Explored>
    requires { place < length parts.now }
    ensures { IfSome result (IsExplored transitions.now.program transitions.now.limits
        (slice_index_or parts.now place []) bounds.no_room) }
{
    let part = &parts[place];
    explore_after(alloc, transitions, &part.moves, bounds, &mut Unwatched)
}

/// What is found of each part, in a thread of its own where one can be made. `None` where memory runs out.
fn explored_parts<R: Threads + Sync>(
    rt: &R,
    alloc: Global,
    transitions: &Transitions<'_>,
    parts: &[Part],
    bounds: Bounds,
) -> Option<Vec<Option<Explored>>>
    ensures { IfSome result (λ made. AreOfParts transitions.now.program transitions.now.limits bounds.no_room parts.now
        made.items) }
{
    let explored = map_indices(
        rt,
        alloc,
        parts.len(),
        &|place| explored_part(alloc, transitions, parts, place, bounds),
    );
    match explored {
        Ok(explored) => Some(explored),
        Err(_) => None,
    }
}

/// What the parts of an exploration find, of which there are at most so many. `None` where there is none, or memory runs
/// out while it's divided.
fn shared<R: Threads + Sync>(
    rt: &R,
    alloc: Global,
    transitions: &Transitions<'_>,
    first: &[Move],
    bounds: Bounds,
    most: u32,
) -> Option<Explored>
    ensures { IfSome result (IsExplored transitions.now.program transitions.now.limits first.now bounds.no_room) }
{
    match split(alloc, transitions, first, bounds, most) {
        Ok(Some(parts)) if !parts.is_empty() => {
            let made = explored_parts(rt, alloc, transitions, parts.as_slice(), bounds)?;
            put_together(alloc, made)
        }
        _ => None,
    }
}

/// Explores every schedule of a program that begins with the first moves, as `exploring::explore_after` does, by so many
/// threads: it is divided into at most as many parts (`exploring::split`), each is explored by a thread of its own, where
/// one can be made, and their reports are put together. Outcomes come in the order of the parts, each once. States and
/// turns are summed, so that a state which several parts come to counts in each; those by which it was divided don't
/// count. It was cut off where a part was: as the first of these.
///
/// Each part may keep as many states as the bounds allow. With one worker or none, where nothing is left to divide, or
/// where memory runs out for that, it's explored by this thread alone. `None` where one of the first moves is refused.
pub fn explore_together<R: Threads + Sync>(
    rt: &R,
    alloc: Global,
    transitions: &Transitions<'_>,
    first: &[Move],
    bounds: Bounds,
    workers: u8,
) -> Option<Explored>
    ensures complete { IfSome result (λ explored. explored.cut ≡ None
        → TellsOutcomes transitions.now.program transitions.now.limits bounds.no_room
        (start_of transitions.now.program transitions.now.limits first.now) (outcomes_in explored)) }
    ensures sound { IfSome result (λ explored. AreSoundAfter transitions.now.program transitions.now.limits first.now
        explored.found) }
    ensures refused { result ≡ None → AreTurns transitions.now.program transitions.now.limits first.now → ⊥ }
{
    if 1 < workers {
        let explored = shared(rt, alloc, transitions, first, bounds, u32::from(workers));
        if let Some(explored) = explored {
            return Some(explored);
        }
    }
    explore_after(alloc, transitions, first, bounds, &mut Unwatched)
}
