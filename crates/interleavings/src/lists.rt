//! Lists of actors, in their order.
ghost use Rattle.std.specs.Prelude.{◌≡◌, ◌≤◌, length, take};

use model::turns::Actor;
use std::alloc::{AllocError, Global};

/// How many turns are ordered, each of one of three actors, and how many lists there are.
pub const ORDERED: usize = 9;

pub const LISTS: u32 = 19_683;

/// The actor that comes after another one in the order of lists.
fn next(actor: Actor) -> Option<Actor> {
    match actor {
        Actor::Thread(0) => Some(Actor::Thread(1)),
        Actor::Thread(_) => Some(Actor::Collector),
        Actor::Collector => None,
    }
}

/// Makes of a list the next one, whose first turns are those of the opening, and tells how many turns in front the two
/// have in common. After the last list comes the first one.
pub fn advance(actors: &mut [Actor], opening: usize) -> usize
    requires { opening ≤ length actors.old }
    ensures { take result actors.new ≡ take result actors.old }
{
    for place in (opening..actors.len()).rev() {
        match next(actors[place]) {
            Some(actor) => {
                actors[place] = actor;
                return place;
            }
            None => actors[place] = Actor::Thread(0),
        }
    }
    opening
}

/// The first list: the opening, so many turns of the collector, and nine of thread 0.
pub fn first_list(alloc: Global, opening: &[Actor], sweeps: u32) -> Result<Vec<Actor>, AllocError> {
    let mut actors = Vec::from_slice(alloc, opening)?;
    for _ in 0..sweeps {
        actors.push(Actor::Collector)?;
    }
    for _ in 0..ORDERED {
        actors.push(Actor::Thread(0))?;
    }
    Ok(actors)
}
