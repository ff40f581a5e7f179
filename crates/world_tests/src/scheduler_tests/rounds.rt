//! Rounds of a small main. The rows are counted by hand: each turn of the thread with one of the collector after it,
//! but for the last, after which the world runs no more.

use model::journals::{Outcome, Row};
use model::turns::{Actor, Turn};
use scheduler::worlds::World;

const MADE: Row = Row {
    actor: Actor::Thread(0),
    outcome: Outcome::Done,
    worker: 0,
};

const COLLECTED: Row = Row {
    actor: Actor::Collector,
    outcome: Outcome::Done,
    worker: 0,
};

/// Whether the rows of a world are so many pairs of a turn of thread 0 and one of the collector.
fn has_pairs(world: &World, pairs: usize) -> bool {
    let mut rows = world.journal().rows();
    for _pair in 0..pairs {
        let pair = (rows.next(), rows.next());
        if pair != (Some(MADE), Some(COLLECTED)) {
            return false;
        }
    }
    rows.next().is_none()
}

pub fn rounds_end_with_their_thread(world: &mut World) -> bool {
    world.rounds(3, 1) == Turn::Done
        && has_pairs(world, 3)
        && world.rounds(1_000, 1) == Turn::NotReady
        && world.journal().rows().len() == 9
}
