//! The programs whose turns are ordered in every way.

use model::turns::Actor;

/// Two threads and the collector.
const MAIN: Actor = Actor::Thread(0);

const OTHER: Actor = Actor::Thread(1);

/// A program of two threads on a heap of small cells. A run of it begins with the turns of the opening and so many of
/// the collector, from the fewest to the most; then nine turns come in every order.
#[derive(Clone, Copy)]
pub struct Race {
    pub name: &'static str,
    pub texts: &'static [&'static str],
    pub cells: u32,
    pub opening: &'static [Actor],
    pub fewest: u32,
    pub most: u32,
}

pub const RACES: [Race; 5] = [
    Race {
        name: "write barrier",
        texts: &["Barrier.j"],
        cells: 4,
        opening: &[MAIN, MAIN, MAIN, MAIN],
        fewest: 0,
        most: 20,
    },
    Race {
        name: "thrown in a monitor",
        texts: &["Monitor.j"],
        cells: 4,
        opening: &[MAIN, MAIN, MAIN, MAIN, MAIN, OTHER],
        fewest: 0,
        most: 0,
    },
    Race {
        name: "class initialisation",
        texts: &["Initialised.j", "Above.j", "Failing.j"],
        cells: 5,
        opening: &[MAIN, MAIN],
        fewest: 0,
        most: 0,
    },
    Race {
        name: "class initialisation, begun",
        texts: &["Initialised.j", "Above.j", "Failing.j"],
        cells: 5,
        opening: &[MAIN, MAIN, MAIN, MAIN, MAIN],
        fewest: 0,
        most: 0,
    },
    Race {
        name: "one cell for two",
        texts: &["Rooms.j"],
        cells: 3,
        opening: &[MAIN, MAIN, OTHER, OTHER],
        fewest: 29,
        most: 29,
    },
];
