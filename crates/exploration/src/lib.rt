//! All runs of a program, told by a list of states, on definitions alone.
//!
//! A state stands for worlds up to the names of births, and without garbage: so a loop that makes garbage has finitely
//! many. `specs/` says what it is for a state to represent a world, and for a list of states to be closed under turns;
//! the function below has the theorems on which a search rests.
#![tactic(auto)]

ghost use Rattle.exploration.specs.CanonicalForms.{CanonicalRepresents, TurnsMakeAll};
ghost use Rattle.exploration.specs.ClosedLists.{ClosedHasAll, OpeningIsWitnessed, RunsCome, TurnsAreWitnessed};
ghost use Rattle.exploration.specs.Observations.{ClosedShowsAll};
ghost use Rattle.exploration.specs.Outcomes.{OutcomesAreReal, OutcomesOfAll, RestIsHalted};
ghost use Rattle.exploration.specs.ReducedRuns.{AheadIsWitnessed, ReducedShowsAll};
ghost use Rattle.exploration.specs.Search.{SearchesAll};

pub mod ends;

/// A list of states that has one for the opening, and for whatever a turn of one of them leaves, has one for whatever a
/// run comes to: an ideal run, a run of the machine on any heap and with the collector at any time, and any journal. The
/// world and its state show the same output, fault, ends of threads and status. With `no_room` that is so of every run;
/// without it, of those in which no cell is ever missing.
///
/// Each state to which turns lead from the opening stands for what some ideal run comes to. The image of a world under
/// a list of what paths reach in it represents it, and in a turn of a state whatever paths reach was made.
///
/// A search may start anywhere, and go ahead, after each turn, by steps of any threads that look at their running frame
/// alone. Its list still shows the output, the fault and the ends of threads of whatever the start's turns lead to, and
/// the status where no thread is ready any more; that is all that runs come to which pass through the start. And it too
/// has only what ideal runs come to. So of the outcomes of these runs, those of its states at rest are all, and each is
/// that of an ideal run of known turns. A loop that expands state after state ends with such a list.
pub fn a_closed_list_has_every_run()
    ensures all { ClosedHasAll }
    ensures shown { ClosedShowsAll }
    ensures opening { OpeningIsWitnessed }
    ensures witnessed { TurnsAreWitnessed }
    ensures canonical { CanonicalRepresents }
    ensures made { TurnsMakeAll }
    ensures come { RunsCome }
    ensures reduced { ReducedShowsAll }
    ensures reduced_witnessed { AheadIsWitnessed }
    ensures outcomes { OutcomesOfAll }
    ensures real { OutcomesAreReal }
    ensures rest { RestIsHalted }
    ensures searches { SearchesAll }
{}
