//! Every schedule of a program.
ghost use Rattle.std.specs.Prelude.{◌≡◌, Bool, IfOk, IfSome, List, MatchResult, None, Some, length};
ghost use Rattle.model.specs.declared.journals.Limits.{Limits};
ghost use Rattle.model.specs.ClassListings.{ClassListing};
ghost use Rattle.exploration.specs.ClosedLists.{IsWitnessed};
ghost use Rattle.exploring.specs.declared.explored.Cut.TheVariants.{Memory};
ghost use Rattle.exploring.specs.declared.explored.Move.{Move};
ghost use Rattle.exploring.specs.Expansion.{Takes, way_to};
ghost use Rattle.exploring.specs.Explorations.{AreSound, AreSoundAfter, Begins, IsBefore, IsComplete, IsCompleteAfter};
ghost use Rattle.exploring.specs.Explorations.{IsFurther, IsOnItsWay, IsOver};
ghost use Rattle.exploring.specs.Explorations.{outcomes_in, report_of};
ghost use Rattle.exploring.specs.Origins.{AreTurns, pairs_in};

use crate::explored::{Bounds, Cut, Explored, Found, Move};
use crate::outcomes::Outcomes;
use crate::search::{Search, Waiting};
use crate::starts::after_moves;
use ideal_run::Transitions;
use ideal_run::worlds::World;
use model::watching::Watch;
use std::alloc::{AllocError, Global};
use std::marker::Model;

/// A search, and the outcomes of the states that it expanded. A contract sees both.
#[derive(Drop)]
pub struct Exploration {
    search: Search,
    outcomes: Outcomes,
}

impl Model for Exploration {
    ghost use Rattle.exploring.specs.Explorations.{Exploration};

    ghost Value = { Exploration };

    ghost view = { λ a. record { search = a.search; outcomes = a.outcomes } };
}

impl Exploration {
    /// Before what so many moves led to is expanded. `AllocError` where memory runs out.
    fn new(
        alloc: Global,
        transitions: &Transitions<'_>,
        start: World,
        depth: u32,
    ) -> Result<Exploration, AllocError>
        ensures { (first : List Move) (no_room : Bool)
            → IsWitnessed transitions.now.program transitions.now.limits (pairs_in first) start
            → depth ≡ length first
            → IfOk result (λ made. IsOnItsWay transitions.now.program transitions.now.limits first no_room made) }
    {
        let search = Search::new(alloc, transitions, start, depth)?;
        let outcomes = Outcomes::new(alloc);
        Ok(Exploration { search, outcomes })
    }

    /// Expands a state that was taken from those that wait, and notes its outcome where no thread of it can go on. It
    /// answers `true`.
    fn expand(
        &mut self,
        alloc: Global,
        transitions: &Transitions<'_>,
        first: &[Move],
        bounds: Bounds,
        state: &Waiting,
    ) -> Result<bool, Cut>
        ensures { IsBefore transitions.now.program transitions.now.limits first.now bounds.no_room self.old state.now
            → MatchResult result
            (λ more. IsFurther transitions.now.program transitions.now.limits first.now bounds.no_room self.new more)
            (λ _. AreSoundAfter transitions.now.program transitions.now.limits first.now self.new.outcomes.found) }
    {
        let steps = transitions.limits().steps;
        if steps <= state.depth {
            return Err(Cut::Depth);
        }
        let moved = self.search.expand(alloc, transitions, bounds, state)?;
        if !moved {
            self.outcomes
                .note(alloc, transitions, &self.search, first, state)?;
        }
        Ok(true)
    }

    /// Expands the first state that waits; whether there was one.
    pub fn advance(
        &mut self,
        alloc: Global,
        transitions: &Transitions<'_>,
        first: &[Move],
        bounds: Bounds,
    ) -> Result<bool, Cut>
        ensures { IsOnItsWay transitions.now.program transitions.now.limits first.now bounds.no_room self.old
            → MatchResult result
            (λ more. IsFurther transitions.now.program transitions.now.limits first.now bounds.no_room self.new more)
            (λ _. AreSoundAfter transitions.now.program transitions.now.limits first.now self.new.outcomes.found) }
    {
        match self.search.next() {
            None => Ok(false),
            Some(state) => self.expand(alloc, transitions, first, bounds, &state),
        }
    }

    /// Whether the next state shouldn't be expanded, if there are to be no more parts than so many: each state that waits
    /// is one, and each outcome. Nor is it where it's the last that the limit of steps allows, or where its turns might
    /// lead to more states than may be kept.
    pub fn is_divided(&self, transitions: &Transitions<'_>, bounds: Bounds, most: u32) -> bool {
        let Some(state) = self.search.front() else {
            return false;
        };
        let choices = if bounds.no_room { 2 } else { 1 };
        let turns = state.world.threads().len().saturating_mul(choices);
        let parts = self
            .search
            .waiting()
            .saturating_add(self.outcomes.found().len());
        parts.saturating_add(turns.saturating_sub(1)) > most as usize
            || transitions.limits().steps <= state.depth
            || self.search.len().saturating_add(turns) > bounds.states as usize
    }

    /// The first state that waits; it waits no longer.
    pub fn next(&mut self) -> Option<Waiting>
        ensures takes { Takes self.old.search self.new.search result }
        ensures outcomes { self.new.outcomes ≡ self.old.outcomes }
    {
        self.search.next()
    }

    /// The moves that led to a state, after those that came first. `AllocError` where memory runs out.
    pub fn way_to(
        &self,
        alloc: Global,
        first: &[Move],
        state: &Waiting,
    ) -> Result<Vec<Move>, AllocError>
        ensures { IfOk result (λ moves. moves.items ≡ way_to first.now self.now.search.origins state.now) }
    {
        self.search.way_to(alloc, first, state)
    }

    /// The outcomes that were found.
    pub fn found(&self) -> &[Found]
        ensures { result.now ≡ self.now.outcomes.found }
    {
        self.outcomes.found()
    }

    /// How many states were expanded, and how many wait.
    fn progress(&self) -> (usize, usize) {
        let left = self.search.waiting();
        (self.search.len().saturating_sub(left), left)
    }

    /// Expands state after state, until none waits. Why it was cut off, if it was.
    fn run<P: Watch>(
        &mut self,
        alloc: Global,
        transitions: &Transitions<'_>,
        first: &[Move],
        bounds: Bounds,
        watch: &mut P,
    ) -> Option<Cut>
        ensures { IsOnItsWay transitions.now.program transitions.now.limits first.now bounds.no_room self.old
            → IsOver transitions.now.program transitions.now.limits first.now bounds.no_room self.new result }
    {
        for _state in 0..=bounds.states {
            match self.advance(alloc, transitions, first, bounds) {
                Err(cut) => return Some(cut),
                Ok(false) => return None,
                Ok(true) => {
                    let (done, left) = self.progress();
                    watch.reached(done, left);
                }
            }
        }
        Some(Cut::States)
    }

    /// What is reported.
    fn explored(self, cut: Option<Cut>) -> Explored
        ensures { result ≡ report_of self cut }
    {
        Explored {
            states: self.search.len() as u64,
            turns: self.search.turns(),
            found: self.outcomes.into_found(),
            cut,
        }
    }
}

/// What is reported where memory ran out before the first state was kept.
fn nothing(alloc: Global) -> Explored
    ensures sound { (program : List ClassListing) (limits : Limits) (first : List Move)
        → AreSoundAfter program limits first result.found }
    ensures cut { result.cut ≡ Some Memory }
{
    Explored {
        found: Vec::new(alloc),
        states: 0,
        turns: 0,
        cut: Some(Cut::Memory),
    }
}

/// Where an exploration starts: before what the first moves lead to is expanded. `None` where one of them is refused.
/// `AllocError` where memory runs out, or a number has no room.
pub fn begun(
    alloc: Global,
    transitions: &Transitions<'_>,
    first: &[Move],
) -> Result<Option<Exploration>, AllocError>
    ensures { (no_room : Bool)
        → IfOk result (Begins transitions.now.program transitions.now.limits first.now no_room) }
{
    let Some(start) = after_moves(alloc, transitions, first)? else {
        return Ok(None);
    };
    let Ok(depth) = u32::try_from(first.len()) else {
        return Err(AllocError);
    };
    Ok(Some(Exploration::new(alloc, transitions, start, depth)?))
}

/// Explores every schedule of a program that begins with the first moves, which may be none: breadth first, state by
/// state, where a state stands for all worlds that are alike but for the names of births, for garbage and for the count
/// of turns. `None` where one of the first moves is refused.
///
/// A run is *halted* where no thread can go on: each has ended, waits, or would print more than the limit of output
/// allows; or there was a fault. Where nothing is cut off, the outcome of every halted run is found that passes through
/// what the first moves lead to: of the ideal run, for every list of turns, and of the machine with its collector, for
/// every heap shape and every list of actors. With `no_room` that is so of every such run; without it, of those in which
/// no cell is missing from there on. Cut off or not, each outcome is that of the ideal run of its witness, which is halted
/// and begins with the first moves.
///
/// It never fails: where memory runs out, that is why it was cut off, and what was found so far is reported.
pub fn explore_after<P: Watch>(
    alloc: Global,
    transitions: &Transitions<'_>,
    first: &[Move],
    bounds: Bounds,
    watch: &mut P,
) -> Option<Explored>
    ensures complete { IfSome result (λ explored. explored.cut ≡ None
        → IsCompleteAfter transitions.now.program transitions.now.limits first.now bounds.no_room explored.states
        (outcomes_in explored)) }
    ensures sound { IfSome result (λ explored. AreSoundAfter transitions.now.program transitions.now.limits first.now
        explored.found) }
    ensures refused { result ≡ None → AreTurns transitions.now.program transitions.now.limits first.now → ⊥ }
{
    match begun(alloc, transitions, first) {
        Err(_) => Some(nothing(alloc)),
        Ok(None) => None,
        Ok(Some(mut exploration)) => {
            let cut = exploration.run(alloc, transitions, first, bounds, watch);
            Some(exploration.explored(cut))
        }
    }
}

/// Explores every schedule of a program, as `explore_after` does where there are no first moves. Where nothing is cut off,
/// the outcome of every halted run is found: with `no_room` of every run; without it, of those in which no cell is ever
/// missing. Cut off or not, each outcome is that of the ideal run of its witness, which is halted. It never fails.
pub fn explore<P: Watch>(
    alloc: Global,
    transitions: &Transitions<'_>,
    bounds: Bounds,
    watch: &mut P,
) -> Explored
    ensures complete { result.cut ≡ None
        → IsComplete transitions.now.program transitions.now.limits bounds.no_room result.states (outcomes_in result) }
    ensures sound { AreSound transitions.now.program transitions.now.limits result.found }
{
    match explore_after(alloc, transitions, &[], bounds, watch) {
        Some(explored) => explored,
        None => nothing(alloc),
    }
}
