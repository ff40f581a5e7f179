//! A search through the states of a program, breadth first.
ghost use Rattle.std.specs.Prelude.{◌≡◌, ◌<◌, ◌+◌, ◌∷◌, [], ◌||◌, length, map, List, IfOk, MatchResult, OnOk};
ghost use Rattle.model.specs.Worlds.{World};
ghost use Rattle.exploration.specs.ClosedLists.{IsWitnessed};
ghost use Rattle.exploring.specs.declared.explored.Move.{Move};
ghost use Rattle.exploring.specs.Expansion.{Expands, ExpandsAll, Finds, Follows, HasKnown, IsTraced, Takes, kept, way_to};
ghost use Rattle.exploring.specs.Expansion.{CutsAt, world_of};
ghost use Rattle.exploring.specs.Origins.{pairs_in};

use crate::ahead::go_ahead;
use crate::explored::{Bounds, Cut, Move};
use crate::forms::canonical;
use crate::origins::{Origin, trail};
use crate::states::States;
use ideal_run::worlds::World;
use ideal_run::{Choice, Transitions};
use std::alloc::{AllocError, Global};
use std::collections::VecDeque;
use std::marker::Model;

/// A state that waits to be expanded: its number, how many states come before it on the way, and how many turns led to it.
#[derive(Drop)]
pub struct Waiting {
    pub world: World,
    pub place: u32,
    pub level: u32,
    pub depth: u32,
}

/// The states so far, the origin of each, those that wait to be expanded, and how many turns were made. A contract sees
/// the table of names and the keys, and all else.
#[derive(Drop)]
pub struct Search {
    states: States,
    origins: Vec<Origin>,
    waiting: VecDeque<Waiting>,
    turns: u64,
}

impl Model for Search {
    ghost use Rattle.exploring.specs.Expansion.{Search};

    ghost Value = { Search };

    ghost view = { λ a. record {
      stored = a.states;
      origins = a.origins.items;
      waiting = a.waiting.items;
      turns = a.turns;
    } };
}

/// Where the first state came from: nowhere, and no move is asked for.
fn nowhere() -> Origin {
    Origin {
        parent: 0,
        by: Move {
            thread: 0,
            choice: Choice::NewObject,
        },
        ahead: 0,
    }
}

fn either(one: bool, other: bool) -> bool
    ensures { result ≡ (one || other) }
{
    one || other
}

impl Search {
    /// A search that has what some moves led to as its one state, which waits: so many moves. `AllocError` where memory
    /// runs out.
    pub fn new(
        alloc: Global,
        transitions: &Transitions<'_>,
        start: World,
        depth: u32,
    ) -> Result<Search, AllocError>
        ensures known { (first : List Move)
            → IsWitnessed transitions.now.program transitions.now.limits (pairs_in first) start
            → depth ≡ length first
            → IfOk result (λ search. HasKnown transitions.now.program transitions.now.limits first search (start ∷ [])) }
        ensures waits { IfOk result (λ search. map world_of search.waiting ≡ start ∷ []) }
    {
        let mut states = States::new(alloc, transitions.listings())?;
        states.add(alloc, &start)?;
        let origins = Vec::new(alloc);
        let waiting = VecDeque::new(alloc);
        let mut search = Search {
            states,
            origins,
            waiting,
            turns: 0,
        };
        let opening = Waiting {
            world: start,
            place: 0,
            level: 0,
            depth,
        };
        search.keep(opening, nowhere())?;
        Ok(search)
    }

    /// How many states there are.
    pub fn len(&self) -> usize
        ensures { result ≡ length self.now.origins }
    {
        self.origins.len()
    }

    /// How many states wait.
    pub fn waiting(&self) -> usize {
        self.waiting.len()
    }

    /// The first state that waits.
    pub fn front(&self) -> Option<&Waiting> {
        self.waiting.front()
    }

    /// How many turns were made, 2^64 - 1 at most.
    pub fn turns(&self) -> u64
        ensures { result ≡ self.now.turns }
    {
        self.turns
    }

    /// The first state that waits; it waits no longer.
    pub fn next(&mut self) -> Option<Waiting>
        ensures { Takes self.old self.new result }
    {
        self.waiting.pop_front()
    }

    /// The moves that led to a state, after those that came first. `AllocError` where memory runs out.
    pub fn way_to(
        &self,
        alloc: Global,
        first: &[Move],
        state: &Waiting,
    ) -> Result<Vec<Move>, AllocError>
        ensures { IfOk result (λ moves. moves.items ≡ way_to first.now self.now.origins state.now) }
    {
        let later = trail(alloc, &self.origins, state.level, state.place)?;
        let mut moves = Vec::from_slice(alloc, first)?;
        moves.extend_from_slice(&later)?;
        Ok(moves)
    }

    /// A new state waits, and its origin is kept.
    fn keep(&mut self, state: Waiting, origin: Origin) -> Result<(), AllocError>
        ensures { OnOk result (self.new ≡ kept self.old state origin) }
    {
        self.origins.push(origin)?;
        self.waiting.push_back(state)?;
        Ok(())
    }

    /// The state to which a move of another one leads, and so many plain steps after it. `Memory` exactly where its number
    /// has no room; `States` where as many are kept as may be; `Depth` where it is too far away to be counted.
    fn next_state(
        &self,
        most: u32,
        parent: &Waiting,
        ahead: u32,
        world: World,
    ) -> Result<Waiting, Cut>
        ensures { MatchResult result (λ state. state ≡ record {
          world = world;
          place = length self.now.origins;
          level = parent.now.level + 1;
          depth = parent.now.depth + 1 + ahead;
        }) (CutsAt most self.now parent.now ahead) }
    {
        let Ok(place) = u32::try_from(self.origins.len()) else {
            return Err(Cut::Memory);
        };
        if most <= place {
            return Err(Cut::States);
        }
        let Some(level) = parent.level.checked_add(1) else {
            return Err(Cut::Depth);
        };
        let Some(before) = parent.depth.checked_add(1) else {
            return Err(Cut::Depth);
        };
        let Some(depth) = before.checked_add(ahead) else {
            return Err(Cut::Depth);
        };
        Ok(Waiting {
            world,
            place,
            level,
            depth,
        })
    }

    /// Adds the canonical form of what a move of a state leads to, and the plain steps after it, unless it's there.
    fn find(
        &mut self,
        alloc: Global,
        transitions: &Transitions<'_>,
        most: u32,
        parent: &Waiting,
        by: Move,
        world: World,
    ) -> Result<(), Cut>
        ensures { (first : List Move) (known : List World)
            → HasKnown transitions.now.program transitions.now.limits first self.old known
            → Follows transitions.now.program transitions.now.limits first self.old.origins parent.now by world
            → OnOk result (Finds transitions.now.program transitions.now.limits first self.old self.new known world) }
    {
        let steps = transitions.limits().steps;
        let room = steps.saturating_sub(parent.depth).saturating_sub(1);
        let (world, ahead) = go_ahead(transitions, world, by.thread, room)?;
        self.turns = self.turns.saturating_add(u64::from(ahead) + 1);
        let world = canonical(alloc, &world)?;
        let fresh = self.states.add(alloc, &world)?;
        if !fresh {
            return Ok(());
        }
        let state = self.next_state(most, parent, ahead, world)?;
        let parent = parent.place;
        self.keep(state, Origin { parent, by, ahead })?;
        Ok(())
    }

    /// Finds what a turn of a thread of a state leads to, as `expand` does; whether the turn isn't refused.
    fn turn(
        &mut self,
        alloc: Global,
        transitions: &Transitions<'_>,
        bounds: Bounds,
        state: &Waiting,
        thread: u8,
    ) -> Result<bool, Cut>
        ensures { (first : List Move) (known : List World)
            → HasKnown transitions.now.program transitions.now.limits first self.old known
            → IsTraced transitions.now.program transitions.now.limits first self.old.origins state.now
            → state.now.depth < transitions.now.limits.steps
            → IfOk result (λ moved. Expands transitions.now.program transitions.now.limits first bounds.no_room self.old
            self.new known state.now.world thread moved) }
    {
        let choice = Choice::NewObject;
        let made = match transitions.successor(&state.world, thread, choice)? {
            None => return Ok(false),
            Some(made) => made,
        };
        let most = bounds.states;
        let asks = made.asks;
        let by = Move { thread, choice };
        self.find(alloc, transitions, most, state, by, made.world)?;
        if bounds.no_room && asks {
            let choice = Choice::NoRoom;
            let Some(other) = transitions.successor(&state.world, thread, choice)? else {
                return Ok(true);
            };
            let by = Move { thread, choice };
            self.find(alloc, transitions, most, state, by, other.world)?;
        }
        Ok(true)
    }

    /// Finds what the turns of all threads of a state lead to: each with a free cell, and with `no_room` also without one,
    /// where it asks for one. Whether some thread's turn isn't refused. `States` where there would be more states than may
    /// be kept, `Memory` where memory runs out or a number has no room.
    pub fn expand(
        &mut self,
        alloc: Global,
        transitions: &Transitions<'_>,
        bounds: Bounds,
        state: &Waiting,
    ) -> Result<bool, Cut>
        ensures { (first : List Move) (known : List World)
            → HasKnown transitions.now.program transitions.now.limits first self.old known
            → IsTraced transitions.now.program transitions.now.limits first self.old.origins state.now
            → state.now.depth < transitions.now.limits.steps
            → IfOk result (λ moved. ExpandsAll transitions.now.program transitions.now.limits first bounds.no_room self.old
            self.new known state.now.world moved) }
    {
        let mut moved = false;
        for place in 0..state.world.threads().len() {
            let Ok(thread) = u8::try_from(place) else {
                return Err(Cut::Memory);
            };
            let turned = self.turn(alloc, transitions, bounds, state, thread)?;
            moved = either(moved, turned);
        }
        Ok(moved)
    }
}
