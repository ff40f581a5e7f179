//! The outcomes that a search finds.
ghost use Rattle.std.specs.Prelude.{◌≡◌, [], IfOk, OnErr, OnOk, map};
ghost use Rattle.exploration.specs.Observations.{end_of, observed};
ghost use Rattle.exploring.specs.Explorations.{noted};
ghost use Rattle.exploring.specs.Expansion.{way_to};

use crate::explored::{Found, Move, Outcome};
use crate::keys::Key;
use crate::search::{Search, Waiting};
use exploration::ends::End;
use ideal_run::Transitions;
use ideal_run::worlds::{Thread, ThreadState, World};
use indexmap::IndexSet;
use std::alloc::{AllocError, Global};
use std::marker::Model;

/// What a thread has come to.
fn end_of(thread: &Thread) -> Result<End, AllocError>
    ensures { IfOk result (λ end. end ≡ end_of thread.now) }
{
    match &thread.state {
        ThreadState::Live(_) => Ok(End::Lives),
        ThreadState::Ended(None) => Ok(End::Ended(None)),
        ThreadState::Ended(Some(class)) => Ok(End::Ended(Some(class.share()?))),
    }
}

fn ends_of(alloc: Global, threads: &[Thread]) -> Result<Vec<End>, AllocError>
    ensures { IfOk result (λ ends. ends.items ≡ map end_of threads.now) }
{
    let mut ends = Vec::with_capacity(alloc, threads.len())?;
    for thread in threads {
        ends.push(end_of(thread)?)?;
    }
    Ok(ends)
}

/// What is observed of a world. `AllocError` where memory runs out.
fn observed(
    alloc: Global,
    transitions: &Transitions<'_>,
    world: &World,
) -> Result<Outcome, AllocError>
    ensures { IfOk result (λ outcome. outcome ≡ observed transitions.now.program world.now) }
{
    let status = transitions.status(world)?;
    let ends = ends_of(alloc, world.threads())?;
    Ok(Outcome {
        output: Vec::from_slice(alloc, world.output())?,
        fault: world.fault(),
        ends,
        status,
    })
}

/// Outcomes, each once, in the order in which they came; of each its key. A contract sees both.
#[derive(Drop)]
pub struct Outcomes {
    keys: IndexSet<Key>,
    found: Vec<Found>,
}

impl Model for Outcomes {
    ghost use Rattle.exploring.specs.Explorations.{Outcomes};

    ghost Value = { Outcomes };

    ghost view = { λ a. record { keys = a.keys.keys; found = a.found.items } };
}

impl Outcomes {
    /// No outcomes.
    pub fn new(alloc: Global) -> Outcomes
        ensures { result ≡ record { keys = []; found = [] } }
    {
        Outcomes {
            keys: IndexSet::new(alloc),
            found: Vec::new(alloc),
        }
    }

    /// The outcomes, in the order in which they came.
    pub fn found(&self) -> &[Found]
        ensures { result.now ≡ self.now.found }
    {
        self.found.as_slice()
    }

    /// The outcomes.
    pub fn into_found(self) -> Vec<Found>
        ensures { result.items ≡ self.found }
    {
        self.found
    }

    /// Adds what is observed of a state, to which moves after the first ones led, unless it's there. `AllocError` where
    /// memory runs out; then the outcomes are as they were, and no more can be added.
    pub fn note(
        &mut self,
        alloc: Global,
        transitions: &Transitions<'_>,
        search: &Search,
        first: &[Move],
        state: &Waiting,
    ) -> Result<(), AllocError>
        ensures noted { OnOk result (self.new ≡ noted self.old (observed transitions.now.program state.now.world)
            (way_to first.now search.now.origins state.now)) }
        ensures kept { OnErr result (self.new.found ≡ self.old.found) }
    {
        let outcome = observed(alloc, transitions, &state.world)?;
        let key = Key::of_outcome(alloc, &outcome)?;
        let (_, fresh) = self.keys.insert_full(key)?;
        if fresh {
            let witness = search.way_to(alloc, first, state)?;
            self.found.push(Found { outcome, witness })?;
        }
        Ok(())
    }
}
