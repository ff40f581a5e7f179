//! The ideal run (JVMS 2.5, 2.6): a program's world, moved by actors and choices.
ghost use Rattle.std.specs.Prelude.{◌≡◌, ◌<◌, ℕ, IfOk, OnErr, OnOk, None, true, false};
ghost use Rattle.model.specs.Turns.{ideal_step};
ghost use Rattle.model.specs.declared.turns.Actor.TheVariants.{Thread as ThreadActor};
ghost use Rattle.ideal_run.specs.Completed.{reported};
ghost use Rattle.ideal_run.specs.Effected.{choice_in, refuses};
ghost use Rattle.ideal_run.specs.Runs.{AreOpened, opening_run, run_after};

use crate::completions::Completion;
use crate::effects::{Choice, carry_out};
use crate::opening::opening_world;
use crate::programs::Program;
use crate::table::completion;
use crate::worlds::World;
use model::journals::Limits;
use model::listings::Listing;
use model::turns::Actor;
use std::alloc::{AllocError, Global};
use std::marker::Model;

/// The reference run of a program: its world, on which nothing is ever freed, with the limits of the run. A contract
/// sees program, limits and world.
#[derive(Drop)]
pub struct Ideal<'a> {
    alloc: Global,
    program: Program<'a>,
    limits: Limits,
    world: World,
}

impl<'a> Model for Ideal<'a> {
    ghost use Rattle.ideal_run.specs.Runs.{Run};

    ghost Value = { Run };

    ghost view = { λ a. record { program = a.program; limits = a.limits; world = a.world } };
}

/// Whether a completion refuses the turn of a thread that lives: it waits, or prints more than the output has room for.
pub fn is_refused(limits: Limits, world: &World, completion: &Completion) -> bool
    ensures { (t : ℕ) → result ≡ refuses limits world.now (reported world.now t completion.now) }
{
    match completion {
        Completion::Waits => true,
        Completion::Prints(_, bytes) => {
            (limits.output as usize) < world.output().len() + bytes.len()
        }
        Completion::Goes(_, _) => false,
        Completion::Starts(_, _, _) => false,
        Completion::Creates(_, _, _) => false,
        Completion::Throws(_) => false,
        Completion::Raises(_) => false,
        Completion::Denies(_) => false,
        Completion::Faults(_) => false,
    }
}

/// The turn of a thread where no fault is recorded and the limit of turns isn't reached.
#[tactic(auto, using(crate::proofs::TurnLemmas::turns))]
fn thread_turn(
    world: &mut World,
    alloc: Global,
    program: &Program<'_>,
    limits: Limits,
    thread: u8,
    choice: Choice,
) -> Result<(), AllocError>
    requires clean { world.old.fault ≡ None }
    requires more { world.old.rows < limits.steps }
    ensures { OnOk result (world.new ≡ ideal_step program.now limits world.old (ThreadActor thread)
        (choice_in choice)) }
{
    if !world.is_live(u32::from(thread)) {
        return Ok(());
    }
    let completion = completion(alloc, program, world, thread)?;
    if is_refused(limits, world, &completion) {
        return Ok(());
    }
    carry_out(world, alloc, program, thread, choice, completion)?;
    world.count()
}

/// One pair of the ideal run, an actor and its choice.
#[tactic(auto, using(crate::proofs::TurnLemmas::turns))]
fn turn(
    world: &mut World,
    alloc: Global,
    program: &Program<'_>,
    limits: Limits,
    actor: Actor,
    choice: Choice,
) -> Result<(), AllocError>
    ensures { OnOk result (world.new ≡ ideal_step program.now limits world.old actor (choice_in choice)) }
{
    if world.fault().is_some() {
        return Ok(());
    }
    if limits.steps <= world.rows() {
        return Ok(());
    }
    match actor {
        Actor::Thread(thread) => thread_turn(world, alloc, program, limits, thread, choice),
        Actor::Collector => world.count(),
    }
}

impl<'a> Ideal<'a> {
    /// The run of a program before its first turn. `None` where a superclass or superinterface isn't there, or a class
    /// is above itself. `AllocError` where memory runs out.
    pub fn new(
        alloc: Global,
        listings: &'a [Listing],
        limits: Limits,
    ) -> Result<Option<Ideal<'a>>, AllocError>
        ensures { IfOk result (λ run. AreOpened listings.now limits run) }
    {
        match Program::new(alloc, listings)? {
            None => Ok(None),
            Some(program) => {
                let world = opening_world(alloc, &program)?;
                Ok(Some(Ideal {
                    alloc,
                    program,
                    limits,
                    world,
                }))
            }
        }
    }

    /// The world.
    pub fn world(&self) -> &World
        ensures { result.now ≡ self.now.world }
    {
        &self.world
    }

    /// Goes back to before the first turn. `AllocError`, and nothing changed, where memory runs out.
    pub fn reopen(&mut self) -> Result<(), AllocError>
        ensures opened { OnOk result (self.new ≡ opening_run self.old.program self.old.limits) }
        ensures kept { OnErr result (self.new ≡ self.old) }
    {
        self.world = opening_world(self.alloc, &self.program)?;
        Ok(())
    }

    /// One pair of the run, an actor and its choice: a turn, unless a rule refuses it. A collector's turn changes
    /// nothing but the count of turns. `AllocError` where memory runs out, or where a number has no room; then nothing
    /// is said of the run.
    pub fn turn(&mut self, actor: Actor, choice: Choice) -> Result<(), AllocError>
        ensures { OnOk result (self.new ≡ run_after self.old actor (choice_in choice)) }
    {
        turn(
            &mut self.world,
            self.alloc,
            &self.program,
            self.limits,
            actor,
            choice,
        )
    }
}
