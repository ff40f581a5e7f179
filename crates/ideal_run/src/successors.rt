//! What a thread's turn makes of a world, whichever world it is (JVMS 2.5, 2.6): for those who look at every schedule of
//! a program.
ghost use Rattle.std.specs.Prelude.{◌≡◌, ◌<◌, ◌^◌, ℕ, IfOk, OnErr, false, is_some, length, slice_get};
ghost use Rattle.std.specs.Option.{option_copied, option_map_or};
ghost use Rattle.model.specs.Completions.{asks, waits};
ghost use Rattle.model.specs.Initialisation.{declares_initializer, runs_initializer};
ghost use Rattle.model.specs.Observers.{status_in};
ghost use Rattle.model.specs.Programs.{instruction_of};
ghost use Rattle.model.specs.Ready.{is_ready, some_is_ready, some_lives};
ghost use Rattle.model.specs.Worlds.{opening_world};
ghost use Rattle.ideal_run.specs.Completed.{reported};
ghost use Rattle.ideal_run.specs.Effected.{choice_in};
ghost use Rattle.ideal_run.specs.Successors.{AreTransitions, successor};

use crate::completions::Completion;
use crate::copies::copy;
use crate::effects::{Choice, carry_out};
use crate::frames::Frame;
use crate::ideal::is_refused;
use crate::initialisation::declares_initializer;
use crate::opening::opening_world;
use crate::programs::Program;
use crate::table::completion;
use crate::worlds::World;
use model::journals::Limits;
use model::listings::{Listing, Placed};
use model::turns::Status;
use std::alloc::{AllocError, Global};
use std::marker::Model;

/// The turns of a program's threads under some limits. A contract sees the program and the limits.
#[derive(Drop)]
pub struct Transitions<'a> {
    alloc: Global,
    program: Program<'a>,
    limits: Limits,
}

impl<'a> Model for Transitions<'a> {
    ghost use Rattle.ideal_run.specs.Successors.{Transitions};

    ghost Value = { Transitions };

    ghost view = { λ a. record { program = a.program; limits = a.limits } };
}

/// What a turn leaves, its row not counted, and whether it asks for a cell: if it does, the other choice may leave
/// another world.
#[derive(Drop)]
pub struct Successor {
    pub world: World,
    pub asks: bool,
}

impl Model for Successor {
    ghost use Rattle.ideal_run.specs.Successors.{Successor};

    ghost Value = { Successor };

    ghost view = { λ a. record { world = a.world; asks = a.asks } };
}

/// Whether a completion asks for a cell.
fn asks(completion: &Completion) -> bool
    ensures { (w : World) (t : ℕ) → result ≡ is_some (asks (reported w t completion.now)) }
{
    match completion {
        Completion::Creates(_, _, _) => true,
        Completion::Raises(_) => true,
        Completion::Denies(_) => true,
        Completion::Goes(_, _) => false,
        Completion::Starts(_, _, _) => false,
        Completion::Prints(_, _) => false,
        Completion::Throws(_) => false,
        Completion::Faults(_) => false,
        Completion::Waits => false,
    }
}

/// Whether a completion waits.
fn waits(completion: &Completion) -> bool
    ensures { (w : World) (t : ℕ) → result ≡ waits (reported w t completion.now) }
{
    match completion {
        Completion::Waits => true,
        Completion::Goes(_, _) => false,
        Completion::Starts(_, _, _) => false,
        Completion::Prints(_, _) => false,
        Completion::Creates(_, _, _) => false,
        Completion::Throws(_) => false,
        Completion::Raises(_) => false,
        Completion::Denies(_) => false,
        Completion::Faults(_) => false,
    }
}

/// Whether some thread lives. `AllocError` only where there are more threads than 32 bits count.
fn some_lives(world: &World) -> Result<bool, AllocError>
    ensures lives { IfOk result (λ lives. lives ≡ some_lives world.now) }
    ensures more { OnErr result (2 ^ 32 < length world.now.threads) }
{
    for place in 0..world.threads().len() {
        let Ok(thread) = u32::try_from(place) else {
            return Err(AllocError);
        };
        if world.is_live(thread) {
            return Ok(true);
        }
    }
    Ok(false)
}

impl<'a> Transitions<'a> {
    /// The turns of a program. `None` where a superclass or superinterface isn't there, or a class is above itself.
    /// `AllocError` where memory runs out.
    pub fn new(
        alloc: Global,
        listings: &'a [Listing],
        limits: Limits,
    ) -> Result<Option<Transitions<'a>>, AllocError>
        ensures { IfOk result (λ transitions. AreTransitions listings.now limits transitions) }
    {
        match Program::new(alloc, listings)? {
            None => Ok(None),
            Some(program) => Ok(Some(Transitions {
                alloc,
                program,
                limits,
            })),
        }
    }

    /// The classes of the program.
    pub fn listings(&self) -> &'a [Listing]
        ensures { result.now ≡ self.now.program }
    {
        self.program.listings()
    }

    /// The limits.
    pub fn limits(&self) -> Limits
        ensures { result ≡ self.now.limits }
    {
        self.limits
    }

    /// The world before the first turn. `AllocError` where memory runs out.
    pub fn opening(&self) -> Result<World, AllocError>
        ensures { IfOk result (λ world. world ≡ opening_world self.now.program) }
    {
        opening_world(self.alloc, &self.program)
    }

    /// What a turn of a thread leaves of a world, which stays as it is; `None` where the turn is refused. `AllocError`
    /// where memory runs out, or where a number has no room.
    #[tactic(auto, using(crate::proofs::SuccessorLemmas::successors))]
    pub fn successor(
        &self,
        world: &World,
        thread: u8,
        choice: Choice,
    ) -> Result<Option<Successor>, AllocError>
        ensures { IfOk result (λ after. after ≡ successor self.now world.now thread (choice_in choice)) }
    {
        if world.fault().is_some() {
            return Ok(None);
        }
        if self.limits.steps <= world.rows() {
            return Ok(None);
        }
        if !world.is_live(u32::from(thread)) {
            return Ok(None);
        }
        let completion = completion(self.alloc, &self.program, world, thread)?;
        if is_refused(self.limits, world, &completion) {
            return Ok(None);
        }
        let asks = asks(&completion);
        let mut after = copy(self.alloc, world)?;
        carry_out(
            &mut after,
            self.alloc,
            &self.program,
            thread,
            choice,
            completion,
        )?;
        Ok(Some(Successor { world: after, asks }))
    }

    /// The instruction at which a frame stands, with its pc and the next.
    pub fn instruction_of(&self, frame: &Frame) -> Option<&Placed>
        ensures { option_copied result ≡ instruction_of self.now.program frame.now }
    {
        self.program.instruction_of(frame)
    }

    /// Whether a frame runs a class initializer.
    pub fn runs_initializer(&self, frame: &Frame) -> bool
        ensures { result ≡ runs_initializer self.now.program frame.now }
    {
        self.program.runs_initializer(frame)
    }

    /// Whether the class of a place declares an initializer.
    pub fn declares_initializer(&self, class: usize) -> bool
        ensures { result ≡ option_map_or declares_initializer (slice_get self.now.program class) false }
    {
        match self.program.listings().get(class) {
            None => false,
            Some(listing) => declares_initializer(listing),
        }
    }

    /// Whether a thread is ready.
    #[tactic(auto, using(crate::proofs::StatusLemmas::statuses))]
    fn is_ready(&self, world: &World, thread: u8) -> Result<bool, AllocError>
        ensures { IfOk result (λ ready. ready ≡ is_ready self.now.program world.now thread) }
    {
        if world.fault().is_some() {
            return Ok(false);
        }
        if !world.is_live(u32::from(thread)) {
            return Ok(false);
        }
        let completion = completion(self.alloc, &self.program, world, thread)?;
        Ok(!waits(&completion))
    }

    /// Whether some thread is ready.
    fn some_is_ready(&self, world: &World) -> Result<bool, AllocError>
        ensures { IfOk result (λ ready. ready ≡ some_is_ready self.now.program world.now) }
    {
        for place in 0..world.threads().len() {
            let Ok(thread) = u8::try_from(place) else {
                return Err(AllocError);
            };
            if self.is_ready(world, thread)? {
                return Ok(true);
            }
        }
        Ok(false)
    }

    /// How a world stands. `AllocError` where memory runs out, or where a thread's number has no room.
    pub fn status(&self, world: &World) -> Result<Status, AllocError>
        ensures { IfOk result (λ status. status ≡ status_in self.now.program world.now) }
    {
        if world.fault().is_some() {
            return Ok(Status::Faulted);
        }
        if !some_lives(world)? {
            return Ok(Status::Finished);
        }
        if self.some_is_ready(world)? {
            return Ok(Status::Running);
        }
        Ok(Status::Stuck)
    }
}
