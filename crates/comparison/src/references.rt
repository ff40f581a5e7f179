//! What plays the reference's part beside a world.
ghost use Rattle.std.specs.Prelude.{◌≡◌, ◌↔◌, [], IfOk, IsTrue, OnOk, None, Some};
ghost use Rattle.std.specs.List.{All};
ghost use Rattle.model.specs.declared.journals.Outcome.TheVariants.{Fault};
ghost use Rattle.model.specs.Machines.{Recorded, noted};
ghost use Rattle.model.specs.Worlds.{World};
ghost use Rattle.ideal_run.specs.Effected.{choice_in};
ghost use Rattle.ideal_run.specs.Runs.{opening_run};
ghost use Rattle.comparison.specs.Checking.{IsNoFault, reference_of, reported_choice};
ghost use Rattle.scheduler.specs.Replaying.{with_all};

use ideal_run::worlds::World as IdealWorld;
use ideal_run::{Choice, Ideal};
use loader::programs::Program;
use model::journals::{Limits, Outcome, Row};
use scheduler::worlds::World;
use std::alloc::{AllocError, Global};

/// Shows a world, and follows the rows of another one.
pub trait Reference {
    /// the world that it shows
    ghost shown: { Self → World };

    /// it has followed the rows of this world
    ghost beside: { Self → Recorded → Type 0 };

    /// The world that it shows.
    fn world(&self) -> &IdealWorld
        ensures { result.now ≡ shown self.now };

    /// Makes the turn of a row after the rows of a world. `AllocError` where memory runs out; then nothing is said of
    /// it.
    fn follow(&mut self, world: &World, row: Row) -> Result<(), AllocError>
        requires { beside self.old world.now }
        ensures { OnOk result (beside self.new (noted world.now row)) };
}

/// The ideal run of a program, which is plain code beside the definitions, as the reference of the program's worlds.
#[derive(Drop)]
pub struct IdealReference<'a> {
    alloc: Global,
    pub(crate) program: &'a Program,
    pub(crate) run: Ideal<'a>,
}

impl<'a> IdealReference<'a> {
    /// The ideal run before its first turn. `AllocError` where memory runs out.
    pub fn new(
        alloc: Global,
        program: &'a Program,
        limits: Limits,
    ) -> Result<IdealReference<'a>, AllocError>
        ensures program { IfOk result (λ reference. reference.program.now ≡ program.now) }
        ensures run { IfOk result (λ reference. reference.run ≡ opening_run program.now limits) }
    {
        let run = opened(alloc, program, limits)?;
        Ok(IdealReference {
            alloc,
            program,
            run,
        })
    }

    /// The ideal run of a world's program before its first turn, with which the world may be compared
    /// (`checking::difference`). `AllocError` where memory runs out.
    #[tactic(auto, using(crate::proofs::Followed::reference_opened))]
    pub fn of(alloc: Global, world: &'a World) -> Result<IdealReference<'a>, AllocError>
        ensures program { IfOk result (λ reference. world.now.program ≡ reference.program.now) }
        ensures run { IfOk result (λ reference. reference.run ≡ reference_of (with_all world.now [])) }
    {
        match IdealReference::new(alloc, world.program(), world.journal().limits()) {
            Ok(reference) => Ok(reference),
            Err(error) => Err(error),
        }
    }
}

impl<'a> Reference for IdealReference<'a> {
    ghost shown = { λ s. s.run.world };

    ghost beside = { λ s v. (v.program ≡ s.program.now) × (s.run ≡ reference_of v) };

    fn world(&self) -> &IdealWorld {
        self.run.world()
    }

    fn follow(&mut self, world: &World, row: Row) -> Result<(), AllocError> {
        follow(&mut self.run, self.alloc, self.program, world, row)
    }
}

/// The choice that an outcome tells: room, where the turn asked for no cell or was at fault.
fn reported_choice(outcome: Outcome) -> Choice
    ensures { choice_in result ≡ reported_choice outcome }
{
    match outcome {
        Outcome::NoRoom => Choice::NoRoom,
        Outcome::Done | Outcome::Object | Outcome::Fault => Choice::NewObject,
    }
}

/// Whether a row's turn was at fault.
fn is_at_fault(row: Row) -> bool
    ensures { IsTrue result ↔ (row.outcome ≡ Fault) }
{
    row.outcome == Outcome::Fault
}

/// The ideal run of a program before its first turn. `AllocError` where memory runs out, here and below.
fn opened<'a>(alloc: Global, program: &'a Program, limits: Limits) -> Result<Ideal<'a>, AllocError>
    ensures { IfOk result (λ run. run ≡ opening_run program.now limits) }
{
    match Ideal::new(alloc, program.listings(), limits)? {
        Some(run) => Ok(run),
        // a program's classes have their parents, and none is above itself
        None => unreachable!(),
    }
}

/// The ideal run that has followed the rows of a world, none of which is at fault.
fn made_again<'a>(
    alloc: Global,
    program: &'a Program,
    world: &World,
) -> Result<Ideal<'a>, AllocError>
    requires program { world.now.program ≡ program.now }
    requires clean { All IsNoFault world.now.journal.rows }
    ensures { IfOk result (λ run. run ≡ reference_of world.now) }
{
    let journal = world.journal();
    let mut run = opened(alloc, program, journal.limits())?;
    for row in journal.rows() {
        run.turn(row.actor, reported_choice(row.outcome))?;
    }
    Ok(run)
}

/// Makes the turn of a row at fault after the rows of a world. Such a row doesn't tell whether there was room: there
/// was, if the turn comes to a fault with room.
fn follow_fault<'a>(
    run: &mut Ideal<'a>,
    alloc: Global,
    program: &'a Program,
    world: &World,
    row: Row,
) -> Result<(), AllocError>
    requires program { world.now.program ≡ program.now }
    requires beside { run.old ≡ reference_of world.now }
    requires fault { row.outcome ≡ Fault }
    ensures { OnOk result (run.new ≡ reference_of (noted world.now row)) }
{
    world.is_made();
    run.turn(row.actor, Choice::NewObject)?;
    match run.world().fault() {
        Some(_) => Ok(()),
        None => {
            let mut again = made_again(alloc, program, world)?;
            again.turn(row.actor, Choice::NoRoom)?;
            *run = again;
            Ok(())
        }
    }
}

/// Makes the turn of a row after the rows of a world.
fn follow<'a>(
    run: &mut Ideal<'a>,
    alloc: Global,
    program: &'a Program,
    world: &World,
    row: Row,
) -> Result<(), AllocError>
    requires program { world.now.program ≡ program.now }
    requires beside { run.old ≡ reference_of world.now }
    ensures { OnOk result (run.new ≡ reference_of (noted world.now row)) }
{
    if is_at_fault(row) {
        return follow_fault(run, alloc, program, world, row);
    }
    run.turn(row.actor, reported_choice(row.outcome))?;
    Ok(())
}
