//! A run beside a reference: the turns of its journal are made once more by a second world and by the reference, and
//! what the cells show is compared after each.
ghost use Rattle.std.specs.Prelude.{◌≡◌, ◌<◌, ◌↔◌, [], Decides, IfOk, IsTrue, None, Some, true};
ghost use Rattle.model.specs.Journals.{AreOfWorkers};
ghost use Rattle.model.specs.Machines.{noted, row_for};
ghost use Rattle.model.specs.Shows.{Shows};
ghost use Rattle.comparison.specs.Checking.{reference_of};
ghost use Rattle.comparison.specs.Compared.{AgreesIf, IsFirstOther};
ghost use Rattle.scheduler.specs.OnCells.{cells_of, heap_on};
ghost use Rattle.scheduler.specs.Replaying.{with_all};

use crate::references::{IdealReference, Reference};
use crate::showing::shows_world;
use model::journals::Row;
use model::row_runs::Rows;
use model::watching::{Unwatched, Watch};
use scheduler::replaying::{SoundJournal, turn_row};
use scheduler::worlds::{World, WorldError};
use std::alloc::{AllocError, Global};

/// Whether a turn made this row.
fn is_row(made: Option<Row>, row: Row) -> bool
    ensures { Decides result (made ≡ Some row) }
{
    made == Some(row)
}

/// Makes the turn of a row in a world, and after the world's rows in a reference. Whether the turn makes this row, and
/// the world's cells show the reference then. `AllocError` where memory runs out, here and below.
fn agrees_after<R: Reference>(
    world: &mut World,
    reference: &mut R,
    row: Row,
) -> Result<bool, AllocError>
    requires beside { R.beside reference.old world.old }
    requires worker { row.worker < world.old.journal.workers }
    ensures agrees { IfOk result (λ agrees. AgreesIf R.shown R.beside world.old row agrees) }
    ensures world { IfOk result (λ agrees. agrees ≡ true → world.new ≡ noted world.old row) }
    ensures beside { IfOk result (λ agrees. agrees ≡ true → R.beside reference.new (noted world.old row)) }
{
    reference.follow(world, row)?;
    let made = turn_row(world, row.actor, row.worker);
    if !is_row(made, row) {
        return Ok(false);
    }
    let shown = shows_world(world, reference.world())?;
    Ok(shown)
}

/// Compares a world that has made no turn with a reference, over the rows of a journal: makes the turn of each in both.
/// The first row, from 1, that is another one than the turn makes, or after which the world's cells don't show what the
/// reference shows (`shows`); `None` where there is none. A watch is told after each row after which they do.
/// `AllocError` where memory runs out. It takes time in proportion to the heap and the frames for each row.
pub fn compare<R: Reference, P: Watch>(
    world: &mut World,
    reference: &mut R,
    mut rows: Rows<'_>,
    watch: &mut P,
) -> Result<Option<usize>, AllocError>
    requires empty { world.old.journal.rows ≡ [] }
    requires workers { AreOfWorkers world.old.journal.workers rows }
    requires beside { R.beside reference.old world.old }
    ensures first { IfOk result (λ first. IsFirstOther R.shown R.beside 0 world.old rows.entry first) }
    ensures followed { IfOk result (λ first. first ≡ None
        → R.beside reference.new (with_all world.old rows.entry)) }
{
    let count = rows.len();
    while let Some(row) = rows.next() {
        if !agrees_after(world, reference, row)? {
            return Ok(Some(count - rows.len()));
        }
        let left = rows.len();
        watch.reached(count - left, left);
    }
    Ok(None)
}

/// A world of the same program, shape, limits and workers that has made no turn.
pub fn reopened(alloc: Global, world: &World) -> Result<World, AllocError>
    ensures { IfOk result (λ again. again ≡ with_all world.now []) }
{
    let journal = world.journal();
    world.is_made();
    journal.is_sound();
    let program = world.program().copy()?;
    let mut again = match World::new(alloc, program, journal.shape(), journal.limits()) {
        Ok(again) => again,
        Err(WorldError::Memory) => return Err(AllocError),
        Err(WorldError::Shape | WorldError::Limits | WorldError::Frames) => unreachable!(),
    };
    again.set_workers(journal.workers());
    Ok(again)
}

/// Compares a run with a reference that has made no turn: the turns of the world's journal are made once more, by a
/// second world and by the reference. The first row, from 1, after which the second world's cells don't show what the
/// reference shows; `None` where there is none. A watch is told after each row after which they do. `AllocError` where
/// memory runs out.
pub fn difference<R: Reference, P: Watch>(
    alloc: Global,
    world: &World,
    reference: &mut R,
    watch: &mut P,
) -> Result<Option<usize>, AllocError>
    requires { R.beside reference.old (with_all world.now []) }
    ensures first { IfOk result (λ first. IsFirstOther R.shown R.beside 0 (with_all world.now [])
        world.now.journal.rows first) }
    ensures followed { IfOk result (λ first. first ≡ None → R.beside reference.new world.now) }
{
    let mut again = reopened(alloc, world)?;
    let journal = world.journal();
    let first = compare(&mut again, reference, journal.rows(), watch)?;
    Ok(first)
}

/// The last row, where the cells of a world don't show the ideal run that has followed its rows: they do.
fn last_difference(
    world: &World,
    reference: &IdealReference<'_>,
) -> Result<Option<usize>, AllocError>
    requires { reference.now.run ≡ reference_of world.now }
    ensures { IfOk result (λ row. row ≡ None) }
{
    world.loses_nothing();
    if shows_world(world, reference.world())? {
        Ok(None)
    } else {
        Ok(Some(world.journal().rows().len()))
    }
}

/// Compares a run with the ideal run of its program, which has made no turn.
fn difference_by<P: Watch>(
    alloc: Global,
    world: &World,
    reference: &mut IdealReference<'_>,
    watch: &mut P,
) -> Result<Option<usize>, AllocError>
    requires program { world.now.program ≡ reference.old.program.now }
    requires run { reference.old.run ≡ reference_of (with_all world.now []) }
    ensures { IfOk result (λ row. row ≡ None) }
{
    world.journal().is_sound();
    world.is_made();
    match difference(alloc, world, reference, watch)? {
        Some(row) => Ok(Some(row)),
        None => last_difference(world, reference),
    }
}

/// Compares a run with the reference, the ideal run of its program, which is plain code beside the definitions and on
/// whose heap nothing is ever freed: the turns of the journal are made once more, by a second world and by the ideal
/// run, and what the cells show is compared with it after each (`shows`), and in the end what the world itself shows.
/// The first row, from 1, after which they differ: none, since world and ideal run are proved. `AllocError` where
/// memory runs out. It takes time in proportion to the heap and the frames for each row.
pub fn first_difference(alloc: Global, world: &World) -> Result<Option<usize>, AllocError>
    ensures { IfOk result (λ row. row ≡ None) }
{
    let mut watch = Unwatched;
    first_difference_watched(alloc, world, &mut watch)
}

/// The same row as `first_difference`, or `AllocError`, with a watch that is told after each row how many are done and
/// how many are left.
pub fn first_difference_watched<P: Watch>(
    alloc: Global,
    world: &World,
    watch: &mut P,
) -> Result<Option<usize>, AllocError>
    ensures { IfOk result (λ row. row ≡ None) }
{
    let mut reference = IdealReference::of(alloc, world)?;
    difference_by(alloc, world, &mut reference, watch)
}
