//! A world from its program and its journal.
ghost use Rattle.std.specs.Prelude.{◌≡◌, ◌+◌, ◌<◌, ◌≤◌, ◌↔◌, [], IfOk, IfErr, IfSome, MatchResult, OnOk, IsTrue};
ghost use Rattle.std.specs.Prelude.{Some, length, slice_get, true};
ghost use Rattle.model.specs.Journals.{HeadFits, AreOfWorkers};
ghost use Rattle.model.specs.Machines.{after_turn_by, row_for};
ghost use Rattle.scheduler.specs.Differing.{Excuses};
ghost use Rattle.scheduler.specs.Replaying.{IsMade, with_all};

use crate::worlds::{World, WorldError};
use loader::programs::Program;
use model::journal_parts::JournalParts;
use model::journals::{Journal, Row};
use model::row_runs::Rows;
use model::stored_journals::StoredJournal;
use model::turns::Actor;
use model::watching::{Unwatched, Watch};
use std::alloc::Global;
use thiserror::Error;

/// Why a journal doesn't replay.
#[derive(Clone, Copy, Debug, PartialEq, Eq, Drop, Error)]
pub enum ReplayError {
    /// N5: the first row, counted from 1, whose outcome isn't that of its turn, or whose turn is refused.
    #[error("N5 at row {0}")]
    Row(usize),
    /// N6: memory ran out.
    #[error("N6")]
    Memory,
    /// P4: the frames with which thread 0 opens pass a thread's limits.
    #[error("P4")]
    Frames,
}

/// A journal whose shape and limits are in range, with 1 to 9 workers and no row of another one.
pub trait SoundJournal: JournalParts {
    /// Every such journal is so.
    fn is_sound(&self)
        ensures head { HeadFits (Self.journal_of self.now).shape (Self.journal_of self.now).limits
            (Self.journal_of self.now).workers }
        ensures rows { AreOfWorkers (Self.journal_of self.now).workers (Self.journal_of self.now).rows };
}

impl SoundJournal for Journal {
    fn is_sound(&self) {
        let _workers = Journal::workers(self);
        let _rows = Journal::rows(self);
    }
}

impl SoundJournal for StoredJournal {
    fn is_sound(&self) {
        let _workers = StoredJournal::workers(self);
        let _rows = StoredJournal::rows(self);
    }
}

/// The row after so many, if there is one: the last.
fn row_after(rows: Rows<'_>, before: usize) -> Option<Row>
    requires { length rows ≤ before + 1 }
    ensures { result ≡ slice_get rows.entry before }
{
    if before < rows.len() {
        rows.last()
    } else {
        None
    }
}

/// One turn of an actor, made by a worker; the row that it made, if it made one.
pub fn turn_row(world: &mut World, actor: Actor, worker: u8) -> Option<Row>
    requires { worker < world.old.journal.workers }
    ensures before { IsMade world.old }
    ensures world { world.new ≡ after_turn_by world.old actor worker }
    ensures row { result ≡ row_for world.old actor worker }
{
    world.is_made();
    let before = world.journal().rows().len();
    let _ = world.turn_by(actor, worker);
    row_after(world.journal().rows(), before)
}

/// Whether a turn made this row.
fn is_row(made: Option<Row>, row: Row) -> bool
    ensures { IsTrue result ↔ (made ≡ Some row) }
{
    made == Some(row)
}

/// Makes one turn for each row, in a world that has made none: N5 with the first row that isn't the one of its turn. A
/// watch is told after each row that is.
fn make_rows<P: Watch>(
    world: &mut World,
    mut rows: Rows<'_>,
    watch: &mut P,
) -> Result<(), ReplayError>
    requires empty { world.old.journal.rows ≡ [] }
    requires workers { AreOfWorkers world.old.journal.workers rows }
    ensures { MatchResult result (λ _. world.new
        ≡ with_all world.old rows.entry) (Excuses (with_all world.old rows.entry)) }
{
    let count = rows.len();
    while let Some(row) = rows.next() {
        let made = turn_row(world, row.actor, row.worker);
        if !is_row(made, row) {
            return Err(ReplayError::Row(count - rows.len()));
        }
        let left = rows.len();
        watch.reached(count - left, left);
    }
    Ok(())
}

/// Whether both have the same rows.
fn are_same(mut made: Rows<'_>, mut wanted: Rows<'_>) -> bool
    ensures { result ≡ true → made.entry ≡ wanted.entry }
{
    if made.len() != wanted.len() {
        return false;
    }
    while let Some(row) = wanted.next() {
        if !is_row(made.next(), row) {
            return false;
        }
    }
    true
}

/// How many turns of the collector follow the first row.
fn collected_first(mut rows: Rows<'_>) -> u32 {
    let _first = rows.next();
    let mut collected: u32 = 0;
    while let Some(row) = rows.next() {
        match row.actor {
            Actor::Thread(_) => return collected,
            Actor::Collector => collected = collected.saturating_add(1),
        }
    }
    collected
}

/// How many rounds so many rows are, the last of which may have fewer turns of the collector than the others.
fn rounds_of(rows: usize, gc: u32) -> u32 {
    let rounds = (rows as u64).saturating_add(u64::from(gc)) / (u64::from(gc) + 1);
    rounds.min(u64::from(u32::MAX)) as u32
}

/// The world of a program and a journal whose rows are those of rounds by worker 0, which many in one call make. `None`
/// where they aren't, or where that can't be had. Which rounds they may be the rows tell: how many turns of the
/// collector follow the first, and how many rows there are.
fn made_in_rounds<J: SoundJournal>(alloc: Global, program: &Program, journal: &J) -> Option<World>
    ensures { IfSome result (λ world. world
        ≡ record { program = program.now; journal = J.journal_of journal.now }) }
{
    journal.is_sound();
    if journal.workers() > 1 {
        return None;
    }
    let Ok(copy) = program.copy() else {
        return None;
    };
    let Ok(mut world) = World::new(alloc, copy, journal.shape(), journal.limits()) else {
        return None;
    };
    world.set_workers(journal.workers());
    let gc = collected_first(journal.rows());
    let _ = world.rounds(rounds_of(journal.rows().len(), gc), gc);
    if are_same(world.journal().rows(), journal.rows()) {
        Some(world)
    } else {
        None
    }
}

/// The world of a program and a journal: opened with the journal's shape, limits and workers, and moved by one turn for
/// each row, of its actor and by its worker. It takes a turn's time for each row, and all the memory that it takes is
/// taken at the opening. Where the rows may be those of rounds, as a run by one worker makes them, these are made many in
/// one call first, in a world of their own. If there is no memory for that world, or the rows are others, each row's turn
/// is made by itself, with the same answer: want of memory is told only where the second way meets it.
///
/// N5 tells the first row whose outcome isn't that of its turn; a turn that is refused is such a row, also past the
/// limit of steps. P4 where the frames that the program opens with don't fit a thread; N6 where memory runs out. A
/// journal that a run of the same program made is refused for memory alone.
pub fn replay<J: SoundJournal>(
    alloc: Global,
    program: Program,
    journal: &J,
) -> Result<World, ReplayError>
    ensures world { IfOk result (λ world. world ≡ record { program = program; journal = J.journal_of journal.now }) }
    ensures made { OnOk result (IsMade (record { program = program; journal = J.journal_of journal.now })) }
    ensures refused { IfErr result (Excuses (record { program = program; journal = J.journal_of journal.now })) }
    ensures again { IfErr result (λ e. IsMade (record { program = program; journal = J.journal_of journal.now })
        → e ≡ ReplayError.Memory) }
{
    let mut watch = Unwatched;
    replay_watched(alloc, program, journal, &mut watch)
}

/// The same world or refusal as `replay`, with a watch that is told after each row how many are done and how many are
/// left. Of rounds, which are made many in one call, it is told nothing.
pub fn replay_watched<J: SoundJournal, P: Watch>(
    alloc: Global,
    program: Program,
    journal: &J,
    watch: &mut P,
) -> Result<World, ReplayError>
    ensures world { IfOk result (λ world. world ≡ record { program = program; journal = J.journal_of journal.now }) }
    ensures made { OnOk result (IsMade (record { program = program; journal = J.journal_of journal.now })) }
    ensures refused { IfErr result (Excuses (record { program = program; journal = J.journal_of journal.now })) }
    ensures again { IfErr result (λ e. IsMade (record { program = program; journal = J.journal_of journal.now })
        → e ≡ ReplayError.Memory) }
{
    if let Some(world) = made_in_rounds(alloc, &program, journal) {
        world.is_made();
        return Ok(world);
    }
    journal.is_sound();
    let mut world = match World::new(alloc, program, journal.shape(), journal.limits()) {
        Ok(world) => world,
        Err(WorldError::Frames) => return Err(ReplayError::Frames),
        Err(WorldError::Memory) => return Err(ReplayError::Memory),
        Err(WorldError::Shape | WorldError::Limits) => unreachable!(),
    };
    world.set_workers(journal.workers());
    match make_rows(&mut world, journal.rows(), watch) {
        Ok(()) => {
            world.is_made();
            Ok(world)
        }
        Err(error) => Err(error),
    }
}
