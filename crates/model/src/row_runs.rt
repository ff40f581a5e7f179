//! Rows kept as runs: four bytes for up to 255 equal ones that are noted at once, for one that is noted alone, and for
//! up to 255 rounds of a thread's turn and one of the collector.
ghost use Rattle.std.specs.Prelude.{◌≡◌, ◌+◌, ◌-◌, ◌++◌, ◌<◌, ◌≤◌, ◌↔◌, [], ◌∷◌, IfOk, OnErr, OnOk, length, replicate};
ghost use Rattle.std.specs.Prelude.{IfSome, slice_get, vec_capacity, vec_len};
ghost use Rattle.std.specs.List.{repeat};
ghost use Rattle.model.specs.Journals.{rows_of_rounds};
ghost use Rattle.model.specs.RowRuns.{AreRuns, first_row, is_round, last_row, row_after, rows_count, rows_in, rows_of};
ghost use Rattle.model.specs.RowRuns.{taken};

use crate::journals::{Outcome, Row};
use crate::turns::Actor;
use std::alloc::{AllocError, Global};
use std::marker::Model;

/// Who took a turn and what came of it, in two bytes: a thread's number, or the collector. `Round` stands for two
/// turns, both done: the thread's, and after it one of the collector.
#[derive(Clone, Copy, PartialEq, Eq)]
pub enum TurnTaken {
    Done(u8),
    Object(u8),
    NoRoom(u8),
    Fault(u8),
    CollectorDone,
    CollectorObject,
    CollectorNoRoom,
    CollectorFault,
    Round(u8),
}

/// A row, or the two of a round, so many times, once at least.
#[derive(Clone, Copy)]
pub struct RowRun {
    turn: TurnTaken,
    worker: u8,
    times: u8,
}

#[inline]
fn taken(actor: Actor, outcome: Outcome) -> TurnTaken
    ensures { result ≡ taken actor outcome }
{
    match actor {
        Actor::Thread(thread) => match outcome {
            Outcome::Done => TurnTaken::Done(thread),
            Outcome::Object => TurnTaken::Object(thread),
            Outcome::NoRoom => TurnTaken::NoRoom(thread),
            Outcome::Fault => TurnTaken::Fault(thread),
        },
        Actor::Collector => match outcome {
            Outcome::Done => TurnTaken::CollectorDone,
            Outcome::Object => TurnTaken::CollectorObject,
            Outcome::NoRoom => TurnTaken::CollectorNoRoom,
            Outcome::Fault => TurnTaken::CollectorFault,
        },
    }
}

impl TurnTaken {
    ghost use Rattle.std.specs.Prelude.{◌≡◌};
    ghost use Rattle.model.specs.RowRuns.{actor_of, is_round, outcome_of};

    /// Whether it stands for two turns.
    fn is_round(self) -> bool
        ensures { result ≡ is_round self }
    {
        matches!(self, TurnTaken::Round(_))
    }

    fn actor(self) -> Actor
        ensures { result ≡ actor_of self }
    {
        match self {
            TurnTaken::Done(thread)
            | TurnTaken::Object(thread)
            | TurnTaken::NoRoom(thread)
            | TurnTaken::Fault(thread)
            | TurnTaken::Round(thread) => Actor::Thread(thread),
            TurnTaken::CollectorDone
            | TurnTaken::CollectorObject
            | TurnTaken::CollectorNoRoom
            | TurnTaken::CollectorFault => Actor::Collector,
        }
    }

    fn outcome(self) -> Outcome
        ensures { result ≡ outcome_of self }
    {
        match self {
            TurnTaken::Done(_) | TurnTaken::CollectorDone | TurnTaken::Round(_) => Outcome::Done,
            TurnTaken::Object(_) | TurnTaken::CollectorObject => Outcome::Object,
            TurnTaken::NoRoom(_) | TurnTaken::CollectorNoRoom => Outcome::NoRoom,
            TurnTaken::Fault(_) | TurnTaken::CollectorFault => Outcome::Fault,
        }
    }
}

/// Two rows, the second of which comes after the first, as one turn.
fn round_of(first: Row, second: Row) -> Option<TurnTaken>
    ensures { IfSome result (λ turn. rows_of turn first.worker ≡ first ∷ second ∷ []) }
{
    let collected = Row {
        actor: Actor::Collector,
        outcome: Outcome::Done,
        worker: first.worker,
    };
    if second != collected {
        return None;
    }
    match taken(first.actor, first.outcome) {
        TurnTaken::Done(thread) => Some(TurnTaken::Round(thread)),
        _ => None,
    }
}

impl RowRun {
    /// The first of the rows for which it stands.
    fn first(self) -> Row
        ensures { result ≡ first_row self.turn self.worker }
    {
        Row {
            actor: self.turn.actor(),
            outcome: self.turn.outcome(),
            worker: self.worker,
        }
    }

    /// The last of them.
    fn last(self) -> Row
        ensures { result ≡ last_row self.turn self.worker }
    {
        if self.turn.is_round() {
            Row {
                actor: Actor::Collector,
                outcome: Outcome::Done,
                worker: self.worker,
            }
        } else {
            self.first()
        }
    }

    /// The one that comes after so many.
    fn after(self, passed: u16) -> Row
        ensures { result ≡ row_after self passed }
    {
        if passed % 2 == 0 {
            self.first()
        } else {
            self.last()
        }
    }

    /// How many there are.
    fn count(self) -> u16
        ensures { result ≡ rows_count self }
    {
        let times = u16::from(self.times);
        if self.turn.is_round() {
            times + times
        } else {
            times
        }
    }

    /// How many of so many more rows of this kind the run has room for: none where its own row is another.
    fn room_for(self, row: Row, times: u32) -> u8
        ensures same { 0 < result → rows_of self.turn self.worker ≡ row ∷ [] }
        ensures most { result ≤ times }
        ensures fits { self.times + result ≤ 255 }
    {
        if self.turn != taken(row.actor, row.outcome) || self.worker != row.worker {
            return 0;
        }
        let room = 255 - self.times;
        if times < u32::from(room) {
            times as u8
        } else {
            room
        }
    }
}

/// Adds a row to the last run, if that is a run of such, up to so many times. How many times it was.
fn lengthen(runs: &mut Vec<RowRun>, row: Row, times: u32) -> u32
    requires { AreRuns runs.old.items }
    ensures rows { rows_in runs.new.items ≡ rows_in runs.old.items ++ replicate result row }
    ensures runs { AreRuns runs.new.items }
    ensures most { result ≤ times }
    ensures len { vec_len runs.new ≡ vec_len runs.old }
    ensures capacity { vec_capacity runs.new ≡ vec_capacity runs.old }
{
    let count = runs.len();
    if count == 0 {
        return 0;
    }
    let last = runs[count - 1];
    let more = last.room_for(row, times);
    runs[count - 1] = RowRun {
        times: last.times + more,
        ..last
    };
    u32::from(more)
}

/// How many rows of so many the next run has.
fn run_length(left: u32) -> u8
    ensures some { 0 < left → 0 < result }
    ensures most { result ≤ left }
{
    if left < 255 { left as u8 } else { 255 }
}

/// Adds what a turn stands for so many times, in runs of their own. It takes no memory.
#[inline(always)]
fn push_runs(runs: &mut Vec<RowRun>, turn: TurnTaken, worker: u8, times: u32)
    requires runs { AreRuns runs.old.items }
    requires room { 0 < times → vec_len runs.old + times ≤ vec_capacity runs.old }
    ensures rows { rows_in runs.new.items ≡ rows_in runs.old.items ++ repeat times (rows_of turn worker) }
    ensures runs { AreRuns runs.new.items }
    ensures capacity { vec_capacity runs.new ≡ vec_capacity runs.old }
    ensures len { vec_len runs.new ≤ vec_len runs.old + times }
{
    let mut left = times;
    while left > 0 {
        let more = run_length(left);
        runs.push_reserved(RowRun {
            turn,
            worker,
            times: more,
        });
        left -= u32::from(more);
    }
}

/// Adds a row so many times, in runs of its own. It takes no memory.
#[inline(always)]
fn push_rows(runs: &mut Vec<RowRun>, row: Row, times: u32)
    requires runs { AreRuns runs.old.items }
    requires room { 0 < times → vec_len runs.old + times ≤ vec_capacity runs.old }
    ensures rows { rows_in runs.new.items ≡ rows_in runs.old.items ++ replicate times row }
    ensures runs { AreRuns runs.new.items }
    ensures capacity { vec_capacity runs.new ≡ vec_capacity runs.old }
    ensures len { vec_len runs.new ≤ vec_len runs.old + times }
{
    push_runs(runs, taken(row.actor, row.outcome), row.worker, times);
}

/// Adds the rows of so many rounds, in runs of rows. It takes no memory.
#[inline(never)]
fn push_rounds_singly(runs: &mut Vec<RowRun>, first: Row, second: Row, times: u32, rounds: u32)
    requires runs { AreRuns runs.old.items }
    requires room { 0 < rounds → vec_len runs.old + length (rows_of_rounds first second times rounds)
        ≤ vec_capacity runs.old }
    ensures rows { rows_in runs.new.items ≡ rows_in runs.old.items ++ rows_of_rounds first second times rounds }
    ensures runs { AreRuns runs.new.items }
    ensures capacity { vec_capacity runs.new ≡ vec_capacity runs.old }
{
    let mut left = rounds;
    while left > 0 {
        push_rows(runs, first, 1);
        push_rows(runs, second, times);
        left -= 1;
    }
}

/// The same, in runs of rounds where they are rounds of a turn that is done and one of the collector.
fn push_rounds(runs: &mut Vec<RowRun>, first: Row, second: Row, times: u32, rounds: u32)
    requires runs { AreRuns runs.old.items }
    requires room { 0 < rounds → vec_len runs.old + length (rows_of_rounds first second times rounds)
        ≤ vec_capacity runs.old }
    ensures rows { rows_in runs.new.items ≡ rows_in runs.old.items ++ rows_of_rounds first second times rounds }
    ensures runs { AreRuns runs.new.items }
    ensures capacity { vec_capacity runs.new ≡ vec_capacity runs.old }
{
    if times != 1 {
        return push_rounds_singly(runs, first, second, times, rounds);
    }
    match round_of(first, second) {
        Some(turn) => push_runs(runs, turn, first.worker, rounds),
        None => push_rounds_singly(runs, first, second, times, rounds),
    }
}

/// Adds a row, for which memory may be taken.
fn push_row(runs: &mut Vec<RowRun>, row: Row) -> Result<(), AllocError>
    requires { AreRuns runs.old.items }
    ensures added { OnOk result (rows_in runs.new.items ≡ rows_in runs.old.items ++ row ∷ []) }
    ensures kept { OnErr result (rows_in runs.new.items ≡ rows_in runs.old.items) }
    ensures runs { AreRuns runs.new.items }
    ensures capacity { vec_capacity runs.old ≤ vec_capacity runs.new }
{
    if lengthen(runs, row, 1) > 0 {
        return Ok(());
    }
    runs.push(RowRun {
        turn: taken(row.actor, row.outcome),
        worker: row.worker,
        times: 1,
    })?;
    Ok(())
}

/// Rows, kept as runs of equal ones. A contract sees the rows, and how many there is memory for, whatever they are.
#[derive(Drop)]
pub struct RowRuns {
    runs: Vec<RowRun>,
    count: usize,
}

impl Model for RowRuns {
    ghost use Rattle.std.specs.Prelude.{◌≡◌, length, vec_capacity};
    ghost use Rattle.model.specs.KeptRows.{KeptRows};
    ghost use Rattle.model.specs.RowRuns.{AreRuns, rows_in};

    ghost Value = { KeptRows };

    ghost view = { λ a. record { rows = rows_in a.runs.items; room = vec_capacity a.runs } };

    ghost invariant = { λ a. AreRuns a.runs.items × (a.count ≡ length (rows_in a.runs.items)) };
}

impl RowRuns {
    /// No rows. It takes no memory.
    pub fn new(alloc: Global) -> RowRuns
        ensures { result.rows ≡ [] }
    {
        RowRuns {
            runs: Vec::new(alloc),
            count: 0,
        }
    }

    /// No rows, and memory for so many. `AllocError` where there is none.
    pub fn with_room(alloc: Global, room: usize) -> Result<RowRuns, AllocError>
        ensures { IfOk result (λ rows. rows ≡ record { rows = []; room = room }) }
    {
        Ok(RowRuns {
            runs: Vec::with_capacity(alloc, room)?,
            count: 0,
        })
    }

    /// The rows in order.
    pub fn rows(&self) -> Rows<'_>
        ensures { result ≡ self.now.rows }
    {
        Rows {
            runs: self.runs.as_slice(),
            passed: 0,
            count: self.count,
        }
    }

    /// Adds a row. It takes no memory.
    // As a run of its own: a look at the last one took longer than a push (docs/SPEED.md).
    #[inline]
    pub fn note(&mut self, row: Row)
        requires { length self.old.rows < self.old.room }
        ensures { self.new ≡ record { rows = self.old.rows ++ row ∷ []; room = self.old.room } }
    {
        push_rows(&mut self.runs, row, 1);
        self.count += 1;
    }

    /// Adds a row so many times, in a time that grows with the runs alone. It takes no memory.
    pub fn note_times(&mut self, row: Row, times: u32)
        requires { 0 < times → length self.old.rows + times ≤ self.old.room }
        ensures { self.new ≡ record { rows = self.old.rows ++ replicate times row; room = self.old.room } }
    {
        let more = lengthen(&mut self.runs, row, times);
        push_rows(&mut self.runs, row, times - more);
        self.count += times as usize;
    }

    /// Adds the rows of so many rounds: in each a first row, and then a second one so many times. It takes no memory.
    pub fn note_rounds(&mut self, first: Row, second: Row, times: u32, rounds: u32)
        requires { 0 < rounds → length self.old.rows + length (rows_of_rounds first second times rounds)
            ≤ self.old.room }
        ensures { self.new ≡ record {
          rows = self.old.rows ++ rows_of_rounds first second times rounds;
          room = self.old.room;
        } }
    {
        if rounds == 0 {
            return;
        }
        push_rounds(&mut self.runs, first, second, times, rounds);
        self.count += rounds as usize * (1 + times as usize);
    }

    /// Adds a row, for which memory may be taken. `AllocError` where there is none; the rows are then as they were.
    pub fn add(&mut self, row: Row) -> Result<(), AllocError>
        ensures added { OnOk result (self.new.rows ≡ self.old.rows ++ row ∷ []) }
        ensures kept { OnErr result (self.new.rows ≡ self.old.rows) }
        ensures room { self.old.room ≤ self.new.room }
    {
        let Some(count) = self.count.checked_add(1) else {
            return Err(AllocError);
        };
        push_row(&mut self.runs, row)?;
        self.count = count;
        Ok(())
    }
}

/// The rows that are still to come, in order.
#[derive(Drop)]
pub struct Rows<'a> {
    runs: &'a [RowRun],
    passed: u16,
    count: usize,
}

impl<'a> Model for Rows<'a> {
    ghost use Rattle.std.specs.Prelude.{List, drop};
    ghost use Rattle.model.specs.RowRuns.{AreLeft, rows_in};
    ghost use Rattle.model.specs.declared.journals.Row.{Row};

    ghost Value = { List Row };

    ghost view = { λ a. drop a.passed (rows_in a.runs.now) };

    ghost invariant = { λ a. AreLeft a.passed a.count a.runs.now };
}

impl<'a> Rows<'a> {
    /// How many there are.
    pub fn len(&self) -> usize
        ensures { result ≡ length self.now }
    {
        self.count
    }

    /// The last one, in constant time.
    pub fn last(self) -> Option<Row>
        ensures { result ≡ slice_get self.entry (length self.entry - 1) }
    {
        match self.runs {
            [.., last] => Some(last.last()),
            [] => None,
        }
    }
}

impl<'a> Iterator for Rows<'a> {
    ghost use Rattle.std.specs.Iterator.{YieldsFirst, item_count};

    type Item = Row;

    ghost next_gives = { YieldsFirst (λ s. s) };

    ghost remaining = { item_count (λ s. s) };

    fn next(&mut self) -> Option<Row> {
        let [first, following @ ..] = self.runs else {
            return None;
        };
        let (row, count) = (first.after(self.passed), first.count());
        self.count -= 1;
        if self.passed + 1 < count {
            self.passed += 1;
        } else {
            self.runs = following;
            self.passed = 0;
        }
        Some(row)
    }
}
