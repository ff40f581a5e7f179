//! A session in which one read, or one write, fails at each place. What each command of the session answers is worked out
//! by hand: main stands at its one instruction, a run of it ends the program, and then its thread isn't ready.
ghost use Rattle.std.specs.Prelude.{◌≡◌, ◌-◌, None};

use crate::mains::{program_of, world_on};
use debug_texts::sinks::{Sink, WriteFailed};
use debug_texts::sources::{ReadFailed, Source};
use debugger::debug;
use debugger::errors::DebugError;
use model::journals::Limits;
use scheduler::worlds::World;
use std::alloc::Global;
use std::test::Fail;

const EMPTY_MAIN: &str =
    ".class public E\n.super java/lang/Object\n.method public static main()V\n.limit stack 0\n.limit locals 0\nreturn\n.end method\n";

const COMMANDS: &[u8] = b"stack 0\nbreak E.main()V 0\nrun 5\nstep 0\nquit\n";

const ANSWERS: &[u8] =
    b"frame 0 E.main()V pc 0\nlocals\nstack\nbreakpoint 0\nran 1: finished\nnot ready\noutput 0\n";

/// How many bytes each line and those before it have, and their answers; that of `quit` is what is said in the end.
const LINES: [(usize, usize); 5] = [(8, 36), (26, 49), (32, 65), (39, 75), (44, 84)];

/// How many bytes the lines up to `run 5` have, after which the journal has a row.
const RUN: usize = 32;

/// More calls than a session makes.
const MANY: usize = 1_000;

const LIMITS: Limits = Limits {
    steps: 1_000,
    output: 100,
};

/// The commands, of which so many bytes are read before a read fails.
#[derive(Drop)]
struct Script {
    place: usize,
    fails_at: usize,
    failures: u64,
}

impl Source for Script {
    ghost remaining = { λ s. None };

    ghost failures = { λ s. s.failures };

    ghost patience = { λ s. 44 - s.place };

    fn next_byte(&mut self) -> Result<Option<u8>, ReadFailed> {
        if self.place == self.fails_at {
            self.failures += 1;
            return Err(ReadFailed);
        }
        match COMMANDS.get(self.place) {
            Some(byte) => {
                self.place += 1;
                Ok(Some(*byte))
            }
            None => Ok(None),
        }
    }
}

/// What is shown, up to a write that fails once so many were made: of its bytes half are shown.
#[derive(Drop)]
struct Screen {
    shown: Vec<u8>,
    left: usize,
    failures: u64,
}

impl Screen {
    fn take(&mut self, bytes: &[u8]) -> bool
        ensures { self.new.failures ≡ self.old.failures }
    {
        self.shown.extend_from_slice(bytes).is_ok()
    }
}

impl Sink for Screen {
    ghost contents = { λ s. None };

    ghost failures = { λ s. s.failures };

    fn put(&mut self, bytes: &[u8]) -> Result<(), WriteFailed> {
        let is_whole = self.left > 0;
        let part = if is_whole {
            bytes
        } else {
            &bytes[..bytes.len() / 2]
        };
        self.left = self.left.saturating_sub(1);
        if self.take(part) && is_whole {
            return Ok(());
        }
        self.failures += 1;
        Err(WriteFailed)
    }

    fn flush(&mut self) -> Result<(), WriteFailed> {
        if self.left > 0 {
            self.left -= 1;
            return Ok(());
        }
        self.failures += 1;
        Err(WriteFailed)
    }
}

/// What a session came to.
#[derive(Drop)]
struct Ended {
    result: Result<(), DebugError>,
    /// how many bytes were read, and how many rows were made
    read: usize,
    rows: usize,
    shown: Vec<u8>,
    failed_reads: u64,
    failed_writes: u64,
}

fn session(alloc: Global, world: &mut World, reads: usize, writes: usize) -> Ended {
    let mut source = Script {
        place: 0,
        fails_at: reads,
        failures: 0,
    };
    let mut sink = Screen {
        shown: Vec::new(alloc),
        left: writes,
        failures: 0,
    };
    let result = debug(alloc, world, &mut source, &mut sink);
    let Screen {
        shown,
        failures,
        ..
    } = sink;
    Ended {
        result,
        read: source.place,
        rows: world.journal().rows().len(),
        shown,
        failed_reads: source.failures,
        failed_writes: failures,
    }
}

fn told(alloc: Global, reads: usize, writes: usize) -> Result<Ended, Fail> {
    let program = program_of(alloc, EMPTY_MAIN)?;
    let mut world = world_on(alloc, program, 2, LIMITS)?;
    Ok(session(alloc, &mut world, reads, writes))
}

/// How many bytes the answers to all lines have that end within so many bytes.
fn answered(read: usize) -> usize {
    LINES
        .iter()
        .filter(|line| line.0 <= read)
        .map(|line| line.1)
        .max()
        .unwrap_or(0)
}

/// The row is there once the run was read.
fn has_its_rows(told: &Ended) -> bool {
    told.rows == usize::from(told.read >= RUN)
}

/// A read fails: the answers to the lines before it were written, and no more.
fn read_fails(told: &Ended, reads: usize) -> bool {
    told.result == Err(DebugError::Read)
        && (told.failed_reads, told.failed_writes) == (1, 0)
        && told.read == reads
        && ANSWERS.starts_with(told.shown.as_slice())
        && told.shown.len() == answered(reads)
        && has_its_rows(told)
}

/// A write fails: the answers to the lines before the last one were written, and a beginning of that one's.
fn write_fails(told: &Ended) -> bool {
    let shown = told.shown.len();
    told.result == Err(DebugError::Write)
        && (told.failed_reads, told.failed_writes) == (0, 1)
        && ANSWERS.starts_with(told.shown.as_slice())
        && answered(told.read.saturating_sub(1)) <= shown
        && shown <= answered(told.read)
        && has_its_rows(told)
}

fn all_is_told(told: &Ended) -> bool {
    told.result == Ok(())
        && (told.failed_reads, told.failed_writes) == (0, 0)
        && told.shown.as_slice() == ANSWERS
        && told.read == COMMANDS.len()
        && has_its_rows(told)
}

fn reads_fail(alloc: Global) -> Result<bool, Fail> {
    for reads in 0..COMMANDS.len() {
        let told = told(alloc, reads, MANY)?;
        if !read_fails(&told, reads) {
            return Ok(false);
        }
    }
    let told = told(alloc, COMMANDS.len(), MANY)?;
    Ok(all_is_told(&told))
}

/// How many writes failed, each in a session of its own, before one in which none did.
fn failed_writes(alloc: Global) -> Result<Option<usize>, Fail> {
    for writes in 0..MANY {
        let told = told(alloc, MANY, writes)?;
        if told.result.is_ok() {
            return Ok(all_is_told(&told).then_some(writes));
        }
        if !write_fails(&told) {
            return Ok(None);
        }
    }
    Ok(None)
}

#[test]
fn a_read_fails_at_each_place(rt: HostRuntime) -> Result<(), Fail> {
    assert!(rt; reads_fail(rt.alloc())?);
    Ok(())
}

/// Each answer is written, and goes out.
#[test]
fn a_write_fails_at_each_place(rt: HostRuntime) -> Result<(), Fail> {
    let failed = failed_writes(rt.alloc())?;
    assert!(rt; failed.is_some_and(|count| count >= 2 * LINES.len()));
    Ok(())
}
