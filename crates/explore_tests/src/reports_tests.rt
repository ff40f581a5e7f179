//! Reports, whose texts were worked out by hand.
ghost use Rattle.std.specs.Prelude.{◌≡◌, None};

use crate::programs::{ALL, FAULT, LIMITS, LOCKS, MAKERS, PRINTS, explored};
use debug_texts::sinks::{Sink, WriteFailed};
use explore_texts::reports::put_report;
use explore_texts::witnesses::{turns_in, turns_text};
use exploring::{Bounds, Choice, Explored, Move};
use std::alloc::Global;
use std::test::Fail;

/// What was written, up to a write that fails once so many were made.
#[derive(Drop)]
struct Sheet {
    text: Vec<u8>,
    left: usize,
    failures: u64,
}

impl Sheet {
    fn take(&mut self, bytes: &[u8]) -> bool
        ensures { self.new.failures ≡ self.old.failures }
    {
        self.text.extend_from_slice(bytes).is_ok()
    }
}

impl Sink for Sheet {
    ghost contents = { λ s. None };

    ghost failures = { λ s. s.failures };

    fn put(&mut self, bytes: &[u8]) -> Result<(), WriteFailed> {
        let is_whole = self.left > 0;
        self.left = self.left.saturating_sub(1);
        if is_whole && self.take(bytes) {
            return Ok(());
        }
        self.failures += 1;
        Err(WriteFailed)
    }

    fn flush(&mut self) -> Result<(), WriteFailed> {
        Ok(())
    }
}

/// The report of an exploration, up to a write that fails, and whether none did.
fn printed(alloc: Global, explored: &Explored, left: usize) -> (Vec<u8>, bool) {
    let mut sheet = Sheet {
        text: Vec::new(alloc),
        left,
        failures: 0,
    };
    let written = put_report(&mut sheet, explored).is_ok();
    let Sheet { text, .. } = sheet;
    (text, written)
}

/// The report of a text's exploration.
fn report(alloc: Global, text: &str, bounds: Bounds) -> Result<Vec<u8>, Fail> {
    let explored = explored(alloc, text, LIMITS, bounds)?;
    let (text, _) = printed(alloc, &explored, 10_000);
    Ok(text)
}

#[test]
fn locks_are_reported(rt: HostRuntime) -> Result<(), Fail> {
    let text = report(rt.alloc(), LOCKS, ALL)?;
    assert!(rt; text.starts_with(b"outcome 1: stuck\nturns "));
    assert!(rt; text.ends_with(b" turns: complete\n"));
    let few = Bounds {
        states: 2,
        no_room: false,
    };
    assert!(rt; report(rt.alloc(), LOCKS, few)?.ends_with(b" turns: cut off: states\n"));
    Ok(())
}

/// The fault is met in the second state. What doesn't end in a newline gets one.
#[test]
fn faults_and_outputs_are_reported(rt: HostRuntime) -> Result<(), Fail> {
    let fault =
        b"outcome 1: fault F1 in thread 0\nturns 1\noutput 0\nexplored 2 states, 1 turns: complete\n";
    assert!(rt; report(rt.alloc(), FAULT, ALL)?.as_slice() == fault.as_slice());
    let prints = report(rt.alloc(), PRINTS, ALL)?;
    assert!(rt; prints.starts_with(b"outcome 1: output limit\nturns "));
    Ok(())
}

/// The first turn finds no cell, and ends main.
#[test]
fn missing_cells_are_reported(rt: HostRuntime) -> Result<(), Fail> {
    let bounds = Bounds {
        states: 1_000,
        no_room: true,
    };
    let text = report(rt.alloc(), MAKERS, bounds)?;
    let first =
        b"outcome 1: finished\nthread 0 ended by java/lang/OutOfMemoryError\nturns 1\noutput 0\noutcome 2: ";
    assert!(rt; text.starts_with(first));
    let found = explored(rt.alloc(), MAKERS, LIMITS, bounds)?;
    let Some(each) = found.found.first() else {
        return Ok(());
    };
    assert!(rt; turns_text(rt.alloc(), &each.witness)?.as_slice() == b"0 no room\n".as_slice());
    Ok(())
}

/// A report that is cut at each write is a beginning of the whole.
#[test]
fn writes_fail(rt: HostRuntime) -> Result<(), Fail> {
    let explored = explored(rt.alloc(), FAULT, LIMITS, ALL)?;
    let (whole, written) = printed(rt.alloc(), &explored, 10_000);
    assert!(rt; written);
    for left in 0..20 {
        let (text, written) = printed(rt.alloc(), &explored, left);
        assert!(rt; !written && whole.starts_with(&text));
    }
    Ok(())
}

/// The turns of a text are those that were written; a text that isn't theirs has none.
#[test]
fn turns_are_read(rt: HostRuntime) -> Result<(), Fail> {
    let turns = [
        Move {
            thread: 0,
            choice: Choice::NoRoom,
        },
        Move {
            thread: 107,
            choice: Choice::NewObject,
        },
        Move {
            thread: 255,
            choice: Choice::NoRoom,
        },
    ];
    let text = turns_text(rt.alloc(), &turns)?;
    assert!(rt; text.as_slice() == b"0 no room\n107\n255 no room\n".as_slice());
    let read = turns_in(rt.alloc(), &text)?;
    assert!(rt; matches!(&read, Some(moves) if moves.as_slice() == turns.as_slice()));
    for other in [
        "",
        "\n",
        "256\n",
        "01\n",
        "1",
        "1 \n",
        "1 no room",
        "-1\n",
        "1\n\n",
        "1\n+2\n",
        "pozhundar journal 2\n",
    ] {
        assert!(rt; turns_in(rt.alloc(), other.as_bytes())?.is_none());
    }
    Ok(())
}
