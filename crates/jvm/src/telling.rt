//! What a terminal is told while long work goes on.

use model::watching::Watch;
use std::io::IsTerminal;
use std::time::{Duration, Instant};

/// After how many seconds of work a terminal is first told of it.
const FIRST: u64 = 2;

/// How many seconds later it is told again.
const AGAIN: u64 = 1;

/// How many times the clock is let be after it was looked at. A row of a replay takes little more time than a look; one
/// of a run that is compared, on a heap as large as may be, takes milliseconds.
const UNLOOKED: u32 = 63;

/// Writes a line on standard error, each second once work has gone on for two, with how much is done and how much is
/// left. Where standard error is no terminal, or the clock can't be read, it writes nothing.
#[derive(Drop)]
pub struct Teller<'a> {
    runtime: &'a HostRuntime,
    /// what is done, as "rows"
    what: &'static str,
    /// when the next line is due, if one ever is
    due: Option<Instant>,
    /// how many times the clock is yet let be
    unlooked: u32,
}

/// When the first line of work that begins now is due; `None` where standard error is no terminal, or the clock can't
/// be read.
fn first_due(runtime: &HostRuntime) -> Option<Instant> {
    if !runtime.stderr().is_terminal() {
        return None;
    }
    match Instant::now(runtime) {
        Ok(now) => now.checked_add(Duration::from_secs(FIRST)),
        Err(_) => None,
    }
}

impl<'a> Teller<'a> {
    /// For work on rows, or whatever the word says, that begins now.
    pub fn new(runtime: &'a HostRuntime, what: &'static str) -> Teller<'a> {
        Teller {
            runtime,
            what,
            due: first_due(runtime),
            unlooked: UNLOOKED,
        }
    }

    /// Looks at the clock, and writes a line if one is due.
    fn look(&mut self, done: usize, left: usize) {
        let Some(due) = self.due else {
            return;
        };
        let Ok(now) = Instant::now(self.runtime) else {
            return;
        };
        if due <= now {
            let what = self.what;
            let _ = eprintln!(self.runtime; "jvm: {done} {what} done, {left} left");
            self.due = now.checked_add(Duration::from_secs(AGAIN));
        }
    }
}

impl Watch for Teller<'_> {
    fn reached(&mut self, done: usize, left: usize) {
        if self.unlooked > 0 {
            self.unlooked -= 1;
        } else {
            self.unlooked = UNLOOKED;
            self.look(done, left);
        }
    }
}
