//! A machine that tells all that can be seen of it: what a page asks is read from standard input, and answered on
//! standard output.
#![tactic(auto)]

use debug_texts::counted::Counted;
use debugger::errors::DebugError;
use page_sessions::playing::{Ended, play};
use std::io;
use std::io::Read;
use std::process::ExitCode;

/// What is read from standard input, up to its end, is answered. The exit status: 0, or 2 where there is no world, or 6
/// where memory runs out or a stream fails.
fn performed(rt: &HostRuntime) -> io::Result<u8> {
    let mut input = Vec::new(rt.alloc());
    let mut stdin = rt.stdin();
    stdin.read_to_end(&mut input)?;
    let mut sink = Counted::new(rt.stdout());
    match play(rt.alloc(), input.as_slice(), &mut sink) {
        Ok(Ended::Played) => Ok(0),
        Ok(Ended::Refused) => Ok(2),
        Err(DebugError::Read | DebugError::Write | DebugError::Memory) => Ok(6),
    }
}

fn main(rt: HostRuntime) -> ExitCode {
    match performed(&rt) {
        Ok(status) => ExitCode::from(status),
        Err(_) => ExitCode::from(6),
    }
}
