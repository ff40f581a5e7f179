//! How a run ends a command, and what it printed.

use crate::whole_files::write_text;
use command_line::endings::{Ending, Exit};
use model::turns::Status;
use model::views::ThreadState;
use scheduler::worlds::World;
use std::alloc::{AllocError, Global};
use std::io::Write;

/// A line for each thread that was ended by an exception, by number, each but the first after `jvm: `; empty where
/// there is none. `AllocError` where memory runs out.
fn exceptions_reported(alloc: Global, world: &World) -> Result<String, AllocError> {
    let mut lines = String::new(alloc);
    for thread in 0..=u8::MAX {
        let Some(view) = world.thread(thread)? else {
            break;
        };
        if let ThreadState::Ended(Some(class)) = &view.state {
            if !lines.is_empty() {
                lines.push_str("\njvm: ")?;
            }
            let line = format!(in alloc; "thread {thread} ended by {class}")?;
            lines.push_str(line.as_str())?;
        }
    }
    Ok(lines)
}

/// How a world ends whose threads have all ended.
fn finished(alloc: Global, world: &World) -> Ending {
    match exceptions_reported(alloc, world) {
        Ok(lines) if lines.is_empty() => Ending::good(),
        lines => Ending::reported(Exit::Exception, lines),
    }
}

/// How a world that was run ends the command.
pub fn ended(alloc: Global, world: &World) -> Ending {
    match (world.fault(), world.status()) {
        (Some((fault, thread)), _) => {
            Ending::reported(
                Exit::Fault,
                format!(in alloc; "fault {fault} in thread {thread}"),
            )
        }
        (None, Status::Finished) => finished(alloc, world),
        (None, Status::Stuck) => Ending::reported(Exit::Stuck, format!(in alloc; "stuck")),
        (None, _) => {
            if world.output_full() {
                Ending::reported(Exit::Limit, format!(in alloc; "output limit"))
            } else {
                Ending::reported(Exit::Limit, format!(in alloc; "step limit"))
            }
        }
    }
}

/// Writes what a world printed.
pub fn write_output<W: Write>(alloc: Global, world: &World, output: &mut W) -> Result<(), Ending> {
    write_text(alloc, world.output(), output)?;
    Ok(())
}
