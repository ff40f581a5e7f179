//! What `jvm explore` does over files and an output.

use crate::beginnings::{Beginning, begin, bounds_of, transitions_of, turn_refused};
use crate::dividing::split_up;
use crate::witnesses::write_witnesses;
use command_line::endings::{Ending, Exit};
use command_line::options::ExploreOptions;
use debug_texts::counted::Counted;
use debug_texts::sinks::Sink;
use explore_texts::reports::put_report;
use exploring::{Explored, explore_after};
use exploring_together::explore_together;
use model::watching::Watch;
use program_files::files::Files;
use std::alloc::Global;
use std::io::Write;
use std::thread::Threads;

/// What an exploration found, or how it ends the command without a report.
fn found(alloc: Global, begun: &Beginning, explored: Option<Explored>) -> Result<Explored, Ending> {
    match explored {
        Some(explored) if explored.states > 0 => Ok(explored),
        Some(_) => Err(Ending::memory()),
        None => Err(turn_refused(alloc, begun)),
    }
}

/// What an exploration finds after its beginning. A watch is told of it where one thread explores.
fn search<R: Threads + Sync, P: Watch>(
    rt: &R,
    alloc: Global,
    begun: &Beginning,
    options: &ExploreOptions,
    watch: &mut P,
) -> Result<Explored, Ending> {
    let transitions = transitions_of(alloc, begun)?;
    let (bounds, workers) = (bounds_of(options), options.workers);
    let explored = if workers > 1 {
        explore_together(rt, alloc, &transitions, &begun.first, bounds, workers)
    } else {
        explore_after(alloc, &transitions, &begun.first, bounds, watch)
    };
    found(alloc, begun, explored)
}

/// The end where standard output can't be written.
fn not_written(alloc: Global) -> Ending {
    Ending::reported(Exit::System, format!(in alloc; "cannot write -"))
}

/// Writes the report of an exploration.
fn write_report<W: Write>(
    alloc: Global,
    explored: &Explored,
    output: &mut W,
) -> Result<(), Ending> {
    let mut sink = Counted::new(output);
    match put_report(&mut sink, explored) {
        Ok(()) => match sink.flush() {
            Ok(()) => Ok(()),
            Err(_) => Err(not_written(alloc)),
        },
        Err(_) => Err(not_written(alloc)),
    }
}

/// Writes the report of an exploration, and then the witnesses, where they are wanted.
fn told<F: Files, W: Write>(
    alloc: Global,
    begun: &Beginning,
    explored: &Explored,
    options: &ExploreOptions,
    files: &mut F,
    output: &mut W,
) -> Result<Ending, Ending> {
    write_report(alloc, explored, output)?;
    if let Some(folder) = &options.witnesses {
        write_witnesses(
            alloc,
            files,
            begun.program(),
            begun.limits,
            folder.as_str(),
            &explored.found,
        )?;
    }
    match explored.cut {
        None => Ok(Ending::good()),
        Some(_) => Ok(Ending::cut_off()),
    }
}

/// Explores what can follow a beginning and tells what was found, or divides it, as the options say.
fn followed<R: Threads + Sync, F: Files, W: Write, P: Watch>(
    rt: &R,
    alloc: Global,
    begun: &Beginning,
    options: &ExploreOptions,
    files: &mut F,
    output: &mut W,
    watch: &mut P,
) -> Result<Ending, Ending> {
    match options.split {
        Some(most) => split_up(alloc, begun, options, most, files, output),
        None => {
            let explored = search(rt, alloc, begun, options, watch)?;
            told(alloc, begun, &explored, options, files, output)
        }
    }
}

/// Explores every schedule of the program of some files, or what can follow a run of it, writes the report, and then the
/// witnesses, where they are wanted. The end is good where the exploration is complete, and a limit where it was cut off.
/// Several workers explore in threads of the runtime, a part each. Where there is one, a watch is told how many states were
/// expanded, and how many wait. Where parts are wanted, it writes these in place of exploring.
pub fn explored<R: Threads + Sync, F: Files, W: Write, P: Watch>(
    rt: &R,
    alloc: Global,
    options: &ExploreOptions,
    files: &mut F,
    output: &mut W,
    watch: &mut P,
) -> Result<Ending, Ending> {
    let begun = begin(alloc, options, files)?;
    followed(rt, alloc, &begun, options, files, output, watch)
}
