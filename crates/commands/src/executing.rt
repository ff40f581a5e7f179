//! What the program does at a command.

use crate::carriers::carried;
use crate::debugging::debugged;
use command_line::endings::{Ending, Exit};
use command_line::explaining::{all_codes, explained};
use command_line::options::{AssembleOptions, Command, RunOptions};
use comparison::checking::difference;
use comparison::references::{IdealReference, Reference};
use comparison::shows_world;
use explore_command::commanding::explored;
use hall::HallError;
use launcher::sources::{SourceError, assembled};
use model::watching::Watch;
use program_files::files::Files;
use program_files::launching::{launched, source_refused};
use program_files::run_ends::{ended, write_output};
use program_files::stored_runs::{replay, upgrade, write_stored};
use program_files::whole_files::{read_one, write_one, write_text};
use scheduler::worlds::World;
use std::alloc::{AllocError, Global};
use std::io::{self, Read, Write};
use std::sync::Wait;
use std::thread::Threads;

/// The end of a run that has no world.
fn not_carried(alloc: Global, error: HallError) -> Ending {
    match error {
        HallError::Memory => Ending::memory(),
        HallError::Thread => Ending::reported(Exit::System, format!(in alloc; "no thread")),
        HallError::Roles | HallError::World => Ending::reported(
            Exit::System,
            format!(in alloc; "hall"),
        ),
    }
}

/// The first row of a run after which it differs from the ideal run of its program; none where it never does, and the
/// world itself shows in the end what the ideal run shows. A watch is told how many rows were compared.
fn first_difference<P: Watch>(
    alloc: Global,
    world: &World,
    watch: &mut P,
) -> Result<Option<usize>, AllocError> {
    let mut reference = IdealReference::of(alloc, world)?;
    if let Some(row) = difference(alloc, world, &mut reference, watch)? {
        return Ok(Some(row));
    }
    if shows_world(world, reference.world())? {
        Ok(None)
    } else {
        Ok(Some(world.journal().rows().len()))
    }
}

/// The end of a run that was compared with the ideal run of its program: its own, unless they differ or memory runs
/// out.
fn checked<P: Watch>(alloc: Global, world: &World, watch: &mut P) -> Ending {
    match first_difference(alloc, world, watch) {
        Ok(None) => ended(alloc, world),
        Ok(Some(row)) => Ending::reported(Exit::Differs, format!(in alloc; "row {row} differs")),
        Err(_) => Ending::memory(),
    }
}

/// Writes what a world printed and then its journal, where one is wanted, and compares it with the ideal run, where that
/// is wanted.
fn world_written<F: Files, W: Write, P: Watch>(
    alloc: Global,
    options: &RunOptions,
    world: &World,
    files: &mut F,
    output: &mut W,
    watch: &mut P,
) -> Result<Ending, Ending> {
    write_output(alloc, world, output)?;
    if let Some(name) = &options.journal {
        write_stored(alloc, files, name, world.journal())?;
    }
    if options.check {
        return Ok(checked(alloc, world, watch));
    }
    Ok(ended(alloc, world))
}

/// What is written at the end of a run, and how it ends the command: its output and then its journal, where one is wanted;
/// it is compared with the ideal run, where that is wanted.
pub fn written<F: Files, W: Write, P: Watch>(
    alloc: Global,
    options: &RunOptions,
    carried: Result<World, HallError>,
    files: &mut F,
    output: &mut W,
    watch: &mut P,
) -> Result<Ending, Ending> {
    match carried {
        Ok(world) => world_written(alloc, options, &world, files, output, watch),
        Err(error) => Err(not_carried(alloc, error)),
    }
}

/// Runs a program.
fn run<R: Threads + Wait + Sync, F: Files, W: Write, P: Watch>(
    rt: &R,
    alloc: Global,
    options: &RunOptions,
    files: &mut F,
    output: &mut W,
    watch: &mut P,
) -> Result<Ending, Ending> {
    let world = launched(alloc, options.world, &options.files, files)?;
    let carried = carried(rt, alloc, world, options.carriers, options.gc);
    written(alloc, options, carried, files, output, watch)
}

/// The class file of a text, as bytes. A watch is told how many lines were read.
fn class_bytes<P: Watch>(
    alloc: Global,
    name: &String,
    text: &[u8],
    watch: &mut P,
) -> Result<Vec<u8>, Ending> {
    let made = match assembled(alloc, text, watch) {
        Ok(made) => made,
        Err(error) => return Err(source_refused(alloc, name, &error)),
    };
    match classfile::write(alloc, &made.file) {
        Ok(bytes) => Ok(bytes),
        Err(_) => Err(Ending::memory()),
    }
}

/// Assembles a text into a class file.
fn assemble<F: Files, P: Watch>(
    alloc: Global,
    options: &AssembleOptions,
    files: &mut F,
    watch: &mut P,
) -> Result<Ending, Ending> {
    let text = read_one(alloc, files, &options.file)?;
    let bytes = class_bytes(alloc, &options.file, text.as_slice(), watch)?;
    write_one(alloc, files, &options.out, bytes.as_slice())?;
    Ok(Ending::good())
}

/// The text of a class file.
fn class_text(alloc: Global, name: &String, bytes: &[u8]) -> Result<Vec<u8>, Ending> {
    let file = match classfile::read(alloc, bytes) {
        Ok(file) => file,
        Err(error) => return Err(source_refused(alloc, name, &SourceError::Class(error))),
    };
    match disasm::disassemble(alloc, &file) {
        Ok(text) => Ok(text),
        Err(_) => Err(Ending::memory()),
    }
}

/// Writes the text of a class file.
fn disassemble<F: Files, W: Write>(
    alloc: Global,
    name: &String,
    files: &mut F,
    output: &mut W,
) -> Result<Ending, Ending> {
    let bytes = read_one(alloc, files, name)?;
    let text = class_text(alloc, name, bytes.as_slice())?;
    write_text(alloc, text.as_slice(), output)
}

/// Writes what a code means, or a line for each code.
fn explain<W: Write>(
    alloc: Global,
    code: &Option<String>,
    output: &mut W,
) -> Result<Ending, Ending> {
    match code {
        Some(code) => match explained(alloc, code.as_str()) {
            Ok(Some(text)) => write_text(alloc, text.as_str().as_bytes(), output),
            Ok(None) => Err(Ending::reported(
                Exit::CommandLine,
                format!(in alloc; "no code {code}"),
            )),
            Err(_) => Err(Ending::memory()),
        },
        None => match all_codes(alloc) {
            Ok(lines) => write_text(alloc, lines.as_str().as_bytes(), output),
            Err(_) => Err(Ending::memory()),
        },
    }
}

/// How a command ended, in either way.
fn either(ending: Result<Ending, Ending>) -> Ending {
    match ending {
        Ok(ending) | Err(ending) => ending,
    }
}

/// Writes the line of an ending, if it has one. A limit without a line is that of an exploration, which its report tells.
fn tell<E: Write>(errors: &mut E, ending: &Ending) -> io::Result<()> {
    let line = match (&ending.line, ending.exit) {
        (Some(line), _) => line.as_bytes(),
        (None, Exit::Good | Exit::Limit) => return Ok(()),
        (None, _) => b"memory",
    };
    errors.write_all(b"jvm: ")?;
    errors.write_all(line)?;
    errors.write_all(b"\n")
}

/// Does what a command says with files, standard input, output and error, and answers the exit status: 0 where all
/// threads ended or a file was written, 1 a thread ended by an exception, 2 refused input, 3 a fault, 4 a limit, 5
/// stuck, 6 memory, a thread that can't be started, or a file or stream that can't be read or written, standard error
/// among them, 8 a run that differs from the ideal run with which it is compared. The carriers of a run are threads of
/// the runtime, and so are the workers of an exploration. While a run is compared or a journal replayed row by row, a watch is told after each row how many are
/// done and how many are left; while a text is read by `asm`, the same of its lines, and while schedules are explored,
/// of states.
pub fn execute<R: Threads + Wait + Sync, F: Files, I: Read, W: Write, E: Write, P: Watch>(
    rt: &R,
    alloc: Global,
    command: &Command,
    files: &mut F,
    input: &mut I,
    output: &mut W,
    errors: &mut E,
    watch: &mut P,
) -> u8 {
    let ending = match command {
        Command::Run(options) => either(run(rt, alloc, options, files, output, watch)),
        Command::Debug(options) => either(debugged(alloc, options, files, input, output)),
        Command::Explore(options) => either(explored(rt, alloc, options, files, output, watch)),
        Command::Assemble(options) => either(assemble(alloc, options, files, watch)),
        Command::Disassemble(name) => either(disassemble(alloc, name, files, output)),
        Command::Replay(options) => either(replay(alloc, options, files, output, watch)),
        Command::Upgrade(options) => either(upgrade(alloc, options, files)),
        Command::Explain(code) => either(explain(alloc, code, output)),
    };
    match tell(errors, &ending) {
        Ok(()) => ending.exit.status(),
        Err(_) => Exit::System.status(),
    }
}
