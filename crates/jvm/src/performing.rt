//! What the program's words say: options, the system's files and streams, and the exit status.

use crate::prompting::Prompted;
use crate::telling::Teller;
use command_line::endings::Exit;
use command_line::options::{Command, LineError, options};
use commands::executing::execute;
use program_files::files::SystemFiles;
use std::alloc::{AllocError, Global};
use std::io::{ErrorKind, IsTerminal, Write};
use std::sync::Wait;
use std::thread::Threads;
use std::{env, io};

/// The end of a command line that stands for no command; what there is to say is said.
fn refused(rt: &HostRuntime, error: &LineError) -> io::Result<Exit> {
    match error {
        LineError::Memory => {
            eprintln!(rt; "jvm: memory")?;
            Ok(Exit::System)
        }
        LineError::Options => {
            eprintln!(rt; "jvm: options")?;
            Ok(Exit::CommandLine)
        }
        LineError::Words { text, mistake } => {
            if *mistake {
                eprint!(rt; "{text}")?;
                Ok(Exit::CommandLine)
            } else {
                print!(rt; "{text}")?;
                Ok(Exit::Good)
            }
        }
    }
}

/// What the long work of a command is counted in.
fn unit_of(command: &Command) -> &'static str {
    match command {
        Command::Assemble(_) => "lines",
        Command::Explore(_) => "states",
        _ => "rows",
    }
}

/// Does what a command says with these threads, and answers the exit status.
fn executed<R: Threads + Wait + Sync>(rt: &HostRuntime, threads: &R, command: &Command) -> u8 {
    let mut files = SystemFiles { runtime: rt };
    let stdin = rt.stdin();
    let shown = stdin.is_terminal() && matches!(command, Command::Debug(_));
    let mut input = Prompted {
        input: stdin,
        prompts: rt.stderr(),
        shown,
    };
    let mut output = rt.stdout();
    let mut errors = rt.stderr();
    let mut teller = Teller::new(rt, unit_of(command));
    execute(
        threads,
        rt.alloc(),
        command,
        &mut files,
        &mut input,
        &mut output,
        &mut errors,
        &mut teller,
    )
}

/// Does what the words say with these threads, and answers the exit status.
fn perform<R: Threads + Wait + Sync>(
    rt: &HostRuntime,
    threads: &R,
    words: &[&str],
) -> io::Result<u8> {
    match options(rt.alloc(), words) {
        Ok(command) => Ok(executed(rt, threads, &command)),
        Err(error) => Ok(refused(rt, &error)?.status()),
    }
}

/// These words, lent.
fn lent<'a>(alloc: Global, owned: &'a [String]) -> Result<Vec<&'a str>, AllocError> {
    let mut words = Vec::new(alloc);
    for word in owned {
        words.push(word.as_str())?;
    }
    Ok(words)
}

/// Does what the program's words say with these threads, and answers the exit status.
fn called<R: Threads + Wait + Sync>(rt: &HostRuntime, threads: &R) -> io::Result<u8> {
    let owned: Vec<String> = env::args(rt)?.collect(rt.alloc())?;
    let words = lent(rt.alloc(), owned.as_slice())?;
    perform(rt, threads, words.as_slice())
}

/// The end where the words of the command line couldn't be had, for want of memory, or what is to say of them couldn't
/// be written.
fn failed(rt: &HostRuntime, error: &io::Error) -> Exit {
    let line = match error.kind() {
        ErrorKind::OutOfMemory => "memory",
        _ => "cannot write -",
    };
    let _ = eprintln!(rt; "jvm: {line}");
    Exit::System
}

/// Does what the program's words say with these threads, and answers the exit status; what went wrong is said.
pub fn performed<R: Threads + Wait + Sync>(rt: &HostRuntime, threads: &R) -> u8 {
    match called(rt, threads) {
        Ok(status) => status,
        Err(error) => failed(rt, &error).status(),
    }
}
