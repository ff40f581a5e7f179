//! Command lines, each with its status, what it prints and what it says on standard error.

use crate::memory_files::{FullStream, MemoryFiles};
use command_line::endings::Exit;
use command_line::options::{Command, options};
use commands::executing::{execute, written};
use hall::HallError;
use model::watching::Unwatched;
use std::alloc::Global;
use std::io::Write;
use std::sync::Wait;
use std::test::Fail;
use std::thread::Threads;

/// Prints -2147483648.
const SUM: &[u8] =
    b".class public Sum\n.super java/lang/Object\n.method public static main()V\n.limit stack 2\n.limit locals 0\nldc 2147483647\niconst_1\niadd\ninvokestatic vm/Sys/print(I)V\nreturn\n.end method\n";

const PRINTED: &[u8] = b"-2147483648\n";

/// The words of a command line, the program's name first, and how it ends.
#[derive(Clone, Copy)]
struct Line {
    words: &'static [&'static str],
    status: u8,
    output: &'static [u8],
    errors: &'static [u8],
}

/// One after the other, over the files that those before wrote.
const LINES: [Line; 9] = [
    Line {
        words: &["jvm", "asm", "Sum.j", "Sum.class"],
        status: 0,
        output: b"",
        errors: b"",
    },
    Line {
        words: &["jvm", "run", "--journal", "first", "Sum.class"],
        status: 0,
        output: PRINTED,
        errors: b"",
    },
    Line {
        words: &["jvm", "replay", "first", "Sum.j"],
        status: 0,
        output: PRINTED,
        errors: b"",
    },
    Line {
        words: &["jvm", "upgrade", "first", "second"],
        status: 0,
        output: b"",
        errors: b"",
    },
    Line {
        words: &["jvm", "run", "--carriers", "2", "--check", "Sum.j"],
        status: 0,
        output: PRINTED,
        errors: b"",
    },
    Line {
        words: &["jvm", "run", "--steps", "1", "Sum.j"],
        status: 4,
        output: b"",
        errors: b"jvm: step limit\n",
    },
    Line {
        words: &["jvm", "run", "None.j"],
        status: 6,
        output: b"",
        errors: b"jvm: cannot read None.j\n",
    },
    Line {
        words: &["jvm", "dis", "Sum.j"],
        status: 2,
        output: b"",
        errors: b"jvm: Sum.j: C1\n",
    },
    Line {
        words: &["jvm", "debug", "Sum.j"],
        status: 0,
        output: b"output 0\n",
        errors: b"",
    },
];

/// The status of a command line over these files, whose lines for standard error go to a stream.
fn status_of<R: Threads + Wait + Sync, E: Write>(
    rt: &R,
    alloc: Global,
    words: &[&str],
    files: &mut MemoryFiles,
    output: &mut Vec<u8>,
    errors: &mut E,
) -> Result<u8, Fail> {
    let command = options(alloc, words)?;
    let mut input: &[u8] = b"";
    Ok(execute(
        rt,
        alloc,
        &command,
        files,
        &mut input,
        output,
        errors,
        &mut Unwatched,
    ))
}

/// Whether a command line ends as it says.
fn ends_so<R: Threads + Wait + Sync>(
    rt: &R,
    alloc: Global,
    line: &Line,
    files: &mut MemoryFiles,
) -> Result<bool, Fail> {
    let mut output = Vec::new(alloc);
    let mut errors = Vec::new(alloc);
    let status = status_of(rt, alloc, line.words, files, &mut output, &mut errors)?;
    Ok(
        status == line.status
            && output.as_slice() == line.output
            && errors.as_slice() == line.errors,
    )
}

#[test]
fn commands_end_so(rt: HostRuntime) -> Result<(), Fail> {
    let mut files = MemoryFiles::new(rt.alloc());
    files.add("Sum.j", SUM)?;
    for line in &LINES {
        assert!(rt; ends_so(&rt, rt.alloc(), line, &mut files)?);
    }
    assert!(rt; files.get("first").is_some());
    assert!(rt; files.get("first") == files.get("second"));
    Ok(())
}

#[test]
fn line_that_standard_error_does_not_take(rt: HostRuntime) -> Result<(), Fail> {
    let mut files = MemoryFiles::new(rt.alloc());
    files.add("Sum.j", SUM)?;
    let words = ["jvm", "run", "--steps", "1", "Sum.j"];
    let mut output = Vec::new(rt.alloc());
    let status = status_of(
        &rt,
        rt.alloc(),
        &words,
        &mut files,
        &mut output,
        &mut FullStream,
    )?;
    assert!(rt; status == 6);
    Ok(())
}

/// The status and the line of a run whose threads can't be started.
fn end_without_threads(alloc: Global) -> Result<Option<bool>, Fail> {
    let Command::Run(run) = options(alloc, &["jvm", "run", "--carriers", "2", "Sum.j"])? else {
        return Ok(None);
    };
    let mut files = MemoryFiles::new(alloc);
    let mut output: Vec<u8> = Vec::new(alloc);
    let end = written(
        alloc,
        &run,
        Err(HallError::Thread),
        &mut files,
        &mut output,
        &mut Unwatched,
    );
    match end {
        Ok(_) => Ok(None),
        Err(ending) => match &ending.line {
            Some(line) => Ok(Some(
                ending.exit == Exit::System && line.as_str() == "no thread" && output.is_empty(),
            )),
            None => Ok(None),
        },
    }
}

#[test]
fn run_whose_threads_cannot_be_started(rt: HostRuntime) -> Result<(), Fail> {
    assert!(rt; end_without_threads(rt.alloc())? == Some(true));
    Ok(())
}
