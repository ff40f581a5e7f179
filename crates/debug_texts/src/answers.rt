//! The answers that take no memory: they are written piece by piece.
ghost use Rattle.std.specs.Prelude.{◌≡◌, ◌+◌, ◌-◌, ◌^◌, ◌<◌, OnErr, OnOk, decimal};
ghost use Rattle.std.specs.List.{flat_map};
ghost use Rattle.debug_texts.specs.Answers.{broken_text, class_text, deleted_text, farewell, fault_words, ran_text, stop_text};
ghost use Rattle.debug_texts.specs.Answers.{turn_text};
ghost use Rattle.debug_texts.specs.Answers.{turn_words};
ghost use Rattle.debug_texts.specs.Streams.{Puts};

use crate::sinks::{Sink, WriteFailed};
use itoa::Buffer;
use model::turns::{ClassState, Fault, Turn};

/// Why a run of many turns ended.
#[derive(Clone, Copy)]
pub enum Reason {
    /// As many turns were made as were wanted.
    Running,
    /// Every thread has ended.
    Finished,
    /// Some thread lives, and none is ready.
    Stuck,
    /// A turn answered this.
    Turn(Turn),
    /// The thread whose turn is next stands at a breakpoint.
    Breakpoint { number: usize, thread: u8 },
}

/// Writes these pieces, one after another; where a write fails, a beginning of them all was written.
pub fn put_pieces<S: Sink>(sink: &mut S, pieces: &[&[u8]]) -> Result<(), WriteFailed>
    requires { S.failures sink.old < 2 ^ 64 - 1 }
    ensures puts { Puts result (S.contents sink.old) (S.contents sink.new) (flat_map (λ piece. piece.now) pieces.now) }
    ensures same { OnOk result (S.failures sink.new ≡ S.failures sink.old) }
    ensures failed { OnErr result (S.failures sink.new ≡ S.failures sink.old + 1) }
{
    for piece in pieces {
        match sink.put(piece) {
            Ok(()) => {}
            Err(failed) => return Err(failed),
        }
    }
    Ok(())
}

fn fault_words(fault: Fault) -> &'static [u8]
    ensures { result.now ≡ fault_words fault }
{
    match fault {
        Fault::StackEmpty => b"fault F1",
        Fault::StackFull => b"fault F2",
        Fault::WrongKind => b"fault F3",
        Fault::WrongLocal => b"fault F4",
        Fault::NoInstruction => b"fault F5",
        Fault::WrongClass => b"fault F6",
        Fault::WrongReturn => b"fault F7",
        Fault::ThreadLimit => b"fault F8",
        Fault::NoMethod => b"fault F9",
        Fault::MonitorLimit => b"fault F10",
    }
}

/// What a turn answered, in words: `done`, `not ready`, `stopped`, a fault, `output full` or `step limit`.
pub fn turn_words(turn: Turn) -> &'static [u8]
    ensures { result.now ≡ turn_words turn }
{
    match turn {
        Turn::Done => b"done",
        Turn::NotReady => b"not ready",
        Turn::Stopped => b"stopped",
        Turn::Fault(fault) => fault_words(fault),
        Turn::OutputFull => b"output full",
        Turn::StepLimit => b"step limit",
    }
}

/// Writes what a turn answered.
pub fn put_turn<S: Sink>(sink: &mut S, turn: Turn) -> Result<(), WriteFailed>
    requires { S.failures sink.old < 2 ^ 64 - 1 }
    ensures puts { Puts result (S.contents sink.old) (S.contents sink.new) (turn_text turn) }
    ensures same { OnOk result (S.failures sink.new ≡ S.failures sink.old) }
    ensures failed { OnErr result (S.failures sink.new ≡ S.failures sink.old + 1) }
{
    put_pieces(sink, &[turn_words(turn), b"\n"])
}

/// The same of numbers as they print.
fn put_stop_at<S: Sink>(
    sink: &mut S,
    turns: &[u8],
    number: &[u8],
    thread: &[u8],
) -> Result<(), WriteFailed>
    requires { S.failures sink.old < 2 ^ 64 - 1 }
    ensures puts { Puts result (S.contents sink.old) (S.contents sink.new) (stop_text turns.now number.now thread.now) }
    ensures same { OnOk result (S.failures sink.new ≡ S.failures sink.old) }
    ensures failed { OnErr result (S.failures sink.new ≡ S.failures sink.old + 1) }
{
    put_pieces(
        sink,
        &[
            b"ran ",
            turns,
            b": at breakpoint ",
            number,
            b" thread ",
            thread,
            b"\n",
        ],
    )
}

/// Writes how many turns a run made that ended at a breakpoint.
fn put_stop<S: Sink>(
    sink: &mut S,
    turns: &[u8],
    number: usize,
    thread: u8,
) -> Result<(), WriteFailed>
    requires { S.failures sink.old < 2 ^ 64 - 1 }
    ensures puts { Puts result (S.contents sink.old) (S.contents sink.new)
        (stop_text turns.now (decimal number) (decimal thread)) }
    ensures same { OnOk result (S.failures sink.new ≡ S.failures sink.old) }
    ensures failed { OnErr result (S.failures sink.new ≡ S.failures sink.old + 1) }
{
    let mut number_buffer = Buffer::new();
    let mut thread_buffer = Buffer::new();
    put_stop_at(
        sink,
        turns,
        number_buffer.format(number).as_bytes(),
        thread_buffer.format(thread).as_bytes(),
    )
}

/// Writes how many turns a run made, and why it ended.
pub fn put_ran<S: Sink>(sink: &mut S, turns: u32, reason: Reason) -> Result<(), WriteFailed>
    requires { S.failures sink.old < 2 ^ 64 - 1 }
    ensures puts { Puts result (S.contents sink.old) (S.contents sink.new) (ran_text turns reason) }
    ensures same { OnOk result (S.failures sink.new ≡ S.failures sink.old) }
    ensures failed { OnErr result (S.failures sink.new ≡ S.failures sink.old + 1) }
{
    let mut buffer = Buffer::new();
    let count = buffer.format(turns).as_bytes();
    match reason {
        Reason::Running => put_pieces(sink, &[b"ran ", count, b": running\n"]),
        Reason::Finished => put_pieces(sink, &[b"ran ", count, b": finished\n"]),
        Reason::Stuck => put_pieces(sink, &[b"ran ", count, b": stuck\n"]),
        Reason::Turn(turn) => put_pieces(sink, &[b"ran ", count, b": ", turn_words(turn), b"\n"]),
        Reason::Breakpoint { number, thread } => { put_stop(sink, count, number, thread) }
    }
}

/// Writes the number of a new breakpoint.
pub fn put_broken<S: Sink>(sink: &mut S, number: usize) -> Result<(), WriteFailed>
    requires { S.failures sink.old < 2 ^ 64 - 1 }
    ensures puts { Puts result (S.contents sink.old) (S.contents sink.new) (broken_text number) }
    ensures same { OnOk result (S.failures sink.new ≡ S.failures sink.old) }
    ensures failed { OnErr result (S.failures sink.new ≡ S.failures sink.old + 1) }
{
    let mut buffer = Buffer::new();
    put_pieces(
        sink,
        &[b"breakpoint ", buffer.format(number).as_bytes(), b"\n"],
    )
}

/// Writes the number of a breakpoint that was deleted.
pub fn put_deleted<S: Sink>(sink: &mut S, number: u32) -> Result<(), WriteFailed>
    requires { S.failures sink.old < 2 ^ 64 - 1 }
    ensures puts { Puts result (S.contents sink.old) (S.contents sink.new) (deleted_text number) }
    ensures same { OnOk result (S.failures sink.new ≡ S.failures sink.old) }
    ensures failed { OnErr result (S.failures sink.new ≡ S.failures sink.old + 1) }
{
    let mut buffer = Buffer::new();
    put_pieces(
        sink,
        &[b"deleted ", buffer.format(number).as_bytes(), b"\n"],
    )
}

/// Writes the state of the class of a name, or that there is no such class.
pub fn put_class<S: Sink>(
    sink: &mut S,
    name: &[u8],
    state: Option<ClassState>,
) -> Result<(), WriteFailed>
    requires { S.failures sink.old < 2 ^ 64 - 1 }
    ensures puts { Puts result (S.contents sink.old) (S.contents sink.new) (class_text name.now state) }
    ensures same { OnOk result (S.failures sink.new ≡ S.failures sink.old) }
    ensures failed { OnErr result (S.failures sink.new ≡ S.failures sink.old + 1) }
{
    match state {
        None => put_pieces(sink, &[b"error no such class\n"]),
        Some(ClassState::Unused) => put_pieces(sink, &[b"class ", name, b" unused\n"]),
        Some(ClassState::Done) => put_pieces(sink, &[b"class ", name, b" done\n"]),
        Some(ClassState::Failed) => put_pieces(sink, &[b"class ", name, b" failed\n"]),
        Some(ClassState::Running(thread)) => {
            let mut buffer = Buffer::new();
            let thread = buffer.format(thread).as_bytes();
            put_pieces(sink, &[b"class ", name, b" running ", thread, b"\n"])
        }
    }
}

/// Writes how many bytes the output has, and these.
pub fn put_farewell<S: Sink>(sink: &mut S, output: &[u8]) -> Result<(), WriteFailed>
    requires { S.failures sink.old < 2 ^ 64 - 1 }
    ensures puts { Puts result (S.contents sink.old) (S.contents sink.new) (farewell output.now) }
    ensures same { OnOk result (S.failures sink.new ≡ S.failures sink.old) }
    ensures failed { OnErr result (S.failures sink.new ≡ S.failures sink.old + 1) }
{
    let mut buffer = Buffer::new();
    put_pieces(
        sink,
        &[
            b"output ",
            buffer.format(output.len()).as_bytes(),
            b"\n",
            output,
        ],
    )
}
