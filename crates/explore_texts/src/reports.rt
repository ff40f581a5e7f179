//! Reports: outcomes in the order in which they were found, and how far the exploration went.
ghost use Rattle.std.specs.Prelude.{◌≡◌, ◌+◌, ◌-◌, ◌^◌, ◌<◌, OnErr, OnOk};
ghost use Rattle.std.specs.Fmt.{decimal};
ghost use Rattle.model.specs.Faults.{fault_number};
ghost use Rattle.debug_texts.specs.Streams.{Puts};
ghost use Rattle.explore_texts.specs.Reports.{closing, cut_words, end_line, ended_line, fault_line, found_text, head_line};
ghost use Rattle.explore_texts.specs.Reports.{last_line, last_of, numbered_texts, parts_text, report_text, status_words};
ghost use Rattle.explore_texts.specs.Reports.{tail_of, tail_text, whole_text};

use debug_texts::answers::put_pieces;
use debug_texts::sinks::{Sink, WriteFailed};
use exploring::{Cut, End, Explored, Found};
use itoa::Buffer;
use model::turns::{Fault, Status};

// ---- words

/// How an outcome stands in which there was no fault. A program that could go on isn't allowed to print more.
fn status_words(status: Status) -> &'static [u8]
    ensures { result.now ≡ status_words status }
{
    match status {
        Status::Running => b"output limit",
        Status::Finished => b"finished",
        Status::Stuck => b"stuck",
        Status::Faulted => b"fault",
    }
}

/// Whether an exploration is complete, or why it was cut off.
fn cut_words(cut: Option<Cut>) -> &'static [u8]
    ensures { result.now ≡ cut_words cut }
{
    match cut {
        None => b"complete",
        Some(Cut::States) => b"cut off: states",
        Some(Cut::Memory) => b"cut off: memory",
        Some(Cut::Depth) => b"cut off: depth",
    }
}

/// A newline for an output that doesn't end in one.
fn closing(output: &[u8]) -> &'static [u8]
    ensures { result.now ≡ closing output.now }
{
    match output.last() {
        None => b"",
        Some(byte) => { if *byte == b'\n' { b"" } else { b"\n" } }
    }
}

// ---- the first line of an outcome

/// The line of an outcome with a fault, of numbers as they print.
fn put_fault_of<S: Sink>(
    sink: &mut S,
    number: &[u8],
    fault: &[u8],
    thread: &[u8],
) -> Result<(), WriteFailed>
    requires { S.failures sink.old < 2 ^ 64 - 1 }
    ensures puts { Puts result (S.contents sink.old) (S.contents sink.new) (fault_line number.now fault.now thread.now) }
    ensures same { OnOk result (S.failures sink.new ≡ S.failures sink.old) }
    ensures failed { OnErr result (S.failures sink.new ≡ S.failures sink.old + 1) }
{
    put_pieces(
        sink,
        &[
            b"outcome ",
            number,
            b": fault F",
            fault,
            b" in thread ",
            thread,
            b"\n",
        ],
    )
}

/// The line of an outcome with a fault.
fn put_fault<S: Sink>(
    sink: &mut S,
    number: &[u8],
    fault: Fault,
    thread: u8,
) -> Result<(), WriteFailed>
    requires { S.failures sink.old < 2 ^ 64 - 1 }
    ensures puts { Puts result (S.contents sink.old) (S.contents sink.new)
        (fault_line number.now (decimal (fault_number fault)) (decimal thread)) }
    ensures same { OnOk result (S.failures sink.new ≡ S.failures sink.old) }
    ensures failed { OnErr result (S.failures sink.new ≡ S.failures sink.old + 1) }
{
    let mut fault_buffer = Buffer::new();
    let mut thread_buffer = Buffer::new();
    put_fault_of(
        sink,
        number,
        fault_buffer.format(fault.number()).as_bytes(),
        thread_buffer.format(thread).as_bytes(),
    )
}

/// The first line of an outcome: its number, and how it stands.
fn put_head<S: Sink>(
    sink: &mut S,
    number: usize,
    status: Status,
    fault: Option<(Fault, u8)>,
) -> Result<(), WriteFailed>
    requires { S.failures sink.old < 2 ^ 64 - 1 }
    ensures puts { Puts result (S.contents sink.old) (S.contents sink.new) (head_line number status fault) }
    ensures same { OnOk result (S.failures sink.new ≡ S.failures sink.old) }
    ensures failed { OnErr result (S.failures sink.new ≡ S.failures sink.old + 1) }
{
    let mut buffer = Buffer::new();
    let number = buffer.format(number).as_bytes();
    match fault {
        None => put_pieces(
            sink,
            &[b"outcome ", number, b": ", status_words(status), b"\n"],
        ),
        Some((fault, thread)) => put_fault(sink, number, fault, thread),
    }
}

// ---- how threads ended

/// The line of a thread that was ended by an exception.
fn put_ended<S: Sink>(sink: &mut S, thread: usize, class: &[u8]) -> Result<(), WriteFailed>
    requires { S.failures sink.old < 2 ^ 64 - 1 }
    ensures puts { Puts result (S.contents sink.old) (S.contents sink.new) (ended_line thread class.now) }
    ensures same { OnOk result (S.failures sink.new ≡ S.failures sink.old) }
    ensures failed { OnErr result (S.failures sink.new ≡ S.failures sink.old + 1) }
{
    let mut buffer = Buffer::new();
    put_pieces(
        sink,
        &[
            b"thread ",
            buffer.format(thread).as_bytes(),
            b" ended by ",
            class,
            b"\n",
        ],
    )
}

/// The line of a thread, which none has that lives, or that ended by itself.
fn put_end<S: Sink>(sink: &mut S, thread: usize, end: &End) -> Result<(), WriteFailed>
    requires { S.failures sink.old < 2 ^ 64 - 1 }
    ensures puts { Puts result (S.contents sink.old) (S.contents sink.new) (end_line thread end.now) }
    ensures same { OnOk result (S.failures sink.new ≡ S.failures sink.old) }
    ensures failed { OnErr result (S.failures sink.new ≡ S.failures sink.old + 1) }
{
    match end {
        End::Lives => put_pieces(sink, &[]),
        End::Ended(None) => put_pieces(sink, &[]),
        End::Ended(Some(class)) => put_ended(sink, thread, class.as_bytes()),
    }
}

/// The lines of threads.
fn put_ends<S: Sink>(sink: &mut S, ends: &[End]) -> Result<(), WriteFailed>
    requires { S.failures sink.old < 2 ^ 64 - 1 }
    ensures puts { Puts result (S.contents sink.old) (S.contents sink.new) (numbered_texts end_line 0 ends.now) }
    ensures same { OnOk result (S.failures sink.new ≡ S.failures sink.old) }
    ensures failed { OnErr result (S.failures sink.new ≡ S.failures sink.old + 1) }
{
    for (thread, end) in ends.iter().enumerate() {
        match put_end(sink, thread, end) {
            Ok(()) => {}
            Err(failed) => return Err(failed),
        }
    }
    Ok(())
}

// ---- outcomes

/// The end of an outcome, of numbers as they print.
fn put_tail_of<S: Sink>(
    sink: &mut S,
    turns: &[u8],
    size: &[u8],
    output: &[u8],
    closing: &[u8],
) -> Result<(), WriteFailed>
    requires { S.failures sink.old < 2 ^ 64 - 1 }
    ensures puts { Puts result (S.contents sink.old) (S.contents sink.new)
        (tail_of turns.now size.now output.now closing.now) }
    ensures same { OnOk result (S.failures sink.new ≡ S.failures sink.old) }
    ensures failed { OnErr result (S.failures sink.new ≡ S.failures sink.old + 1) }
{
    put_pieces(
        sink,
        &[b"turns ", turns, b"\noutput ", size, b"\n", output, closing],
    )
}

/// How many turns lead to an outcome, and what was printed.
fn put_tail<S: Sink>(sink: &mut S, turns: usize, output: &[u8]) -> Result<(), WriteFailed>
    requires { S.failures sink.old < 2 ^ 64 - 1 }
    ensures puts { Puts result (S.contents sink.old) (S.contents sink.new) (tail_text turns output.now) }
    ensures same { OnOk result (S.failures sink.new ≡ S.failures sink.old) }
    ensures failed { OnErr result (S.failures sink.new ≡ S.failures sink.old + 1) }
{
    let mut turns_buffer = Buffer::new();
    let mut output_buffer = Buffer::new();
    put_tail_of(
        sink,
        turns_buffer.format(turns).as_bytes(),
        output_buffer.format(output.len()).as_bytes(),
        output,
        closing(output),
    )
}

/// An outcome with its number, by its parts.
fn put_parts<S: Sink>(
    sink: &mut S,
    number: usize,
    status: Status,
    fault: Option<(Fault, u8)>,
    ends: &[End],
    turns: usize,
    output: &[u8],
) -> Result<(), WriteFailed>
    requires { S.failures sink.old < 2 ^ 64 - 1 }
    ensures puts { Puts result (S.contents sink.old) (S.contents sink.new)
        (parts_text number status fault ends.now turns output.now) }
    ensures same { OnOk result (S.failures sink.new ≡ S.failures sink.old) }
    ensures failed { OnErr result (S.failures sink.new ≡ S.failures sink.old + 1) }
{
    match put_head(sink, number, status, fault) {
        Err(failed) => Err(failed),
        Ok(()) => match put_ends(sink, ends) {
            Err(failed) => Err(failed),
            Ok(()) => put_tail(sink, turns, output),
        },
    }
}

/// An outcome with its number.
fn put_found<S: Sink>(sink: &mut S, number: usize, found: &Found) -> Result<(), WriteFailed>
    requires { S.failures sink.old < 2 ^ 64 - 1 }
    ensures puts { Puts result (S.contents sink.old) (S.contents sink.new) (found_text number found.now) }
    ensures same { OnOk result (S.failures sink.new ≡ S.failures sink.old) }
    ensures failed { OnErr result (S.failures sink.new ≡ S.failures sink.old + 1) }
{
    let outcome = &found.outcome;
    put_parts(
        sink,
        number,
        outcome.status,
        outcome.fault,
        &outcome.ends,
        found.witness.len(),
        &outcome.output,
    )
}

/// Outcomes, numbered from 1.
fn put_all<S: Sink>(sink: &mut S, found: &[Found]) -> Result<(), WriteFailed>
    requires { S.failures sink.old < 2 ^ 64 - 1 }
    ensures puts { Puts result (S.contents sink.old) (S.contents sink.new) (numbered_texts found_text 1 found.now) }
    ensures same { OnOk result (S.failures sink.new ≡ S.failures sink.old) }
    ensures failed { OnErr result (S.failures sink.new ≡ S.failures sink.old + 1) }
{
    for (place, each) in found.iter().enumerate() {
        match put_found(sink, place + 1, each) {
            Ok(()) => {}
            Err(failed) => return Err(failed),
        }
    }
    Ok(())
}

// ---- the whole

/// The last line, of numbers as they print.
fn put_last_of<S: Sink>(
    sink: &mut S,
    states: &[u8],
    turns: &[u8],
    how: &[u8],
) -> Result<(), WriteFailed>
    requires { S.failures sink.old < 2 ^ 64 - 1 }
    ensures puts { Puts result (S.contents sink.old) (S.contents sink.new) (last_of states.now turns.now how.now) }
    ensures same { OnOk result (S.failures sink.new ≡ S.failures sink.old) }
    ensures failed { OnErr result (S.failures sink.new ≡ S.failures sink.old + 1) }
{
    put_pieces(
        sink,
        &[
            b"explored ",
            states,
            b" states, ",
            turns,
            b" turns: ",
            how,
            b"\n",
        ],
    )
}

/// The last line: how many states were found and turns made, and whether that is all.
fn put_last<S: Sink>(
    sink: &mut S,
    states: u64,
    turns: u64,
    cut: Option<Cut>,
) -> Result<(), WriteFailed>
    requires { S.failures sink.old < 2 ^ 64 - 1 }
    ensures puts { Puts result (S.contents sink.old) (S.contents sink.new) (last_line states turns cut) }
    ensures same { OnOk result (S.failures sink.new ≡ S.failures sink.old) }
    ensures failed { OnErr result (S.failures sink.new ≡ S.failures sink.old + 1) }
{
    let mut states_buffer = Buffer::new();
    let mut turns_buffer = Buffer::new();
    put_last_of(
        sink,
        states_buffer.format(states).as_bytes(),
        turns_buffer.format(turns).as_bytes(),
        cut_words(cut),
    )
}

/// A report by its parts.
fn put_whole<S: Sink>(
    sink: &mut S,
    found: &[Found],
    states: u64,
    turns: u64,
    cut: Option<Cut>,
) -> Result<(), WriteFailed>
    requires { S.failures sink.old < 2 ^ 64 - 1 }
    ensures puts { Puts result (S.contents sink.old) (S.contents sink.new) (whole_text found.now states turns cut) }
    ensures same { OnOk result (S.failures sink.new ≡ S.failures sink.old) }
    ensures failed { OnErr result (S.failures sink.new ≡ S.failures sink.old + 1) }
{
    match put_all(sink, found) {
        Err(failed) => Err(failed),
        Ok(()) => put_last(sink, states, turns, cut),
    }
}

/// Writes the report of what an exploration found, in pieces: outcomes from 1 on, each with the threads that an
/// exception ended, how many turns lead to it, and what was printed; then how many states were found and turns made, and
/// whether that is all. It takes no memory. `WriteFailed` where a write failed: a beginning was written.
pub fn put_report<S: Sink>(sink: &mut S, explored: &Explored) -> Result<(), WriteFailed>
    requires { S.failures sink.old < 2 ^ 64 - 1 }
    ensures puts { Puts result (S.contents sink.old) (S.contents sink.new) (report_text explored.now) }
    ensures same { OnOk result (S.failures sink.new ≡ S.failures sink.old) }
    ensures failed { OnErr result (S.failures sink.new ≡ S.failures sink.old + 1) }
{
    put_whole(
        sink,
        &explored.found,
        explored.states,
        explored.turns,
        explored.cut,
    )
}
