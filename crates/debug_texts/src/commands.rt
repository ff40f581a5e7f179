//! What a command line says.
ghost use Rattle.std.specs.Prelude.{◌≡◌, ◌<◌, ◌≤◌, ◌==◌, IfSome, MatchOption, None, Some, length};
ghost use Rattle.std.specs.List.{position, position_or_len};
ghost use Rattle.std.specs.Option.{option_map};
ghost use Rattle.debug_texts.specs.Commands.{alone, break_at, break_in, break_of, class_of, command_of, cut, said, thread_of};
ghost use Rattle.debug_texts.specs.Commands.{turns_of, with_operand};

use journal_texts::words::number_of;
use model::descriptors::arguments_of;
use model::good_names::{is_class_name, is_method_name};

/// A command, with words of its line lent. Numbers are as they stand there: of breakpoints, threads, turns, births.
#[derive(Clone, Copy)]
pub enum Command<'a> {
    Break {
        class: &'a [u8],
        name: &'a [u8],
        descriptor: &'a [u8],
        pc: u32,
    },
    Delete(u32),
    Step(u8),
    Collect,
    Run(u32),
    Stack(u8),
    Object(u32),
    Heap,
    Class(&'a [u8]),
    Quit,
}

/// The place of the first such byte.
fn place_of(byte: u8, bytes: &[u8]) -> Option<usize>
    ensures place { result ≡ position (λ b. b == byte) bytes.now }
    ensures within { IfSome result (λ place. place < length bytes.now) }
{
    bytes.iter().position(|b| *b == byte)
}

/// What stands before the first such byte, and after it.
#[tactic(auto, using(crate::proofs::Cuts::cuts))]
fn cut(byte: u8, bytes: &[u8]) -> Option<(&[u8], &[u8])>
    ensures { MatchOption result (cut byte bytes.now ≡ None)
        (λ parts. cut byte bytes.now ≡ Some (parts.0.now, parts.1.now)) }
{
    match place_of(byte, bytes) {
        None => None,
        Some(place) => Some((&bytes[..place], &bytes[place + 1..])),
    }
}

/// A thread's number, up to 255.
fn thread_of(word: &[u8]) -> Option<u8>
    ensures { result ≡ thread_of word.now }
{
    let number = number_of(word)?;
    if number <= 255 {
        Some(number as u8)
    } else {
        None
    }
}

/// A number of turns, from 1 to 1,000,000.
fn turns_of(word: &[u8]) -> Option<u32>
    ensures { result ≡ turns_of word.now }
{
    let number = number_of(word)?;
    if 1 <= number && number <= 1_000_000 {
        Some(number)
    } else {
        None
    }
}

/// What a line of one word says.
fn alone(word: &[u8]) -> Option<Command<'_>>
    ensures { option_map said result ≡ alone word.now }
{
    if word == b"gc".as_slice() {
        Some(Command::Collect)
    } else if word == b"heap".as_slice() {
        Some(Command::Heap)
    } else if word == b"quit".as_slice() {
        Some(Command::Quit)
    } else {
        None
    }
}

/// A breakpoint in a method of a class, whose arguments take 255 units at most (JVMS 4.3.3).
fn break_in<'a>(
    class: &'a [u8],
    name: &'a [u8],
    descriptor: &'a [u8],
    pc: u32,
) -> Option<Command<'a>>
    ensures { option_map said result ≡ break_in class.now name.now descriptor.now (Some pc) }
{
    let fits = matches!(arguments_of(descriptor), Some(units) if units <= 255);
    if is_class_name(class) && is_method_name(name) && fits {
        Some(Command::Break {
            class,
            name,
            descriptor,
            pc,
        })
    } else {
        None
    }
}

/// How many bytes stand before the first parenthesis, or all.
fn before_parenthesis(bytes: &[u8]) -> usize
    ensures number { result ≡ position_or_len (λ b. b == 40) bytes.now }
    ensures within { result ≤ length bytes.now }
{
    bytes.iter().take_while(|b| **b != b'(').count()
}

/// The words after `break`: C.m(A)R, and a pc.
fn break_at(words: &[u8]) -> Option<Command<'_>>
    ensures { option_map said result ≡ break_at (cut 32 words.now) }
{
    let (member, pc) = cut(b' ', words)?;
    let (class, method) = cut(b'.', member)?;
    let (name, descriptor) = method.split_at(before_parenthesis(method));
    break_in(class, name, descriptor, number_of(pc)?)
}

fn class_of(name: &[u8]) -> Option<Command<'_>>
    ensures { option_map said result ≡ class_of name.now }
{
    if is_class_name(name) {
        Some(Command::Class(name))
    } else {
        None
    }
}

/// What a word says, with what stands after the space behind it.
fn with_operand<'a>(word: &[u8], rest: &'a [u8]) -> Option<Command<'a>>
    ensures { option_map said result ≡ with_operand word.now rest.now }
{
    if word == b"break".as_slice() {
        break_at(rest)
    } else if word == b"delete".as_slice() {
        Some(Command::Delete(number_of(rest)?))
    } else if word == b"step".as_slice() {
        Some(Command::Step(thread_of(rest)?))
    } else if word == b"run".as_slice() {
        Some(Command::Run(turns_of(rest)?))
    } else if word == b"stack".as_slice() {
        Some(Command::Stack(thread_of(rest)?))
    } else if word == b"object".as_slice() {
        Some(Command::Object(number_of(rest)?))
    } else if word == b"class".as_slice() {
        class_of(rest)
    } else {
        None
    }
}

/// What a line says; none where it is no command.
pub fn command_of(line: &[u8]) -> Option<Command<'_>>
    ensures { option_map said result ≡ command_of line.now }
{
    if line.len() > 200 {
        return None;
    }
    match cut(b' ', line) {
        Some((word, rest)) => with_operand(word, rest),
        None => alone(line),
    }
}
