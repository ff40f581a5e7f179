//! Answers that go to a sink, and what came of that.
ghost use Rattle.std.specs.Prelude.{◌≡◌, ◌+◌, ◌-◌, ◌^◌, ◌<◌, IfOk, OnErr, OnOk, Option, List, ℕ};
ghost use Rattle.debug_texts.specs.Streams.{Puts};
ghost use Rattle.debugger.specs.Sessions.{Counts, Told, Written};

use crate::errors::DebugError;
use debug_texts::sinks::{Sink, WriteFailed};
use std::alloc::AllocError;

/// What came of writing an answer.
pub fn told(written: Result<(), WriteFailed>) -> Result<(), DebugError>
    ensures told { (out now : Option (List ℕ)) (text : List ℕ) → Puts written out now text
        → Written result out now text }
    ensures counts { (before after : ℕ) → OnOk written (after ≡ before) → OnErr written (after ≡ before + 1)
        → Counts result before after }
{
    match written {
        Ok(()) => Ok(()),
        Err(_) => Err(DebugError::Write),
    }
}

/// Writes a text.
pub fn put_text<S: Sink>(sink: &mut S, text: &[u8]) -> Result<(), DebugError>
    requires { S.failures sink.old < 2 ^ 64 - 1 }
    ensures told { Written result (S.contents sink.old) (S.contents sink.new) text.now }
    ensures counts { Counts result (S.failures sink.old) (S.failures sink.new) }
{
    match sink.put(text) {
        Ok(()) => Ok(()),
        Err(_) => Err(DebugError::Write),
    }
}

/// Writes a text, if there was memory for it.
pub fn put_made<S: Sink>(sink: &mut S, text: Result<Vec<u8>, AllocError>) -> Result<(), DebugError>
    requires { S.failures sink.old < 2 ^ 64 - 1 }
    ensures told { (wanted : List ℕ) → IfOk text (λ made. made.items ≡ wanted)
        → Told result (S.contents sink.old) (S.contents sink.new) wanted }
    ensures counts { Counts result (S.failures sink.old) (S.failures sink.new) }
{
    match text {
        Ok(text) => put_text(sink, &text),
        Err(_) => Err(DebugError::Memory),
    }
}
