//! What rounds came to.
ghost use Rattle.std.specs.Prelude.{◌≡◌, ◌+◌, ◌-◌, ◌^◌, ◌<◌, OnErr, OnOk};
ghost use Rattle.debug_texts.specs.Streams.{Puts};
ghost use Rattle.page_texts.specs.Shown.{rounds_text};

use debug_texts::answers::{put_pieces, turn_words};
use debug_texts::sinks::{Sink, WriteFailed};
use itoa::Buffer;
use model::turns::Turn;

/// Writes how many rounds are left to make, and what the last thread's turn answered. It takes no memory.
pub fn put_rounds<S: Sink>(sink: &mut S, left: u32, answer: Turn) -> Result<(), WriteFailed>
    requires { S.failures sink.old < 2 ^ 64 - 1 }
    ensures puts { Puts result (S.contents sink.old) (S.contents sink.new) (rounds_text left answer) }
    ensures same { OnOk result (S.failures sink.new ≡ S.failures sink.old) }
    ensures failed { OnErr result (S.failures sink.new ≡ S.failures sink.old + 1) }
{
    let mut buffer = Buffer::new();
    put_pieces(
        sink,
        &[
            b"left ",
            buffer.format(left).as_bytes(),
            b": ",
            turn_words(answer),
            b"\n",
        ],
    )
}
