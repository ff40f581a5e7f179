//! The line of a thread.
ghost use Rattle.std.specs.Prelude.{◌≡◌, ◌++◌, IfOk};
ghost use Rattle.page_texts.specs.Shown.{thread_line};

use debug_texts::values::write_number;
use model::views::{ThreadState, ThreadView};
use std::alloc::AllocError;

/// Adds the line of a thread: whether it lives or has ended, and by an exception of which class.
pub fn write_thread(
    text: &mut Vec<u8>,
    number: u8,
    thread: &Option<ThreadView>,
) -> Result<(), AllocError>
    ensures { IfOk result (λ _. text.new.items ≡ text.old.items ++ thread_line number thread.now) }
{
    text.extend_from_slice(b"thread ")?;
    write_number(text, u32::from(number))?;
    match thread {
        None => text.extend_from_slice(b" none\n"),
        Some(
            ThreadView {
                state: ThreadState::Live(_),
            },
        ) => text.extend_from_slice(b" lives\n"),
        Some(
            ThreadView {
                state: ThreadState::Ended(None),
            },
        ) => text.extend_from_slice(b" ended\n"),
        Some(
            ThreadView {
                state: ThreadState::Ended(Some(class)),
            },
        ) => {
            text.extend_from_slice(b" ended by ")?;
            text.extend_from_slice(class.as_bytes())?;
            text.push(b'\n')?;
            Ok(())
        }
    }
}
