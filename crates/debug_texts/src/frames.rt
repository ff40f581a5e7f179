//! The text of a thread's frames.
ghost use Rattle.std.specs.Prelude.{◌≡◌, ◌++◌, IfOk, Some};
ghost use Rattle.std.specs.Option.{option_copied};
ghost use Rattle.debug_texts.specs.Answers.{body_text, end_text, parts_text};
ghost use Rattle.debug_texts.specs.Answers.{frame_line, frame_text, frames_text, locals_line, mark_line, method_name};
ghost use Rattle.debug_texts.specs.Answers.{method_words, method_words_in, monitor_line, stack_line, stack_text};

use crate::values::{write_birth, write_entries, write_length, write_number, write_values};
use model::listings::{Listing, Method};
use model::places::MethodPlace;
use model::turns::Mark;
use model::values::{Entry, Value};
use model::views::{FrameView, ThreadState, ThreadView};
use std::alloc::{AllocError, Global};

/// Adds a method's name and descriptor; none stands for the initializer of a class that declares none.
fn write_name(text: &mut Vec<u8>, method: Option<&Method>) -> Result<(), AllocError>
    ensures { IfOk result (λ _. text.new.items ≡ text.old.items ++ method_name (option_copied method.entry)) }
{
    match method {
        Some(method) => {
            text.extend_from_slice(method.name.as_bytes())?;
            text.extend_from_slice(method.descriptor.as_bytes())
        }
        None => text.extend_from_slice(b"<clinit>()V"),
    }
}

/// Adds a method of a class as C.m(A)R.
fn write_method_of(text: &mut Vec<u8>, class: &Listing, method: usize) -> Result<(), AllocError>
    ensures { IfOk result (λ _. text.new.items ≡ text.old.items ++ method_words_in (Some class.now) method) }
{
    text.extend_from_slice(class.name.as_bytes())?;
    text.push(b'.')?;
    write_name(text, class.methods.as_slice().get(method))
}

/// Adds a method as C.m(A)R. The initializer of a class that declares none stands past its methods.
fn write_method(
    text: &mut Vec<u8>,
    program: &[Listing],
    place: MethodPlace,
) -> Result<(), AllocError>
    ensures { IfOk result (λ _. text.new.items ≡ text.old.items ++ method_words program.now place) }
{
    match program.get(place.class) {
        Some(class) => write_method_of(text, class, place.method),
        None => Ok(()),
    }
}

/// Adds the line that says where a frame stands.
fn write_place(
    text: &mut Vec<u8>,
    program: &[Listing],
    depth: usize,
    frame: &FrameView,
) -> Result<(), AllocError>
    ensures { IfOk result (λ _. text.new.items ≡ text.old.items ++ frame_line program.now depth frame.now) }
{
    text.extend_from_slice(b"frame ")?;
    write_length(text, depth)?;
    text.push(b' ')?;
    write_method(text, program, frame.method)?;
    text.extend_from_slice(b" pc ")?;
    write_number(text, u32::from(frame.pc))?;
    text.push(b'\n')?;
    Ok(())
}

fn write_monitor(text: &mut Vec<u8>, monitor: Option<u32>) -> Result<(), AllocError>
    ensures { IfOk result (λ _. text.new.items ≡ text.old.items ++ monitor_line monitor) }
{
    let Some(birth) = monitor else {
        return Ok(());
    };
    text.extend_from_slice(b"monitor ")?;
    write_birth(text, birth)?;
    text.push(b'\n')?;
    Ok(())
}

fn write_mark(text: &mut Vec<u8>, mark: Mark) -> Result<(), AllocError>
    ensures { IfOk result (λ _. text.new.items ≡ text.old.items ++ mark_line mark) }
{
    match mark {
        Mark::Unmarked => Ok(()),
        Mark::Waiting => text.extend_from_slice(b"waiting\n"),
        Mark::Failing => text.extend_from_slice(b"failing\n"),
    }
}

/// Adds the line of a frame's locals.
fn write_locals(text: &mut Vec<u8>, locals: &[Entry]) -> Result<(), AllocError>
    ensures { IfOk result (λ _. text.new.items ≡ text.old.items ++ locals_line locals.now) }
{
    text.extend_from_slice(b"locals")?;
    write_entries(text, locals)?;
    text.push(b'\n')?;
    Ok(())
}

/// Adds the line of a frame's stack, its bottom first.
fn write_stack(text: &mut Vec<u8>, stack: &[Value]) -> Result<(), AllocError>
    ensures { IfOk result (λ _. text.new.items ≡ text.old.items ++ stack_line stack.now) }
{
    text.extend_from_slice(b"stack")?;
    write_values(text, stack)?;
    text.push(b'\n')?;
    Ok(())
}

/// Adds the lines of a frame's monitor and of its mark, where it has them.
fn write_end(text: &mut Vec<u8>, monitor: Option<u32>, mark: Mark) -> Result<(), AllocError>
    ensures { IfOk result (λ _. text.new.items ≡ text.old.items ++ end_text monitor mark) }
{
    write_monitor(text, monitor)?;
    write_mark(text, mark)
}

/// Adds the lines of what a frame has, from these parts.
fn write_parts(
    text: &mut Vec<u8>,
    locals: &[Entry],
    stack: &[Value],
    monitor: Option<u32>,
    mark: Mark,
) -> Result<(), AllocError>
    ensures { IfOk result (λ _. text.new.items
        ≡ text.old.items ++ parts_text locals.now stack.now monitor mark) }
{
    write_locals(text, locals)?;
    write_stack(text, stack)?;
    write_end(text, monitor, mark)
}

/// Adds the lines of what a frame has.
fn write_body(text: &mut Vec<u8>, frame: &FrameView) -> Result<(), AllocError>
    ensures { IfOk result (λ _. text.new.items ≡ text.old.items ++ body_text frame.now) }
{
    write_parts(text, &frame.locals, &frame.stack, frame.monitor, frame.mark)
}

/// Adds the lines of a frame.
fn write_frame(
    text: &mut Vec<u8>,
    program: &[Listing],
    depth: usize,
    frame: &FrameView,
) -> Result<(), AllocError>
    ensures { IfOk result (λ _. text.new.items ≡ text.old.items ++ frame_text program.now depth frame.now) }
{
    write_place(text, program, depth, frame)?;
    write_body(text, frame)
}

/// Adds the lines of frames, the innermost first.
fn write_frames(
    text: &mut Vec<u8>,
    program: &[Listing],
    frames: &[FrameView],
) -> Result<(), AllocError>
    ensures { IfOk result (λ _. text.new.items ≡ text.old.items ++ frames_text program.now 0 frames.now) }
{
    for depth in (0..frames.len()).rev() {
        write_frame(text, program, depth, &frames[depth])?;
    }
    Ok(())
}

/// What `stack` answers of a thread.
pub fn stack_answer(
    alloc: Global,
    program: &[Listing],
    thread: &Option<ThreadView>,
) -> Result<Vec<u8>, AllocError>
    ensures { IfOk result (λ text. text.items ≡ stack_text program.now thread.now) }
{
    let mut text = Vec::new(alloc);
    match thread {
        None => text.extend_from_slice(b"error no such thread\n")?,
        Some(
            ThreadView {
                state: ThreadState::Ended(_),
            },
        ) => text.extend_from_slice(b"ended\n")?,
        Some(
            ThreadView {
                state: ThreadState::Live(frames),
            },
        ) => write_frames(&mut text, program, frames)?,
    }
    Ok(text)
}
