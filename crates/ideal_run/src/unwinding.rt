//! What becomes of a throwable (JVMS 2.10): the innermost frame with a fitting row handles it, frames inside of it are
//! left, and where no frame handles it the thread ends by its class. A class initializer that handles no throwable
//! fails (JVMS 5.5).
ghost use Rattle.std.specs.Prelude.{◌≡◌, IfOk, OnOk, map, reverse, drop, slice_index_or};
ghost use Rattle.std.specs.List.{find};
ghost use Rattle.std.specs.Option.{option_copied};
ghost use Rattle.model.specs.Monitors.{released, released_all};
ghost use Rattle.model.specs.Unwinding.{takes, fits, handler_in, handler_of, is_error, response_of, way_of, handling};
ghost use Rattle.model.specs.Unwinding.{failing, initialised_by, without};
ghost use Rattle.model.specs.Frames.{no_frame};
ghost use Rattle.model.specs.Worlds.{frames_at, with_thread};
ghost use Rattle.ideal_run.specs.Effected.{is_full};
ghost use Rattle.ideal_run.specs.Steps.{stepped};
ghost use Rattle.ideal_run.specs.Ways.{response_in, way_in, thread_landed};

use crate::frames::{Frame, with_stack};
use crate::initialisation::set_states;
use crate::monitors::{exited, is_owner};
use crate::programs::Program;
use crate::worlds::{Step, World};
use model::listings::{Code, ExceptionRow};
use model::names::Name;
use model::places::MethodPlace;
use model::turns::{ClassState, Mark};
use model::values::Value;
use std::alloc::{AllocError, Global};

/// Whether an exception row takes a class; where it names none it takes all.
fn takes(program: &Program<'_>, class: &[u8], above: Option<&Name>) -> bool
    ensures { result ≡ takes program.now class.now (option_copied above.entry) }
{
    match above {
        None => true,
        Some(above) => program.classes().is_subclass(class, above.as_bytes()),
    }
}

/// The pc lies in the row's range, and the row takes the class.
fn fits(program: &Program<'_>, class: &[u8], pc: u16, row: &ExceptionRow) -> bool
    ensures { result ≡ fits program.now class.now pc row.now }
{
    row.start <= pc && pc < row.end && takes(program, class, row.class.as_ref())
}

/// The first row that fits.
fn row_for<'r>(
    program: &Program<'_>,
    class: &[u8],
    pc: u16,
    rows: &'r [ExceptionRow],
) -> Option<&'r ExceptionRow>
    ensures { option_copied result ≡ find (fits program.now class.now pc) rows.now }
{
    rows.iter().find(|row| fits(program, class, pc, row))
}

/// The handler of the first row that fits.
fn handler_in(program: &Program<'_>, class: &[u8], pc: u16, code: Option<&Code>) -> Option<u16>
    ensures { result ≡ handler_in program.now class.now pc (option_copied code.entry) }
{
    match code {
        None => None,
        Some(code) => match row_for(program, class, pc, &code.rows) {
            None => None,
            Some(row) => Some(row.handler),
        },
    }
}

/// The handler of a frame for a class of throwables. The rows of a frame that waits for an initializer above it, or
/// that fails, aren't tried.
fn handler_of(program: &Program<'_>, class: &[u8], frame: &Frame) -> Option<u16>
    ensures { result ≡ handler_of program.now class.now frame.now frame.now.mark }
{
    match frame.mark {
        Mark::Unmarked => handler_in(program, class, frame.pc, program.code_at(frame.method)),
        Mark::Waiting | Mark::Failing => None,
    }
}

/// What a frame does with a throwable.
#[derive(Clone, Copy)]
enum Response {
    Handles(u16),
    /// an initializer is left by no Error: the next turn of its thread throws an ExceptionInInitializerError in its
    /// place
    Fails,
    Leaves,
}

fn is_error(program: &Program<'_>, class: &[u8]) -> bool
    ensures { result ≡ is_error program.now class.now }
{
    program.classes().is_subclass(class, b"java/lang/Error")
}

fn response_of(program: &Program<'_>, class: &[u8], frame: &Frame) -> Response
    ensures { response_in result ≡ response_of program.now class.now frame.now }
{
    match handler_of(program, class, frame) {
        Some(handler) => Response::Handles(handler),
        None => {
            if program.runs_initializer(frame) && !is_error(program, class) {
                Response::Fails
            } else {
                Response::Leaves
            }
        }
    }
}

/// Where a throwable lands: at a handler, at an initializer that fails, or nowhere.
#[derive(Clone, Copy)]
pub enum Landing {
    Handled(u16),
    Stopped,
    Unhandled,
}

/// Where a throwable lands, and how many frames stay below that one.
#[derive(Clone, Copy)]
pub struct Way {
    pub landing: Landing,
    pub below: usize,
}

/// The way of a throwable of a class, by the frames of a thread, outermost first.
#[tactic(auto, using(crate::proofs::WayLemmas::ways))]
pub fn way_of(program: &Program<'_>, class: &[u8], frames: &[Frame]) -> Way
    ensures { way_in frames.now result ≡ way_of program.now class.now (reverse frames.now) }
{
    for below in (0..frames.len()).rev() {
        let frame = &frames[below];
        match response_of(program, class, frame) {
            Response::Handles(handler) => {
                return Way {
                    landing: Landing::Handled(handler),
                    below,
                };
            }
            Response::Fails => {
                return Way {
                    landing: Landing::Stopped,
                    below,
                };
            }
            Response::Leaves => {}
        }
    }
    Way {
        landing: Landing::Unhandled,
        below: 0,
    }
}

/// The frames that are left, outermost first.
#[tactic(auto, using(crate::proofs::WayLemmas::ways))]
fn left_frames(frames: &[Frame], way: Way) -> &[Frame]
    ensures { reverse result.now ≡ (way_in frames.now way).left }
{
    match way.landing {
        Landing::Handled(_) => above(above(frames, way.below), 1),
        Landing::Stopped => above(above(frames, way.below), 1),
        Landing::Unhandled => frames,
    }
}

/// The monitors that these frames give back when they are left, the innermost's first. `AllocError` where memory runs
/// out.
#[tactic(auto, using(crate::proofs::WayLemmas::ways))]
fn monitors_of(alloc: Global, left: &[Frame]) -> Result<Vec<Option<u32>>, AllocError>
    ensures { IfOk result (λ monitors. monitors.items ≡ map (λ f. f.monitor) (reverse left.now)) }
{
    let mut monitors = Vec::new(alloc);
    for n in (0..left.len()).rev() {
        let frame = &left[n];
        monitors.push(frame.monitor)?;
    }
    Ok(monitors)
}

/// The classes whose initializers are among these frames, the innermost's first. `AllocError` where memory runs out.
#[tactic(auto, using(crate::proofs::WayLemmas::ways))]
fn initialised_by(
    alloc: Global,
    program: &Program<'_>,
    left: &[Frame],
) -> Result<Vec<usize>, AllocError>
    ensures { IfOk result (λ classes. classes.items ≡ initialised_by program.now (reverse left.now)) }
{
    let mut classes = Vec::new(alloc);
    for n in (0..left.len()).rev() {
        let frame = &left[n];
        if program.runs_initializer(frame) {
            let place = frame.method;
            classes.push(place.class)?;
        }
    }
    Ok(classes)
}

/// The count of a monitor falls, where the thread still owns it.
pub fn release(world: &mut World, thread: u8, monitor: Option<u32>)
    ensures { world.new ≡ released world.old thread monitor }
{
    if let Some(birth) = monitor {
        let held = world.monitor_of(birth);
        if is_owner(thread, held) {
            world.set_monitor(birth, exited(held));
        }
    }
}

#[tactic(auto, using(crate::proofs::WayLemmas::ways))]
fn release_all(world: &mut World, thread: u8, monitors: &[Option<u32>])
    ensures { world.new ≡ released_all world.old thread monitors.now }
{
    for monitor in monitors {
        release(world, thread, *monitor);
    }
}

/// The frames above so many.
fn above(frames: &[Frame], kept: usize) -> &[Frame]
    ensures { result.now ≡ drop kept frames.now }
{
    if kept <= frames.len() {
        &frames[kept..]
    } else {
        &[]
    }
}

/// Frames are left: their method monitors are released, and the classes that they initialise have failed. `AllocError`
/// where memory runs out.
fn leave(
    world: &mut World,
    alloc: Global,
    program: &Program<'_>,
    thread: u8,
    way: Way,
) -> Result<(), AllocError>
    ensures { OnOk result (world.new ≡ without program.now world.old thread
        (way_in (frames_at world.old thread) way).left) }
{
    let left = left_frames(world.frames_at(thread), way);
    let monitors = monitors_of(alloc, left)?;
    let classes = initialised_by(alloc, program, left)?;
    let mut states = Vec::from_slice(alloc, world.states())?;
    set_states(&mut states, &classes, ClassState::Failed);
    release_all(world, thread, &monitors);
    world.set_states(states);
    Ok(())
}

/// The frame above so many; where there is none, one that no program has. `AllocError` where memory runs out.
fn frame_at(alloc: Global, frames: &[Frame], below: usize) -> Result<Frame, AllocError>
    ensures { IfOk result (λ frame. frame ≡ slice_index_or frames.now below no_frame) }
{
    match frames.get(below) {
        None => Ok(Frame {
            method: MethodPlace {
                class: 0,
                method: 0,
            },
            pc: 0,
            locals: Vec::new(alloc),
            stack: Vec::new(alloc),
            room: 0,
            monitor: None,
            mark: Mark::Unmarked,
        }),
        Some(frame) => with_stack(
            alloc,
            frame,
            frame.pc,
            Vec::from_slice(alloc, &frame.stack)?,
        ),
    }
}

/// A frame with a throwable alone on its stack, at its handler.
fn handling(alloc: Global, birth: u32, handler: u16, frame: &Frame) -> Result<Frame, AllocError>
    ensures { IfOk result (λ after. after ≡ handling birth handler frame.now) }
{
    Ok(Frame {
        method: frame.method,
        pc: handler,
        locals: Vec::from_slice(alloc, &frame.locals)?,
        stack: Vec::from_slice(alloc, &[Value::Ref(Some(birth))])?,
        room: frame.room,
        monitor: frame.monitor,
        mark: frame.mark,
    })
}

/// An initializer that fails: its stack is emptied.
fn failing(alloc: Global, frame: &Frame) -> Result<Frame, AllocError>
    ensures { IfOk result (λ after. after ≡ failing frame.now) }
{
    Ok(Frame {
        method: frame.method,
        pc: frame.pc,
        locals: Vec::from_slice(alloc, &frame.locals)?,
        stack: Vec::new(alloc),
        room: frame.room,
        monitor: frame.monitor,
        mark: Mark::Failing,
    })
}

/// What becomes of the thread where a throwable of a class lands. `AllocError` where memory runs out.
#[tactic(auto, using(crate::proofs::WayLemmas::ways))]
fn landed(
    alloc: Global,
    frames: &[Frame],
    way: Way,
    birth: u32,
    class: &[u8],
) -> Result<Step, AllocError>
    ensures { IfOk result (λ step. stepped frames.now step
        ≡ thread_landed birth class.now (way_in frames.now way).landing) }
{
    match way.landing {
        Landing::Unhandled => Ok(Step::Ends(Some(Name::copy_of(alloc, class)?))),
        Landing::Stopped => {
            let frame = frame_at(alloc, frames, way.below)?;
            Ok(Step::Lands(way.below, failing(alloc, &frame)?))
        }
        Landing::Handled(handler) => {
            let frame = frame_at(alloc, frames, way.below)?;
            Ok(Step::Lands(way.below, handling(alloc, birth, handler, &frame)?))
        }
    }
}

/// Whether the handler's stack has no room for the throwable: F2.
pub fn is_full(frames: &[Frame], way: Way) -> bool
    ensures { result ≡ is_full (way_in frames.now way).landing }
{
    match way.landing {
        Landing::Unhandled => false,
        Landing::Stopped => false,
        Landing::Handled(_) => match frames.get(way.below) {
            None => true,
            Some(frame) => frame.room < 1,
        },
    }
}

/// A throwable of a class, for which its handler has room, goes its way. `AllocError` where memory runs out.
#[tactic(auto, using(crate::proofs::WayLemmas::ways))]
pub fn land(
    world: &mut World,
    alloc: Global,
    program: &Program<'_>,
    thread: u8,
    birth: u32,
    class: &[u8],
    way: Way,
) -> Result<(), AllocError>
    ensures { OnOk result (world.new ≡ with_thread
        (without program.now world.old thread (way_in (frames_at world.old thread) way).left) thread
        (thread_landed birth class.now (way_in (frames_at world.old thread) way).landing)) }
{
    let towards = landed(alloc, world.frames_at(thread), way, birth, class)?;
    leave(world, alloc, program, thread, way)?;
    match world.step(alloc, thread, towards) {
        Ok(()) => Ok(()),
        Err(error) => Err(error),
    }
}
