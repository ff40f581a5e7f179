//! What a completion does, once it is chosen whether a cell that it asks for is free.
ghost use Rattle.std.specs.Prelude.{◌≡◌, IfOk, OnOk};
ghost use Rattle.model.specs.Classes.Exceptions.{exception_class};
ghost use Rattle.model.specs.Effects.{created_on, raised, effect_of};
ghost use Rattle.model.specs.Frames.{running};
ghost use Rattle.model.specs.Objects.{made_of, class_at};
ghost use Rattle.model.specs.Table.Threads.{with_more};
ghost use Rattle.model.specs.Unwinding.{thrown};
ghost use Rattle.model.specs.Views.{contents_in};
ghost use Rattle.model.specs.Worlds.{plain_object, frames_at};
ghost use Rattle.ideal_run.specs.Completed.{reported, changed, initialised_in, moved_to, runs_on};
ghost use Rattle.ideal_run.specs.Effected.{choice_in, with_states_in, with_new_if, frame_with, printed};
ghost use Rattle.ideal_run.specs.Steps.{started_on};

use crate::completions::{Change, Completion};
use crate::frames::{Frame, replaced_if_room};
use crate::initialisation::set_states;
use crate::programs::Program;
use crate::unwinding::{is_full, land, release, way_of};
use crate::worlds::{Step, Thread, World, running};
use model::names::Name;
use model::turns::{ClassState, Exception, Fault};
use model::values::Value;
use model::views::{ContentsView, ObjectView};
use std::alloc::{AllocError, Global};

/// Whether a cell had room; where none is asked for the choice counts for nothing.
#[derive(Clone, Copy, Debug, PartialEq, Eq)]
pub enum Choice {
    NewObject,
    NoRoom,
}

/// An object as it is made: no thread has its monitor, and none was started on it.
pub fn made_of(contents: ContentsView) -> ObjectView
    ensures { result ≡ made_of (contents_in contents) }
{
    ObjectView {
        contents,
        owner: None,
        entries: 0,
        thread: None,
    }
}

/// An object of a class without fields. `AllocError` where memory runs out.
pub fn plain_object(alloc: Global, class: &[u8]) -> Result<ObjectView, AllocError>
    ensures { IfOk result (λ object. object ≡ plain_object class.now) }
{
    Ok(made_of(ContentsView::Instance {
        class: Name::copy_of(alloc, class)?,
        fields: Vec::new(alloc),
    }))
}

/// The name of the class of an exception that the machine makes.
fn exception_class(exception: Exception) -> &'static [u8]
    ensures { result.now ≡ exception_class exception }
{
    match exception {
        Exception::Arithmetic => b"java/lang/ArithmeticException",
        Exception::NullPointer => b"java/lang/NullPointerException",
        Exception::ClassCast => b"java/lang/ClassCastException",
        Exception::NegativeArraySize => b"java/lang/NegativeArraySizeException",
        Exception::ArrayStore => b"java/lang/ArrayStoreException",
        Exception::IllegalMonitorState => b"java/lang/IllegalMonitorStateException",
        Exception::ArrayIndexOutOfBounds => b"java/lang/ArrayIndexOutOfBoundsException",
        Exception::IllegalThreadState => b"java/lang/IllegalThreadStateException",
        Exception::StackOverflow => b"java/lang/StackOverflowError",
        Exception::ExceptionInInitializer => b"java/lang/ExceptionInInitializerError",
        Exception::NoClassDefFound => b"java/lang/NoClassDefFoundError",
    }
}

/// A class of the program is initialised. `AllocError` where memory runs out.
fn initialise(world: &mut World, alloc: Global, class: Option<usize>) -> Result<(), AllocError>
    ensures { OnOk result (world.new ≡ initialised_in world.old class) }
{
    if let Some(class) = class {
        let mut states = Vec::from_slice(alloc, world.states())?;
        set_states(&mut states, &[class], ClassState::Done);
        world.set_states(states);
    }
    Ok(())
}

/// What changes beside the thread. `AllocError` where memory runs out.
fn change(world: &mut World, alloc: Global, thread: u8, change: Change) -> Result<(), AllocError>
    ensures { OnOk result (world.new ≡ changed world.old thread change) }
{
    match change {
        Change::Nothing => Ok(()),
        Change::Slot(slot, value) => {
            world.set_slot(slot, value);
            Ok(())
        }
        Change::Word(birth, place, value) => {
            world.set_word(birth, place, value);
            Ok(())
        }
        Change::Monitor(birth, monitor) => {
            world.set_monitor(birth, monitor);
            Ok(())
        }
        Change::States(states) => {
            world.set_states(states);
            Ok(())
        }
        Change::Left(monitor, class) => {
            release(world, thread, monitor);
            initialise(world, alloc, class)
        }
    }
}

/// Classes come into other states, if any do, and there is a new object, if one is made. `AllocError` where memory runs
/// out.
fn prepare(
    world: &mut World,
    states: Option<Vec<ClassState>>,
    object: Option<ObjectView>,
) -> Result<(), AllocError>
    ensures { OnOk result (world.new ≡ with_new_if (with_states_in world.old states) object) }
{
    if let Some(states) = states {
        world.set_states(states);
    }
    match object {
        None => Ok(()),
        Some(object) => world.add_object(object),
    }
}

/// A turn that ends with a throwable of a class, with class states that may differ and an object that may be new; F2
/// where its handler has no room. `AllocError` where memory runs out.
#[tactic(auto, using(crate::proofs::EffectLemmas::effects))]
fn throw(
    world: &mut World,
    alloc: Global,
    program: &Program<'_>,
    thread: u8,
    birth: u32,
    class: &[u8],
    states: Option<Vec<ClassState>>,
    object: Option<ObjectView>,
) -> Result<(), AllocError>
    requires { class.now ≡ class_at (with_new_if (with_states_in world.old states) object) birth }
    ensures { OnOk result (world.new ≡ (thrown program.now world.old
        (with_new_if (with_states_in world.old states) object) thread birth).after) }
{
    let way = way_of(program, class, world.frames_at(thread));
    if is_full(world.frames_at(thread), way) {
        world.set_fault(thread, Fault::StackFull);
        return Ok(());
    }
    prepare(world, states, object)?;
    land(world, alloc, program, thread, birth, class, way)
}

/// A throwable that is there. `AllocError` where memory runs out.
fn throws(
    world: &mut World,
    alloc: Global,
    program: &Program<'_>,
    thread: u8,
    birth: u32,
    states: Option<Vec<ClassState>>,
) -> Result<(), AllocError>
    ensures { OnOk result (world.new ≡ (thrown program.now world.old
        (with_states_in world.old states) thread birth).after) }
{
    let class = world.class_at(alloc, birth)?;
    throw(world, alloc, program, thread, birth, &class, states, None)
}

/// A new exception is thrown, or the OutOfMemoryError that was made before the run, with class states that may differ.
/// `AllocError` where memory runs out.
#[tactic(auto, using(crate::proofs::EffectLemmas::effects))]
fn raises(
    world: &mut World,
    alloc: Global,
    program: &Program<'_>,
    thread: u8,
    exception: Exception,
    states: Option<Vec<ClassState>>,
    choice: Choice,
) -> Result<(), AllocError>
    ensures { OnOk result (world.new ≡ (raised program.now world.old (with_states_in world.old states) thread exception
        (choice_in choice)).after) }
{
    match choice {
        Choice::NewObject => {
            let class = exception_class(exception);
            let object = plain_object(alloc, class)?;
            let birth = world.next_birth()?;
            throw(
                world,
                alloc,
                program,
                thread,
                birth,
                class,
                states,
                Some(object),
            )
        }
        Choice::NoRoom => throws(world, alloc, program, thread, 1, states),
    }
}

/// The running frame with a new reference in place of so many operands; F2 where it has no room, F5 where no frame
/// runs.
fn with_reference(
    world: &World,
    alloc: Global,
    thread: u8,
    next: u16,
    taken: usize,
    birth: u32,
) -> Result<Result<Frame, Fault>, AllocError>
    ensures { IfOk result (λ frame. frame ≡ frame_with next taken birth (running (frames_at world.now thread))) }
{
    match running(world.frames_at(thread)) {
        None => Ok(Err(Fault::NoInstruction)),
        Some(frame) => {
            match replaced_if_room(alloc, next, frame, taken, &[Value::Ref(Some(birth))])? {
                Err(_) => Ok(Err(Fault::StackFull)),
                Ok(frame) => Ok(Ok(frame)),
            }
        }
    }
}

/// The new object is there, and its reference on the stack. `AllocError` where memory runs out.
#[tactic(auto, using(crate::proofs::EffectLemmas::effects))]
fn created(
    world: &mut World,
    alloc: Global,
    thread: u8,
    next: u16,
    taken: usize,
    contents: ContentsView,
) -> Result<(), AllocError>
    ensures { OnOk result (world.new ≡ (created_on world.old thread next taken (contents_in contents)
        (running (frames_at world.old thread))).after) }
{
    let birth = world.next_birth()?;
    match with_reference(world, alloc, thread, next, taken, birth)? {
        Err(fault) => {
            world.set_fault(thread, fault);
            Ok(())
        }
        Ok(frame) => {
            world.add_object(made_of(contents))?;
            world.step(alloc, thread, Step::Runs(frame))
        }
    }
}

/// A thread begins on the object of a birth. `AllocError` where memory runs out.
#[tactic(auto, using(crate::proofs::EffectLemmas::effects))]
fn starts(
    world: &mut World,
    alloc: Global,
    thread: u8,
    birth: u32,
    frame: Frame,
    started: Thread,
) -> Result<(), AllocError>
    ensures { OnOk result (world.new ≡ with_more
        (runs_on world.old (started_on world.old birth) thread frame) started) }
{
    world.set_started(birth)?;
    world.step(alloc, thread, Step::Runs(frame))?;
    world.add_thread(started)
}

/// The instruction goes on. `AllocError` where memory runs out.
#[tactic(auto, using(crate::proofs::EffectLemmas::effects))]
fn goes(
    world: &mut World,
    alloc: Global,
    thread: u8,
    changes: Change,
    step: Step,
) -> Result<(), AllocError>
    ensures { OnOk result (world.new ≡ moved_to world.old (changed world.old thread changes) thread step) }
{
    change(world, alloc, thread, changes)?;
    world.step(alloc, thread, step)
}

/// The instruction goes on once bytes are printed. `AllocError` where memory runs out.
fn prints(
    world: &mut World,
    alloc: Global,
    thread: u8,
    frame: Frame,
    bytes: Vec<u8>,
) -> Result<(), AllocError>
    ensures { OnOk result (world.new ≡ printed (runs_on world.old world.old thread frame) bytes.items) }
{
    world.step(alloc, thread, Step::Runs(frame))?;
    world.print(&bytes)
}

/// A completion is carried out. `AllocError` where memory runs out.
pub fn carry_out(
    world: &mut World,
    alloc: Global,
    program: &Program<'_>,
    thread: u8,
    choice: Choice,
    completion: Completion,
) -> Result<(), AllocError>
    ensures { OnOk result (world.new ≡ (effect_of program.now world.old thread (choice_in choice)
        (reported world.old thread completion)).after) }
{
    match completion {
        Completion::Goes(changes, step) => goes(world, alloc, thread, changes, step),
        Completion::Starts(birth, frame, started) => {
            starts(world, alloc, thread, birth, frame, started)
        }
        Completion::Prints(frame, bytes) => prints(world, alloc, thread, frame, bytes),
        Completion::Creates(next, taken, contents) => match choice {
            Choice::NewObject => created(world, alloc, thread, next, taken, contents),
            Choice::NoRoom => throws(world, alloc, program, thread, 1, None),
        },
        Completion::Throws(birth) => throws(world, alloc, program, thread, birth, None),
        Completion::Raises(exception) => {
            raises(world, alloc, program, thread, exception, None, choice)
        }
        Completion::Denies(states) => {
            let exception = Exception::NoClassDefFound;
            raises(
                world,
                alloc,
                program,
                thread,
                exception,
                Some(states),
                choice,
            )
        }
        Completion::Faults(fault) => {
            world.set_fault(thread, fault);
            Ok(())
        }
        Completion::Waits => Ok(()),
    }
}
