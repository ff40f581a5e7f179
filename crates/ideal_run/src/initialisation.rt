//! Class initialisation (JVMS 5.5): which classes want it, what states they are in, and the frames of a thread that
//! claims classes.
ghost use Rattle.std.specs.Prelude.{◌≡◌, ◌++◌, ◌&&◌, IfOk, OnOk, map, slice_index_or, slice_set};
ghost use Rattle.std.specs.List.{list_any};
ghost use Rattle.std.specs.Str.{bytes_eq};
ghost use Rattle.model.specs.declared.turns.ClassState.TheVariants.{Done, Unused};
ghost use Rattle.model.specs.Classes.Search.{superclasses, upwards};
ghost use Rattle.model.specs.Initialisation.{with_states, declares_initializer, wants_initialising, state_if};
ghost use Rattle.model.specs.Initialisation.{opening_states, chain_end, chain_with, chain_from, chain_of, started_at};
ghost use Rattle.model.specs.Initialisation.{waiting, callers_waiting, initializer_frames, first_claim, opening_frames};
ghost use Rattle.model.specs.Initialisation.{claimed_states};
ghost use Rattle.ideal_run.specs.Initialised.{is_initialised_for};

use crate::calls::opening_frame;
use crate::frames::Frame;
use crate::programs::{Program, is_class_initializer};
use bitflags::Flags;
use model::flags::ClassFlags;
use model::listings::Listing;
use model::places::MethodPlace;
use model::turns::{ClassState, Mark};
use resolve::classes::Classes;
use std::alloc::{AllocError, Global};
use std::marker::Model;

/// Of a class and its superclasses upwards: those that were never used, by their places, and the state of the first
/// that was.
#[derive(Drop)]
pub struct Chain {
    pub unused: Vec<usize>,
    pub above: ClassState,
}

impl Model for Chain {
    ghost use Rattle.model.specs.Initialisation.{Chain};

    ghost Value = { Chain };

    ghost view = { λ a. record { unused = a.unused.items; above = a.above } };
}

/// A class comes into a state.
fn set_state(states: &mut [ClassState], class: usize, state: ClassState)
    ensures { states.new ≡ slice_set states.old class state }
{
    if class < states.len() {
        states[class] = state;
    }
}

/// These classes come into a state.
pub fn set_states(states: &mut [ClassState], classes: &[usize], state: ClassState)
    ensures { states.new ≡ with_states state classes.now states.old }
{
    for class in classes {
        set_state(states, *class, state);
    }
}

/// Whether a class declares an initializer.
pub fn declares_initializer(class: &Listing) -> bool
    ensures { result ≡ declares_initializer class.now }
{
    class
        .methods
        .iter()
        .any(|method| is_class_initializer(method))
}

/// Whether a class is the class of a name or one of its superclasses.
fn is_upwards(classes: &Classes<'_>, name: &[u8], above: &[u8]) -> bool
    ensures { result ≡ list_any (bytes_eq above.now) (superclasses classes.now name.now) }
{
    let mut next = name;
    for _ in 0..classes.enough_steps() {
        match classes.class_named(next) {
            Some(class) => {
                if above == next {
                    return true;
                }
                next = class.superclass.as_bytes();
            }
            None => return false,
        }
    }
    false
}

/// Whether a class declares an initializer and is the class of a name or one of its superclasses.
fn is_initialised_for(program: &Program<'_>, name: &[u8], above: &Listing) -> bool
    ensures { result ≡ is_initialised_for program.now name.now above.now }
{
    declares_initializer(above) && is_upwards(program.classes(), name, above.name.as_bytes())
}

fn both(a: bool, b: bool) -> bool
    ensures { result ≡ (a && b) }
{
    a && b
}

/// Whether the class of a name or one of its superclasses declares an initializer.
fn is_declared_for(program: &Program<'_>, name: &[u8]) -> bool
    ensures { result ≡ list_any (is_initialised_for program.now name.now) program.now }
{
    program
        .listings()
        .iter()
        .any(|above| is_initialised_for(program, name, above))
}

/// Whether a class, no interface, or one of its superclasses declares an initializer.
fn wants_initialising(program: &Program<'_>, class: &Listing) -> bool
    ensures { result ≡ wants_initialising program.now class.now }
{
    let name = class.name.as_bytes();
    let is_class = !class.flags.contains(ClassFlags::INTERFACE);
    both(is_declared_for(program, name), is_class)
}

fn opening_state(program: &Program<'_>, class: &Listing) -> ClassState
    ensures { result ≡ state_if (wants_initialising program.now class.now) }
{
    if wants_initialising(program, class) {
        ClassState::Unused
    } else {
        ClassState::Done
    }
}

/// The states in which the classes open: unused where a class wants initialising, and else initialised. `AllocError`
/// where memory runs out.
fn opening_states(alloc: Global, program: &Program<'_>) -> Result<Vec<ClassState>, AllocError>
    ensures { IfOk result (λ states. states.items ≡ opening_states program.now) }
{
    let mut states = Vec::new(alloc);
    for class in program.listings() {
        states.push(opening_state(program, class))?;
    }
    Ok(states)
}

/// The state of a class by its place.
pub fn state_of(states: &[ClassState], class: usize) -> ClassState
    ensures { result ≡ slice_index_or states.now class Done }
{
    states.get(class).copied().unwrap_or(ClassState::Done)
}

fn chain_end(alloc: Global, above: ClassState) -> Chain
    ensures { result ≡ chain_end above }
{
    Chain {
        unused: Vec::new(alloc),
        above,
    }
}

/// A class that was never used below those that weren't either.
fn with_class(class: usize, further: Chain) -> Result<Chain, AllocError>
    ensures { IfOk result (λ chain. chain ≡ chain_with class Unused further) }
{
    let mut unused = further.unused;
    unused.insert(0, class)?;
    Ok(Chain {
        unused,
        above: further.above,
    })
}

/// The chain from the class of a name on, with so many steps upwards.
#[tactic(auto, using(crate::proofs::ChainLemmas::chains))]
fn chain_from(
    alloc: Global,
    program: &Program<'_>,
    states: &[ClassState],
    steps: usize,
    name: &[u8],
) -> Result<Chain, AllocError>
    ensures { IfOk result (λ chain. chain ≡ chain_from program.now states.now (upwards steps program.now name.now)) }
{
    if steps == 0 {
        return Ok(chain_end(alloc, ClassState::Done));
    }
    match program.place_named(name) {
        None => Ok(chain_end(alloc, ClassState::Done)),
        Some(class) => match state_of(states, class) {
            ClassState::Unused => {
                let superclass = program.superclass_at(class);
                let further = chain_from(alloc, program, states, steps - 1, superclass)?;
                with_class(class, further)
            }
            ClassState::Running(thread) => Ok(chain_end(alloc, ClassState::Running(thread))),
            ClassState::Done => Ok(chain_end(alloc, ClassState::Done)),
            ClassState::Failed => Ok(chain_end(alloc, ClassState::Failed)),
        },
    }
}

/// The chain from the class of a name on. `AllocError` where memory runs out.
#[tactic(auto, using(crate::proofs::ChainLemmas::chains))]
pub fn chain_of(
    alloc: Global,
    program: &Program<'_>,
    states: &[ClassState],
    name: &[u8],
) -> Result<Chain, AllocError>
    ensures { IfOk result (λ chain. chain ≡ chain_of program.now states.now name.now) }
{
    match program.classes().enough_steps().checked_add(1) {
        None => Err(AllocError),
        Some(steps) => chain_from(alloc, program, states, steps, name),
    }
}

/// Adds the frame of a method at its start; none where it has no code. `AllocError` where memory runs out.
fn add_started(
    frames: &mut Vec<Frame>,
    alloc: Global,
    program: &Program<'_>,
    place: MethodPlace,
) -> Result<(), AllocError>
    ensures { OnOk result (frames.new.items ≡ frames.old.items ++ started_at program.now place) }
{
    if let Some(code) = program.code_at(place) {
        frames.push(opening_frame(alloc, place, code)?)?;
    }
    Ok(())
}

/// Adds the initializers of these classes at their starts. `AllocError` where memory runs out.
fn add_initializers(
    frames: &mut Vec<Frame>,
    alloc: Global,
    program: &Program<'_>,
    classes: &[usize],
) -> Result<(), AllocError>
    ensures { OnOk result (frames.new.items ≡ frames.old.items ++ initializer_frames program.now classes.now) }
{
    for class in classes {
        add_started(frames, alloc, program, program.initializer_place(*class))?;
    }
    Ok(())
}

/// A frame that waits until the classes above its own are initialised. `AllocError` where memory runs out.
fn waiting(alloc: Global, frame: &Frame) -> Result<Frame, AllocError>
    ensures { IfOk result (λ after. after ≡ waiting frame.now) }
{
    Ok(Frame {
        method: frame.method,
        pc: frame.pc,
        locals: Vec::from_slice(alloc, &frame.locals)?,
        stack: Vec::from_slice(alloc, &frame.stack)?,
        room: frame.room,
        monitor: frame.monitor,
        mark: Mark::Waiting,
    })
}

fn all_waiting(alloc: Global, frames: &[Frame]) -> Result<Vec<Frame>, AllocError>
    ensures { IfOk result (λ after. after.items ≡ map waiting frames.now) }
{
    let mut after = Vec::new(alloc);
    for frame in frames {
        after.push(waiting(alloc, frame)?)?;
    }
    Ok(after)
}

/// Of these frames only the last one runs, and the others wait until the classes above theirs are initialised.
/// `AllocError` where memory runs out.
#[tactic(auto, using(crate::proofs::WaitingLemmas::waits))]
fn callers_waiting(alloc: Global, frames: Vec<Frame>) -> Result<Vec<Frame>, AllocError>
    ensures { IfOk result (λ after. after.items ≡ callers_waiting frames.items) }
{
    let mut frames = frames;
    match frames.pop() {
        None => Ok(frames),
        Some(last) => {
            let mut after = all_waiting(alloc, &frames)?;
            after.push(last)?;
            Ok(after)
        }
    }
}

/// The frames with which a thread claims these classes: the last one runs. `AllocError` where memory runs out.
pub fn claim_frames(
    alloc: Global,
    program: &Program<'_>,
    classes: &[usize],
) -> Result<Vec<Frame>, AllocError>
    ensures { IfOk result (λ frames. frames.items ≡ callers_waiting (initializer_frames program.now classes.now)) }
{
    let mut frames = Vec::new(alloc);
    add_initializers(&mut frames, alloc, program, classes)?;
    callers_waiting(alloc, frames)
}

/// The classes that thread 0 claims first: main's class and those above it where they are unused.
fn first_claim(
    alloc: Global,
    program: &Program<'_>,
    states: &[ClassState],
) -> Result<Vec<usize>, AllocError>
    requires { states.now ≡ opening_states program.now }
    ensures { IfOk result (λ classes. classes.items ≡ first_claim program.now) }
{
    match program.listings() {
        [] => Ok(Vec::new(alloc)),
        [class, ..] => {
            let chain = chain_of(alloc, program, states, class.name.as_bytes())?;
            Ok(chain.unused)
        }
    }
}

/// The frames with which thread 0 opens: main's, and those of the initializers that its class wants first.
fn opening_frames(
    alloc: Global,
    program: &Program<'_>,
    classes: &[usize],
) -> Result<Vec<Frame>, AllocError>
    requires { classes.now ≡ first_claim program.now }
    ensures { IfOk result (λ frames. frames.items ≡ opening_frames program.now) }
{
    let mut frames = Vec::new(alloc);
    if let Some(main) = program.main() {
        add_started(&mut frames, alloc, program, main)?;
    }
    add_initializers(&mut frames, alloc, program, classes)?;
    callers_waiting(alloc, frames)
}

/// The frames and class states of the opening world. `AllocError` where memory runs out.
pub fn opening(
    alloc: Global,
    program: &Program<'_>,
) -> Result<(Vec<Frame>, Vec<ClassState>), AllocError>
    ensures frames { IfOk result (λ parts. parts.0.items ≡ opening_frames program.now) }
    ensures states { IfOk result (λ parts. parts.1.items ≡ claimed_states program.now) }
{
    let mut states = opening_states(alloc, program)?;
    let classes = first_claim(alloc, program, &states)?;
    let frames = opening_frames(alloc, program, &classes)?;
    set_states(&mut states, &classes, ClassState::Running(0));
    Ok((frames, states))
}
