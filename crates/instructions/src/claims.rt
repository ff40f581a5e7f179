//! Claims of classes (JVMS 5.5): a class and those above it that were never used, and the states and frames with which
//! a thread claims them.
ghost use Rattle.std.specs.Prelude.{◌≡◌, ◌<◌, ◌≤◌, ◌∷◌, [], ◌++◌, None, length, slice_index_or, true};
ghost use Rattle.model.specs.declared.turns.ClassState.TheVariants.{Done};
ghost use Rattle.model.specs.Accepted.Refusals.{refusal_of};
ghost use Rattle.model.specs.Frames.{opening_frame, units_of_frames, within_limits};
ghost use Rattle.model.specs.Initialisation.{initializer_place, started_at, with_states};
ghost use Rattle.instructions.specs.InitialisingByNumbers.{AreClaimed, chain_at, claim_frames, claimed};

use frames::Frames;
use linking::method_tables::Body;
use loader::programs::Program;
use model::turns::{ClassState, Mark};

/// Of a class and those above it: how many were never used, and the state of the first that was.
#[derive(Clone, Copy)]
pub(crate) struct UnusedClasses {
    pub(crate) count: usize,
    pub(crate) above: ClassState,
}

/// The state of a class. The machine's own are initialised.
pub(crate) fn state_at(states: &[ClassState], class: usize) -> ClassState
    ensures { result ≡ slice_index_or states.now class Done }
{
    states.get(class).copied().unwrap_or(ClassState::Done)
}

/// How many of a class and those above it were never used.
pub(crate) fn unused_classes(
    program: &Program,
    states: &[ClassState],
    class: usize,
) -> UnusedClasses
    requires sized { length states.now ≡ length program.now }
    ensures chain { chain_at program.now states.now class
        ≡ record { unused = claimed program.now class result.count; above = result.above } }
    ensures claimed { AreClaimed program.now class result.count }
    ensures few { result.count ≤ 280 }
{
    let steps = program.listings().len() + 24;
    let mut count = 0;
    let mut next = Some(class);
    for _ in 0..steps {
        let Some(class) = next else {
            break;
        };
        match state_at(states, class) {
            ClassState::Unused => {
                count += 1;
                next = program.tables().classes.superclass(class);
            }
            above => return UnusedClasses { count, above },
        }
    }
    UnusedClasses {
        count,
        above: ClassState::Done,
    }
}

/// The limits of a class's initializer: of its locals, and of its stack.
fn initializer_limits(program: &Program, class: usize) -> (u16, u16)
    requires accepted { refusal_of program.now ≡ None }
    requires listed { class < length program.now }
    ensures { let place = initializer_place program.now class in
        started_at program.now place ≡ opening_frame place result.0 result.1 ∷ [] }
{
    let tables = program.tables();
    let place = tables.initializers.initializer(class);
    match tables.methods.method(place) {
        Some(info) => match info.body() {
            Body::Coded {
                max_locals,
                max_stack,
            } => (max_locals, max_stack),
            Body::Own(_) => (0, 0),
            Body::NoCode => (0, 0),
        },
        None => (0, 0),
    }
}

/// How many units the frames of a claim take.
fn units_of_claim(program: &Program, class: usize, count: usize) -> usize
    requires accepted { refusal_of program.now ≡ None }
    requires claimed { AreClaimed program.now class count }
    requires few { count ≤ 280 }
    ensures { result ≡ units_of_frames (claim_frames program.now class count) }
{
    let mut units = 0;
    let mut next = Some(class);
    for _ in 0..count {
        if let Some(class) = next {
            let (max_locals, max_stack) = initializer_limits(program, class);
            units += max_locals as usize + max_stack as usize;
            next = program.tables().classes.superclass(class);
        }
    }
    units
}

/// Whether the frames of a claim fit a thread's limits.
pub(crate) fn has_room_for_claim(
    program: &Program,
    frames: &Frames,
    class: usize,
    count: usize,
) -> bool
    requires accepted { refusal_of program.now ≡ None }
    requires claimed { AreClaimed program.now class count }
    requires some { 0 < count }
    requires few { count ≤ 280 }
    ensures { result ≡ within_limits (frames.now ++ claim_frames program.now class count) }
{
    let units = units_of_claim(program, class, count);
    if units > 4096 {
        return false;
    }
    if frames.depth() + count > 256 {
        return false;
    }
    frames.has_room_for(units as u16, 0)
}

/// Enters the initializers of so many classes from one upwards. Only the last one runs, and the others wait for those
/// above theirs.
pub(crate) fn enter_initializers(program: &Program, frames: &mut Frames, class: usize, count: usize)
    requires accepted { refusal_of program.now ≡ None }
    requires claimed { AreClaimed program.now class count }
    requires room { within_limits (frames.old ++ claim_frames program.now class count) ≡ true }
    ensures { frames.new ≡ frames.old ++ claim_frames program.now class count }
{
    let mut next = Some(class);
    for passed in 0..count {
        if let Some(class) = next {
            let (max_locals, max_stack) = initializer_limits(program, class);
            let place = program.tables().initializers.initializer(class);
            frames.enter(place, max_locals, max_stack);
            if passed + 1 < count {
                frames.set_mark(Mark::Waiting);
            }
            next = program.tables().classes.superclass(class);
        }
    }
}

/// So many classes from one upwards come into a state.
pub(crate) fn set_states(
    program: &Program,
    states: &mut Vec<ClassState>,
    class: usize,
    count: usize,
    state: ClassState,
)
    ensures states { states.new.items ≡ with_states state (claimed program.now class count) states.old.items }
    ensures sized { length states.new.items ≡ length states.old.items }
{
    let mut next = Some(class);
    for _ in 0..count {
        if let Some(class) = next {
            if class < states.len() {
                states[class] = state;
            }
            next = program.tables().classes.superclass(class);
        }
    }
}
