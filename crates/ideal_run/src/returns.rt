//! Returns (JVMS 6.5).
ghost use Rattle.std.specs.Prelude.{◌≡◌, IfOk};
ghost use Rattle.std.specs.Option.{option_copied};
ghost use Rattle.model.specs.Frames.{callers};
ghost use Rattle.model.specs.Initialisation.{runs_initializer};
ghost use Rattle.model.specs.Programs.{instruction_of};
ghost use Rattle.model.specs.Table.Returns.{same_kind, same_result, gives, past_invoke, left_world, awake, resumed};
ghost use Rattle.model.specs.Table.Returns.{leaves_with, returned};
ghost use Rattle.ideal_run.specs.Completed.{reported, plainly, changed, resumes_with};
ghost use Rattle.ideal_run.specs.Reported.{frame_in};

use crate::completions::{Change, Completion, Site, completes_abruptly};
use crate::frames::{Frame, Moved, faulted, moved, replaced_if_room};
use crate::operands::value_on;
use crate::worlds::{Step, running};
use model::descriptors::result_kind;
use model::listings::Method;
use model::turns::{Fault, Mark};
use model::values::{Kind, Value};
use std::alloc::{AllocError, Global};

fn same_kind(kind: Kind, other: Kind) -> bool
    ensures { result ≡ same_kind kind other }
{
    match kind {
        Kind::Int => matches!(other, Kind::Int),
        Kind::Long => matches!(other, Kind::Long),
        Kind::Ref => matches!(other, Kind::Ref),
    }
}

fn same_result(kind: Option<Kind>, other: Option<Kind>) -> bool
    ensures { result ≡ same_result kind other }
{
    match kind {
        None => other.is_none(),
        Some(kind) => match other {
            None => false,
            Some(other) => same_kind(kind, other),
        },
    }
}

/// Whether a method gives a value of this kind, or none.
fn gives(kind: Option<Kind>, method: Option<&Method>) -> bool
    ensures { result ≡ gives kind (option_copied method.entry) }
{
    match method {
        None => false,
        Some(method) => same_result(kind, result_kind(method.descriptor.as_bytes())),
    }
}

/// A caller stays at its invoke instruction until the return, and then goes on after it with the result, if there is
/// one.
fn past_invoke(
    site: &Site<'_, '_>,
    caller: &Frame,
    value: Option<Value>,
) -> Result<Moved, AllocError>
    ensures { IfOk result (λ moved. moved ≡ frame_in
        (past_invoke caller.now value (instruction_of site.now.program caller.now))) }
{
    let alloc = site.alloc();
    match site.program().instruction_of(caller) {
        None => Ok(faulted(Fault::NoInstruction)),
        Some(invoke) => match value {
            None => moved(alloc, invoke.next, caller, 0, &[]),
            Some(value) => replaced_if_room(alloc, invoke.next, caller, 0, &[value]),
        },
    }
}

/// What waits below an initializer goes on, and any other frame tries its instruction again.
fn awake(alloc: Global, frame: &Frame) -> Result<Frame, AllocError>
    ensures { IfOk result (λ after. after ≡ awake frame.now) }
{
    Ok(Frame {
        method: frame.method,
        pc: frame.pc,
        locals: Vec::from_slice(alloc, &frame.locals)?,
        stack: Vec::from_slice(alloc, &frame.stack)?,
        room: frame.room,
        monitor: frame.monitor,
        mark: Mark::Unmarked,
    })
}

/// The caller as it goes on.
fn resumed(site: &Site<'_, '_>, caller: &Frame, value: Option<Value>) -> Result<Moved, AllocError>
    ensures { IfOk result (λ moved. moved ≡ frame_in
        (resumed site.now caller.now value (runs_initializer site.now.program site.now.frame))) }
{
    if site.program().runs_initializer(site.frame()) {
        Ok(Ok(awake(site.alloc(), caller)?))
    } else {
        past_invoke(site, caller, value)
    }
}

/// The frame's hold on its method monitor goes, and the class of an initializer that returns is initialised.
fn left(site: &Site<'_, '_>) -> Change
    ensures { changed site.now.world site.now.thread result ≡ left_world site.now }
{
    let frame = site.frame();
    let place = frame.method;
    if site.program().runs_initializer(frame) {
        Change::Left(frame.monitor, Some(place.class))
    } else {
        Change::Left(frame.monitor, None)
    }
}

/// The callers of the running frame.
fn callers(frames: &[Frame]) -> &[Frame]
    ensures { result.now ≡ callers frames.now }
{
    &frames[..frames.len().saturating_sub(1)]
}

/// The caller goes on, if it can.
fn resumes(site: &Site<'_, '_>, caller: Moved) -> Completion
    ensures { reported site.now.world site.now.thread result ≡ resumes_with site.now caller }
{
    match caller {
        Err(abrupt) => completes_abruptly(abrupt),
        Ok(frame) => Completion::Goes(left(site), Step::Returns(frame)),
    }
}

/// The running frame is left with a result, if there is one; the thread of the outermost frame ends.
#[tactic(auto, using(crate::proofs::PlainLemmas::plain))]
fn leaves_with(site: &Site<'_, '_>, value: Option<Value>) -> Result<Completion, AllocError>
    ensures { IfOk result (λ c. reported site.now.world site.now.thread c ≡ plainly (leaves_with site.now value)) }
{
    match running(callers(site.frames())) {
        None => Ok(Completion::Goes(left(site), Step::Ends(None))),
        Some(caller) => Ok(resumes(site, resumed(site, caller, value)?)),
    }
}

/// A return: F7, then the operand, then the room in the caller. `AllocError` where memory runs out.
pub fn returned(site: &Site<'_, '_>, kind: Option<Kind>) -> Result<Completion, AllocError>
    ensures { IfOk result (λ c. reported site.now.world site.now.thread c ≡ plainly (returned site.now kind)) }
{
    let frame = site.frame();
    if !gives(kind, site.program().method_at(frame.method)) {
        return Ok(Completion::Faults(Fault::WrongReturn));
    }
    match kind {
        None => leaves_with(site, None),
        Some(kind) => match value_on(kind, site.stack()) {
            Err(fault) => Ok(Completion::Faults(fault)),
            Ok(value) => leaves_with(site, Some(value)),
        },
    }
}
