//! The four invokes (JVMS 6.5).
ghost use Rattle.std.specs.Prelude.{◌≡◌, ◌+◌, IfOk, reverse, drop, true, false};
ghost use Rattle.std.specs.Option.{option_len};
ghost use Rattle.model.specs.Frames.{ref_on, has_room_for};
ghost use Rattle.model.specs.Locals.{called_frame};
ghost use Rattle.model.specs.Signatures.{argument_kinds};
ghost use Rattle.model.specs.Table.Invokes.{fault_in_pops, arguments_in, enters_method, called, called_on, on_object};
ghost use Rattle.model.specs.Table.Invokes.{world_entered, invoked};
ghost use Rattle.model.specs.Completions.{frames_in};
ghost use Rattle.model.specs.Monitors.{is_full, may_enter};
ghost use Rattle.model.specs.declared.instructions.Invocation.TheVariants.{Static};
ghost use Rattle.ideal_run.specs.Called.{callee_in};
ghost use Rattle.ideal_run.specs.Calls.{monitor_called, monitor_wanted, enters_with, found_for, found_by};
ghost use Rattle.ideal_run.specs.Completed.{reported, plainly, changed};
ghost use Rattle.ideal_run.specs.Steps.{monitor_in};

use crate::builtins::builtin_call;
use crate::callees::{Callee, callee_of};
use crate::calls::{arguments_on, called_frame, has_room_for};
use crate::completions::{Change, Completion, Site, raises};
use crate::frames::{Frame, below, with_stack};
use crate::monitors::{entered, is_full, may_enter};
use crate::operands::{ref_on, value_on};
use crate::throws::is_instance;
use crate::worlds::{Monitor, Step};
use bitflags::Flags;
use model::descriptors::argument_kinds;
use model::flags::MethodFlags;
use model::instructions::Invocation;
use model::listings::{Code, Method};
use model::names::Member;
use model::places::MethodPlace;
use model::turns::{Exception, Fault};
use model::values::{Kind, Value};
use resolve::found::Found;
use std::alloc::{AllocError, Global};

/// The fault of the first pop that has one; the kinds stand in the order of the pops.
#[tactic(auto, using(crate::proofs::PopLemmas::pops))]
fn fault_in_pops(kinds: &[Kind], stack: &[Value]) -> Option<Fault>
    ensures { result ≡ fault_in_pops kinds.now stack.now }
{
    let mut rest = stack;
    for kind in kinds {
        if let Err(fault) = value_on(*kind, rest) {
            return Some(fault);
        }
        rest = below(rest, 1);
    }
    None
}

/// The kinds of the arguments, in the order of the pops: the last one first. `AllocError` where memory runs out.
fn pops_of(alloc: Global, member: &Member) -> Result<Vec<Kind>, AllocError>
    ensures { IfOk result (λ kinds. kinds.items ≡ reverse (argument_kinds member.now.descriptor)) }
{
    let mut kinds = argument_kinds(alloc, member.descriptor.as_bytes())?;
    kinds.reverse();
    Ok(kinds)
}

/// How many arguments there are. `AllocError` where memory runs out.
fn arguments_in(alloc: Global, member: &Member) -> Result<usize, AllocError>
    ensures { IfOk result (λ n. n ≡ arguments_in member.now) }
{
    Ok(argument_kinds(alloc, member.descriptor.as_bytes())?.len())
}

/// How many operands of a call go: the arguments, and the object below them. `AllocError` where memory runs out.
fn operands_in(alloc: Global, member: &Member, object: Option<u32>) -> Result<usize, AllocError>
    ensures { IfOk result (λ n. n ≡ arguments_in member.now + option_len object) }
{
    let arguments = arguments_in(alloc, member)?;
    match object {
        None => Ok(arguments),
        Some(_) => match arguments.checked_add(1) {
            Some(operands) => Ok(operands),
            None => Err(AllocError),
        },
    }
}

/// The method monitor: that of the object, where the method is synchronized.
fn method_monitor(object: Option<u32>, method: &Method) -> Option<u32>
    ensures { result ≡ monitor_called object method.now }
{
    if method.flags.contains(MethodFlags::SYNCHRONIZED) {
        object
    } else {
        None
    }
}

/// The monitor that the thread is to enter; where there is none, one that is free.
fn monitor_for(site: &Site<'_, '_>, monitor: Option<u32>) -> Monitor
    ensures { monitor_in result ≡ monitor_wanted site.now.world monitor }
{
    match monitor {
        None => Monitor {
            owner: None,
            count: 0,
        },
        Some(birth) => site.world().monitor_of(birth),
    }
}

/// The frame of a call: operands go into its locals, and it gives back the monitor when it is left. `AllocError` where
/// memory runs out.
fn frame_of_call(
    alloc: Global,
    place: MethodPlace,
    code: &Code,
    arguments: &[Value],
    monitor: Option<u32>,
) -> Result<Frame, AllocError>
    ensures { IfOk result (λ frame. frame ≡ record
        (called_frame place code.now.max_locals code.now.max_stack arguments.now) { monitor = monitor }) }
{
    let frame = called_frame(alloc, place, code, arguments)?;
    Ok(Frame {
        method: frame.method,
        pc: frame.pc,
        locals: frame.locals,
        stack: frame.stack,
        room: frame.room,
        monitor,
        mark: frame.mark,
    })
}

/// The thread enters the method's monitor, where there is one.
fn entry(site: &Site<'_, '_>, birth: Option<u32>, monitor: Monitor) -> Change
    requires monitor { monitor_in monitor ≡ monitor_wanted site.now.world birth }
    requires count { is_full (monitor_in monitor) ≡ false }
    ensures { changed site.now.world site.now.thread result ≡ world_entered site.now birth }
{
    match birth {
        None => Change::Nothing,
        Some(object) => Change::Monitor(object, entered(site.thread(), monitor)),
    }
}

/// The thread enters a method, and the caller stays at its invoke instruction.
fn enters_frame(
    site: &Site<'_, '_>,
    caller: &Frame,
    n: usize,
    monitor: Option<u32>,
    entry: Change,
    code: &Code,
    place: MethodPlace,
) -> Result<Completion, AllocError>
    requires { caller.now ≡ site.now.frame }
    ensures { IfOk result (λ c. reported site.now.world site.now.thread c
        ≡ enters_with site.now n monitor (changed site.now.world site.now.thread entry) code.now place) }
{
    let alloc = site.alloc();
    let arguments = arguments_on(alloc, n, site.stack())?;
    let frame = frame_of_call(alloc, place, code, &arguments, monitor)?;
    let stack = Vec::from_slice(alloc, below(site.stack(), n))?;
    let caller = with_stack(alloc, caller, caller.pc, stack)?;
    Ok(Completion::Goes(entry, Step::Calls(caller, frame)))
}

/// A method with code is called, for which nothing has to be waited and there is room.
fn enters_tested(
    site: &Site<'_, '_>,
    member: &Member,
    object: Option<u32>,
    method: &Method,
    code: &Code,
    place: MethodPlace,
    birth: Option<u32>,
    monitor: Monitor,
    n: usize,
) -> Result<Completion, AllocError>
    requires birth { birth ≡ monitor_called object method.now }
    requires monitor { monitor_in monitor ≡ monitor_wanted site.now.world birth }
    requires may { may_enter site.now.thread (monitor_in monitor).owner ≡ true }
    requires room { has_room_for (frames_in site.now) code.now.max_locals code.now.max_stack ≡ true }
    requires count { is_full (monitor_in monitor) ≡ false }
    requires operands { n ≡ arguments_in member.now + option_len object }
    ensures { IfOk result (λ c. reported site.now.world site.now.thread c
        ≡ plainly (enters_method (record { site = site.now; member = member.now; object = object })
        (record { method = method.now; code = code.now; place = place }))) }
{
    let caller = site.frame();
    let change = entry(site, birth, monitor);
    match enters_frame(site, caller, n, birth, change, code, place) {
        Ok(completion) => Ok(completion),
        Err(error) => Err(error),
    }
}

/// A method with code is called: another thread's monitor is waited for; then no room for the frame, then F10.
fn enters_method(
    site: &Site<'_, '_>,
    member: &Member,
    object: Option<u32>,
    method: &Method,
    code: &Code,
    place: MethodPlace,
) -> Result<Completion, AllocError>
    ensures { IfOk result (λ c. reported site.now.world site.now.thread c
        ≡ plainly (enters_method (record { site = site.now; member = member.now; object = object })
        (record { method = method.now; code = code.now; place = place }))) }
{
    let birth = method_monitor(object, method);
    let monitor = monitor_for(site, birth);
    if !may_enter(site.thread(), monitor) {
        return Ok(Completion::Waits);
    }
    if !has_room_for(site.frames(), code) {
        return Ok(raises(Exception::StackOverflow));
    }
    if is_full(monitor) {
        return Ok(Completion::Faults(Fault::MonitorLimit));
    }
    let n = operands_in(site.alloc(), member, object)?;
    enters_tested(site, member, object, method, code, place, birth, monitor, n)
}

/// What was found is called. `AllocError` where memory runs out.
fn called(
    site: &Site<'_, '_>,
    member: &Member,
    object: Option<u32>,
    callee: Callee<'_>,
) -> Result<Completion, AllocError>
    ensures { IfOk result (λ c. reported site.now.world site.now.thread c
        ≡ plainly (called (record { site = site.now; member = member.now; object = object })
        (callee_in callee.entry))) }
{
    match callee {
        Callee::NoCode => Ok(Completion::Faults(Fault::NoMethod)),
        Callee::Own(builtin) => builtin_call(site, builtin),
        Callee::Coded(method, code, place) => {
            enters_method(site, member, object, method, code, place)
        }
    }
}

/// A static method is called.
fn static_called(site: &Site<'_, '_>, member: &Member) -> Result<Completion, AllocError>
    ensures { IfOk result (λ c. reported site.now.world site.now.thread c
        ≡ plainly (invoked site.now Static member.now)) }
{
    match fault_in_pops(&pops_of(site.alloc(), member)?, site.stack()) {
        Some(fault) => Ok(Completion::Faults(fault)),
        None => {
            let method = site.program().classes().method(member);
            called(site, member, None, callee_of(site.program(), method))
        }
    }
}

/// The object of a call, below its arguments: a null, then F6.
fn called_on(
    site: &Site<'_, '_>,
    member: &Member,
    invocation: Invocation,
) -> Result<Completion, AllocError>
    ensures { IfOk result (λ c. reported site.now.world site.now.thread c
        ≡ plainly (called_on site.now member.now (found_by site.now invocation member.now)
        (ref_on (drop (arguments_in member.now) site.now.frame.stack)))) }
{
    let n = arguments_in(site.alloc(), member)?;
    match ref_on(below(site.stack(), n)) {
        Err(fault) => Ok(Completion::Faults(fault)),
        Ok(None) => Ok(raises(Exception::NullPointer)),
        Ok(Some(birth)) => {
            if !is_instance(site, member.class.as_bytes(), birth)? {
                return Ok(Completion::Faults(Fault::WrongClass));
            }
            let class = site.world().class_at(site.alloc(), birth)?;
            let method = found_by(site, invocation, member, &class);
            let callee = callee_of(site.program(), method);
            called(site, member, Some(birth), callee)
        }
    }
}

/// Which method is called on an object of a class: by that class, or, specially, by the superclass of the class whose
/// code calls.
fn found_by<'s>(
    site: &Site<'s, '_>,
    invocation: Invocation,
    member: &Member,
    class: &[u8],
) -> Option<Found<'s, Method>>
    ensures { result ≡ found_for site.now invocation member.now class.now }
{
    let classes = site.program().classes();
    match invocation {
        Invocation::Special => {
            let caller = site.frame();
            let place = caller.method;
            classes.special(site.program().superclass_at(place.class), member)
        }
        Invocation::Virtual | Invocation::Interface(_) | Invocation::Static => {
            classes.select(class, member.name.as_bytes(), member.descriptor.as_bytes())
        }
    }
}

/// A method is called on an object: faults of the arguments first.
fn on_object(
    site: &Site<'_, '_>,
    member: &Member,
    invocation: Invocation,
) -> Result<Completion, AllocError>
    ensures { IfOk result (λ c. reported site.now.world site.now.thread c
        ≡ plainly (on_object site.now member.now (found_by site.now invocation member.now))) }
{
    match fault_in_pops(&pops_of(site.alloc(), member)?, site.stack()) {
        Some(fault) => Ok(Completion::Faults(fault)),
        None => called_on(site, member, invocation),
    }
}

/// A method is called: faults of the arguments from the top, then those of the object and of what is found.
/// `AllocError` where memory runs out.
pub fn invoked(
    site: &Site<'_, '_>,
    invocation: Invocation,
    member: &Member,
) -> Result<Completion, AllocError>
    ensures { IfOk result (λ c. reported site.now.world site.now.thread c
        ≡ plainly (invoked site.now invocation member.now)) }
{
    match invocation {
        Invocation::Static => static_called(site, member),
        Invocation::Virtual => on_object(site, member, Invocation::Virtual),
        Invocation::Special => on_object(site, member, Invocation::Special),
        Invocation::Interface(count) => on_object(site, member, Invocation::Interface(count)),
    }
}
