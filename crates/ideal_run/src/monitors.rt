//! The monitor of an object (JVMS 2.11.10), `monitorenter` and `monitorexit` (JVMS 6.5).
ghost use Rattle.std.specs.Prelude.{◌≡◌, IfOk, false, codes};
ghost use Rattle.model.specs.Monitors.{is_owner, may_enter, is_full, entered, exited};
ghost use Rattle.model.specs.Table.Objects.{is_instance};
ghost use Rattle.model.specs.Table.Monitors.{operates, operates_if, monitor_operated};
ghost use Rattle.model.specs.declared.instructions.MonitorOperation.TheVariants.{Enter, Exit};
ghost use Rattle.ideal_run.specs.Completed.{reported, plainly};
ghost use Rattle.ideal_run.specs.Steps.{monitor_in};

use crate::completions::{Change, Completion, Site, raises};
use crate::operands::ref_on;
use crate::throws::is_instance;
use crate::worlds::Monitor;
use model::instructions::MonitorOperation;
use model::turns::{Exception, Fault};
use std::alloc::AllocError;

/// Whether a thread owns a monitor.
pub fn is_owner(thread: u8, monitor: Monitor) -> bool
    ensures { result ≡ is_owner thread (monitor_in monitor).owner }
{
    match monitor.owner {
        None => false,
        Some(owner) => owner == u32::from(thread),
    }
}

/// Nobody's monitor, and one's own, may be entered.
pub fn may_enter(thread: u8, monitor: Monitor) -> bool
    ensures { result ≡ may_enter thread (monitor_in monitor).owner }
{
    match monitor.owner {
        None => true,
        Some(owner) => owner == u32::from(thread),
    }
}

/// A count goes no higher.
pub fn is_full(monitor: Monitor) -> bool
    ensures { result ≡ is_full (monitor_in monitor) }
{
    65535 <= monitor.count
}

pub fn entered(thread: u8, monitor: Monitor) -> Monitor
    requires { is_full (monitor_in monitor) ≡ false }
    ensures { monitor_in result ≡ entered thread (monitor_in monitor) }
{
    Monitor {
        owner: Some(u32::from(thread)),
        count: monitor.count + 1,
    }
}

/// At a count of 0 there is no owner.
pub fn exited(monitor: Monitor) -> Monitor
    ensures { monitor_in result ≡ exited (monitor_in monitor) }
{
    if monitor.count <= 1 {
        Monitor {
            owner: None,
            count: 0,
        }
    } else {
        Monitor {
            owner: monitor.owner,
            count: monitor.count - 1,
        }
    }
}

/// A monitor of another thread is waited for; then F10.
fn enters(site: &Site<'_, '_>, birth: u32) -> Result<Completion, AllocError>
    ensures { IfOk result (λ c. reported site.now.world site.now.thread c ≡ plainly (operates site.now Enter birth)) }
{
    let monitor = site.world().monitor_of(birth);
    if !may_enter(site.thread(), monitor) {
        return Ok(Completion::Waits);
    }
    if is_full(monitor) {
        return Ok(Completion::Faults(Fault::MonitorLimit));
    }
    site.pops(1, Change::Monitor(birth, entered(site.thread(), monitor)))
}

fn exits(site: &Site<'_, '_>, birth: u32) -> Result<Completion, AllocError>
    ensures { IfOk result (λ c. reported site.now.world site.now.thread c ≡ plainly (operates site.now Exit birth)) }
{
    let monitor = site.world().monitor_of(birth);
    if is_owner(site.thread(), monitor) {
        site.pops(1, Change::Monitor(birth, exited(monitor)))
    } else {
        Ok(raises(Exception::IllegalMonitorState))
    }
}

/// On an object that is there, else F6.
fn operates_if(
    site: &Site<'_, '_>,
    operation: MonitorOperation,
    birth: u32,
    is_there: bool,
) -> Result<Completion, AllocError>
    ensures { IfOk result (λ c. reported site.now.world site.now.thread c
        ≡ plainly (operates_if site.now operation birth is_there)) }
{
    if !is_there {
        return Ok(Completion::Faults(Fault::WrongClass));
    }
    match operation {
        MonitorOperation::Enter => enters(site, birth),
        MonitorOperation::Exit => exits(site, birth),
    }
}

/// The same, where it was found out whether the object is there.
fn operates_at(
    site: &Site<'_, '_>,
    operation: MonitorOperation,
    birth: u32,
    is_there: bool,
) -> Result<Completion, AllocError>
    requires { is_there ≡ is_instance site.now (codes "java/lang/Object") birth }
    ensures { IfOk result (λ c. reported site.now.world site.now.thread c
        ≡ plainly (operates_if site.now operation birth (is_instance site.now (codes "java/lang/Object") birth))) }
{
    match operates_if(site, operation, birth, is_there) {
        Ok(completion) => Ok(completion),
        Err(error) => Err(error),
    }
}

/// A monitor is entered or exited: a null, then F6 where there is no object, a monitor of another thread, F10.
/// `AllocError` where memory runs out.
pub fn monitor_operated(
    site: &Site<'_, '_>,
    operation: MonitorOperation,
) -> Result<Completion, AllocError>
    ensures { IfOk result (λ c. reported site.now.world site.now.thread c
        ≡ plainly (monitor_operated site.now operation)) }
{
    match ref_on(site.stack()) {
        Err(fault) => Ok(Completion::Faults(fault)),
        Ok(None) => Ok(raises(Exception::NullPointer)),
        Ok(Some(birth)) => {
            let is_there = is_instance(site, b"java/lang/Object", birth)?;
            operates_at(site, operation, birth, is_there)
        }
    }
}
