//! Starting a thread, and waiting for its end (the class Thread).
ghost use Rattle.std.specs.Prelude.{◌≡◌, IfOk, Some};
ghost use Rattle.model.specs.Frames.{ref_on};
ghost use Rattle.model.specs.Objects.{object_at};
ghost use Rattle.model.specs.Table.Threads.{started, starts, joined, has_live_thread, thread_if};
ghost use Rattle.ideal_run.specs.Called.{callee_in};
ghost use Rattle.ideal_run.specs.Started.{thread_of, thread_added_on, begins_on};
ghost use Rattle.ideal_run.specs.Completed.{reported, plainly};

use crate::callees::{Callee, callee_of};
use crate::calls::called_frame;
use crate::completions::{Change, Completion, Site, raises};
use crate::frames::replaced;
use crate::operands::ref_on;
use crate::worlds::{Thread, ThreadState};
use model::listings::Code;
use model::places::MethodPlace;
use model::turns::{Exception, Fault};
use model::values::Value;
use model::views::ObjectView;
use std::alloc::AllocError;

/// A thread begins with the object in local 0.
fn coded_thread(
    site: &Site<'_, '_>,
    birth: u32,
    code: &Code,
    place: MethodPlace,
) -> Result<Thread, AllocError>
    ensures { IfOk result (λ thread. thread ≡ thread_of place code.now birth) }
{
    let mut frames = Vec::new(site.alloc());
    let object = [Value::Ref(Some(birth))];
    frames.push(called_frame(site.alloc(), place, code, &object)?)?;
    Ok(Thread {
        state: ThreadState::Live(frames),
    })
}

/// One thread more, and the object goes.
fn thread_added(site: &Site<'_, '_>, birth: u32, thread: Thread) -> Result<Completion, AllocError>
    ensures { IfOk result (λ c. reported site.now.world site.now.thread c ≡ thread_added_on site.now birth thread) }
{
    let frame = replaced(site.alloc(), site.next(), site.frame(), 1, &[])?;
    Ok(Completion::Starts(birth, frame, thread))
}

/// What the object's `run()V` has to run begins; that of the machine's own method has ended at once.
fn begins(site: &Site<'_, '_>, birth: u32, callee: Callee<'_>) -> Result<Completion, AllocError>
    ensures { IfOk result (λ c. reported site.now.world site.now.thread c
        ≡ begins_on site.now birth (callee_in callee.entry)) }
{
    match callee {
        Callee::NoCode => Ok(Completion::Faults(Fault::NoMethod)),
        Callee::Own(_) => {
            let ended = Thread {
                state: ThreadState::Ended(None),
            };
            thread_added(site, birth, ended)
        }
        Callee::Coded(_, code, place) => {
            thread_added(site, birth, coded_thread(site, birth, code, place)?)
        }
    }
}

/// The object is started: IllegalThreadStateException where it was before, then F8, then F9.
fn starts(site: &Site<'_, '_>, birth: u32, object: &ObjectView) -> Result<Completion, AllocError>
    requires { object_at site.now.world birth ≡ Some object.now }
    ensures { IfOk result (λ c. reported site.now.world site.now.thread c
        ≡ plainly (starts site.now birth (Some object.now))) }
{
    if object.thread.is_some() {
        return Ok(raises(Exception::IllegalThreadState));
    }
    if 64 <= site.world().threads().len() {
        return Ok(Completion::Faults(Fault::ThreadLimit));
    }
    let class = site.world().class_at(site.alloc(), birth)?;
    let run = site.program().classes().select(&class, b"run", b"()V");
    begins(site, birth, callee_of(site.program(), run))
}

/// `start`: a null, then F6. `AllocError` where memory runs out.
pub fn started(site: &Site<'_, '_>) -> Result<Completion, AllocError>
    ensures { IfOk result (λ c. reported site.now.world site.now.thread c
        ≡ plainly (started site.now (ref_on site.now.frame.stack))) }
{
    match ref_on(site.stack()) {
        Err(fault) => Ok(Completion::Faults(fault)),
        Ok(None) => Ok(raises(Exception::NullPointer)),
        Ok(Some(birth)) => match site.world().object_at(birth) {
            None => Ok(Completion::Faults(Fault::WrongClass)),
            Some(object) => starts(site, birth, object),
        },
    }
}

/// Whether the thread that was started on an object lives.
fn is_running(site: &Site<'_, '_>, birth: u32) -> bool
    ensures { result ≡ has_live_thread site.now.world (thread_if (object_at site.now.world birth)) }
{
    match site.world().object_at(birth) {
        None => false,
        Some(object) => match object.thread {
            None => false,
            Some(thread) => site.world().is_live(thread),
        },
    }
}

/// `join`: a null; the thread waits while the object's thread lives. `AllocError` where memory runs out.
pub fn joined(site: &Site<'_, '_>) -> Result<Completion, AllocError>
    ensures { IfOk result (λ c. reported site.now.world site.now.thread c
        ≡ plainly (joined site.now (ref_on site.now.frame.stack))) }
{
    match ref_on(site.stack()) {
        Err(fault) => Ok(Completion::Faults(fault)),
        Ok(None) => Ok(raises(Exception::NullPointer)),
        Ok(Some(birth)) => {
            if is_running(site, birth) {
                Ok(Completion::Waits)
            } else {
                site.pops(1, Change::Nothing)
            }
        }
    }
}
