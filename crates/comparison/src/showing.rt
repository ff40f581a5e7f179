//! Whether the cells of a world show the world of an ideal run.
ghost use Rattle.std.specs.Prelude.{◌≡◌, ◌&&◌, Decides, IfOk, Some, map};
ghost use Rattle.model.specs.Machines.{machine_of};
ghost use Rattle.model.specs.Observers.{ideal, thread_of};
ghost use Rattle.model.specs.Shows.{Held, Shows};
ghost use Rattle.scheduler.specs.OnCells.{cells_of, heap_on};
ghost use Rattle.scheduler.specs.Showing.{AreHeld, SameBeside, held_at, shown_in};

use crate::comparing::{are_fields, are_states, is_fault, is_object, is_thread};
use ideal_run::Ideal;
use ideal_run::worlds::{Thread, World as IdealWorld};
use instructions::held::HeldView;
use scheduler::worlds::World;
use std::alloc::AllocError;

/// Whether class states, output, fault, and how many turns and births there were are the same.
fn has_same_beside(world: &World, other: &IdealWorld) -> bool
    ensures { Decides result (SameBeside (ideal world.now) other.now) }
{
    let states = are_states(world.class_states(), other.states());
    let output = world.output() == other.output();
    let fault = is_fault(world.fault(), other.fault());
    let rows = world.rows() == other.rows();
    let births = world.next_birth() as usize == other.objects().len();
    states && output && fault && rows && births
}

/// Whether a thread was started and is this one. `AllocError` where memory runs out, here and below.
fn has_thread(world: &World, thread: u8, other: &Thread) -> Result<bool, AllocError>
    ensures { IfOk result (λ same. Decides same (thread_of world.now thread ≡ Some other.now)) }
{
    match world.thread(thread)? {
        Some(view) => is_thread(&view, other),
        None => Ok(false),
    }
}

/// Whether these are the threads.
fn has_threads(world: &World, threads: &[Thread]) -> Result<bool, AllocError>
    ensures { IfOk result (λ same. Decides same ((ideal world.now).threads ≡ threads.now)) }
{
    let count = world.thread_count();
    if count as usize != threads.len() {
        return Ok(false);
    }
    for thread in 0..count {
        if !has_thread(world, thread, &threads[thread as usize])? {
            return Ok(false);
        }
    }
    Ok(true)
}

/// Whether a birth has this object.
fn has_object(other: &IdealWorld, held: &HeldView) -> bool
    ensures { Decides result (held_at other.now held.now.birth ≡ Some held.now) }
{
    match other.object_at(held.birth) {
        None => false,
        Some(object) => is_object(object, held),
    }
}

/// Whether what a cell holds, if it holds something, is the object of its birth.
fn has_held(other: &IdealWorld, held: &Option<HeldView>) -> bool
    ensures { Decides result ((some : Held) → held.now ≡ Some some → held_at other.now some.birth ≡ Some some) }
{
    match held {
        None => true,
        Some(held) => has_object(other, held),
    }
}

/// Whether what cells hold are the objects of their births.
fn has_all_held(other: &IdealWorld, helds: &[Option<HeldView>]) -> bool
    ensures { Decides result (AreHeld other.now helds.now) }
{
    for n in 0..helds.len() {
        if !has_held(other, &helds[n]) {
            return false;
        }
    }
    true
}

/// Whether the threads are the same.
fn has_same_threads(world: &World, other: &IdealWorld) -> Result<bool, AllocError>
    ensures { IfOk result (λ same. Decides same ((ideal world.now).threads ≡ other.now.threads)) }
{
    has_threads(world, other.threads())
}

/// Whether the static fields are the same, and hold the same.
fn has_same_slots(world: &World, other: &IdealWorld) -> Result<bool, AllocError>
    ensures { IfOk result (λ same. Decides same ((ideal world.now).statics.fields ≡ other.now.statics.fields)) }
{
    let views = world.static_fields()?;
    Ok(are_fields(&views, other.statics()))
}

/// Whether what the world's cells hold are the objects of their births.
fn has_same_objects(world: &World, other: &IdealWorld) -> Result<bool, AllocError>
    ensures { IfOk result (λ same. Decides same
        (AreHeld other.now (map (shown_in (machine_of world.now)) (machine_of world.now).account.cells))) }
{
    let helds = world.helds()?;
    Ok(has_all_held(other, &helds))
}

fn all_four(beside: bool, threads: bool, slots: bool, objects: bool) -> bool
    ensures { result ≡ (((beside && threads) && slots) && objects) }
{
    beside && threads && slots && objects
}

/// Whether the cells of a world show this one, as `shows` says.
pub fn shows_world(world: &World, other: &IdealWorld) -> Result<bool, AllocError>
    ensures { IfOk result (λ shown. Decides shown
        (Shows (heap_on (cells_of world.now)) other.now)) }
{
    world.loses_nothing();
    let beside = has_same_beside(world, other);
    let threads = has_same_threads(world, other)?;
    let slots = has_same_slots(world, other)?;
    let objects = has_same_objects(world, other)?;
    Ok(all_four(beside, threads, slots, objects))
}

/// Whether the cells of a world show the world of an ideal run: whether threads, static fields, class states, output,
/// fault, and how many turns and births there were are the same, references being read as the births in their cells,
/// and each birth that a path leads to has one cell, in which its object stands. `AllocError` where memory runs out. It
/// takes time in proportion to the heap, the frames and the names of static fields.
pub fn shows(world: &World, run: &Ideal<'_>) -> Result<bool, AllocError>
    ensures { IfOk result (λ shown. Decides shown
        (Shows (heap_on (cells_of world.now)) run.now.world)) }
{
    shows_world(world, run.world())
}
