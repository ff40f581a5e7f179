//! The births to which paths lead in a world, in the order of a walk.
ghost use Rattle.std.specs.Prelude.{◌≡◌, ◌≤◌, ◌∷◌, ◌++◌, IfOk, OnOk, map, length, reverse};
ghost use Rattle.std.specs.List.{flat_map};
ghost use Rattle.model.specs.Collector.Places.{contents_refs, entry_ref, field_ref, frame_refs, ref_of, slots_of, words_of};
ghost use Rattle.model.specs.Collector.Reached.{roots_of, roots_of_frame, roots_of_thread};
ghost use Rattle.model.specs.Views.{contents_in};
ghost use Rattle.collector.specs.Reaching.{all_noted, marked, noted, spread};

use collector::Reaching;
use ideal_run::frames::Frame;
use ideal_run::worlds::{Thread, ThreadState, World};
use model::values::{Entry, Value};
use model::views::{ContentsView, FieldView};
use std::alloc::{AllocError, Global};

/// The birth to which a value leads.
fn ref_of(value: Value) -> Option<u32>
    ensures { result ≡ ref_of value }
{
    match value {
        Value::Int(_) | Value::Long(_) => None,
        Value::Ref(birth) => birth,
    }
}

fn entry_ref(entry: Entry) -> Option<u32>
    ensures { result ≡ entry_ref entry }
{
    match entry {
        Entry::Unset | Entry::UpperHalf => None,
        Entry::Holds(value) => ref_of(value),
    }
}

/// Values are noted, in order. `AllocError` where memory runs out, here and below.
fn note_values(reaching: &mut Reaching, values: &[Value]) -> Result<(), AllocError>
    ensures { OnOk result (reaching.new ≡ all_noted reaching.old (map ref_of values.now)) }
{
    for value in values {
        reaching.note(ref_of(*value))?;
    }
    Ok(())
}

/// A stack is noted from the bottom on.
fn note_stack(reaching: &mut Reaching, stack: &[Value]) -> Result<(), AllocError>
    ensures { OnOk result (reaching.new ≡ all_noted reaching.old (reverse (map ref_of stack.now))) }
{
    for place in (0..stack.len()).rev() {
        reaching.note(ref_of(stack[place]))?;
    }
    Ok(())
}

fn note_locals(reaching: &mut Reaching, locals: &[Entry]) -> Result<(), AllocError>
    ensures { OnOk result (reaching.new ≡ all_noted reaching.old (map entry_ref locals.now)) }
{
    for local in locals {
        reaching.note(entry_ref(*local))?;
    }
    Ok(())
}

fn note_fields(reaching: &mut Reaching, fields: &[FieldView]) -> Result<(), AllocError>
    ensures { OnOk result (reaching.new ≡ all_noted reaching.old (map field_ref fields.now)) }
{
    for field in fields {
        reaching.note(ref_of(field.value))?;
    }
    Ok(())
}

#[tactic(auto, using(crate::proofs::WalkLemmas::walks))]
fn note_frame(reaching: &mut Reaching, frame: &Frame) -> Result<(), AllocError>
    ensures { OnOk result (reaching.new ≡ all_noted reaching.old (roots_of_frame frame.now)) }
{
    reaching.note(frame.monitor)?;
    note_locals(reaching, &frame.locals)?;
    note_stack(reaching, &frame.stack)
}

fn note_frames(reaching: &mut Reaching, frames: &[Frame]) -> Result<(), AllocError>
    ensures { OnOk result (reaching.new ≡ all_noted reaching.old (flat_map roots_of_frame frames.now)) }
{
    for frame in frames {
        note_frame(reaching, frame)?;
    }
    Ok(())
}

fn note_thread(reaching: &mut Reaching, thread: &Thread) -> Result<(), AllocError>
    ensures { OnOk result (reaching.new ≡ all_noted reaching.old (roots_of_thread thread.now)) }
{
    match &thread.state {
        ThreadState::Live(frames) => note_frames(reaching, frames),
        ThreadState::Ended(_) => Ok(()),
    }
}

fn note_threads(reaching: &mut Reaching, threads: &[Thread]) -> Result<(), AllocError>
    ensures { OnOk result (reaching.new ≡ all_noted reaching.old (flat_map roots_of_thread threads.now)) }
{
    for thread in threads {
        note_thread(reaching, thread)?;
    }
    Ok(())
}

/// Births 1 and 2, the static fields, and what the threads have.
#[tactic(auto, using(crate::proofs::WalkLemmas::walks))]
fn note_roots(reaching: &mut Reaching, world: &World) -> Result<(), AllocError>
    ensures { OnOk result (reaching.new ≡ all_noted reaching.old (roots_of world.now)) }
{
    reaching.note(Some(1))?;
    reaching.note(Some(2))?;
    note_fields(reaching, world.statics())?;
    note_threads(reaching, world.threads())
}

fn note_contents(reaching: &mut Reaching, contents: &ContentsView) -> Result<(), AllocError>
    ensures { OnOk result (reaching.new ≡ all_noted reaching.old (contents_refs (contents_in contents.now))) }
{
    match contents {
        ContentsView::Instance { class: _, fields } => note_fields(reaching, fields),
        ContentsView::Array { element: _, values } => note_values(reaching, values),
    }
}

fn note_words(reaching: &mut Reaching, world: &World, birth: u32) -> Result<(), AllocError>
    ensures { OnOk result (reaching.new ≡ all_noted reaching.old (words_of world.now.objects birth)) }
{
    match world.objects().get(birth as usize) {
        None => Ok(()),
        Some(object) => note_contents(reaching, &object.contents),
    }
}

/// The words of all that was noted, of these the words again, and so on.
fn spread(reaching: &mut Reaching, world: &World, count: u32) -> Result<(), AllocError>
    ensures { OnOk result (reaching.new ≡ spread world.now count 0 reaching.old) }
{
    for n in 0..count {
        let Some(birth) = reaching.listed(n) else {
            return Ok(());
        };
        note_words(reaching, world, birth)?;
    }
    Ok(())
}

/// All to which paths lead among so many births: 1 and 2, what static fields and threads have, from the outermost frame
/// on, and then the words of each that was found.
pub fn walk(alloc: Global, world: &World, count: u32) -> Result<Reaching, AllocError>
    ensures { IfOk result (λ reaching. reaching ≡ marked world.now count) }
{
    let mut reaching = Reaching::new(alloc, count)?;
    note_roots(&mut reaching, world)?;
    spread(&mut reaching, world, count)?;
    Ok(reaching)
}
