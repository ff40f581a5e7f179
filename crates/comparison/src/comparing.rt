//! Whether what is seen of a machine's world is what stands in an ideal world.
ghost use Rattle.std.specs.Prelude.{◌≡◌, Decides, IfOk, map};
ghost use Rattle.model.specs.Shows.{kind_of_contents, values_in};
ghost use Rattle.model.specs.Views.{contents_in};
ghost use Rattle.model.specs.Shows.ObjectKind.{OfClass as ClassKind, OfElements as ElementsKind};
ghost use Rattle.model.specs.Worlds.{FieldValue};
ghost use Rattle.model.specs.Worlds.Thread.{Live as LiveThread, Ended as EndedThread};
ghost use Rattle.instructions.specs.HeldViews.{kind_in};
ghost use Rattle.instructions.specs.HeldOnCells.{held_of};

use ideal_run::frames::Frame;
use ideal_run::worlds::{Thread, ThreadState};
use instructions::held::{HeldKind, HeldView};
use model::names::Name;
use model::turns::{ClassState, Fault};
use model::values::{Entry, Value};
use model::views::{
    ContentsView, FieldView, FrameView, ObjectView, ThreadState as ViewState, ThreadView,
};
use std::alloc::AllocError;

#[tactic(auto, using(crate::proofs::Deciding::deciding))]
fn are_values(view: &[Value], values: &[Value]) -> bool
    ensures { Decides result (view.now ≡ values.now) }
{
    view == values
}

#[tactic(auto, using(crate::proofs::Deciding::deciding))]
fn are_entries(view: &[Entry], entries: &[Entry]) -> bool
    ensures { Decides result (view.now ≡ entries.now) }
{
    view == entries
}

/// Whether these are the states.
#[tactic(auto, using(crate::proofs::Deciding::deciding))]
pub(crate) fn are_states(view: &[ClassState], states: &[ClassState]) -> bool
    ensures { Decides result (view.now ≡ states.now) }
{
    view == states
}

/// Whether the faults, and their threads, are the same.
pub(crate) fn is_fault(view: Option<(Fault, u8)>, fault: Option<(Fault, u8)>) -> bool
    ensures { Decides result (view ≡ fault) }
{
    view == fault
}

fn is_name(view: &Name, name: &Name) -> bool
    ensures { Decides result (view.now ≡ name.now) }
{
    view.as_bytes() == name.as_bytes()
}

// ---- threads

fn is_place(view: &FrameView, frame: &Frame) -> bool
    ensures { Decides result ((view.now.method ≡ frame.now.method) × (view.now.pc ≡ frame.now.pc)) }
{
    view.method == frame.method && view.pc == frame.pc
}

fn is_guard(view: &FrameView, frame: &Frame) -> bool
    ensures { Decides result ((view.now.room ≡ frame.now.room) × (view.now.monitor ≡ frame.now.monitor)
        × (view.now.mark ≡ frame.now.mark)) }
{
    view.room == frame.room && view.monitor == frame.monitor && view.mark == frame.mark
}

/// Whether the stack, which a view has bottom first, is this one, top first. `AllocError` where memory runs out, here
/// and below.
fn is_stack(view: &FrameView, stack: &[Value]) -> Result<bool, AllocError>
    ensures { IfOk result (λ same. Decides same (view.now.stack ≡ stack.now)) }
{
    let mut turned = Vec::from_slice(*view.stack.allocator(), &view.stack)?;
    turned.reverse();
    Ok(are_values(&turned, stack))
}

#[tactic(auto, using(crate::proofs::Deciding::deciding))]
fn is_frame(view: &FrameView, frame: &Frame) -> Result<bool, AllocError>
    ensures { IfOk result (λ same. Decides same (view.now ≡ frame.now)) }
{
    let stack = is_stack(view, &frame.stack)?;
    let locals = are_entries(&view.locals, &frame.locals);
    let place = is_place(view, frame);
    let guard = is_guard(view, frame);
    Ok(stack && locals && place && guard)
}

fn are_frames(views: &[FrameView], frames: &[Frame]) -> Result<bool, AllocError>
    ensures { IfOk result (λ same. Decides same (views.now ≡ frames.now)) }
{
    if views.len() != frames.len() {
        return Ok(false);
    }
    for n in 0..views.len() {
        if !is_frame(&views[n], &frames[n])? {
            return Ok(false);
        }
    }
    Ok(true)
}

fn is_end(view: &Option<Name>, by: &Option<Name>) -> bool
    ensures { Decides result (view.now ≡ by.now) }
{
    match view {
        None => by.is_none(),
        Some(view) => match by {
            None => false,
            Some(by) => is_name(view, by),
        },
    }
}

fn lives_with(views: &[FrameView], thread: &Thread) -> Result<bool, AllocError>
    ensures { IfOk result (λ same. Decides same (LiveThread views.now ≡ thread.now)) }
{
    match &thread.state {
        ThreadState::Live(frames) => are_frames(views, frames),
        ThreadState::Ended(_) => Ok(false),
    }
}

fn ended_by(view: &Option<Name>, thread: &Thread) -> bool
    ensures { Decides result (EndedThread view.now ≡ thread.now) }
{
    match &thread.state {
        ThreadState::Live(_) => false,
        ThreadState::Ended(by) => is_end(view, by),
    }
}

/// Whether this is the thread. `AllocError` where memory runs out.
pub(crate) fn is_thread(view: &ThreadView, thread: &Thread) -> Result<bool, AllocError>
    ensures { IfOk result (λ same. Decides same (view.now ≡ thread.now)) }
{
    match &view.state {
        ViewState::Live(views) => lives_with(views, thread),
        ViewState::Ended(by) => Ok(ended_by(by, thread)),
    }
}

// ---- static fields

fn is_field(view: &FieldView, field: &FieldView) -> bool
    ensures { Decides result (view.now ≡ field.now) }
{
    is_name(&view.class, &field.class)
        && is_name(&view.name, &field.name)
        && is_name(&view.descriptor, &field.descriptor)
        && view.value == field.value
}

/// Whether these are the fields, with what they hold.
pub(crate) fn are_fields(views: &[FieldView], fields: &[FieldView]) -> bool
    ensures { Decides result (views.now ≡ fields.now) }
{
    if views.len() != fields.len() {
        return false;
    }
    for n in 0..views.len() {
        if !is_field(&views[n], &fields[n]) {
            return false;
        }
    }
    true
}

// ---- objects

fn holds(field: &FieldView, value: Value) -> bool
    ensures { Decides result (field.now.value ≡ value) }
{
    field.value == value
}

fn hold(fields: &[FieldView], words: &[Value]) -> bool
    ensures { Decides result (map (λ (f : FieldValue). f.value) fields.now ≡ words.now) }
{
    if fields.len() != words.len() {
        return false;
    }
    for n in 0..words.len() {
        if !holds(&fields[n], words[n]) {
            return false;
        }
    }
    true
}

fn has_words(contents: &ContentsView, words: &[Value]) -> bool
    ensures { Decides result (values_in (contents_in contents.now) ≡ words.now) }
{
    match contents {
        ContentsView::Instance { class: _, fields } => hold(fields, words),
        ContentsView::Array { element: _, values } => are_values(values, words),
    }
}

fn is_instance(contents: &ContentsView, name: &Name) -> bool
    ensures { Decides result (kind_of_contents (contents_in contents.now) ≡ ClassKind name.now) }
{
    match contents {
        ContentsView::Instance { class, fields: _ } => is_name(class, name),
        ContentsView::Array { .. } => false,
    }
}

fn is_array(contents: &ContentsView, name: &Name) -> bool
    ensures { Decides result (kind_of_contents (contents_in contents.now) ≡ ElementsKind name.now) }
{
    match contents {
        ContentsView::Instance { .. } => false,
        ContentsView::Array { element, values: _ } => is_name(element, name),
    }
}

fn is_of(contents: &ContentsView, kind: &HeldKind) -> bool
    ensures { Decides result (kind_of_contents (contents_in contents.now) ≡ kind_in kind.now) }
{
    match kind {
        HeldKind::OfClass(class) => is_instance(contents, class),
        HeldKind::OfElements(element) => is_array(contents, element),
    }
}

fn is_owned(object: &ObjectView, held: &HeldView) -> bool
    ensures { Decides result ((object.now.monitor ≡ held.now.monitor) × (object.now.thread ≡ held.now.thread)) }
{
    object.owner == held.owner && object.entries == held.entries && object.thread == held.thread
}

/// Whether what a cell holds is this object.
#[tactic(auto, using(crate::proofs::Deciding::deciding))]
pub(crate) fn is_object(object: &ObjectView, held: &HeldView) -> bool
    ensures { Decides result (held_of held.now.birth object.now ≡ held.now) }
{
    is_of(&object.contents, &held.kind)
        && has_words(&object.contents, &held.words)
        && is_owned(object, held)
}
