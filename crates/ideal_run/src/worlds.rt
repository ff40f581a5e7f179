//! The ideal world (JVMS 2.5, 2.6): what threads, statics, output and objects are on a heap where nothing is ever
//! freed.
ghost use Rattle.std.specs.Prelude.{◌≡◌, ◌≤◌, ◌+◌, ◌^◌, ◌∷◌, [], ◌++◌, length, IfOk, OnOk, OnErr, MatchResult, Some};
ghost use Rattle.std.specs.Prelude.{slice_get, slice_index_or, slice_set, take};
ghost use Rattle.std.specs.Option.{option_copied};
ghost use Rattle.model.specs.declared.turns.ClassState.TheVariants.{Done};
ghost use Rattle.model.specs.Frames.{running, with_running, callers};
ghost use Rattle.model.specs.Monitors.{monitor_of, with_monitor_of};
ghost use Rattle.model.specs.Objects.{class_of, class_at, object_at, with_new};
ghost use Rattle.model.specs.Views.{contents_in};
ghost use Rattle.model.specs.Table.Fields.{fields_in};
ghost use Rattle.model.specs.Table.Threads.{with_more};
ghost use Rattle.model.specs.Words.{slot_at, value_at, word_of, contents_at, with_slot, with_value_at, with_word_in};
ghost use Rattle.model.specs.Words.{with_word};
ghost use Rattle.model.specs.Worlds.{frames_of, frames_at, lives, is_live, next_birth, with_thread, with_fault};
ghost use Rattle.model.specs.Worlds.{with_class_states, with_output, counted};
ghost use Rattle.ideal_run.specs.Steps.{monitor_in, new_world, stepped, started_on};

use crate::frames::Frame;
use crate::initialisation::state_of;
use model::names::Name;
use model::turns::{ClassState, Fault};
use model::values::Value;
use model::views::{ContentsView, FieldView, ObjectView};
use std::alloc::{AllocError, Global};
use std::marker::Model;
use std::mem;

/// Whether a thread lives, with its frames, outermost first, or has ended: normally, or by an exception of a class.
#[derive(Drop)]
pub enum ThreadState {
    Live(Vec<Frame>),
    Ended(Option<Name>),
}

/// A thread that was started.
#[derive(Drop)]
pub struct Thread {
    pub state: ThreadState,
}

impl Model for Thread {
    ghost use Rattle.model.specs.Worlds.{Thread};
    ghost use Rattle.ideal_run.specs.Threads.{thread_in};

    ghost Value = { Thread };

    ghost view = { λ a. thread_in a.state };
}

/// Who owns a monitor, and how often it was entered (JVMS 2.11.10).
#[derive(Clone, Copy)]
pub struct Monitor {
    pub owner: Option<u32>,
    pub count: u16,
}

/// What becomes of a thread.
#[derive(Drop)]
pub enum Step {
    /// another running frame
    Runs(Frame),
    /// another running frame, and a frame above it
    Calls(Frame, Frame),
    /// the running frame is left, and there is another caller
    Returns(Frame),
    /// frames above the running one
    Claims(Vec<Frame>),
    /// so many frames stay, with another one above them
    Lands(usize, Frame),
    Ends(Option<Name>),
}

/// Threads, static fields in class and field order, the state of each class in order, what was printed, objects by
/// their births, the recorded fault with its thread, and how many turns were made. A contract sees the ideal world.
#[derive(Drop)]
pub struct World {
    threads: Vec<Thread>,
    statics: Vec<FieldView>,
    states: Vec<ClassState>,
    output: Vec<u8>,
    objects: Vec<ObjectView>,
    fault: Option<(Fault, u8)>,
    rows: u32,
}

impl Model for World {
    ghost use Rattle.model.specs.Worlds.{World};

    ghost Value = { World };

    ghost view = { λ a. record {
      threads = a.threads.items;
      statics = record { fields = a.statics.items; states = a.states.items };
      output = a.output.items;
      objects = a.objects.items;
      fault = a.fault;
      rows = a.rows;
    } };
}

/// The frames of a thread, outermost first; none where it was never started or has ended.
fn frames_of(thread: Option<&Thread>) -> &[Frame]
    ensures { result.now ≡ frames_of (option_copied thread.entry) }
{
    match thread {
        None => &[],
        Some(thread) => match &thread.state {
            ThreadState::Live(frames) => frames.as_slice(),
            ThreadState::Ended(_) => &[],
        },
    }
}

fn lives(thread: Option<&Thread>) -> bool
    ensures { result ≡ lives (option_copied thread.entry) }
{
    match thread {
        None => false,
        Some(thread) => match &thread.state {
            ThreadState::Live(_) => true,
            ThreadState::Ended(_) => false,
        },
    }
}

/// The frame that runs: the last one.
pub fn running(frames: &[Frame]) -> Option<&Frame>
    ensures { option_copied result ≡ running frames.now }
{
    frames.last()
}

/// What a field holds, null past the last one.
fn value_at(fields: &[FieldView], place: usize) -> Value
    ensures { result ≡ value_at fields.now place }
{
    match fields.get(place) {
        None => Value::Ref(None),
        Some(field) => field.value,
    }
}

/// The class of an object; that of an array is its descriptor.
fn class_of(alloc: Global, object: &ObjectView) -> Result<Vec<u8>, AllocError>
    ensures { IfOk result (λ class. class.items ≡ class_of object.now.contents) }
{
    match &object.contents {
        ContentsView::Instance { class, fields: _ } => Vec::from_slice(alloc, class.as_bytes()),
        ContentsView::Array { element, values: _ } => {
            let mut class = Vec::from_slice(alloc, b"[")?;
            class.extend_from_slice(element.as_bytes())?;
            Ok(class)
        }
    }
}

/// A word of an object: a field or an element, null past the last one.
fn word_in(object: &ObjectView, place: usize) -> Value
    ensures { result ≡ word_of object.now.contents place }
{
    match &object.contents {
        ContentsView::Instance { class: _, fields } => value_at(fields, place),
        ContentsView::Array { element: _, values } => match values.get(place) {
            None => Value::Ref(None),
            Some(value) => *value,
        },
    }
}

/// Another running frame.
fn set_running(frames: &mut Vec<Frame>, frame: Frame)
    ensures { frames.new.items ≡ with_running frames.old.items frame }
{
    let n = frames.len();
    if 0 < n {
        frames[n - 1] = frame;
    }
}

fn returned(frames: Vec<Frame>, frame: Frame) -> Vec<Frame>
    ensures { result.items ≡ with_running (callers frames.items) frame }
{
    let mut frames = frames;
    frames.truncate(frames.len().saturating_sub(1));
    set_running(&mut frames, frame);
    frames
}

fn called(frames: Vec<Frame>, frame: Frame, above: Frame) -> Result<Vec<Frame>, AllocError>
    ensures { IfOk result (λ after. after.items ≡ with_running frames.items frame ++ above ∷ []) }
{
    let mut frames = frames;
    set_running(&mut frames, frame);
    frames.push(above)?;
    Ok(frames)
}

fn claimed(frames: Vec<Frame>, above: Vec<Frame>) -> Result<Vec<Frame>, AllocError>
    ensures { IfOk result (λ after. after.items ≡ frames.items ++ above.items) }
{
    let mut frames = frames;
    let mut above = above;
    frames.append(&mut above)?;
    Ok(frames)
}

fn landed(frames: Vec<Frame>, kept: usize, frame: Frame) -> Result<Vec<Frame>, AllocError>
    ensures { IfOk result (λ after. after.items ≡ take kept frames.items ++ frame ∷ []) }
{
    let mut frames = frames;
    frames.truncate(kept);
    frames.push(frame)?;
    Ok(frames)
}

/// What a thread with these frames becomes. `AllocError` where memory runs out.
fn stepped(frames: Vec<Frame>, step: Step) -> Result<Thread, AllocError>
    ensures { IfOk result (λ thread. thread ≡ stepped frames.items step) }
{
    let state = match step {
        Step::Runs(frame) => {
            let mut frames = frames;
            set_running(&mut frames, frame);
            ThreadState::Live(frames)
        }
        Step::Calls(frame, above) => ThreadState::Live(called(frames, frame, above)?),
        Step::Returns(frame) => ThreadState::Live(returned(frames, frame)),
        Step::Claims(above) => ThreadState::Live(claimed(frames, above)?),
        Step::Lands(kept, frame) => ThreadState::Live(landed(frames, kept, frame)?),
        Step::Ends(by) => ThreadState::Ended(by),
    };
    Ok(Thread { state })
}

/// The frames of a thread, taken out of it.
fn frames_from(alloc: Global, thread: Thread) -> Vec<Frame>
    ensures { result.items ≡ frames_of (Some thread) }
{
    match thread.state {
        ThreadState::Live(frames) => frames,
        ThreadState::Ended(_) => Vec::new(alloc),
    }
}

/// What a field becomes where it holds another value.
fn set_value_in(field: &mut FieldView, value: Value)
    ensures { field.new ≡ record field.old { value = value } }
{
    field.value = value;
}

/// A field holds another value.
#[tactic(auto, using(crate::proofs::WorldLemmas::worlds))]
fn set_value(fields: &mut [FieldView], place: usize, value: Value)
    ensures { fields.new ≡ with_value_at fields.old place value }
{
    if place < fields.len() {
        set_value_in(&mut fields[place], value);
    }
}

fn set_element(values: &mut [Value], place: usize, value: Value)
    ensures { values.new ≡ slice_set values.old place value }
{
    if place < values.len() {
        values[place] = value;
    }
}

/// What an object becomes where it has another monitor.
fn set_monitor_in(object: &mut ObjectView, monitor: Monitor)
    ensures { object.new ≡ record object.old { monitor = monitor_in monitor } }
{
    object.owner = monitor.owner;
    object.entries = monitor.count;
}

/// What an object becomes where a thread of this number was started on it.
fn set_thread_in(object: &mut ObjectView, number: u32)
    ensures { object.new ≡ record object.old { thread = Some number } }
{
    object.thread = Some(number);
}

/// What becomes of the thread of a number. `AllocError` where memory runs out.
#[tactic(auto, using(crate::proofs::WorldLemmas::worlds))]
fn step_at(
    threads: &mut [Thread],
    alloc: Global,
    place: usize,
    step: Step,
) -> Result<(), AllocError>
    ensures { OnOk result (threads.new ≡ slice_set threads.old place
        (stepped (frames_of (slice_get threads.old place)) step)) }
{
    if place < threads.len() {
        let nobody = Thread {
            state: ThreadState::Ended(None),
        };
        let thread = mem::replace(&mut threads[place], nobody);
        let after = stepped(frames_from(alloc, thread), step)?;
        drop(mem::replace(&mut threads[place], after));
    }
    Ok(())
}

/// What an object becomes where a word of it is written.
fn set_word_in(object: &mut ObjectView, place: usize, value: Value)
    ensures { object.new ≡ record object.old { contents = with_word_in object.old.contents place value } }
{
    match &mut object.contents {
        ContentsView::Instance { class: _, fields } => {
            set_value(fields, place, value);
        }
        ContentsView::Array { element: _, values } => {
            set_element(values, place, value);
        }
    }
}

impl World {
    /// A world in which nothing was printed and no turn was made.
    pub fn new(
        alloc: Global,
        threads: Vec<Thread>,
        statics: Vec<FieldView>,
        states: Vec<ClassState>,
        objects: Vec<ObjectView>,
    ) -> World
        ensures { result ≡ new_world threads.items statics.items states.items objects.items }
    {
        World {
            threads,
            statics,
            states,
            output: Vec::new(alloc),
            objects,
            fault: None,
            rows: 0,
        }
    }

    /// A world with other threads, static fields and objects, and all else the same. `AllocError` where memory runs out.
    pub fn with_parts(
        &self,
        alloc: Global,
        threads: Vec<Thread>,
        statics: Vec<FieldView>,
        objects: Vec<ObjectView>,
    ) -> Result<World, AllocError>
        ensures { IfOk result (λ world. world ≡ record self.now {
          threads = threads.items;
          statics = record { fields = statics.items; states = self.now.statics.states };
          objects = objects.items;
        }) }
    {
        Ok(World {
            threads,
            statics,
            states: Vec::from_slice(alloc, &self.states)?,
            output: Vec::from_slice(alloc, &self.output)?,
            objects,
            fault: self.fault,
            rows: self.rows,
        })
    }

    /// The threads that were started, in order.
    pub fn threads(&self) -> &[Thread]
        ensures { result.now ≡ self.now.threads }
    {
        &self.threads
    }

    /// The frames of a thread, outermost first; none where it was never started or has ended.
    pub fn frames_at(&self, thread: u8) -> &[Frame]
        ensures { result.now ≡ frames_at self.now thread }
    {
        frames_of(self.threads.get(usize::from(thread)))
    }

    /// Whether a thread was started and lives.
    pub fn is_live(&self, thread: u32) -> bool
        ensures { result ≡ is_live self.now thread }
    {
        lives(self.threads.get(thread as usize))
    }

    /// The static fields, in class and field order.
    pub fn statics(&self) -> &[FieldView]
        ensures { result.now ≡ self.now.statics.fields }
    {
        &self.statics
    }

    /// The states of the classes, in order.
    pub fn states(&self) -> &[ClassState]
        ensures { result.now ≡ self.now.statics.states }
    {
        &self.states
    }

    /// The state of a class by its place; past the last one it counts as initialised.
    pub fn class_state(&self, class: usize) -> ClassState
        ensures { result ≡ slice_index_or self.now.statics.states class Done }
    {
        state_of(self.states(), class)
    }

    /// What a static field holds.
    pub fn slot_at(&self, slot: usize) -> Value
        ensures { result ≡ slot_at self.now slot }
    {
        value_at(&self.statics, slot)
    }

    /// The bytes that were printed.
    pub fn output(&self) -> &[u8]
        ensures { result.now ≡ self.now.output }
    {
        &self.output
    }

    /// The fault that stopped the world, with its thread.
    pub fn fault(&self) -> Option<(Fault, u8)>
        ensures { result ≡ self.now.fault }
    {
        self.fault
    }

    /// How many turns were made.
    pub fn rows(&self) -> u32
        ensures { result ≡ self.now.rows }
    {
        self.rows
    }

    /// The objects by their births; at 0 stands one that was never born.
    pub fn objects(&self) -> &[ObjectView]
        ensures { result.now ≡ self.now.objects }
    {
        &self.objects
    }

    /// The object of a birth.
    pub fn object_at(&self, birth: u32) -> Option<&ObjectView>
        ensures { option_copied result ≡ object_at self.now birth }
    {
        self.objects.get(birth as usize)
    }

    /// The class of the object of a birth; that of an array is its descriptor. `AllocError` where memory runs out.
    pub fn class_at(&self, alloc: Global, birth: u32) -> Result<Vec<u8>, AllocError>
        ensures { IfOk result (λ class. class.items ≡ class_at self.now birth) }
    {
        match self.object_at(birth) {
            None => Ok(Vec::new(alloc)),
            Some(object) => class_of(alloc, object),
        }
    }

    /// The fields of the object of a birth; none of an array.
    pub fn fields_at(&self, birth: u32) -> &[FieldView]
        ensures { result.now ≡ fields_in (contents_at self.now birth) }
    {
        match self.object_at(birth) {
            None => &[],
            Some(object) => match &object.contents {
                ContentsView::Instance { class: _, fields } => fields.as_slice(),
                ContentsView::Array { .. } => &[],
            },
        }
    }

    /// A word of the object of a birth.
    pub fn word_at(&self, birth: u32, place: usize) -> Value
        ensures { result ≡ word_of (contents_at self.now birth) place }
    {
        match self.object_at(birth) {
            None => Value::Ref(None),
            Some(object) => word_in(object, place),
        }
    }

    /// The monitor of a birth.
    pub fn monitor_of(&self, birth: u32) -> Monitor
        ensures { monitor_in result ≡ monitor_of self.now birth }
    {
        match self.object_at(birth) {
            None => Monitor {
                owner: None,
                count: 0,
            },
            Some(object) => Monitor {
                owner: object.owner,
                count: object.entries,
            },
        }
    }

    /// The number that the next new object gets. `AllocError` exactly where there is none, as every 32-bit number is
    /// taken.
    pub fn next_birth(&self) -> Result<u32, AllocError>
        ensures { MatchResult result (λ birth. birth ≡ next_birth self.now) (λ _. 2 ^ 32 ≤ next_birth self.now) }
    {
        match u32::try_from(self.objects.len()) {
            Ok(birth) => Ok(birth),
            Err(_) => Err(AllocError),
        }
    }

    // ---- how a world changes

    /// A static field holds another value.
    pub fn set_slot(&mut self, slot: usize, value: Value)
        ensures { self.new ≡ with_slot self.old slot value }
    {
        set_value(&mut self.statics, slot, value);
    }

    /// The classes are in other states.
    pub fn set_states(&mut self, states: Vec<ClassState>)
        ensures { self.new ≡ with_class_states self.old states.items }
    {
        self.states = states;
    }

    /// Bytes are printed. `AllocError` where memory runs out.
    pub fn print(&mut self, bytes: &[u8]) -> Result<(), AllocError>
        ensures { OnOk result (self.new ≡ with_output self.old (self.old.output ++ bytes.now)) }
    {
        self.output.extend_from_slice(bytes)
    }

    /// One object more, which gets the next birth. `AllocError` where memory runs out.
    pub fn add_object(&mut self, object: ObjectView) -> Result<(), AllocError>
        ensures { OnOk result (self.new ≡ with_new self.old object) }
    {
        self.objects.push(object)?;
        Ok(())
    }

    /// One thread more. `AllocError` where memory runs out.
    pub fn add_thread(&mut self, thread: Thread) -> Result<(), AllocError>
        ensures { OnOk result (self.new ≡ with_more self.old thread) }
    {
        self.threads.push(thread)?;
        Ok(())
    }

    /// A fault of a thread stops the world.
    pub fn set_fault(&mut self, thread: u8, fault: Fault)
        ensures { self.new ≡ with_fault self.old thread fault }
    {
        self.fault = Some((fault, thread));
    }

    /// One turn more. `AllocError` exactly where turns can't be counted further, at 2^32 - 1; then nothing changes.
    pub fn count(&mut self) -> Result<(), AllocError>
        ensures counted { OnOk result (self.new ≡ counted self.old) }
        ensures full { OnErr result (2 ^ 32 ≤ self.old.rows + 1) }
        ensures kept { OnErr result (self.new ≡ self.old) }
    {
        match self.rows.checked_add(1) {
            Some(rows) => {
                self.rows = rows;
                Ok(())
            }
            None => Err(AllocError),
        }
    }

    /// A word of the object of a birth holds another value.
    #[tactic(auto, using(crate::proofs::WorldLemmas::worlds))]
    pub fn set_word(&mut self, birth: u32, place: usize, value: Value)
        ensures { self.new ≡ with_word self.old birth place value }
    {
        let object = birth as usize;
        if object < self.objects.len() {
            set_word_in(&mut self.objects[object], place, value);
        }
    }

    /// The object of a birth has another monitor.
    #[tactic(auto, using(crate::proofs::WorldLemmas::worlds))]
    pub fn set_monitor(&mut self, birth: u32, monitor: Monitor)
        ensures { self.new ≡ with_monitor_of self.old birth (monitor_in monitor) }
    {
        let object = birth as usize;
        if object < self.objects.len() {
            set_monitor_in(&mut self.objects[object], monitor);
        }
    }

    /// The object of a birth knows its thread by the thread's number, that of the next one. `AllocError` only where there
    /// are more threads than 32 bits count; then nothing changes.
    #[tactic(auto, using(crate::proofs::WorldLemmas::worlds))]
    pub fn set_started(&mut self, birth: u32) -> Result<(), AllocError>
        ensures started { OnOk result (self.new ≡ started_on self.old birth) }
        ensures full { OnErr result (2 ^ 32 ≤ length self.old.threads) }
        ensures kept { OnErr result (self.new ≡ self.old) }
    {
        let object = birth as usize;
        if object < self.objects.len() {
            let Ok(number) = u32::try_from(self.threads.len()) else {
                return Err(AllocError);
            };
            set_thread_in(&mut self.objects[object], number);
        }
        Ok(())
    }

    /// What becomes of a thread. `AllocError` where memory runs out.
    pub fn step(&mut self, alloc: Global, thread: u8, step: Step) -> Result<(), AllocError>
        ensures { OnOk result (self.new ≡ with_thread self.old thread (stepped (frames_at self.old thread) step)) }
    {
        step_at(&mut self.threads, alloc, usize::from(thread), step)
    }
}
