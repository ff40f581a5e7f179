//! What paths from the roots lead to, found by marking all of it: for those who look at a machine from outside.
ghost use Rattle.std.specs.Prelude.{◌≡◌, ◌≤◌, ◌<◌, ℕ, length, slice_get, IfOk, OnOk, Some};
ghost use Rattle.std.specs.List.{flat_map};
ghost use Rattle.model.specs.Worlds.{World, frames_at};
ghost use Rattle.model.specs.Collector.Places.{slots_of, words_of};
ghost use Rattle.model.specs.Collector.Reached.{is_reached, roots_of, roots_of_frame, roots_of_thread};
ghost use Rattle.collector.specs.Reaching.{all_noted, marked, noted, roots_at, spread, unmarked};

use crate::references::References;
use std::alloc::{AllocError, Global};
use std::marker::Model;

/// For each reference whether it was reached, and those that were, in the order in which they were found. Who walks a
/// heap of its own notes roots and words in the order of `marked`; what is listed then is a walk (`walked`).
#[derive(Drop)]
pub struct Reaching {
    marks: Vec<bool>,
    list: Vec<u32>,
}

impl Model for Reaching {
    ghost use Rattle.collector.specs.Reaching.{Marking};

    ghost Value = { Marking };

    ghost view = { λ a. record { marks = a.marks.items; list = a.list.items } };
}

impl Reaching {
    /// So many references, none of which was reached. `AllocError` where memory runs out, here and below.
    pub fn new(alloc: Global, count: u32) -> Result<Reaching, AllocError>
        ensures { IfOk result (λ reaching. reaching ≡ unmarked count) }
    {
        Ok(Reaching {
            marks: vec![in alloc; false; count as usize]?,
            list: Vec::new(alloc),
        })
    }

    /// Notes that a reference was reached, if there is one and it wasn't before.
    pub fn note(&mut self, reference: Option<u32>) -> Result<(), AllocError>
        ensures { OnOk result (self.new ≡ noted self.old reference) }
    {
        let Some(reference) = reference else {
            return Ok(());
        };
        if let Some(false) = self.marks.get(reference as usize) {
            self.marks[reference as usize] = true;
            self.list.push(reference)?;
        }
        Ok(())
    }

    /// The reference that was the nth to be noted, if there was one.
    pub fn listed(&self, n: u32) -> Option<u32>
        ensures { result ≡ slice_get self.now.list n }
    {
        self.list.get(n as usize).copied()
    }

    /// All that was noted, in order.
    pub fn list(&self) -> &[u32]
        ensures { result.now ≡ self.now.list }
    {
        &self.list
    }

    /// The static slots are reached.
    fn note_slots<R: References>(&mut self, references: &R) -> Result<(), AllocError>
        ensures { OnOk result (self.new ≡ all_noted self.old (slots_of (R.world references.now))) }
    {
        for slot in 0..references.slots() {
            self.note(references.slot(slot))?;
        }
        Ok(())
    }

    /// So is what stands in a frame,
    fn note_frame<R: References>(
        &mut self,
        references: &R,
        thread: u32,
        frame: u32,
    ) -> Result<(), AllocError>
        ensures { OnOk result (self.new ≡ all_noted self.old
            (roots_at (frames_at (R.world references.now) thread) frame)) }
    {
        self.note(references.method_monitor(thread, frame))?;
        for entry in 0..references.entries(thread, frame) {
            self.note(references.entry(thread, frame, entry))?;
        }
        Ok(())
    }

    /// and in each frame of a thread,
    fn note_frames<R: References>(&mut self, references: &R, thread: u32) -> Result<(), AllocError>
        ensures { OnOk result (self.new ≡ all_noted self.old
            (flat_map roots_of_frame (frames_at (R.world references.now) thread))) }
    {
        for frame in 0..references.frames(thread) {
            self.note_frame(references, thread, frame)?;
        }
        Ok(())
    }

    /// and in those of each thread.
    fn note_threads<R: References>(&mut self, references: &R) -> Result<(), AllocError>
        ensures { OnOk result (self.new ≡ all_noted self.old
            (flat_map roots_of_thread (R.world references.now).threads)) }
    {
        for thread in 0..references.threads() {
            self.note_frames(references, thread)?;
        }
        Ok(())
    }

    /// All roots are reached: births 1 and 2, the static slots, and what stands in frames.
    fn note_roots<R: References>(&mut self, references: &R) -> Result<(), AllocError>
        ensures { OnOk result (self.new ≡ all_noted self.old (roots_of (R.world references.now))) }
    {
        self.note(Some(1))?;
        self.note(Some(2))?;
        self.note_slots(references)?;
        self.note_threads(references)
    }

    /// The words of the object of a reference are reached.
    fn note_words<R: References>(
        &mut self,
        references: &R,
        reference: u32,
    ) -> Result<(), AllocError>
        ensures { OnOk result (self.new ≡ all_noted self.old (words_of (R.world references.now).objects reference)) }
    {
        for word in 0..references.words(reference) {
            self.note(references.word(reference, word))?;
        }
        Ok(())
    }

    /// The words of all that was noted are reached, of these the words again, and so on, over so many objects at most.
    fn spread<R: References>(&mut self, references: &R, count: u32) -> Result<(), AllocError>
        ensures { OnOk result (self.new ≡ spread (R.world references.now) count 0 self.old) }
    {
        for n in 0..count {
            let Some(reference) = self.listed(n) else {
                return Ok(());
            };
            self.note_words(references, reference)?;
        }
        Ok(())
    }
}

/// For each reference below a number whether a path from the roots leads to it, where all objects have references below
/// that number. `AllocError` where memory runs out: it takes a mark for each reference, and a number for each that is
/// reached. Each word of these is looked at once.
pub fn reached<R: References>(
    alloc: Global,
    references: &R,
    count: u32,
) -> Result<Vec<bool>, AllocError>
    requires { length (R.world references.now).objects ≤ count }
    ensures { let w : World = R.world references.now in
        IfOk result (λ marks. (r : ℕ) → r < count → slice_get marks.items r ≡ Some (is_reached w r)) }
{
    let reaching = marking(alloc, references, count)?;
    Ok(reaching.marks)
}

/// The marking of all that paths lead to.
fn marking<R: References>(alloc: Global, references: &R, count: u32) -> Result<Reaching, AllocError>
    ensures { IfOk result (λ reaching. reaching ≡ marked (R.world references.now) count) }
{
    let mut reaching = Reaching::new(alloc, count)?;
    reaching.note_roots(references)?;
    reaching.spread(references, count)?;
    Ok(reaching)
}
