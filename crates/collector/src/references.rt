//! What the collector looks at beside the account, one place at a time.
ghost use Rattle.std.specs.Prelude.{◌≡◌, length};
ghost use Rattle.model.specs.Worlds.{World, frames_at};
ghost use Rattle.model.specs.Collector.Places.{entries_at, root_at, slots_of, word_at, words_of};
ghost use Rattle.model.specs.Collector.Places.Place.{FrameEntry, MethodMonitor, Slot};

/// The places of a machine at which references stand: static slots, frames' entries and method monitors, and the words
/// of objects. A reference is the number of a cell and one more. Each look takes constant time and no memory; where
/// there is no such place, there is no reference.
pub trait References {
    /// the machine's world, on cells
    ghost world: { Self → World };

    /// How many static slots there are.
    fn slots(&self) -> u32
        ensures { result ≡ length (slots_of (world self.now)) };

    /// The reference in a static slot.
    fn slot(&self, slot: u32) -> Option<u32>
        ensures { result ≡ root_at (world self.now) (Slot slot) };

    /// How many threads were started.
    fn threads(&self) -> u32
        ensures { result ≡ length (world self.now).threads };

    /// How many frames a thread has.
    fn frames(&self, thread: u32) -> u32
        ensures { result ≡ length (frames_at (world self.now) thread) };

    /// How many entries a frame has, frames being counted from the outermost: its locals, and the values on its stack.
    fn entries(&self, thread: u32, frame: u32) -> u32
        ensures { result ≡ length (entries_at (frames_at (world self.now) thread) frame) };

    /// The reference in an entry of a frame.
    fn entry(&self, thread: u32, frame: u32, entry: u32) -> Option<u32>
        ensures { result ≡ root_at (world self.now) (FrameEntry thread frame entry) };

    /// The reference to the object whose monitor is given back when a frame is left.
    fn method_monitor(&self, thread: u32, frame: u32) -> Option<u32>
        ensures { result ≡ root_at (world self.now) (MethodMonitor thread frame) };

    /// How many words the object of a reference has.
    fn words(&self, reference: u32) -> u32
        ensures { result ≡ length (words_of (world self.now).objects reference) };

    /// The reference in a word of the object of a reference.
    fn word(&self, reference: u32, word: u32) -> Option<u32>
        ensures { result ≡ word_at (world self.now) reference word };
}
