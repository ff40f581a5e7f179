//! Where the collector stands, and the colours that it gives (Dijkstra, Lamport, Martin, Scholten and Steffens,
//! CACM 21(11), 1978).

/// The colour of a cell that holds an object.
#[derive(Clone, Copy, Debug, PartialEq, Eq)]
pub enum Colour {
    White,
    Grey,
    Black,
}

/// What a cell of the heap holds: nothing, or the object of a birth in a colour.
#[derive(Clone, Copy, Debug, PartialEq, Eq)]
pub enum Cell {
    Free,
    Taken { birth: u32, colour: Colour },
}

/// Where the collector's cycle stands: at a static slot, at a thread's frame's entry (a frame's method monitor comes
/// after its last entry), at a word of the front grey cell, at a cell to be given back or whitened.
#[derive(Clone, Copy, PartialEq, Eq)]
pub enum Phase {
    Idle,
    Statics { slot: u32 },
    Frames { thread: u32, frame: u32, entry: u32 },
    Mark { word: u32 },
    Append { cell: u32 },
}
