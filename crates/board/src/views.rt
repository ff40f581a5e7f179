//! What a seat knows, as plain data for the proofs. No value of these types is made.

use std::collections::LinkedList;

/// What a seat knows of one worker: a number that the worker's count has reached, and the count itself where it is the
/// seat's to change.
pub struct Mark {
    pub seen: u64,
    pub own: Option<u64>,
}

/// What a seat knows: the worker whose seat it is, a mark for each worker from worker 0 on, and whether it has seen
/// the stop. `guest` is the worker for whose seat it stands besides, while two seats meet.
pub struct View {
    pub worker: u64,
    pub guest: Option<u64>,
    pub marks: LinkedList<Mark>,
    pub stop: bool,
}
