//! What is told of a frame beside its locals and the values on its stack.

use model::places::MethodPlace;
use model::turns::Mark;

/// A frame's method and pc, how many of the `room` units of its stack are `taken`, the cell whose monitor is given back
/// when the frame is left, and what class initialisation wants of it.
#[derive(Clone, Copy)]
pub struct FrameHead {
    pub method: MethodPlace,
    pub pc: u16,
    pub taken: usize,
    pub room: usize,
    pub monitor: Option<u32>,
    pub mark: Mark,
}
