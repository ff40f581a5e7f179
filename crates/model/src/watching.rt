//! Who is told how far long work is.

/// Is told, as long work goes on, how much of it is done and how much is left: so many rows of a journal, or lines of a
/// text. What it does with that changes no answer.
pub trait Watch {
    /// So many are done, and so many are left.
    fn reached(&mut self, done: usize, left: usize);
}

/// For work that nobody watches.
#[derive(Clone, Copy, Debug, Drop)]
pub struct Unwatched;

impl Watch for Unwatched {
    fn reached(&mut self, _done: usize, _left: usize) {}
}
