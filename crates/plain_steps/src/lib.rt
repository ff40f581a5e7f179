//! The instructions that change the running frame alone, by families (JVMS 6.5).
//!
//! A step takes a thread's frames, of which there is one at least, and the pc after the instruction. It answers the
//! references that it wrote, or why the instruction can't be carried out; the frames are then as they were. No step
//! takes memory. With f for `running_frame frames.old`:
//!
//! | call | what it ensures |
//! |---|---|
//! | `constant(frames, next, c)` | `reported_with result frames.new ≡ moved_with frames.old (constant next c f)` |
//! | `table_switched(frames, table)`, `lookup_switched(frames, lookup)` | the same with `table_switched table f`, `lookup_switched lookup f` |
//! | `plain_step(frames, step)` | the same with `plain_move step.next step.operation f`, where that is `Some` |
//! | `hot_step::<W>(frames, step)` | where it answers `Some(written)`, what `plain_step` does, and `written` is the reference written, if any; where it answers `None`, nothing changed |
//!
//! `hot_step` is for a loop of turns over frames that are a variable of the loop, and leaves out what is rare. Each loop
//! has a copy of its own, by a name `W`, so that clang inlines it there.
//!
//! `proofs/TableLemmas.antt` says what such an equation comes to in the instruction table: by `family_moves` an
//! instruction's plain operation moves the frame as its family does; `by_family-plain`, and then `completes-done` or
//! `completes-abrupt`, give the table's completion.
//!
//! `proofs/RegisterRuns.antt` says that steps of register code, carried out on the units of a frame and on memory, are
//! steps of the frame's method: a plain one by `proofs/StepLemmas.antt`, one on memory by a law that who has the memory
//! owes (`Lifts` in `specs/RegisterMoves.antt`). For its proof `proofs/MemorySteps.antt` tells which operations these
//! are, and `proofs/MemoryWindows.antt` what they do to the units of a frame.
#![tactic(auto)]

mod branches;
mod constants;
mod hot_steps;
mod locals;
mod number_steps;
mod stacks;
mod steps;
mod switches;
mod written;

pub use constants::constant;
pub use hot_steps::hot_step;
pub use stacks::{Group, Size};
pub use steps::plain_step;
pub use switches::{lookup_switched, table_switched};
pub use written::Written;
