//! The ideal run of a program: threads, statics, objects and output on a heap where nothing is ever freed, moved by
//! actors and choices. It is plain and slow, so that it can be laid beside the definitions in the crate `model`, family
//! by family: each function has the name of its definition.
#![tactic(auto)]

mod arithmetic;
mod arrays;
mod branches;
mod builtins;
mod callees;
mod calls;
mod claims;
mod completions;
mod constants;
mod copies;
mod effects;
mod fields;
pub mod frames;
mod ideal;
mod initialisation;
mod invokes;
mod locals;
mod monitors;
mod objects;
mod opening;
mod operands;
mod programs;
mod returns;
mod stacks;
mod statics;
mod successors;
mod switches;
mod table;
mod threads;
mod throws;
mod unwinding;
mod words;
pub mod worlds;

pub use copies::copy;
pub use effects::Choice;
pub use ideal::Ideal;
pub use successors::{Successor, Transitions};
