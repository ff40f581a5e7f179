//! Arithmetic on the values of the machine: ints of 32 bits and longs of 64 (JVMS 2.3, 2.11.3, 2.11.4). Each such
//! function takes no memory, and answers what the definition of arithmetic says; so do those of where a switch leads.
//!
//! `slots` has the flat form in which frames, objects and static fields keep values, and `words` arrays of them: a
//! contract sees `Words` as a `List Value`, and no call but `new` and `values` takes memory.
#![tactic(auto)]

mod comparisons;
mod conversions;
mod ints;
mod longs;
mod references;
pub mod slots;
mod switches;
pub mod words;

pub use comparisons::{compare_ints, compare_longs};
pub use conversions::{int_to_long, long_to_int, truncate};
pub use ints::{iop, negate_int};
pub use longs::{lop, negate_long};
pub use model::values::{IntType, Kind, Value};
pub use references::compare_references;
pub use switches::{lookup_target, table_target};
pub use words::Words;
