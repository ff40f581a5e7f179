//! The constant pool of a class file (JVMS 4.4): its entries as bytes, and what they may name.
#![tactic(auto)]

mod builder;
mod entries;
mod error;
pub mod fields;
mod kinds;
mod naming;
mod pools;
mod references;

pub use builder::{AddError, PoolBuilder};
pub use error::ReadError;
pub use pools::Pool;
pub use references::MemberKind;
