//! Which lists of listings are programs, and which rule the others break.
//!
//! Each rule is a function of its own, under the name that the definitions of the crate `model` give it.
#![tactic(auto)]

pub mod acceptance;
pub mod errors;
mod exception_rows;
mod limits;
mod members;
mod pcs;
mod references;
mod repeats;
mod rules;
mod superclasses;
mod well_named;

pub use acceptance::accept;
pub use errors::LoadError;
