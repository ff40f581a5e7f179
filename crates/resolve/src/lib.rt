//! What names of classes, fields and methods stand for in a program: subclasses, resolution, selection and the fields
//! of objects (JVMS 5.4.3, 6.5).
//!
//! Each question is a function of its own, under the name that the definitions of the crate `model` give it.
#![tactic(auto)]

mod above;
pub mod builtins;
pub mod classes;
mod cycles;
pub mod found;
pub mod index;
mod interfaces;
pub mod keys;
mod layout;
mod members;
mod order;
pub mod parents;
pub mod reached;
pub mod resolution;
mod search;
mod sought;
mod special;
pub mod types;
