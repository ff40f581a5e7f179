//! Makes the class file of a text's tree.
#![tactic(auto)]

mod assembling;
mod checks;
mod counts;
mod error;
mod instructions;
mod labels;
mod ldc_numbers;
mod listings;
mod numbered_class;
mod numbered_code;
mod pool_numbers;
mod sizes;

pub use assembling::{Assembled, assemble};
pub use error::AsmError;
pub use listings::listing;
