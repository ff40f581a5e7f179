//! Class files (JVMS 4): read, tested, written and listed.
#![tactic(auto)]

mod attributes;
mod codes;
mod error;
mod exception_rows;
mod fields;
mod files;
pub mod flags;
mod heads;
mod instructions;
mod listed_code;
mod listed_members;
mod listings;
mod made;
mod mapping;
mod methods;
mod opening;
mod operands;
mod sound_fields;
mod sound_methods;

pub use codes::CodeEntry;
pub use error::ClassError;
pub use exception_rows::CodeRow;
pub use files::{ClassFile, again, one_class_file, read, write};
pub use heads::{ClassHead, one_head};
pub use instructions::Instructions;
pub use listed_code::{copied_lookup, copied_table};
pub use listings::listing;
pub use made::Body;
pub use methods::MethodEntry;
