//! The language in which a page talks with a machine: what its requests say, and the text of each answer that the
//! debugger doesn't have.
#![tactic(auto)]

pub mod fields;
pub mod journal_rows;
pub mod lists;
pub mod methods;
pub mod requests;
pub mod rounds;
pub mod settings;
pub mod states;
pub mod threads;
pub mod whole_texts;
