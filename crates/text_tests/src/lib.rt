//! The tests of the crates that read, write and rewrite texts and class files, and of the model below them.
//!
//! The gate proves a crate with tests twice, once with them and once without. So the tests of all but the small crates
//! stand in crates of their own, where nothing but the tests themselves is proved again. They see of a crate what every
//! other crate sees of it. What a terminal shows (which code is reported for a text or a class file, and the bytes of
//! what is assembled) stands in no test here, but in examples/answers.txt and examples/sessions.txt, row by row.
#![tactic(auto)]

#[cfg(test)]
mod class_bytes;
#[cfg(test)]
mod classfile_tests;
#[cfg(test)]
mod disasm_tests;
#[cfg(test)]
mod jasmin_words_tests;
#[cfg(test)]
mod model_tests;
#[cfg(test)]
mod opcodes_tests;
#[cfg(test)]
mod pool_tests;
