//! The lines and the words of a Jasmin text, as slices of the text.
//!
//! The text is ASCII. A newline ends a line, the last may lack it, and a carriage return before a newline is dropped.
//! Words stand between spaces and tabs, and a semicolon at a word's begin starts a comment up to the line's end.
#![tactic(auto)]

pub mod lines;
pub mod statements;
pub mod words;
