//! The account of the machine's heap in code: which cell holds which birth in which colour, which cells are free, what
//! is grey, and where the collector stands (Dijkstra, Lamport, Martin, Scholten and Steffens, CACM 21(11), 1978).
//!
//! Each call is a step that the machine on cells makes (`TurnsOnCells` in `join`), or a part of one.
#![tactic(auto)]

pub mod accounts;
mod free_lists;
mod queues;
