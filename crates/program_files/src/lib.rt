//! Programs and journals in files: what is launched or replayed from them, how runs end, and what is written.
#![tactic(auto)]

pub mod files;
pub mod launching;
pub mod run_ends;
pub mod stored_runs;
pub mod whole_files;
