//! `jvm`: assembles Jasmin texts, writes class files as texts, and runs both on a small Java virtual machine.
#![tactic(auto)]

mod performing;
mod prompting;
mod telling;

use std::process::ExitCode;

fn main(rt: HostRuntime) -> ExitCode {
    ExitCode::from(performing::performed(&rt, &rt))
}
