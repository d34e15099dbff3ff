//! A run of the command `ask` on a script from standard input, whose output the gate compares.
#![tactic(auto)]

use cv_commands::{ask, status};
use std::process::ExitCode;

fn main(rt: HostRuntime) -> ExitCode {
    match ask(&rt) {
        Ok(()) => ExitCode::SUCCESS,
        Err(fault) => ExitCode::from(status(&fault)),
    }
}
