//! A run of the command `pipe` on request frames from standard input, whose output the gate compares.
#![tactic(auto)]

use cv_commands::{pipe, status};
use std::process::ExitCode;

fn main(rt: HostRuntime) -> ExitCode {
    match pipe(&rt, 1) {
        Ok(()) => ExitCode::SUCCESS,
        Err(fault) => ExitCode::from(status(&fault)),
    }
}
