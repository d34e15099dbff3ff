//! A run of the command `show` on reply frames from standard input, whose output the gate compares.
#![tactic(auto)]

use cv_commands::{show, status};
use std::process::ExitCode;

fn main(rt: HostRuntime) -> ExitCode {
    match show(&rt) {
        Ok(()) => ExitCode::SUCCESS,
        Err(fault) => ExitCode::from(status(&fault)),
    }
}
