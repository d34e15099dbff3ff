//! A run of the command `checkmap` on a charmap from standard input, whose output the gate compares.
#![tactic(auto)]

use cv_commands::{checkmap, status};
use std::process::ExitCode;

fn main(rt: HostRuntime) -> ExitCode {
    match checkmap(&rt, "-") {
        Ok(code) => ExitCode::from(code),
        Err(fault) => ExitCode::from(status(&fault)),
    }
}
