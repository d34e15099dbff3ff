//! `iconvd`: a character set conversion service for many callers.
#![tactic(auto)]

use std::process::ExitCode;

fn main(rt: HostRuntime) -> ExitCode {
    ExitCode::from(cv_cli::program(&rt))
}
