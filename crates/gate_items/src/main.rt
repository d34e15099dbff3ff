//! Conversions between every two built-in encodings, and to some of them under the strict policy, compared with
//! conversions item by item. The texts end near the bounds of every loop that takes several characters at once.
#![tactic(auto)]

mod calls;
mod chain;
mod long_trials;
mod pairs;
mod scripts;
mod shapes;
mod sources;
mod stops;
mod targets;
mod trials;

use pairs::{Unfinished, compare_all};
use std::io;
use std::process::ExitCode;

fn compare<R: Print + AllocGlobal>(rt: &R) -> io::Result<ExitCode> {
    match compare_all(rt.alloc()) {
        Ok(count) => {
            println!(rt;
                "10 x 10 encodings, 10 x 3 under the strict policy: {count} conversions are as item by item"
            )?;
            Ok(ExitCode::SUCCESS)
        }
        Err(Unfinished::Differs(report)) => {
            println!(rt; "{report}")?;
            Ok(ExitCode::FAILURE)
        }
        Err(Unfinished::Memory(error)) => Err(error.into()),
    }
}

fn main(rt: HostRuntime) -> io::Result<ExitCode> {
    compare(&rt)
}
