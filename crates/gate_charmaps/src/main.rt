//! Prints charmap files mapping by mapping, and reads every form in which a charmap can write a byte.
#![tactic(auto)]

mod constants;
mod shown;

use std::process::ExitCode;
use std::rt::{Env, Files};
use std::{env, fs, io};

fn show_files<R: Env + Files + Print + AllocGlobal>(rt: &R) -> io::Result<()> {
    let words: Vec<String> = env::args(rt)?.collect(rt.alloc())?;
    for file in words.iter().skip(1) {
        println!(rt; "{file}:")?;
        let text = fs::read(rt, file.as_str())?;
        shown::show(rt, &text)?;
    }
    Ok(())
}

fn main(rt: HostRuntime) -> io::Result<ExitCode> {
    show_files(&rt)?;
    constants::read_each(&rt)?;
    Ok(ExitCode::SUCCESS)
}
