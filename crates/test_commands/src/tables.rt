//! Tables. A line is `GIVEN => WANTED`: what a call is given, and the expected result. The functions that `comes_to`
//! calls say how they read both. Empty lines and lines that begin with `//` are skipped.
use crate::calls::is_called;
use crate::checking::is_said;
use crate::command_lines::{is_named, says};
use crate::refused_uploads::is_answered;
use crate::scripts::{gives, is_refused_at};
use crate::streams::{Command, cut_comes_to, spoilt_comes_to};
use std::process::Abort;
use std::random::RandomSource;
use std::sync::Wait;
use std::test::Fail;
use std::thread::Threads;
use test_support::sides;

/// What is done with the left side of a line.
#[derive(Clone, Copy)]
pub enum Call {
    /// It is checked as a charmap, after this prefix.
    Check(&'static str),
    /// It is uploaded as a charmap.
    Upload,
    /// It is a script, and the right side is its frames.
    Ask,
    /// It is a script, and the right side is the line at which it is refused, or 0.
    Refuse,
    /// It is a command line, and the right side is its job and numbers.
    Options,
    /// It is a command line that is refused, and the right side is named in the error.
    Usage,
    /// A peer of this kind is called.
    Peer,
    /// A command is given a prefix of its stream.
    Cut(Command),
    /// A command is given a stream with a length that no frame can have.
    Spoilt(Command),
}

/// Makes a call for each line, and compares its result.
pub fn check_lines<R: Abort + AllocGlobal + RandomSource + Threads + Wait + Sync>(
    rt: &R,
    call: Call,
    table: &str,
) -> Result<(), Fail> {
    for line in table.lines() {
        if line.is_empty() || line.starts_with("//") {
            continue;
        }
        let (given, wanted) = sides(line, " => ")?;
        let comes = comes_to(rt, call, given, wanted)?;
        assert!(rt; comes, "{line}");
    }
    Ok(())
}

/// Whether a call has the expected result.
fn comes_to<R: Abort + AllocGlobal + RandomSource + Threads + Wait + Sync>(
    rt: &R,
    call: Call,
    given: &str,
    wanted: &str,
) -> Result<bool, Fail> {
    match call {
        Call::Check(front) => is_said(rt.alloc(), front, given, wanted),
        Call::Upload => is_answered(rt, given, wanted),
        Call::Ask => gives(rt.alloc(), given, wanted),
        Call::Refuse => is_refused_at(rt.alloc(), given, wanted),
        Call::Options => says(rt.alloc(), given, wanted),
        Call::Usage => is_named(rt.alloc(), given, wanted),
        Call::Peer => is_called(rt.alloc(), given, wanted),
        Call::Cut(command) => cut_comes_to(rt, command, given, wanted),
        Call::Spoilt(command) => spoilt_comes_to(rt, command, given, wanted),
    }
}
