//! The calls that the commands make.
ghost use Rattle.std.specs.Prelude.{◌≤◌};

use crate::again::{Trouble, ample, has_refusal, say_lacking};
use crate::texts::{FAULTY, WHOLE};
use cv_commands::{ask_script, check_text, run_script, show_replies};
use std::alloc::Global;
use std::random::RandomSource;
use std::sync::Wait;
use std::thread::Threads;

/// A script with each command.
const SCRIPT: &[u8] = b"7 1 part <code_set_name> TOY|CHARMAP|<question-mark> \\x3F|\n\
7 2 put <U0100> \\x80|END CHARMAP\n\
7 3 open UTF-8 TOY\n\
8 1 open US-ASCII UTF-8 strict\n\
7 4 conv 0 9 803f\n\
8 2 conv 0 9 41c3a9\n\
8 3 reset 0 9\n\
7 5 close 0\n\
7 6 drop toy\n\
7 7 raw 9 -\n\
7 8 bye\n\
8 4 bye\n";

/// Returns the reply lines of the script, which a new pool of `workers` workers serves. If an allocation fails, for the
/// whole script or for a request, the whole script is served again.
pub fn tell_run<R: Eprint + RandomSource + Threads + Wait + Sync>(
    rt: &R,
    alloc: Global,
    workers: u32,
) -> Result<Vec<u8>, Trouble>
    requires { (1 ≤ workers) × (workers ≤ 16) }
{
    let lines = again!(rt, "run_script", run_script(rt, alloc, SCRIPT, workers))?;
    if !has_refusal(&lines) {
        return Ok(lines);
    }
    say_lacking(rt, "run_script, of a request");
    ample(run_script(rt, alloc, SCRIPT, workers))
}

/// Returns the frames of the script.
pub fn tell_ask<R: Eprint>(rt: &R, alloc: Global) -> Result<Vec<u8>, Trouble> {
    let frames = again!(rt, "ask_script", ask_script(alloc, SCRIPT))?;
    let told = format!(in alloc; "{}\n", frames.escape_ascii())?;
    Ok(told.into_bytes())
}

/// Returns the lines of two replies: the reply to an OPEN, and one with a status that has no name.
pub fn tell_show<R: Eprint>(rt: &R, alloc: Global) -> Result<Vec<u8>, Trouble> {
    let replies = b"\x00\x00\x00\x0d\x00\x00\x00\x07\x00\x00\x00\x01\x00\x00\x00\x00\x00\
\x00\x00\x00\x09\x00\x00\x00\x07\x00\x00\x00\x02\xff";
    again!(rt, "show_replies", show_replies(alloc, replies))
}

/// Returns what `check_text` reports for a charmap, and for a text that is none.
pub fn tell_check<R: Eprint>(rt: &R, alloc: Global) -> Result<Vec<u8>, Trouble> {
    let mut lines = again!(rt, "check_text", check_text(alloc, WHOLE))?.line;
    let faulty = again!(rt, "check_text", check_text(alloc, FAULTY))?;
    lines.extend_from_slice(&faulty.line)?;
    Ok(lines)
}
