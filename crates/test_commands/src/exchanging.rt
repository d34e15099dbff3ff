//! Scripts and their replies. A line is `REQUEST => REPLY`, a line of a script and a reply line. In a request `x{N}`
//! means the letter `x` N times. A line without a reply is one that scripts skip.
use crate::words::written_out;
use cv_commands::run_script;
use std::alloc::Global;
use std::random::RandomSource;
use std::sync::Wait;
use std::test::Fail;
use std::thread::Threads;

/// Runs the requests of a table as a script with `workers` workers, 1 to 16, and compares the replies. Fails with the
/// first line whose reply differs.
pub fn exchange<R: AllocGlobal + RandomSource + Threads + Wait + Sync>(
    rt: &R,
    workers: u32,
    table: &str,
) -> Result<(), Fail> {
    if workers < 1 || 16 < workers {
        return Err("no such number of workers".into());
    }
    let script = script_of(rt.alloc(), table)?;
    let lines = run_script(rt, rt.alloc(), script.as_bytes(), workers)?;
    compare(table, &lines)
}

/// The script with the requests of a table.
fn script_of(alloc: Global, table: &str) -> Result<String, Fail> {
    let mut script = String::new(alloc);
    for line in table.lines() {
        let (request, _) = line.split_once(" => ").unwrap_or((line, ""));
        let request = written_out(alloc, request)?;
        script.push_str(request.as_str())?;
        script.push('\n')?;
    }
    Ok(script)
}

/// Compares reply lines with those of a table. Fails with the first line whose reply differs.
fn compare(table: &str, lines: &[u8]) -> Result<(), Fail> {
    let mut replies = str::from_utf8(lines)?.split('\n');
    for line in table.lines() {
        if let Some((_, wanted)) = line.split_once(" => ")
            && replies.next() != Some(wanted)
        {
            return Err(Fail::new(line));
        }
    }
    if replies.next() == Some("") && replies.next().is_none() {
        Ok(())
    } else {
        Err("too many replies".into())
    }
}
