//! Uploads that are served by a world with a compiler.
use cv_cache::Plain;
use cv_frame::ops::{BYE, PART, PUT};
use cv_frame::{Reply, Request};
use cv_loop::{Engine, WorldWith};
use std::alloc::Global;
use std::process::Abort;
use std::test::Fail;
use test_support::{first_word, request, sides};

/// Requests, and the statuses of their replies. A `part` begins a charmap text with its name, and every `put` ends one
/// with the same lines. An accepted charmap uses up the part, and a refused one leaves it.
const UPLOADS: &str = "
1 part <code_set_name> A = OK
1 put = OK
1 put = BADMAP
1 part <code_set_name> B = OK
2 put = BADMAP
1 put = OK
1 part <code_set_name> a = OK
1 put = EXISTS
1 put = EXISTS
1 bye = OK
1 put = BADMAP
";

/// The lines of a charmap text after its name.
const REST: &[u8] = b"\nCHARMAP\n<question-mark> \\x3F\nEND CHARMAP\n";

#[test]
fn a_text_is_put_together_just_before_its_step(rt: HostRuntime) -> Result<(), Fail> {
    let requests = requests(rt.alloc())?;
    let mut engine = WorldWith::new(rt.alloc(), Plain);
    let replies = engine.batch(&rt, rt.alloc(), &requests)?;
    compare(&rt, &replies);
    Ok(())
}

/// The requests of all lines.
fn requests(alloc: Global) -> Result<Vec<Request<'static>>, Fail> {
    let mut requests = Vec::new(alloc);
    for line in UPLOADS.trim().lines() {
        requests.push(request_of(line)?)?;
    }
    Ok(requests)
}

/// The request of a line.
fn request_of(line: &str) -> Result<Request<'_>, Fail> {
    let (asked, _) = sides(line, " = ")?;
    let (caller, asked) = sides(asked, " ")?;
    let caller = caller.parse::<u32>()?;
    let (command, text) = first_word(asked);
    let op = op_of(command)?;
    let body = if op == PUT { REST } else { text.as_bytes() };
    Ok(request(caller, 0, op, body))
}

/// The op of a command.
fn op_of(command: &str) -> Result<u8, Fail> {
    match command {
        "part" => Ok(PART),
        "put" => Ok(PUT),
        "bye" => Ok(BYE),
        _ => Err("no such request".into()),
    }
}

/// Compares the statuses of replies with those of the lines.
fn compare<R: Abort>(rt: &R, replies: &[Reply]) {
    assert_eq!(rt; replies.len(), 11);
    let mut lines = UPLOADS.trim().lines();
    for reply in replies {
        let line = lines.next().unwrap_or("");
        assert!(rt; has_status(reply, line), "{line}");
    }
}

/// Whether a reply has the status of a line.
fn has_status(reply: &Reply, line: &str) -> bool {
    match line.rsplit_once(' ') {
        Some((_, status)) => status == reply.status.name(),
        None => false,
    }
}
