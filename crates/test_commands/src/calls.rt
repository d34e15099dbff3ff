//! `call_over` with a peer that sends its replies in pieces, closes, fails, or takes only a part of the requests.
use crate::tables::{Call, check_lines};
use cv_commands::call_over;
use cv_loop::{FromReader, ToWriter};
use std::alloc::Global;
use std::io::Cursor;
use std::test::Fail;
use test_support::{Slow, sides};

const SCRIPT: &[u8] = b"7 1 open US-ASCII ISO-8859-1\n7 2 conv 0 8 41e942\n7 3 close 0\n";

/// The requests of the script, which end at 33, 57 and 74 bytes.
const REQUESTS: &[u8] = b"\0\0\0\x1d\0\0\0\x07\0\0\0\x01\x03\x08US-ASCII\x0aISO-8859-1\
    \0\0\0\x14\0\0\0\x07\0\0\0\x02\x04\0\0\0\0\0\0\0\x08\x41\xe9\x42\
    \0\0\0\x0d\0\0\0\x07\0\0\0\x03\x06\0\0\0\0";

/// Their replies, which end at 17, 41 and 54 bytes.
const REPLIES: &[u8] = b"\0\0\0\x0d\0\0\0\x07\0\0\0\x01\0\0\0\0\0\
    \0\0\0\x14\0\0\0\x07\0\0\0\x02\0\0\0\0\0\0\0\0\x01\x41\x3f\x42\
    \0\0\0\x09\0\0\0\x07\0\0\0\x03\0";

/// What is in `lines` before the call, and the lines of the replies after it. They end at 7, 23, 53 and 62 bytes.
const LINES: &[u8] = b"before\n7 1 OK 00000000\n7 2 OK 0000000000000001413f42\n7 3 OK -\n";

/// A line is `NAME: REPLIES STEP ENDING ROOM => SENT SHOWN RESULT`. The peer sends the first REPLIES bytes of the
/// replies, or a bad length for `bad`, in reads of at most STEP bytes. Then it closes or fails. It takes ROOM bytes.
/// SENT bytes of the requests are sent, SHOWN bytes are in the lines, and the call returns RESULT.
const CALLS: &str = "
a reply a read: 54 24 closes 100 => 74 62 Ok(())
all replies in one read: 54 100 closes 100 => 74 62 Ok(())
one byte a read: 54 1 closes 100 => 74 62 Ok(())
no byte: 0 24 closes 100 => 33 7 Err(TruncatedReply)
three bytes: 3 24 closes 100 => 33 7 Err(TruncatedReply)
one reply: 17 24 closes 100 => 57 23 Err(TruncatedReply)
a reset: 41 24 fails 100 => 74 53 Err(Serve(Read))
a bad length: bad 24 closes 100 => 33 7 Err(BadReplyLength(8))
takes no byte: 54 24 closes 0 => 0 7 Err(Serve(Write { written: 0 }))
takes a part: 54 24 closes 40 => 40 23 Err(Serve(Write { written: 40 }))
takes two: 54 24 closes 57 => 57 53 Err(Serve(Write { written: 57 }))
";

/// The prefix of the replies that has as many bytes as a word says, or a bad length.
fn replies_of(word: &str) -> Result<&'static [u8], Fail> {
    if word == "bad" {
        return Ok(b"\0\0\0\x08");
    }
    let size = word.parse::<usize>()?;
    Ok(REPLIES.get(..size).ok_or("more than there are")?)
}

/// The peer that the words of a line describe, and how many bytes it takes.
fn peer_of(words: &str) -> Result<(Slow<'static>, usize), Fail> {
    let (replies, words) = sides(words, " ")?;
    let (step, words) = sides(words, " ")?;
    let (ending, room) = sides(words, " ")?;
    let bytes = replies_of(replies)?;
    let step = step.parse::<usize>()?;
    let room = room.parse::<usize>()?;
    let fails = ending == "fails";
    Ok((
        Slow {
            bytes,
            more: b"",
            step,
            fails,
        },
        room,
    ))
}

/// Whether a call of a peer ends as these words say.
fn ends_so(alloc: Global, script: &[u8], peer: &str, words: &str) -> Result<bool, Fail> {
    let (peer, room) = peer_of(peer)?;
    let room = vec![in alloc; 0u8; room]?;
    let mut lines = Vec::from_slice(alloc, b"before\n")?;
    let mut source = FromReader::new(peer);
    let mut sink = ToWriter::new(Cursor::new(room.into_boxed_slice()));
    let result = call_over(alloc, script, &mut source, &mut sink, &mut lines);
    let taken = sink.into_inner();
    let sent = taken.position() as usize;
    let told = format!(in alloc; "{sent} {} {result:?}", lines.len())?;
    let requests = taken.get_ref().get(..sent);
    Ok(told.as_str() == words && requests == REQUESTS.get(..sent) && LINES.starts_with(&lines))
}

/// Returns whether the call of a line ends as these words say.
pub fn is_called(alloc: Global, call: &str, words: &str) -> Result<bool, Fail> {
    let (_, peer) = sides(call, ": ")?;
    ends_so(alloc, SCRIPT, peer, words)
}

#[test]
fn calls_end_as_they_should(rt: HostRuntime) -> Result<(), Fail> {
    check_lines(&rt, Call::Peer, CALLS)
}

#[test]
fn a_script_at_fault_touches_nothing(rt: HostRuntime) -> Result<(), Fail> {
    let script = b"7 1 close 0\n7 2 shut 0\n";
    let ends = ends_so(rt.alloc(), script, "54 24 closes 100", "0 7 Err(Line(2))")?;
    assert!(rt; ends);
    Ok(())
}
