//! Frames of requests and replies, and the bodies of requests.
use crate::words::policy_of;
use cv_base::Piece;
use cv_frame::{
    Ask, Bytes, Frame, OpenBody, Reply, ReplyFrame, Status, next_reply, next_request, read_conv,
    read_name, read_number, read_open, write_reply, write_request,
};
use std::alloc::{AllocError, Global};
use std::test::Fail;
use test_support::{bytes_of, first_word, sides};

/// Requests as scripts write them, and their frames: the length, the caller, the tag, the op and the body.
const REQUESTS: &str = r#"
7 1 open US-ASCII ISO-8859-1 = 0000001d 00000007 00000001 03 08"US-ASCII" 0a"ISO-8859-1"
1 1 open US-ASCII UTF-8 strict = 00000019 00000001 00000001 03 08"US-ASCII" 05"UTF-8" 01
7 2 conv 0 8 "A"e9"B" = 00000014 00000007 00000002 04 00000000 00000008 "A"e9"B"
7 2 put CHARMAP = 00000010 00000007 00000002 01 "CHARMAP"
7 2 put = 00000009 00000007 00000002 01
7 2 drop TOY = 0000000d 00000007 00000002 02 03"TOY"
7 2 drop = 0000000a 00000007 00000002 02 00
7 2 bye = 00000009 00000007 00000002 07
7 2 part q = 0000000a 00000007 00000002 08 "q"
7 2 part = 00000009 00000007 00000002 08
"#;

#[test]
fn requests_are_written(rt: HostRuntime) -> Result<(), Fail> {
    for line in REQUESTS.trim().lines() {
        assert!(rt; is_written(rt.alloc(), line)?, "{line}");
    }
    Ok(())
}

/// Whether the request of a line is written as its frame.
fn is_written(alloc: Global, line: &str) -> Result<bool, Fail> {
    let (request, frame) = sides(line, " = ")?;
    let frame = bytes_of(alloc, frame)?;
    let mut out = Vec::new(alloc);
    write(alloc, &mut out, request)?;
    Ok(out.as_slice() == frame.as_slice())
}

/// Writes the frame of a request.
fn write(alloc: Global, out: &mut Vec<u8>, request: &str) -> Result<(), Fail> {
    let (caller, rest) = sides(request, " ")?;
    let (tag, rest) = sides(rest, " ")?;
    let caller = caller.parse::<u32>()?;
    let tag = tag.parse::<u32>()?;
    let (command, rest) = first_word(rest);
    match command {
        "open" => write_open(out, caller, tag, rest),
        "conv" => write_conv(alloc, out, caller, tag, rest),
        _ => write_text(out, caller, tag, command, rest),
    }
}

/// `open TARGET SOURCE [strict]`
fn write_open(out: &mut Vec<u8>, caller: u32, tag: u32, rest: &str) -> Result<(), Fail> {
    let (to, rest) = sides(rest, " ")?;
    let (from, policy) = first_word(rest);
    let (to, from) = (to.as_bytes(), from.as_bytes());
    if to.len() > 255 || from.len() > 255 {
        return Err("a name that is too long".into());
    }
    let policy = policy_of(policy);
    write_request(out, caller, tag, &Ask::Open { to, from, policy })?;
    Ok(())
}

/// `conv DESCRIPTOR ROOM BYTES`
fn write_conv(
    alloc: Global,
    out: &mut Vec<u8>,
    caller: u32,
    tag: u32,
    rest: &str,
) -> Result<(), Fail> {
    let (number, rest) = sides(rest, " ")?;
    let (room, input) = sides(rest, " ")?;
    let number = number.parse::<u32>()?;
    let room = room.parse::<u32>()?;
    let input = bytes_of(alloc, input)?;
    let input = input.as_slice();
    if input.len() > 255 {
        return Err("an input that is too long".into());
    }
    let ask = Ask::Conv {
        number,
        room,
        input,
    };
    write_request(out, caller, tag, &ask)?;
    Ok(())
}

/// `put TEXT`, `part TEXT`, `drop NAME` or `bye`
fn write_text(
    out: &mut Vec<u8>,
    caller: u32,
    tag: u32,
    command: &str,
    text: &str,
) -> Result<(), Fail> {
    let text = text.as_bytes();
    if text.len() > 255 {
        return Err("a text that is too long".into());
    }
    match command {
        "put" => write_request(out, caller, tag, &Ask::Put(text))?,
        "part" => write_request(out, caller, tag, &Ask::Part(text))?,
        "drop" => write_request(out, caller, tag, &Ask::DropMap(text))?,
        "bye" => write_request(out, caller, tag, &Ask::Bye)?,
        _ => return Err("no such request".into()),
    }
    Ok(())
}

/// Commands, the bodies of their requests, and what these are read as, or `none`. Names and inputs are escaped as Rust
/// does.
const BODIES: &str = r#"
open 01"a" 01"b" = a b Substitute
open 01"a" 01"b" 00 = a b Substitute
open 01"a" 01"b" 01 = a b Strict
open 01"a" 01"b" 02 = none
open 01"a" 01"b" ff = none
open 01"a" 01"b" 0000 = none
open 01"a" 01"b" 0100 = none
conv 00000000 00000008 "A"e9"B" = 0 8 A\xe9B
drop 03"TOY" = "TOY"
drop 00 = ""
drop "" = none
drop 04"TOY" = none
drop 02"TOY" = none
drop 0000 = none
"#;

#[test]
fn bodies_are_read(rt: HostRuntime) -> Result<(), Fail> {
    for line in BODIES.trim().lines() {
        assert!(rt; is_read(rt.alloc(), line)?, "{line}");
    }
    Ok(())
}

/// Whether the body of a line reads as expected.
fn is_read(alloc: Global, line: &str) -> Result<bool, Fail> {
    let (given, wanted) = sides(line, " = ")?;
    let (op, body) = sides(given, " ")?;
    let body = bytes_of(alloc, body)?;
    let read = told(alloc, op, &body)?;
    Ok(read.as_str() == wanted)
}

/// What a body reads as, in the words of a line.
fn told(alloc: Global, op: &str, body: &[u8]) -> Result<String, AllocError> {
    match op {
        "open" => {
            if let Some(OpenBody { to, from, policy }) = read_open(body) {
                let (to, from) = (to.escape_ascii(), from.escape_ascii());
                return format!(in alloc; "{to} {from} {policy:?}");
            }
        }
        "conv" => {
            if let Some((number, room, input)) = read_conv(body) {
                let input = input.escape_ascii();
                return format!(in alloc; "{number} {room} {input}");
            }
        }
        _ => {
            if let Some(name) = read_name(body) {
                let name = name.escape_ascii();
                return format!(in alloc; "\"{name}\"");
            }
        }
    }
    String::from_str(alloc, "none")
}

/// Caller 7 opens a descriptor from ISO-8859-1 to US-ASCII.
const OPEN: &[u8] = b"\0\0\0\x1d\0\0\0\x07\0\0\0\x01\x03\x08US-ASCII\x0aISO-8859-1";

#[test]
fn a_request_is_read(rt: HostRuntime) -> Result<(), Fail> {
    let Frame::Whole { request, n } = next_request(OPEN) else {
        return Err("the frame is whole".into());
    };
    assert_eq!(rt; (request.caller, request.tag, request.op, n), (7, 1, 3, 33));
    let read = told(rt.alloc(), "open", request.body)?;
    assert_eq!(rt; read.as_str(), "US-ASCII ISO-8859-1 Substitute");
    Ok(())
}

/// The reply: the descriptor has the number 0.
const OPENED: &[u8] = b"\0\0\0\x0d\0\0\0\x07\0\0\0\x01\0\0\0\0\0";

#[test]
fn a_reply_is_written(rt: HostRuntime) -> Result<(), Fail> {
    let mut out = Vec::new(rt.alloc());
    let head = Piece::of(&[0; 4]);
    let reply = Reply::new(7, 1, Status::Ok, head, Bytes::new(rt.alloc()));
    write_reply(&mut out, &reply)?;
    assert_eq!(rt; out.as_slice(), OPENED);
    Ok(())
}

#[test]
fn a_reply_is_read(rt: HostRuntime) -> Result<(), Fail> {
    let ReplyFrame::Whole {
        caller,
        tag,
        status,
        body,
        n,
    } = next_reply(OPENED)
    else {
        return Err("the frame is whole".into());
    };
    assert_eq!(rt; (caller, tag, status, n), (7, 1, 0, 17));
    assert_eq!(rt; read_number(body), Some(0));
    Ok(())
}

#[test]
fn lengths(rt: HostRuntime) {
    for length in [0u32, 8, 1_048_577, 4_294_967_295] {
        let bytes = length.to_be_bytes();
        let found = next_request(&bytes);
        assert!(rt;
            matches!(found, Frame::Bad { length: bad } if bad == length),
            "{length}"
        );
    }
    for length in [9u32, 1_048_576] {
        let bytes = length.to_be_bytes();
        let found = next_request(&bytes);
        assert!(rt; matches!(found, Frame::Partial), "{length}");
    }
}

/// The names of the statuses from 0 on. No other number is a status.
const NAMES: &str =
    "OK E2BIG EILSEQ EINVAL EBADF EMFILE ENOMEM UNSUPPORTED BADREQ BADMAP EXISTS NONAME BUSY QUOTA ROOM ENOCHAR";

#[test]
fn statuses(rt: HostRuntime) -> Result<(), Fail> {
    let mut names = NAMES.split_whitespace();
    for number in 0..=255u8 {
        let status = Status::from_number(number);
        assert_eq!(rt; status.map(Status::name), names.next(), "{number}");
        if let Some(status) = status {
            assert_eq!(rt; status.number(), number);
        }
    }
    let text = format!(in rt.alloc(); "{}", Status::Incomplete)?;
    assert_eq!(rt; text.as_str(), "EINVAL");
    Ok(())
}
