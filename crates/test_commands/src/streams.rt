//! Streams of frames that are cut off, or have a length that no frame can have. `pipe` answers the requests before
//! that, and `show` prints nothing. A result is the number of bytes that are written, the fault, and the exit status.
use crate::console::{Console, piped};
use crate::tables::{Call, check_lines};
use cv_commands::{RunFault, show, status};
use std::alloc::{AllocError, Global};
use std::random::RandomSource;
use std::sync::Wait;
use std::test::Fail;
use std::thread::Threads;
use test_support::{REPLIES, REQUESTS, bytes_of, sides};

/// The first `n` bytes, or all if there are fewer.
fn front(bytes: &[u8], n: usize) -> &[u8] {
    &bytes[..n.min(bytes.len())]
}

/// A command that works from standard input to standard output.
#[derive(Clone, Copy)]
pub enum Command {
    Pipe,
    Show,
}

/// The stream of which a command is given all or a part.
fn stream_of(command: Command) -> &'static [u8] {
    match command {
        Command::Pipe => REQUESTS,
        Command::Show => REPLIES,
    }
}

/// What a command writes, given a stream, and its fault.
fn run<R: AllocGlobal + RandomSource + Threads + Wait + Sync>(
    rt: &R,
    command: Command,
    stream: &[u8],
) -> (Vec<u8>, Option<RunFault>) {
    match command {
        Command::Pipe => piped(rt, stream, 2),
        Command::Show => {
            let console = Console::new(rt, stream);
            let fault = show(&console).err();
            (console.into_output(), fault)
        }
    }
}

/// Whether a command has the result that these words say, given a stream. What it writes has to be a prefix of the
/// replies.
fn comes_to<R: AllocGlobal + RandomSource + Threads + Wait + Sync>(
    rt: &R,
    command: Command,
    stream: &[u8],
    replies: &[u8],
    words: &str,
) -> Result<bool, Fail> {
    let (written, fault) = run(rt, command, stream);
    let exit = match &fault {
        Some(fault) => status(fault),
        None => 0,
    };
    let told = format!(in rt.alloc(); "{} {fault:?} {exit}", written.len())?;
    Ok(told.as_str() == words && replies.starts_with(&written))
}

/// Returns whether a command has this result for each prefix of its stream whose size is in a range. `sizes` has the
/// first and the last size.
pub fn cut_comes_to<R: AllocGlobal + RandomSource + Threads + Wait + Sync>(
    rt: &R,
    command: Command,
    sizes: &str,
    words: &str,
) -> Result<bool, Fail> {
    let (first, last) = sides(sizes, " ")?;
    for size in first.parse::<usize>()?..=last.parse::<usize>()? {
        let stream = front(stream_of(command), size);
        if !comes_to(rt, command, stream, REPLIES, words)? {
            return Ok(false);
        }
    }
    Ok(true)
}

/// The first and the last size of prefixes of the requests, and the result of `pipe`.
const CUT_REQUESTS: &str = "
0 0 => 0 None 0
1 29 => 0 Some(Serve(TruncatedFrame)) 1
30 30 => 17 None 0
31 53 => 17 Some(Serve(TruncatedFrame)) 1
54 54 => 42 None 0
";

#[test]
fn pipe_answers_what_stands_before_a_cut(rt: HostRuntime) -> Result<(), Fail> {
    check_lines(&rt, Call::Cut(Command::Pipe), CUT_REQUESTS)
}

/// The first and the last size of prefixes of the replies, and the result of `show`.
const CUT_REPLIES: &str = "
0 0 => 0 None 0
1 16 => 0 Some(TruncatedReply) 1
18 41 => 0 Some(TruncatedReply) 1
";

#[test]
fn show_prints_no_part_of_a_stream_that_is_cut(rt: HostRuntime) -> Result<(), Fail> {
    check_lines(&rt, Call::Cut(Command::Show), CUT_REPLIES)
}

/// A prefix of a stream, the bytes of a length, and then the whole stream. `start` has the size of the prefix, and the
/// length.
fn with_length(alloc: Global, stream: &[u8], start: &str) -> Result<Vec<u8>, Fail> {
    let (size, length) = sides(start, " ")?;
    let size = size.parse::<usize>()?;
    let length = bytes_of(alloc, length)?;
    let mut bytes = Vec::from_slice(alloc, front(stream, size))?;
    bytes.extend_from_slice(&length)?;
    bytes.extend_from_slice(stream)?;
    Ok(bytes)
}

/// Returns whether a command has this result for a stream that `with_length` makes of its own.
pub fn spoilt_comes_to<R: AllocGlobal + RandomSource + Threads + Wait + Sync>(
    rt: &R,
    command: Command,
    start: &str,
    words: &str,
) -> Result<bool, Fail> {
    let stream = with_length(rt.alloc(), stream_of(command), start)?;
    comes_to(rt, command, &stream, REPLIES, words)
}

/// The size of a prefix of the requests, a length that no frame can have, and the result of `pipe`.
const BAD_REQUESTS: &str = "
0 00000000 => 0 Some(Serve(BadLength { length: 0 })) 1
30 00000000 => 17 Some(Serve(BadLength { length: 0 })) 1
54 00000000 => 42 Some(Serve(BadLength { length: 0 })) 1
0 00000001 => 0 Some(Serve(BadLength { length: 1 })) 1
30 00000001 => 17 Some(Serve(BadLength { length: 1 })) 1
54 00000001 => 42 Some(Serve(BadLength { length: 1 })) 1
0 00000008 => 0 Some(Serve(BadLength { length: 8 })) 1
30 00000008 => 17 Some(Serve(BadLength { length: 8 })) 1
54 00000008 => 42 Some(Serve(BadLength { length: 8 })) 1
0 00100001 => 0 Some(Serve(BadLength { length: 1048577 })) 1
30 00100001 => 17 Some(Serve(BadLength { length: 1048577 })) 1
54 00100001 => 42 Some(Serve(BadLength { length: 1048577 })) 1
0 ffffffff => 0 Some(Serve(BadLength { length: 4294967295 })) 1
30 ffffffff => 17 Some(Serve(BadLength { length: 4294967295 })) 1
54 ffffffff => 42 Some(Serve(BadLength { length: 4294967295 })) 1
";

#[test]
fn pipe_answers_what_stands_before_a_bad_length(rt: HostRuntime) -> Result<(), Fail> {
    check_lines(&rt, Call::Spoilt(Command::Pipe), BAD_REQUESTS)
}

/// The same for the replies and `show`.
const BAD_REPLIES: &str = "
0 00000000 => 0 Some(BadReplyLength(0)) 1
17 00000000 => 0 Some(BadReplyLength(0)) 1
42 00000000 => 0 Some(BadReplyLength(0)) 1
0 00000001 => 0 Some(BadReplyLength(1)) 1
17 00000001 => 0 Some(BadReplyLength(1)) 1
42 00000001 => 0 Some(BadReplyLength(1)) 1
0 00000008 => 0 Some(BadReplyLength(8)) 1
17 00000008 => 0 Some(BadReplyLength(8)) 1
42 00000008 => 0 Some(BadReplyLength(8)) 1
0 00100001 => 0 Some(BadReplyLength(1048577)) 1
17 00100001 => 0 Some(BadReplyLength(1048577)) 1
42 00100001 => 0 Some(BadReplyLength(1048577)) 1
0 ffffffff => 0 Some(BadReplyLength(4294967295)) 1
17 ffffffff => 0 Some(BadReplyLength(4294967295)) 1
42 ffffffff => 0 Some(BadReplyLength(4294967295)) 1
";

#[test]
fn show_prints_no_part_of_a_stream_with_a_bad_length(rt: HostRuntime) -> Result<(), Fail> {
    check_lines(&rt, Call::Spoilt(Command::Show), BAD_REPLIES)
}

/// The first `size` bytes of a request whose frame has the greatest length.
fn raw_request(alloc: Global, size: usize) -> Result<Vec<u8>, AllocError> {
    let mut request = Vec::from_slice(alloc, b"\0\x10\0\0\0\0\0\x07\0\0\0\x01\x09")?;
    request.resize(size, b'x')?;
    Ok(request)
}

#[test]
fn the_longest_frame_has_to_come_whole(rt: HostRuntime) -> Result<(), Fail> {
    let reply = b"\0\0\0\x09\0\0\0\x07\0\0\0\x01\x08";
    for (size, wanted) in [
        (1_048_579, "0 Some(Serve(TruncatedFrame)) 1"),
        (1_048_580, "13 None 0"),
    ] {
        let request = raw_request(rt.alloc(), size)?;
        let comes = comes_to(&rt, Command::Pipe, &request, reply, wanted)?;
        assert!(rt; comes, "{size} bytes");
    }
    Ok(())
}
