//! Streams that end in each way, and readers and writers that fail at each byte, with engines of three kinds.
use crate::engines::{KINDS, Kind, serve_by};
use crate::streams::Narrow;
use cv_loop::{FromReader, ToWriter};
use std::alloc::Global;
use std::sync::Wait;
use std::test::Fail;
use std::thread::Threads;
use test_support::{REPLIES, REQUESTS, Slow, sides};

/// How a stream is given, and how its replies are taken.
#[derive(Clone, Copy)]
struct Case {
    /// How many bytes of the requests are given.
    given: usize,
    /// A length that is given after them.
    length: Option<u32>,
    /// The most bytes that a read brings, and that a write takes.
    step: usize,
    reader_fails: bool,
    reads: u64,
    room: usize,
    writer_fails: bool,
}

/// The whole stream.
const WHOLE: Case = Case {
    given: 54,
    length: None,
    step: 65_536,
    reader_fails: false,
    reads: 1_000,
    room: 1_000,
    writer_fails: false,
};

/// A line is `NAME: WAYS = RESULT WRITTEN`: how the case differs from the whole stream, the result of serving it, and
/// how many bytes of the replies are written.
const CASES: &str = "
both frames: given 54 = Ok(Served { requests: 2 }) 42
no bytes: given 0, reads 1 = Ok(Served { requests: 0 }) 0
no bytes and no reads: given 0, reads 0 = Err(TooManyReads) 0
no length at all: given 0, length 0 = Err(BadLength { length: 0 }) 0
a length below all frames: given 0, length 8 = Err(BadLength { length: 8 }) 0
a length above all frames: given 0, length 1048577 = Err(BadLength { length: 1048577 }) 0
the greatest number: given 0, length 4294967295 = Err(BadLength { length: 4294967295 }) 0
the greatest length and no byte: given 0, length 1048576 = Err(TruncatedFrame) 0
the least length and no byte: given 0, length 9 = Err(TruncatedFrame) 0
a frame and a length below all: given 30, length 8 = Err(BadLength { length: 8 }) 17
a frame and a length above all: given 30, length 1048577 = Err(BadLength { length: 1048577 }) 17
a read for each byte: given 30, step 1, reads 30 = Err(TooManyReads) 17
a read for each byte and one for the end: given 30, step 1, reads 31 = Ok(Served { requests: 1 }) 17
a writer that takes 5 bytes and fails: room 5, writer fails = Err(Write { written: 5 }) 5
a writer that takes none: room 0 = Err(Write { written: 0 }) 0
";

#[test]
fn ends_as_it_should(rt: HostRuntime) -> Result<(), Fail> {
    for line in CASES.trim().lines() {
        let (given, wanted) = sides(line, " = ")?;
        let ends = ends_so(&rt, rt.alloc(), &case_of(given)?, wanted)?;
        assert!(rt; ends, "{line}");
    }
    Ok(())
}

/// The case of a line.
fn case_of(given: &str) -> Result<Case, Fail> {
    let (_, ways) = sides(given, ": ")?;
    let mut case = WHOLE;
    for way in ways.split(", ") {
        set(&mut case, way)?;
    }
    Ok(case)
}

/// Sets one way in which a case differs from the whole stream.
fn set(case: &mut Case, way: &str) -> Result<(), Fail> {
    let (name, value) = sides(way, " ")?;
    match name {
        "given" => case.given = value.parse::<usize>()?,
        "length" => case.length = Some(value.parse::<u32>()?),
        "step" => case.step = value.parse::<usize>()?,
        "reads" => case.reads = value.parse::<u64>()?,
        "room" => case.room = value.parse::<usize>()?,
        "writer" => case.writer_fails = value == "fails",
        _ => return Err("no such way".into()),
    }
    Ok(())
}

/// Whether a case has this result with each kind of engine.
fn ends_so<R: Threads + Wait + Sync>(
    rt: &R,
    alloc: Global,
    case: &Case,
    wanted: &str,
) -> Result<bool, Fail> {
    for kind in KINDS {
        if told(rt, alloc, kind, case)?.as_str() != wanted {
            return Ok(false);
        }
    }
    Ok(true)
}

/// The result of serving a case, and how many bytes of the replies are written.
fn told<R: Threads + Wait + Sync>(
    rt: &R,
    alloc: Global,
    kind: Kind,
    case: &Case,
) -> Result<String, Fail> {
    let length = case.length.unwrap_or(0).to_be_bytes();
    let more = if case.length.is_some() {
        length.as_slice()
    } else {
        b"".as_slice()
    };
    let mut reader = FromReader::new(Slow {
        bytes: &REQUESTS[..case.given.min(REQUESTS.len())],
        more,
        step: case.step,
        fails: case.reader_fails,
    });
    let mut writer = ToWriter::new(Narrow {
        taken: Vec::new(alloc),
        step: case.step,
        room: case.room,
        fails: case.writer_fails,
    });
    let result = serve_by(rt, alloc, kind, &mut reader, &mut writer, case.reads);
    let narrow = writer.into_inner();
    if !REPLIES.starts_with(narrow.taken.as_slice()) {
        return Err("other replies".into());
    }
    let written = narrow.taken.len();
    Ok(format!(in alloc; "{result:?} {written}")?)
}

/// The first and the last of some sizes, and the result if the stream ends after so many bytes.
const CUTS: &str = "
0 0 = Ok(Served { requests: 0 }) 0
1 29 = Err(TruncatedFrame) 0
30 30 = Ok(Served { requests: 1 }) 17
31 53 = Err(TruncatedFrame) 17
54 54 = Ok(Served { requests: 2 }) 42
";

/// The same, if a read fails after so many bytes.
const FAILED_READS: &str = "
0 29 = Err(Read) 0
30 53 = Err(Read) 17
54 54 = Err(Read) 42
";

#[test]
fn a_stream_ends_behind_each_byte(rt: HostRuntime) -> Result<(), Fail> {
    for line in CUTS.trim().lines() {
        let end = end_so(&rt, rt.alloc(), line, false)?;
        assert!(rt; end, "{line}");
    }
    Ok(())
}

#[test]
fn a_read_fails_behind_each_byte(rt: HostRuntime) -> Result<(), Fail> {
    for line in FAILED_READS.trim().lines() {
        let end = end_so(&rt, rt.alloc(), line, true)?;
        assert!(rt; end, "{line}");
    }
    Ok(())
}

/// Whether all streams of a line have its result.
fn end_so<R: Threads + Wait + Sync>(
    rt: &R,
    alloc: Global,
    line: &str,
    reader_fails: bool,
) -> Result<bool, Fail> {
    let (range, wanted) = sides(line, " = ")?;
    let (first, last) = sides(range, " ")?;
    let mut case = WHOLE;
    case.reader_fails = reader_fails;
    for given in first.parse::<usize>()?..=last.parse::<usize>()? {
        case.given = given;
        if !ends_so(rt, alloc, &case, wanted)? {
            return Ok(false);
        }
    }
    Ok(true)
}

/// The writer takes one byte at a time, or as many as it is given.
#[test]
fn a_write_fails_behind_each_byte(rt: HostRuntime) -> Result<(), Fail> {
    let mut case = WHOLE;
    case.writer_fails = true;
    for room in 0..42 {
        let wanted = format!(in rt.alloc(); "Err(Write {{ written: {room} }}) {room}")?;
        case.room = room;
        case.step = 1;
        assert!(rt;
            ends_so(&rt, rt.alloc(), &case, wanted.as_str())?,
            "{room} one by one"
        );
        case.step = 65_536;
        assert!(rt; ends_so(&rt, rt.alloc(), &case, wanted.as_str())?, "{room}");
    }
    Ok(())
}
