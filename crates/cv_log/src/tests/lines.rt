//! A log that has many faults, or whose reader takes no lines.
use crate::log_lines::{LogFormat, LogLines};
use crate::outlet::Outlet;
use log::{LevelFilter, Log, debug, error, info};
use std::alloc::Global;
use std::fmt::Display;
use std::io;
use std::sync::atomic::{AtomicU64, Ordering};
use std::sync::{Mutex, Wait};
use std::test::Fail;
use std::time::{Clock, Duration};

/// The clock and the outlet of a test, which sets the time and the room for lines.
#[derive(Drop)]
struct Booth<'a, R> {
    rt: &'a R,
    alloc: Global,
    written: Mutex<Vec<u8>>,
    milliseconds: AtomicU64,
    room: AtomicU64,
}

impl<'a, R: AllocGlobal> Booth<'a, R> {
    /// At a time in milliseconds, with room for `room` lines.
    fn new(rt: &'a R, milliseconds: u64, room: u64) -> Booth<'a, R> {
        let alloc = rt.alloc();
        Booth {
            rt,
            alloc,
            written: Mutex::new(Vec::new(alloc)),
            milliseconds: AtomicU64::new(milliseconds),
            room: AtomicU64::new(room),
        }
    }

    fn set(&self, milliseconds: u64, room: u64) {
        self.milliseconds.store(milliseconds, Ordering::SeqCst);
        self.room.store(room, Ordering::SeqCst);
    }

    /// All lines that were written.
    fn into_bytes(self) -> Vec<u8> {
        self.written.into_inner()
    }
}

impl<'a, R: Wait> Wait for Booth<'a, R> {}

impl<'a, R> Alloc for Booth<'a, R> {
    type A = Global;

    fn alloc(&self) -> Global {
        self.alloc
    }
}

impl<'a, R> Clock for Booth<'a, R> {
    fn monotonic(&self) -> io::Result<Duration> {
        Ok(Duration::from_millis(self.milliseconds.load(Ordering::SeqCst)))
    }

    fn since_1970(&self) -> io::Result<Duration> {
        self.monotonic()
    }
}

impl<'a, R: Wait> Outlet for Booth<'a, R> {
    fn put<D: Display + Drop>(&self, line: D) -> bool {
        let room = self.room.load(Ordering::SeqCst);
        self.room.store(room.saturating_sub(1), Ordering::SeqCst);
        let Ok(line) = format!(in self.alloc; "{line}\n") else {
            return false;
        };
        room > 0
            && self
                .written
                .lock(self.rt)
                .extend_from_slice(line.as_bytes())
                .is_ok()
    }
}

/// How many lines are equal to this one.
fn lines_like(said: &[u8], line: &str) -> usize {
    let lines = said.split(|byte| *byte == b'\n');
    lines.filter(|said| *said == line.as_bytes()).count()
}

/// Logs `faults` faults.
fn fail<L: Log>(log: &L, faults: u64) {
    for _fault in 0..faults {
        error!(log; peer = 7u64; "bad");
    }
}

#[test]
fn faults_beyond_a_hundred_a_second_are_one_line(rt: HostRuntime) -> Result<(), Fail> {
    let booth = Booth::new(&rt, 5_000, 10_000);
    let log = LogLines::new(&booth, &booth, LevelFilter::Info, LogFormat::Text);
    fail(&log, 1_000);
    booth.set(5_999, 10_000);
    info!(log; "first");
    debug!(log; "too low");
    booth.set(6_000, 10_000);
    info!(log; "second");
    fail(&log, 101);
    log.flush();
    log.flush();
    assert_eq!(rt; log.dropped(), 0);
    drop(log);
    let said = booth.into_bytes();
    assert_eq!(rt; lines_like(&said, "iconvd: bad peer=7"), 200);
    let end =
        b"iconvd: bad peer=7\niconvd: first\niconvd: 900 more faults in a second\niconvd: second\niconvd: bad peer=7\n";
    assert!(rt; said.windows(end.len()).any(|part| part == end.as_slice()));
    assert!(rt; said.ends_with(b"\niconvd: 1 more fault in a second\n"));
    assert_eq!(rt; lines_like(&said, "iconvd: 900 more faults in a second"), 1);
    assert_eq!(rt; lines_like(&said, "iconvd: 1 more fault in a second"), 1);
    Ok(())
}

#[test]
fn a_fault_after_a_flush_is_written(rt: HostRuntime) -> Result<(), Fail> {
    let booth = Booth::new(&rt, 5_000, 10_000);
    let log = LogLines::new(&booth, &booth, LevelFilter::Error, LogFormat::Text);
    fail(&log, 102);
    log.flush();
    error!(log; "last");
    log.flush();
    drop(log);
    let said = booth.into_bytes();
    assert!(rt;
        said.ends_with(b"\niconvd: bad\niconvd: 2 more faults in a second\niconvd: last\n")
    );
    Ok(())
}

#[test]
fn lines_that_nobody_takes_are_dropped_and_reported(rt: HostRuntime) -> Result<(), Fail> {
    let booth = Booth::new(&rt, 0, 2);
    let log = LogLines::new(&booth, &booth, LevelFilter::Info, LogFormat::Text);
    for number in 0..5 {
        info!(log; "{number}");
    }
    assert_eq!(rt; log.dropped(), 3);
    // There is room for the report, but for no line after it.
    booth.set(0, 1);
    info!(log; "5");
    assert_eq!(rt; log.dropped(), 4);
    booth.set(0, 9);
    info!(log; "6");
    info!(log; "7");
    log.flush();
    booth.set(0, 0);
    info!(log; "8");
    booth.set(0, 9);
    log.flush();
    assert_eq!(rt; log.dropped(), 5);
    drop(log);
    let wanted =
        b"iconvd: 0\niconvd: 1\niconvd: 3 log lines were dropped\niconvd: 1 log line was dropped\n\
        iconvd: 6\niconvd: 7\niconvd: 1 log line was dropped\n";
    assert!(rt; booth.into_bytes().as_slice() == wanted.as_slice());
    Ok(())
}

#[test]
fn counts_of_faults_are_dropped_as_lines_are(rt: HostRuntime) -> Result<(), Fail> {
    let booth = Booth::new(&rt, 0, 100);
    let log = LogLines::new(&booth, &booth, LevelFilter::Error, LogFormat::Text);
    fail(&log, 150);
    booth.set(1_000, 0);
    fail(&log, 1);
    assert_eq!(rt; log.dropped(), 2);
    booth.set(1_001, 9);
    fail(&log, 1);
    drop(log);
    let said = booth.into_bytes();
    assert!(rt; said.ends_with(b"iconvd: bad\niconvd: 2 log lines were dropped\niconvd: bad\n"));
    Ok(())
}

#[test]
fn a_json_log_has_the_counts_as_numbers(rt: HostRuntime) -> Result<(), Fail> {
    let booth = Booth::new(&rt, 0, 100);
    let log = LogLines::new(&booth, &booth, LevelFilter::Error, LogFormat::Json);
    fail(&log, 105);
    booth.set(1_500, 0);
    fail(&log, 1);
    booth.set(2_500, 200);
    fail(&log, 103);
    log.flush();
    drop(log);
    let said = booth.into_bytes();
    let bad = r#"{"level":"error","message":"bad","peer":7,"time":"1970-01-01T00:00:00.000Z"}"#;
    assert_eq!(rt; lines_like(&said, bad), 100);
    let dropped =
        r#"{"count":2,"level":"error","message":"2 log lines were dropped","time":"1970-01-01T00:00:02.500Z"}"#;
    assert_eq!(rt; lines_like(&said, dropped), 1);
    let end = b"\n{\"count\":3,\"level\":\"error\",\"message\":\"3 more faults in a second\",\
        \"time\":\"1970-01-01T00:00:02.500Z\"}\n";
    assert!(rt; said.ends_with(end));
    Ok(())
}

#[test]
fn a_long_json_line_is_an_object_all_the_same(rt: HostRuntime) -> Result<(), Fail> {
    let booth = Booth::new(&rt, 0, 9);
    let log = LogLines::new(&booth, &booth, LevelFilter::Error, LogFormat::Json);
    let quotes = vec![in rt.alloc(); b'"'; 5_000]?;
    let quotes = String::from_utf8(quotes).map_err(|_| "no text")?;
    error!(log; text:% = quotes; "{quotes}");
    drop(log);
    let said = booth.into_bytes();
    let begin = b"{\"level\":\"error\",\"message\":\"\\\"\\\"";
    assert!(rt; said.starts_with(begin));
    let end = "\\\"…\",\"time\":\"1970-01-01T00:00:00.000Z\"}\n";
    assert!(rt; said.ends_with(end.as_bytes()));
    // 600 quotes are shown, three of them in `begin` and `end`.
    assert_eq!(rt; said.len(), begin.len() + 2 * 597 + end.len());
    Ok(())
}
