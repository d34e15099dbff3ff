//! The metrics: their names, their help texts, and where their values come from.
use crate::board::Board;
use crate::causes::{EndCause, FaultKind};
use crate::exposition::Exposition;
use crate::histogram::{BOUNDS, Times};
use crate::op_kind::OpKind;
use crate::op_status::OpStatus;
use crate::sums::Sums;
use std::alloc::{AllocError, Global};
use std::fmt::{self, Display, Formatter};
use std::sync::Wait;

/// The values in the metrics that the board does not count.
#[derive(Clone, Copy, Debug)]
pub struct Told<'a> {
    /// The program's version.
    pub version: &'a str,
    /// When the server began, in seconds since 1970.
    pub start_time: u64,
    /// How many streams may be served at once.
    pub places: u64,
    /// How many charmaps the cache has, and how many bytes they and their texts take.
    pub cache_charmaps: u64,
    pub cache_bytes: u64,
    /// How many look-ups found the text in the cache, and how many did not.
    pub cache_hits: u64,
    pub cache_misses: u64,
    /// How many bytes the callers of one stream may hold. `None`: no limit.
    pub stream_memory_limit: Option<u64>,
    /// Whether a drain has begun.
    pub is_draining: bool,
    /// How many lines of the log were dropped.
    pub log_lines_dropped: u64,
}

/// Shows nanoseconds as seconds with nine digits after the point.
#[derive(Clone, Copy, Debug)]
struct Seconds(u64);

impl Display for Seconds {
    fn fmt<W: fmt::Write>(&self, f: &mut Formatter<W>) -> fmt::Result {
        let Seconds(nanos) = *self;
        let whole = nanos / 1_000_000_000;
        let part = nanos % 1_000_000_000;
        write!(f, "{whole}.{part:09}")
    }
}

/// All metrics.
pub(crate) fn metrics<R: Wait>(
    rt: &R,
    alloc: Global,
    board: &Board,
    told: &Told<'_>,
) -> Result<String, AllocError> {
    let sums = Sums::of(rt, board);
    let mut page = Exposition::new(alloc);
    server(&mut page, board, told, &sums)?;
    endings(&mut page, board)?;
    requests(&mut page, board, &sums)?;
    times(&mut page, "conv", "CONV", &sums.conv)?;
    times(&mut page, "put", "PUT", &sums.put)?;
    memory(&mut page, told, &sums)?;
    Ok(page.into_text())
}

/// Writes the metrics of the server, and how many streams there are.
fn server(
    page: &mut Exposition,
    board: &Board,
    told: &Told<'_>,
    sums: &Sums,
) -> Result<(), AllocError> {
    let version = told.version;
    page.family("build_info", "gauge", "The program, by its version.")?;
    page.labelled("build_info", format_args!("version=\"{version}\""), 1u64)?;
    let help = "When the server started, in seconds since 1970.";
    page.gauge("start_time_seconds", help, told.start_time)?;
    let help = "Streams that may be served at once.";
    page.gauge("places", help, told.places)?;
    let help = "Whether a drain has begun: 1 or 0.";
    page.gauge("draining", help, u64::from(told.is_draining))?;
    let help = "Streams that are served now.";
    page.gauge("streams_active", help, sums.streams)?;
    page.counter(
        "streams_total",
        "Streams whose serving began.",
        board.started(),
    )
}

/// Writes how streams ended, and the faults.
fn endings(page: &mut Exposition, board: &Board) -> Result<(), AllocError> {
    let name = "streams_ended_total";
    page.family(name, "counter", "Streams that ended, by their cause.")?;
    for cause in EndCause::ALL {
        let word = cause.word();
        page.labelled(name, format_args!("cause=\"{word}\""), board.ended(cause))?;
    }
    let help = "Streams that were closed at once since all places were taken.";
    page.counter("streams_refused_total", help, board.refused())?;
    let name = "faults_total";
    page.family(name, "counter", "Faults, by their kind.")?;
    for kind in FaultKind::ALL {
        let word = kind.word();
        page.labelled(name, format_args!("kind=\"{word}\""), board.faults(kind))?;
    }
    Ok(())
}

/// Writes the requests by op and status, and the bytes received and sent. An op and status that no request had get no
/// sample.
fn requests(page: &mut Exposition, board: &Board, sums: &Sums) -> Result<(), AllocError> {
    let name = "requests_total";
    let help = "Requests whose whole reply was written, by op and status.";
    page.family(name, "counter", help)?;
    for op in OpKind::ALL {
        for status in 0u8..17 {
            outcome(page, board, OpStatus { op, status })?;
        }
    }
    let help = "Bytes that clients sent.";
    page.counter("received_bytes_total", help, sums.received)?;
    let help = "Bytes that were sent to clients.";
    page.counter("sent_bytes_total", help, sums.sent)
}

/// Writes the requests of one outcome, if there were any.
fn outcome(page: &mut Exposition, board: &Board, outcome: OpStatus) -> Result<(), AllocError> {
    let count = board.count_of(outcome);
    if count == 0 {
        return Ok(());
    }
    let op = outcome.op.word();
    let status = outcome.status_name();
    page.labelled(
        "requests_total",
        format_args!("op=\"{op}\",status=\"{status}\""),
        count,
    )
}

/// Writes the histogram of the times of one op.
fn times(page: &mut Exposition, word: &str, op: &str, times: &Times) -> Result<(), AllocError> {
    let alloc = page.alloc();
    let name = format!(in alloc; "{word}_duration_seconds")?;
    let help = format!(in alloc;
        "Seconds from the last byte of a batch to its first reply, divided by its requests, once for each {op}."
    )?;
    page.family(&name, "histogram", &help)?;
    let bucket = format!(in alloc; "{name}_bucket")?;
    let mut count: u64 = 0;
    for (index, (_, bound)) in BOUNDS.iter().enumerate() {
        count = count.wrapping_add(times.buckets[index]);
        page.labelled(&bucket, format_args!("le=\"{bound}\""), count)?;
    }
    count = count.wrapping_add(times.buckets[BOUNDS.len()]);
    page.labelled(&bucket, format_args!("le=\"+Inf\""), count)?;
    let sum = format!(in alloc; "{name}_sum")?;
    page.sample(&sum, Seconds(times.nanos))?;
    let total = format!(in alloc; "{name}_count")?;
    page.sample(&total, count)
}

/// Writes the metrics of memory: ENOMEM replies, the cache and what streams hold. Last come the dropped lines of the
/// log.
fn memory(page: &mut Exposition, told: &Told<'_>, sums: &Sums) -> Result<(), AllocError> {
    let help = "Requests that were answered ENOMEM.";
    page.counter("memory_refused_total", help, sums.memory_refused)?;
    let help = "Compiled charmaps that the cache has.";
    page.gauge("cache_charmaps", help, told.cache_charmaps)?;
    let help = "Bytes of the charmaps in the cache and of their texts.";
    page.gauge("cache_bytes", help, told.cache_bytes)?;
    let help = "Charmap texts that the cache had.";
    page.counter("cache_hits_total", help, told.cache_hits)?;
    let help = "Charmap texts that the cache did not have.";
    page.counter("cache_misses_total", help, told.cache_misses)?;
    let help = "Bytes that the callers of all streams hold.";
    page.gauge("stream_memory_bytes", help, sums.memory_bytes)?;
    let help = "Bytes that the callers of one stream may hold, or 0 without a limit.";
    let limit = told.stream_memory_limit.unwrap_or(0);
    page.gauge("stream_memory_limit_bytes", help, limit)?;
    let help = "Lines of the log that were dropped.";
    page.counter("log_lines_dropped_total", help, told.log_lines_dropped)
}
