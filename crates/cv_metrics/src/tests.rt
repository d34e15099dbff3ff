//! Counts by hand, and the pages.
mod metering;
mod paging;
mod scanning;

use crate::Told;
use std::alloc::Global;
use std::test::Fail;

const OPEN: u8 = 3;

const CONV: u8 = 4;

const OK: u8 = 0;

const EBADF: u8 = 4;

/// The upper bounds of the buckets, in nanoseconds.
const TIMES: [u64; 11] = [
    10_000,
    30_000,
    100_000,
    300_000,
    1_000_000,
    3_000_000,
    10_000_000,
    30_000_000,
    100_000_000,
    300_000_000,
    1_000_000_000,
];

/// Frames without a body, one with each of these ops or statuses.
fn frame(alloc: Global, codes: &[u8]) -> Result<Vec<u8>, Fail> {
    let mut bytes = Vec::new(alloc);
    for code in codes {
        bytes.extend_from_slice(b"\0\0\0\x09\0\0\0\x07\0\0\0\x01")?;
        bytes.push(*code)?;
    }
    Ok(bytes)
}

/// Splits after `count` bytes, or at the end if there are fewer.
fn parted(bytes: &[u8], count: usize) -> (&[u8], &[u8]) {
    bytes.split_at(count.min(bytes.len()))
}

/// Example values of what the board does not count.
fn told() -> Told<'static> {
    Told {
        version: "0.1.0",
        start_time: 1_700_000_000,
        places: 2,
        cache_charmaps: 1,
        cache_bytes: 2_048,
        cache_hits: 3,
        cache_misses: 4,
        stream_memory_limit: None,
        is_draining: false,
        log_lines_dropped: 5,
    }
}

/// Whether a page has a line.
fn has_line(text: &String, line: &str) -> bool {
    text.as_str().lines().any(|there| there == line)
}
