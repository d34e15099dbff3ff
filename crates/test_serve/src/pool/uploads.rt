//! The charmaps of two callers, in a stream that a pool serves.
use super::pool_of;
use crate::streams::{TOLD, TWO_CALLERS};
use cv_loop::{FromReader, Served, ToWriter, serve};
use std::alloc::Global;
use std::sync::Wait;
use std::test::Fail;
use std::thread::Threads;
use test_support::Slow;

#[test]
fn a_stream_is_served_however_it_is_cut(rt: HostRuntime) -> Result<(), Fail> {
    for workers in [1, 2, 16] {
        for cut in 0..TWO_CALLERS.len() {
            let served = is_served(&rt, rt.alloc(), workers, cut)?;
            assert!(rt; served, "{workers} {cut}");
        }
    }
    Ok(())
}

/// Whether a pool of `workers` workers writes the right replies to the stream of two callers, if reads cut it at offset
/// `cut`.
fn is_served<R: Threads + Wait + Sync>(
    rt: &R,
    alloc: Global,
    workers: u32,
    cut: usize,
) -> Result<bool, Fail> {
    let mut pool = pool_of(alloc, workers)?;
    let (bytes, more) = TWO_CALLERS.split_at(cut.min(TWO_CALLERS.len()));
    let mut reader = FromReader::new(Slow {
        bytes,
        more,
        step: 65_536,
        fails: false,
    });
    let mut writer = ToWriter::new(Vec::new(alloc));
    let served = serve(&mut pool, rt, alloc, &mut reader, &mut writer, 9);
    let all = Ok(Served { requests: 6 });
    Ok(served == all && writer.into_inner().as_slice() == TOLD)
}
