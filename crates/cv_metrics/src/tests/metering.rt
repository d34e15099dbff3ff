//! Counting a stream.
use super::{CONV, EBADF, OK, OPEN, TIMES, frame, has_line, parted, told};
use crate::{Board, EndCause, FaultKind, Meter, Peer, bucket_of};
use std::alloc::Global;
use std::sync::Wait;
use std::test::Fail;

#[test]
fn ops_and_statuses_are_paired(rt: HostRuntime) -> Result<(), Fail> {
    let alloc = rt.alloc();
    let board = Board::new(alloc, 2)?;
    let slot = board.slot(1).ok_or("no slot")?;
    board.begin(&rt, slot, Peer::Local, 1_000);
    let mut meter = Meter::new(alloc, slot);
    // Two requests and half of a third, which are answered OK and EBADF.
    let asked = frame(alloc, &[OPEN, CONV, 99])?;
    let (first, last) = parted(&asked, 30);
    meter.came(first, 2_000);
    meter.begin_batch(3_000);
    meter.went(&frame(alloc, &[OK, EBADF])?, true);
    assert!(rt; !meter.is_waiting());
    // The rest of the third, whose reply has an unknown status.
    meter.came(last, 4_000);
    assert!(rt; meter.is_waiting());
    meter.begin_batch(5_000);
    meter.went(&frame(alloc, &[77])?, true);
    assert_eq!(rt; meter.answered(), 3);
    let text = board.metrics(&rt, alloc, &told())?;
    for line in [
        "iconvd_requests_total{op=\"open\",status=\"OK\"} 1",
        "iconvd_requests_total{op=\"conv\",status=\"EBADF\"} 1",
        "iconvd_requests_total{op=\"other\",status=\"other\"} 1",
        "iconvd_received_bytes_total 39",
        "iconvd_sent_bytes_total 39",
        "iconvd_streams_active 1",
        "iconvd_streams_total 1",
        "iconvd_places 2",
        "iconvd_draining 0",
    ] {
        assert!(rt; has_line(&text, line), "{line}");
    }
    Ok(())
}

#[test]
fn a_batch_shares_its_time(rt: HostRuntime) -> Result<(), Fail> {
    let alloc = rt.alloc();
    let board = Board::new(alloc, 1)?;
    let slot = board.slot(0).ok_or("no slot")?;
    let mut meter = Meter::new(alloc, slot);
    meter.came(&frame(alloc, &[CONV, OPEN, CONV, CONV])?, 1_000);
    // Each reply took a quarter of 40,004 nanoseconds, which is above the first bound. One write takes half of the
    // bytes, the next the rest.
    meter.begin_batch(41_004);
    let replies = frame(alloc, &[OK, OK, OK, OK])?;
    let (first, last) = parted(&replies, 26);
    meter.went(first, false);
    meter.went(last, true);
    let text = board.metrics(&rt, alloc, &told())?;
    for line in [
        "iconvd_conv_duration_seconds_bucket{le=\"0.00001\"} 0",
        "iconvd_conv_duration_seconds_bucket{le=\"0.00003\"} 3",
        "iconvd_conv_duration_seconds_bucket{le=\"+Inf\"} 3",
        "iconvd_conv_duration_seconds_sum 0.000030003",
        "iconvd_conv_duration_seconds_count 3",
        "iconvd_put_duration_seconds_count 0",
    ] {
        assert!(rt; has_line(&text, line), "{line}");
    }
    Ok(())
}

#[test]
fn bounds_belong_to_their_buckets(rt: HostRuntime) {
    assert_eq!(rt; bucket_of(0), 0);
    for (bucket, bound) in TIMES.iter().enumerate() {
        assert_eq!(rt; bucket_of(*bound), bucket);
        assert_eq!(rt; bucket_of(*bound + 1), bucket + 1);
    }
    assert_eq!(rt; bucket_of(u64::MAX), 11);
}

#[test]
fn a_lack_of_memory_is_seen(rt: HostRuntime) -> Result<(), Fail> {
    let alloc = rt.alloc();
    let board = Board::new(alloc, 1)?;
    let slot = board.slot(0).ok_or("no slot")?;
    let mut meter = Meter::new(alloc, slot);
    meter.came(&frame(alloc, &[1, 1])?, 0);
    meter.went(&frame(alloc, &[OK])?, true);
    assert!(rt; !meter.lacked_memory());
    meter.went(&frame(alloc, &[6])?, true);
    assert!(rt; meter.lacked_memory());
    let text = board.metrics(&rt, alloc, &told())?;
    assert!(rt; has_line(&text, "iconvd_memory_refused_total 1"));
    assert!(rt;
        has_line(
            &text,
            "iconvd_requests_total{op=\"put\",status=\"ENOMEM\"} 1"
        )
    );
    Ok(())
}

/// The rows of a board at a time.
fn rows<R: Wait>(rt: &R, alloc: Global, board: &Board, now: u64) -> Result<String, Fail> {
    Ok(board.streams(rt, alloc, now)?)
}

#[test]
fn a_row_is_of_its_stream_alone(rt: HostRuntime) -> Result<(), Fail> {
    let alloc = rt.alloc();
    let board = Board::new(alloc, 2)?;
    let (first, second) = (
        board.slot(0).ok_or("no slot")?,
        board.slot(1).ok_or("no slot")?,
    );
    assert!(rt; rows(&rt, alloc, &board, 0)?.as_str() == "[]\n");
    for start in [0, 2_000_000_000] {
        board.begin(&rt, first, Peer::Local, start);
        let mut meter = Meter::new(alloc, first);
        meter.came(&frame(alloc, &[OPEN])?, start + 1_500_000_000);
        let waiting = rows(&rt, alloc, &board, start)?;
        assert!(rt;
            waiting.contains("\"requests\":0,\"pending\":1,"),
            "{waiting}"
        );
        meter.went(&frame(alloc, &[OK])?, true);
        if start == 0 {
            board.end(&rt, first, EndCause::Fault, Some(FaultKind::Read));
        }
    }
    board.begin(&rt, second, Peer::Gone, 3_000_000_000);
    let want = "[{\"stream\":2,\"peer\":\"unix\",\"age_seconds\":2.000,\"idle_seconds\":0.500,\
        \"requests\":1,\"pending\":0,\"received_bytes\":13,\"sent_bytes\":13,\"callers\":0,\"memory_bytes\":0},\
        {\"stream\":3,\"peer\":\"gone\",\"age_seconds\":1.000,\"idle_seconds\":1.000,\
        \"requests\":0,\"pending\":0,\"received_bytes\":0,\"sent_bytes\":0,\"callers\":0,\"memory_bytes\":0}]\n";
    let got = rows(&rt, alloc, &board, 4_000_000_000)?;
    assert!(rt; got.as_str() == want, "{got}");
    Ok(())
}
