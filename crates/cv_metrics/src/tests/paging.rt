//! The pages.
use super::{has_line, told};
use crate::{Board, EndCause, FaultKind, Peer};
use std::net::{Ipv4Addr, SocketAddr};
use std::test::Fail;

/// The metrics, in their order.
const NAMES: [(&str, &str); 22] = [
    ("build_info", "gauge"),
    ("start_time_seconds", "gauge"),
    ("places", "gauge"),
    ("draining", "gauge"),
    ("streams_active", "gauge"),
    ("streams_total", "counter"),
    ("streams_ended_total", "counter"),
    ("streams_refused_total", "counter"),
    ("faults_total", "counter"),
    ("requests_total", "counter"),
    ("received_bytes_total", "counter"),
    ("sent_bytes_total", "counter"),
    ("conv_duration_seconds", "histogram"),
    ("put_duration_seconds", "histogram"),
    ("memory_refused_total", "counter"),
    ("cache_charmaps", "gauge"),
    ("cache_bytes", "gauge"),
    ("cache_hits_total", "counter"),
    ("cache_misses_total", "counter"),
    ("stream_memory_bytes", "gauge"),
    ("stream_memory_limit_bytes", "gauge"),
    ("log_lines_dropped_total", "counter"),
];

#[test]
fn each_metric_has_its_type_and_its_help(rt: HostRuntime) -> Result<(), Fail> {
    let alloc = rt.alloc();
    let board = Board::new(alloc, 1)?;
    let text = board.metrics(&rt, alloc, &told())?;
    for (name, kind) in NAMES {
        let line = format!(in alloc; "# TYPE iconvd_{name} {kind}")?;
        assert!(rt; has_line(&text, &line), "{line}");
        let help = format!(in alloc; "# HELP iconvd_{name} ")?;
        assert!(rt;
            text.as_str()
                .lines()
                .any(|line| line.starts_with(help.as_str())),
            "{help}"
        );
    }
    let types = text
        .as_str()
        .lines()
        .filter(|line| line.starts_with("# TYPE "))
        .count();
    assert_eq!(rt; types, 22);
    assert!(rt; text.as_str().ends_with("\n"));
    Ok(())
}

#[test]
fn endings_and_faults_are_counted(rt: HostRuntime) -> Result<(), Fail> {
    let alloc = rt.alloc();
    let board = Board::new(alloc, 1)?;
    let slot = board.slot(0).ok_or("no slot")?;
    for (number, cause) in EndCause::ALL.iter().enumerate() {
        for _time in 0..number {
            board.begin(&rt, slot, Peer::Local, 0);
            board.end(&rt, slot, *cause, None);
        }
    }
    for (number, kind) in FaultKind::ALL.iter().enumerate() {
        for _time in 0..number {
            board.note_fault(*kind);
        }
    }
    board.note_refused();
    let text = board.metrics(&rt, alloc, &told())?;
    for line in [
        "iconvd_streams_ended_total{cause=\"client\"} 0",
        "iconvd_streams_ended_total{cause=\"idle\"} 1",
        "iconvd_streams_ended_total{cause=\"stalled\"} 2",
        "iconvd_streams_ended_total{cause=\"fault\"} 3",
        "iconvd_streams_ended_total{cause=\"drained\"} 4",
        "iconvd_streams_ended_total{cause=\"cut\"} 5",
        "iconvd_faults_total{kind=\"bad_length\"} 0",
        "iconvd_faults_total{kind=\"truncated_frame\"} 1",
        "iconvd_faults_total{kind=\"read\"} 2",
        "iconvd_faults_total{kind=\"write\"} 3",
        "iconvd_faults_total{kind=\"memory\"} 4",
        "iconvd_faults_total{kind=\"accept\"} 5",
        "iconvd_faults_total{kind=\"other\"} 6",
        "iconvd_streams_active 0",
        "iconvd_streams_total 15",
        "iconvd_streams_refused_total 1",
    ] {
        assert!(rt; has_line(&text, line), "{line}");
    }
    Ok(())
}

#[test]
fn what_is_told_is_shown(rt: HostRuntime) -> Result<(), Fail> {
    let alloc = rt.alloc();
    let board = Board::new(alloc, 8)?;
    let mut told = told();
    told.places = 7;
    told.stream_memory_limit = Some(65_536);
    let text = board.metrics(&rt, alloc, &told)?;
    for line in [
        "iconvd_build_info{version=\"0.1.0\"} 1",
        "iconvd_start_time_seconds 1700000000",
        "iconvd_places 7",
        "iconvd_cache_charmaps 1",
        "iconvd_cache_bytes 2048",
        "iconvd_cache_hits_total 3",
        "iconvd_cache_misses_total 4",
        "iconvd_stream_memory_limit_bytes 65536",
        "iconvd_log_lines_dropped_total 5",
    ] {
        assert!(rt; has_line(&text, line), "{line}");
    }
    Ok(())
}

#[test]
fn a_peer_is_shown_by_its_address(rt: HostRuntime) -> Result<(), Fail> {
    let alloc = rt.alloc();
    let board = Board::new(alloc, 1)?;
    let slot = board.slot(0).ok_or("no slot")?;
    let peer = SocketAddr::from((Ipv4Addr::new(10, 0, 0, 7), 5301));
    board.begin(&rt, slot, Peer::At(peer), 0);
    let rows = board.streams(&rt, alloc, 0)?;
    assert!(rt;
        rows.as_str().starts_with(
            "[{\"stream\":1,\"peer\":\"10.0.0.7:5301\",\"age_seconds\":0.000,"
        ),
        "{rows}"
    );
    Ok(())
}
