//! The limits of the log: how many faults of a second, and how much of a line.
use crate::cut::cut;
use crate::dropped_lines::DroppedLines;
use crate::fault_limit::FaultLimit;
use std::test::Fail;

/// A second, in nanoseconds.
const SECOND: u64 = 1_000_000_000;

/// How many of `faults` faults at this time are written, and how many earlier ones are reported.
fn admitted(limit: &mut FaultLimit, now: u64, faults: u64) -> (u64, u64) {
    let (mut written, mut told): (u64, u64) = (0, 0);
    for _fault in 0..faults {
        told = told.saturating_add(limit.pass(now));
        if limit.admits() {
            written = written.saturating_add(1);
        }
    }
    (written, told)
}

/// Each row: a time in nanoseconds, how many faults there are, and how many of them are written and how many earlier
/// ones reported.
#[test]
fn a_hundred_faults_of_a_second_are_written(rt: HostRuntime) -> Result<(), Fail> {
    let mut limit = FaultLimit::new();
    for (now, faults, wanted) in [
        (0, 99, (99, 0)),
        (SECOND - 1, 2, (1, 0)),
        (5 * SECOND, 1_000, (100, 1)),
        (5 * SECOND, 7, (0, 0)),
        (6 * SECOND - 1, 3, (0, 0)),
        (6 * SECOND, 1, (1, 910)),
        (6 * SECOND, 99, (99, 0)),
        (6 * SECOND, 1, (0, 0)),
        // A clock that goes back is still in the second.
        (SECOND, 1, (0, 0)),
        (7 * SECOND + 1, 1, (1, 2)),
        (u64::MAX, 101, (100, 0)),
    ] {
        assert_eq!(rt;
            admitted(&mut limit, now, faults),
            wanted,
            "{faults} at {now}"
        );
    }
    assert_eq!(rt; (limit.take_counted(), limit.take_counted()), (1, 0));
    Ok(())
}

#[test]
fn dropped_lines_are_counted_until_they_are_reported(rt: HostRuntime) -> Result<(), Fail> {
    let mut lines = DroppedLines::new();
    assert_eq!(rt; (lines.all(), lines.unreported()), (0, 0));
    lines.add();
    lines.add();
    assert_eq!(rt; (lines.all(), lines.unreported()), (2, 2));
    lines.report();
    lines.add();
    assert_eq!(rt; (lines.all(), lines.unreported()), (3, 1));
    Ok(())
}

/// Each row: a text, how many bytes are shown at most, and what is shown.
#[test]
fn a_long_text_is_cut_at_a_character(rt: HostRuntime) -> Result<(), Fail> {
    for (text, most, wanted) in [
        ("", 0, ""),
        ("a", 0, "…"),
        ("word", 4, "word"),
        ("words", 4, "word…"),
        ("größe", 3, "gr…"),
        ("größe", 4, "grö…"),
        ("größe", 7, "größe"),
        ("€", 2, "…"),
    ] {
        let shown = format!(in rt.alloc(); "{}", cut(text, most))?;
        assert_eq!(rt; shown.as_str(), wanted, "{most} bytes of {text}");
    }
    // No text after the cut is shown, however short.
    let shown = format!(in rt.alloc(); "{}", cut(format_args!("{}{}{}", "ab", "cde", "f"), 4))?;
    assert_eq!(rt; shown.as_str(), "abcd…");
    Ok(())
}
