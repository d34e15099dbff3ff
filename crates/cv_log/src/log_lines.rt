//! The log of a server.
ghost use Rattle.std.specs.Prelude.{◌≡◌};

use crate::dropped_lines::DroppedLines;
use crate::fault_limit::FaultLimit;
use crate::json_line::json_line;
use crate::outlet::Outlet;
use crate::text_line::TextLine;
use log::span::Spans;
use log::{Level, LevelFilter, Log, Metadata, Record, kv};
use std::fmt::Display;
use std::io;
use std::sync::atomic::{AtomicU64, Ordering};
use std::sync::{Mutex, Wait};
use std::time::Clock;

/// How a record is written: as a line of text or as a JSON object.
#[derive(Clone, Copy, Debug, PartialEq, Eq)]
pub enum LogFormat {
    Text,
    Json,
}

/// The counts of what a log did not write.
#[derive(Drop)]
struct Unwritten {
    faults: FaultLimit,
    lines: DroppedLines,
}

/// A log that writes its records as lines to an outlet. Records above its level are dropped. Of the errors within a
/// second the first 100 are written. One line says how many more there were: before the first record after that second,
/// or at a flush, which ends the second. A line that the outlet does not take at once is dropped. When the outlet takes
/// lines again, one line says how many were dropped.
#[derive(Drop)]
pub struct LogLines<'a, R, O> {
    rt: &'a R,
    outlet: O,
    level: LevelFilter,
    format: LogFormat,
    /// The counter in which it keeps how many lines it has dropped, for others to read.
    lost: Option<&'a AtomicU64>,
    unwritten: Mutex<Unwritten>,
}

impl<'a, R, O> LogLines<'a, R, O> {
    /// Returns a log that writes to an outlet, with this level and this format.
    pub fn new(rt: &'a R, outlet: O, level: LevelFilter, format: LogFormat) -> LogLines<'a, R, O>
        ensures rt { result.rt ≡ rt.entry }
        ensures outlet { result.outlet ≡ outlet }
        ensures level { result.level ≡ level }
        ensures format { result.format ≡ format }
    {
        LogLines {
            rt,
            outlet,
            level,
            format,
            lost: None,
            unwritten: Mutex::new(Unwritten {
                faults: FaultLimit::new(),
                lines: DroppedLines::new(),
            }),
        }
    }
}

impl<'a, R, O> LogLines<'a, R, O> {
    /// Returns the same log, which also keeps in `lost` how many lines it has dropped.
    pub fn telling(self, lost: &'a AtomicU64) -> LogLines<'a, R, O>
        ensures rt { result.rt ≡ self.entry.rt }
        ensures outlet { result.outlet ≡ self.entry.outlet }
        ensures level { result.level ≡ self.entry.level }
        ensures format { result.format ≡ self.entry.format }
    {
        LogLines {
            lost: Some(lost),
            ..self
        }
    }

    /// Counts a dropped line.
    fn drop_line(&self, dropped: &mut DroppedLines) {
        dropped.add();
        if let Some(lost) = self.lost {
            lost.store(dropped.all(), Ordering::Relaxed);
        }
    }
}

impl<'a, R: Wait, O> LogLines<'a, R, O> {
    /// Returns how many lines were dropped, because the outlet did not take them or an allocation failed.
    pub fn dropped(&self) -> u64 {
        self.unwritten.lock(self.rt).lines.all()
    }
}

impl<'a, R: AllocGlobal + Clock, O: Outlet> LogLines<'a, R, O> {
    /// The time of the monotonic clock, in nanoseconds.
    fn now(&self) -> io::Result<u64> {
        let time = self.rt.monotonic()?;
        Ok(u64::try_from(time.as_nanos()).unwrap_or(u64::MAX))
    }

    /// Writes a record, unless it would have to wait, and returns whether it was written.
    fn put<D: Display, K: kv::Source, S: Spans>(&self, record: &Record<'_, D, K, S>) -> bool {
        match self.format {
            LogFormat::Text => {
                let line = TextLine {
                    record,
                    is_short: self.level == LevelFilter::Error,
                };
                self.outlet.put(format_args!("iconvd: {line}"))
            }
            LogFormat::Json => match json_line(self.rt, record) {
                Ok(line) => self.outlet.put(line),
                Err(_) => false,
            },
        }
    }

    /// Writes a count as a record of level error, and returns whether it was written.
    fn put_count<D: Display + Drop>(&self, count: u64, message: D) -> bool {
        let metadata = Metadata::new(Level::Error, "");
        // In text, the message has the number.
        let pairs = match self.format {
            LogFormat::Text => None,
            LogFormat::Json => Some(("count", count)),
        };
        self.put(&Record::new(metadata, message, pairs, ()))
    }

    /// Reports the dropped lines that no line has reported yet, and returns whether none is left.
    fn report_dropped(&self, dropped: &mut DroppedLines) -> bool {
        let count = dropped.unreported();
        if count == 0 {
            return true;
        }
        let words = if count == 1 { "line was" } else { "lines were" };
        let is_written = self.put_count(count, format_args!("{count} log {words} dropped"));
        if is_written {
            dropped.report();
        }
        is_written
    }

    /// Reports the faults of a second that were only counted, if there are any.
    fn report_faults(&self, dropped: &mut DroppedLines, count: u64) {
        if count == 0 {
            return;
        }
        let word = if count == 1 { "fault" } else { "faults" };
        let is_written = self.report_dropped(dropped)
            && self.put_count(count, format_args!("{count} more {word} in a second"));
        if !is_written {
            self.drop_line(dropped);
        }
    }
}

impl<'a, R: AllocGlobal + Clock + Wait, O: Outlet> Log for LogLines<'a, R, O> {
    ghost use Rattle.std.specs.Prelude.{Some, []};
    ghost use Rattle.log.specs.Level.{allows};

    ghost enables = { λ lines level _. Some (allows lines.level level) };

    ghost target_of = { λ _. Some [] };

    fn enabled(&self, metadata: &Metadata<'_>) -> bool {
        self.level.allows(metadata.level())
    }

    fn log<D: Display, K: kv::Source, S: Spans>(&self, record: &Record<'_, D, K, S>) {
        if !self.level.allows(record.level()) {
            return;
        }
        let mut unwritten = self.unwritten.lock(self.rt);
        let Unwritten { faults, lines } = &mut *unwritten;
        // If the clock cannot be read, there is no limit.
        if let Ok(now) = self.now() {
            self.report_faults(lines, faults.pass(now));
            if record.level() == Level::Error && !faults.admits() {
                return;
            }
        }
        let is_written = self.report_dropped(lines) && self.put(record);
        if !is_written {
            self.drop_line(lines);
        }
    }

    fn flush(&self) {
        let mut unwritten = self.unwritten.lock(self.rt);
        let Unwritten { faults, lines } = &mut *unwritten;
        self.report_faults(lines, faults.take_counted());
        *faults = FaultLimit::new();
        let _ = self.report_dropped(lines);
    }

    fn target(&self) -> &str {
        ""
    }
}
