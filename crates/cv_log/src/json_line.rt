//! A record of the log as a JSON object.

use crate::cut::cut;
use crate::outlet::LONGEST;
use jiff::Timestamp;
use log::kv::{self, VisitSource};
use log::span::Spans;
use log::{Level, Record};
use serde_json::{Map, Number, Value};
use std::alloc::{AllocError, Global};
use std::fmt::Display;
use std::time::Clock;

/// How many bytes of a message are shown if the whole line is too long. Escaped, they take at most six times as many,
/// which fit.
const SHORT: usize = 600;

/// Collects pairs as the members of a JSON object.
#[derive(Drop)]
struct JsonPairs {
    alloc: Global,
    members: Map<String, Value>,
}

impl JsonPairs {
    fn put(&mut self, key: &str, value: Value) -> Result<(), AllocError> {
        serde_json::put(&mut self.members, self.alloc, key, value)
    }

    fn put_text<D: Display>(&mut self, key: &str, text: &D) -> Result<(), AllocError> {
        let text = format!(in self.alloc; "{text}")?;
        self.put(key, Value::String(text))
    }
}

impl VisitSource for JsonPairs {
    fn visit_pair<D: Display>(
        &mut self,
        key: &str,
        value: kv::Value<'_, D>,
    ) -> Result<(), kv::Error> {
        let put = match value {
            kv::Value::Null => self.put(key, Value::Null),
            kv::Value::U64(number) => self.put(key, Value::Number(Number::from(number))),
            kv::Value::F64(number) => {
                self.put(
                    key,
                    Number::from_f64(number).map_or(Value::Null, Value::Number),
                )
            }
            other => self.put_text(key, &other),
        };
        put.map_err(|_| kv::Error::msg("out of memory"))
    }
}

/// The word for a level, as in `--log`.
fn level_word(level: Level) -> &'static str {
    match level {
        Level::Error => "error",
        Level::Warn => "warn",
        Level::Info => "info",
        Level::Debug => "debug",
        Level::Trace => "trace",
    }
}

/// The first members of a record's object: its time (RFC 3339, UTC), if the clock can be read, its level and its
/// message.
fn new_pairs<D: Display>(
    alloc: Global,
    time: Option<Timestamp>,
    level: Level,
    message: &D,
) -> Result<JsonPairs, AllocError> {
    let mut pairs = JsonPairs {
        alloc,
        members: Map::new(alloc),
    };
    if let Some(time) = time {
        pairs.put_text("time", &format_args!("{time:.3}"))?;
    }
    pairs.put_text("level", &level_word(level))?;
    pairs.put_text("message", message)?;
    Ok(pairs)
}

/// A record as a JSON object, with its pairs.
fn whole_line<D: Display, K: kv::Source, S: Spans>(
    alloc: Global,
    time: Option<Timestamp>,
    record: &Record<'_, D, K, S>,
) -> Result<String, AllocError> {
    let mut pairs = new_pairs(alloc, time, record.level(), record.args())?;
    if record.key_values().visit(&mut pairs).is_err() {
        return Err(AllocError);
    }
    Value::Object(pairs.members).to_string(alloc)
}

/// A record as a JSON object that fits a line: without its pairs, and with its message cut.
fn short_line<D: Display, K: kv::Source, S: Spans>(
    alloc: Global,
    time: Option<Timestamp>,
    record: &Record<'_, D, K, S>,
) -> Result<String, AllocError> {
    let message = cut(record.args(), SHORT);
    let pairs = new_pairs(alloc, time, record.level(), &message)?;
    Value::Object(pairs.members).to_string(alloc)
}

/// A record as a JSON object: its time, its level, its message and its pairs. If that is longer than a line, the pairs
/// are left out and the message is cut.
pub(crate) fn json_line<R: AllocGlobal + Clock, D: Display, K: kv::Source, S: Spans>(
    rt: &R,
    record: &Record<'_, D, K, S>,
) -> Result<String, AllocError> {
    let line = whole_line(rt.alloc(), Timestamp::now(rt).ok(), record)?;
    if line.len() <= LONGEST {
        return Ok(line);
    }
    short_line(rt.alloc(), Timestamp::now(rt).ok(), record)
}
