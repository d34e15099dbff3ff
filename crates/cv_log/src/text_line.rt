//! A record of the log as text.

use log::Record;
use log::kv::{self, VisitSource};
use log::span::Spans;
use std::fmt::{self, Display, Formatter};

/// Shows a record: its message, and its pairs unless it has to be short.
#[derive(Drop)]
pub(crate) struct TextLine<'a, 'r, D, K, S> {
    pub(crate) record: &'a Record<'r, D, K, S>,
    pub(crate) is_short: bool,
}

impl<'a, 'r, D: Display, K: kv::Source, S: Spans> Display for TextLine<'a, 'r, D, K, S> {
    fn fmt<W: fmt::Write>(&self, f: &mut Formatter<W>) -> fmt::Result {
        let message = self.record.args();
        write!(f, "{message}")?;
        if !self.is_short {
            self.record.key_values().visit(&mut TextPairs { f })?;
        }
        Ok(())
    }
}

/// Writes pairs, each after a space.
#[derive(Drop)]
struct TextPairs<'f, W> {
    f: &'f mut Formatter<W>,
}

impl<'f, W: fmt::Write> VisitSource for TextPairs<'f, W> {
    fn visit_pair<D: Display>(
        &mut self,
        key: &str,
        value: kv::Value<'_, D>,
    ) -> Result<(), kv::Error> {
        write!(self.f, " {key}={value}")?;
        Ok(())
    }
}
