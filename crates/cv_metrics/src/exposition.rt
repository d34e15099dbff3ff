//! Writes Prometheus's text format, version 0.0.4.
use std::alloc::{AllocError, Global};
use std::fmt::Display;

/// A page of metrics.
#[derive(Drop)]
pub(crate) struct Exposition {
    alloc: Global,
    text: String,
}

impl Exposition {
    /// A page without metrics.
    pub(crate) fn new(alloc: Global) -> Exposition {
        Exposition {
            alloc,
            text: String::new(alloc),
        }
    }

    /// Its allocator.
    pub(crate) fn alloc(&self) -> Global {
        self.alloc
    }

    /// The text so far.
    pub(crate) fn into_text(self) -> String {
        let Exposition { alloc: _, text } = self;
        text
    }

    /// Adds the help and the type of a metric. They precede its samples.
    pub(crate) fn family(&mut self, name: &str, kind: &str, help: &str) -> Result<(), AllocError> {
        let lines = format!(in self.alloc;
            "# HELP iconvd_{name} {help}\n# TYPE iconvd_{name} {kind}\n"
        )?;
        self.text.push_str(&lines)
    }

    /// Adds a sample without labels.
    pub(crate) fn sample<D: Display + Drop>(
        &mut self,
        name: &str,
        value: D,
    ) -> Result<(), AllocError> {
        let line = format!(in self.alloc; "iconvd_{name} {value}\n")?;
        self.text.push_str(&line)
    }

    /// Adds a sample with these labels, written as they are: they must need no escape.
    pub(crate) fn labelled<L: Display + Drop, D: Display + Drop>(
        &mut self,
        name: &str,
        labels: L,
        value: D,
    ) -> Result<(), AllocError> {
        let line = format!(in self.alloc; "iconvd_{name}{{{labels}}} {value}\n")?;
        self.text.push_str(&line)
    }

    /// Adds a gauge with one sample.
    pub(crate) fn gauge(&mut self, name: &str, help: &str, value: u64) -> Result<(), AllocError> {
        self.family(name, "gauge", help)?;
        self.sample(name, value)
    }

    /// Adds a counter with one sample.
    pub(crate) fn counter(&mut self, name: &str, help: &str, value: u64) -> Result<(), AllocError> {
        self.family(name, "counter", help)?;
        self.sample(name, value)
    }
}
