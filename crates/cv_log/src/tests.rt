//! Logs by a clock and to an outlet that a test sets.
mod limits;
mod lines;
