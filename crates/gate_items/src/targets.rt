//! What conversions write to, and their state before they write.

use crate::scripts::Script;
use cv_base::{Codec, Policy, WriteState};
use cv_pivot::{Encoding, builtin};
use std::alloc::{AllocError, Global};

/// The built-in encodings, and after how many first characters the writer is in a state in which it was not before. In
/// UTF-7 4, 2 and 0 bits are pending after the first, the second and the third character of a shifted sequence.
const ENCODINGS: [(&str, usize); 10] = [
    ("US-ASCII", 0),
    ("ISO-8859-1", 0),
    ("UTF-8", 0),
    ("UTF-16", 1),
    ("UTF-16BE", 0),
    ("UTF-16LE", 0),
    ("UTF-32", 1),
    ("UTF-32BE", 0),
    ("UTF-32LE", 0),
    ("UTF-7", 3),
];

/// The targets that are also written to under the strict policy: those that lack characters, and one that has them all.
const STRICT: [&str; 3] = ["US-ASCII", "ISO-8859-1", "UTF-8"];

/// An encoding to write to, a policy, and the state of a writer.
#[derive(Drop)]
pub struct Target {
    pub name: &'static str,
    pub encoding: Encoding,
    pub policy: Policy,
    pub writing: WriteState,
}

/// Returns each encoding in each of the states of its writer, and those under the strict policy.
pub fn targets(alloc: Global) -> Result<Vec<Target>, AllocError> {
    let mut targets = Vec::new(alloc);
    for (name, leads) in ENCODINGS {
        let Some(encoding) = builtin(name.as_bytes()) else {
            continue;
        };
        let mut writing = WriteState::Start;
        for lead in 0..=leads {
            targets.push(Target {
                name,
                encoding: encoding.clone()?,
                policy: Policy::Substitute,
                writing,
            })?;
            if let Some((_, next)) = encoding.put(writing, Script::Cyrillic.character(lead)) {
                writing = next;
            }
        }
    }
    for name in STRICT {
        if let Some(encoding) = builtin(name.as_bytes()) {
            targets.push(Target {
                name,
                encoding,
                policy: Policy::Strict,
                writing: WriteState::Start,
            })?;
        }
    }
    Ok(targets)
}
