//! Every two encodings.

use crate::calls::{Fault, UNWRITTEN, make_calls};
use crate::sources::{SOURCES, Source};
use crate::targets::{Target, targets};
use crate::trials::{Trial, inner_trials, trials};
use cv_pivot::{Conversion, States};
use std::alloc::{AllocError, Global};

/// The size in bytes of the largest output: room for about 1,050 characters of at most six bytes, and what makes it
/// ample.
const BUFFER: usize = 12_288;

/// Why not all calls were compared.
#[derive(Debug, Drop)]
pub enum Unfinished {
    /// The results of one of them differ from those of its items. The text says which one.
    Differs(String),
    Memory(AllocError),
}

impl From<AllocError> for Unfinished {
    fn from(error: AllocError) -> Unfinished {
        Unfinished::Memory(error)
    }
}

/// Compares the calls of a trial for each target, and returns how many they are.
fn compare_trial(
    alloc: Global,
    source: &Source,
    lead: usize,
    trial: &Trial,
    targets: &[Target],
    buffer: &mut [u8],
) -> Result<usize, Unfinished> {
    let Some(text) = source.text(alloc, lead, &trial.shape)? else {
        return Ok(0);
    };
    let mut count: usize = 0;
    for target in targets {
        let conversion = Conversion {
            from: text.encoding.clone()?,
            to: target.encoding.clone()?,
            policy: target.policy,
            states: States {
                reading: text.reading,
                writing: target.writing,
            },
        };
        match make_calls(alloc, conversion, text.rest(), trial, buffer) {
            Ok(calls) => count = count.saturating_add(calls),
            Err(Fault::Memory(error)) => return Err(Unfinished::Memory(error)),
            Err(Fault::Differs(difference)) => {
                let Source { name, spelling, .. } = *source;
                return Err(Unfinished::Differs(format!(in alloc;
                    "{name} as {spelling} to {}, {:?}, behind {lead} characters: {trial:?}: {difference:?}",
                    target.name, target.policy
                )?));
            }
        }
    }
    Ok(count)
}

/// Compares the calls of trials for each target, and returns how many they are.
fn compare_trials(
    alloc: Global,
    source: &Source,
    lead: usize,
    trials: &[Trial],
    targets: &[Target],
    buffer: &mut [u8],
) -> Result<usize, Unfinished> {
    let mut count: usize = 0;
    for trial in trials {
        let more = compare_trial(alloc, source, lead, trial, targets, buffer)?;
        count = count.saturating_add(more);
    }
    Ok(count)
}

/// Compares all calls, and returns how many they are.
pub fn compare_all(alloc: Global) -> Result<usize, Unfinished> {
    let targets = targets(alloc)?;
    let inner = inner_trials(alloc)?;
    let mut buffer = vec![in alloc; UNWRITTEN; BUFFER]?;
    let mut count: usize = 0;
    for source in &SOURCES {
        let all = trials(alloc, source.spelling)?;
        for lead in 0..=source.leads {
            let trials = if lead == 0 { &all } else { &inner };
            let more = compare_trials(alloc, source, lead, trials, &targets, &mut buffer)?;
            count = count.saturating_add(more);
        }
    }
    Ok(count)
}
