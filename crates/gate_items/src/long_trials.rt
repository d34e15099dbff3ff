//! Texts around the ends of long blocks.

use crate::scripts::SCRIPTS;
use crate::shapes::Middle;
use crate::trials::{Part, Trial, interrupted, run};
use std::alloc::AllocError;

/// The longest run in which long blocks end: a short block, two long ones, and some characters.
const LONG_BLOCKS: usize = 600;

/// The numbers of characters after which the first long block begins, or one ends.
const LONG_BOUNDS: [usize; 4] = [64, 256, 320, 576];

/// Where a text is cut, and its room, so that it ends near the end of a block.
const ENDS: [(Part, Part); 5] = [
    (Part::All, Part::All),
    (Part::AllBut(1), Part::All),
    (Part::AllBut(2), Part::All),
    (Part::All, Part::AllBut(0)),
    (Part::All, Part::AllBut(1)),
];

/// Adds runs that end near the end of a long block: whole, cut in their last character, and with an output that is too
/// small or just large enough.
pub fn long_runs(trials: &mut Vec<Trial>) -> Result<(), AllocError> {
    for script in SCRIPTS {
        for bound in LONG_BOUNDS {
            for length in bound.saturating_sub(1)..=bound.saturating_add(1) {
                for (cut, room) in ENDS {
                    trials.push(Trial {
                        shape: run(script, length),
                        cut,
                        room,
                    })?;
                }
            }
        }
    }
    Ok(())
}

/// Adds runs of several long blocks, with `middle` near the end of one.
pub fn long_stops(trials: &mut Vec<Trial>, middle: Middle) -> Result<(), AllocError> {
    for script in SCRIPTS {
        for bound in LONG_BOUNDS {
            for place in bound.saturating_sub(2)..=bound.saturating_add(2) {
                trials.push(Trial {
                    shape: interrupted(script, LONG_BLOCKS, place, middle),
                    cut: Part::All,
                    room: Part::All,
                })?;
            }
        }
    }
    Ok(())
}
