//! The texts that are converted, where they are cut, and the room of their outputs.

use crate::long_trials::{long_runs, long_stops};
use crate::scripts::{LIMITS, PLAIN, SCRIPTS, Script};
use crate::shapes::{Middle, Run, Shape};
use crate::stops::{CHARACTERS, bytes_in};
use std::alloc::{AllocError, Global};

/// A part of a whole.
#[derive(Clone, Copy, Debug, PartialEq, Eq)]
pub enum Part {
    All,
    First(usize),
    AllBut(usize),
}

impl Part {
    pub fn of(self, whole: usize) -> usize {
        match self {
            Part::All => whole,
            Part::First(size) => size.min(whole),
            Part::AllBut(size) => whole.saturating_sub(size),
        }
    }
}

/// A text, how much of it the first call is given, and the room of that call as a part of what is written for the
/// whole. If the part is all of it, the room is ample.
#[derive(Clone, Copy, Debug, PartialEq, Eq)]
pub struct Trial {
    pub shape: Shape,
    pub cut: Part,
    pub room: Part,
}

/// Loops take 16, 32 or 64 characters or bytes at once, and a conversion 64 characters before it takes 256.
const BOUNDS: [usize; 4] = [16, 32, 64, 128];

/// The longest run: two blocks, and one more character.
const LONGEST: usize = 129;

/// The lengths of runs that are interrupted: one shorter than the smallest block, one of two such blocks, and one of
/// two short blocks of a conversion.
const INTERRUPTED: [usize; 3] = [12, 32, 128];

/// A size in bytes of UTF-8 near which runs end. Blocks of 64 bytes are tested at once, and one of them ends there.
const PART: usize = 1024;

/// How many bytes each character of a script has in UTF-8.
const SIZES: [(Script, usize); 5] = [
    (Script::Letters, 1),
    (Script::Latin, 2),
    (Script::Cyrillic, 2),
    (Script::Han, 3),
    (Script::Emoji, 4),
];

/// How near to the ends of a text each index is tried: more than the smallest block.
const NEAR: usize = 20;

/// The length of a run after another one.
const BEHIND: usize = 40;

/// The most bytes of a small room, and the most that a room may lack: more than a character has, which is eight at
/// most.
const CHARACTER: usize = 9;

/// Whether a loop may end at this length.
fn is_bound(length: usize) -> bool {
    BOUNDS.iter().any(|bound| length.abs_diff(*bound) <= 1)
}

/// Whether an index is near one of the ends of a text of this length, or near the end of a block.
fn is_tried(place: usize, length: usize) -> bool {
    place < NEAR || length.saturating_sub(place) <= NEAR || place.abs_diff(64) <= 2
}

/// Returns a text of one run.
pub fn run(script: Script, length: usize) -> Shape {
    Shape {
        front: Run { script, length },
        middle: Middle::Nothing,
        back: Run { script, length: 0 },
    }
}

/// Adds runs of each length near which a loop may end, and of each short length.
fn lengths(trials: &mut Vec<Trial>) -> Result<(), AllocError> {
    for script in SCRIPTS {
        for length in (0..=LONGEST).filter(|n| *n <= NEAR || is_bound(*n)) {
            trials.push(Trial {
                shape: run(script, length),
                cut: Part::All,
                room: Part::All,
            })?;
        }
    }
    Ok(())
}

/// Adds texts that are cut.
fn cuts(trials: &mut Vec<Trial>) -> Result<(), AllocError> {
    for script in SCRIPTS {
        let shape = run(script, LONGEST);
        for size in (1..=LONGEST).filter(|n| *n <= NEAR || is_bound(*n)) {
            trials.push(Trial {
                shape,
                cut: Part::First(size),
                room: Part::All,
            })?;
        }
        for size in 1..=NEAR {
            trials.push(Trial {
                shape,
                cut: Part::AllBut(size),
                room: Part::All,
            })?;
        }
    }
    Ok(())
}

/// Adds rooms of a few bytes, and rooms that are a few bytes too small.
fn rooms(trials: &mut Vec<Trial>) -> Result<(), AllocError> {
    for script in SCRIPTS {
        for bound in BOUNDS {
            let shape = run(script, bound + 1);
            for size in 0..=CHARACTER {
                for room in [Part::First(size), Part::AllBut(size)] {
                    trials.push(Trial {
                        shape,
                        cut: Part::All,
                        room,
                    })?;
                }
            }
        }
    }
    Ok(())
}

/// Adds runs of about `PART` bytes of UTF-8: whole, cut in their last character, with an output that is a little too
/// small, and with a byte after them that begins no character.
fn parts(trials: &mut Vec<Trial>) -> Result<(), AllocError> {
    for (script, size) in SIZES {
        let length = PART.checked_div(size).unwrap_or(0);
        for length in length.saturating_sub(1)..=length.saturating_add(2) {
            for cut in [Part::All, Part::AllBut(1), Part::AllBut(2)] {
                trials.push(Trial {
                    shape: run(script, length),
                    cut,
                    room: Part::All,
                })?;
            }
            for room in [Part::AllBut(1), Part::AllBut(3)] {
                trials.push(Trial {
                    shape: run(script, length),
                    cut: Part::All,
                    room,
                })?;
            }
            trials.push(Trial {
                shape: interrupted(
                    script,
                    length.saturating_add(NEAR),
                    length,
                    Middle::Byte(0xff),
                ),
                cut: Part::All,
                room: Part::All,
            })?;
        }
    }
    Ok(())
}

/// Adds two runs of different scripts, one after the other.
fn seams(trials: &mut Vec<Trial>) -> Result<(), AllocError> {
    for script in PLAIN {
        for behind in PLAIN.iter().filter(|other| **other != script) {
            for length in (0..=LONGEST).filter(|n| is_bound(*n)) {
                trials.push(Trial {
                    shape: Shape {
                        front: Run { script, length },
                        middle: Middle::Nothing,
                        back: Run {
                            script: *behind,
                            length: BEHIND,
                        },
                    },
                    cut: Part::All,
                    room: Part::All,
                })?;
            }
        }
    }
    Ok(())
}

/// Returns a run with `middle` after its first `place` characters.
pub fn interrupted(script: Script, length: usize, place: usize, middle: Middle) -> Shape {
    Shape {
        front: Run {
            script,
            length: place,
        },
        middle,
        back: Run {
            script,
            length: length.saturating_sub(place),
        },
    }
}

/// Adds runs with `middle` at each index near their ends and near the end of a block. The room is ample, or holds
/// exactly what is written.
fn interruptions(trials: &mut Vec<Trial>, middle: Middle) -> Result<(), AllocError> {
    for script in PLAIN {
        for length in INTERRUPTED {
            for place in (0..=length).filter(|place| is_tried(*place, length)) {
                for room in [Part::All, Part::AllBut(0)] {
                    trials.push(Trial {
                        shape: interrupted(script, length, place, middle),
                        cut: Part::All,
                        room,
                    })?;
                }
            }
        }
    }
    Ok(())
}

/// Adds runs with each byte in the middle.
fn bytes(trials: &mut Vec<Trial>) -> Result<(), AllocError> {
    for script in PLAIN {
        for byte in 0..=255u8 {
            trials.push(Trial {
                shape: interrupted(script, LONGEST, NEAR, Middle::Byte(byte)),
                cut: Part::All,
                room: Part::All,
            })?;
        }
    }
    Ok(())
}

/// Returns the trials of texts before which the reader may have read characters.
pub fn inner_trials(alloc: Global) -> Result<Vec<Trial>, AllocError> {
    let mut trials = Vec::new(alloc);
    lengths(&mut trials)?;
    cuts(&mut trials)?;
    rooms(&mut trials)?;
    parts(&mut trials)?;
    seams(&mut trials)?;
    Ok(trials)
}

/// Returns all trials of texts that are written in the encoding `spelling`.
pub fn trials(alloc: Global, spelling: &str) -> Result<Vec<Trial>, AllocError> {
    let mut trials = inner_trials(alloc)?;
    bytes(&mut trials)?;
    long_runs(&mut trials)?;
    long_stops(&mut trials, Middle::Character('漢'))?;
    long_stops(&mut trials, Middle::Byte(0xff))?;
    for c in CHARACTERS.iter().chain(&LIMITS) {
        interruptions(&mut trials, Middle::Character(*c))?;
    }
    for bytes in bytes_in(spelling) {
        interruptions(&mut trials, Middle::Bytes(bytes))?;
    }
    Ok(trials)
}
