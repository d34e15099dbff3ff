//! Blocks of UTF-7 with runs of code units of each length before each kind of end. They are compared with what is
//! written character by character.
use crate::words::scalars_of;
use cv_base::{BlockCodec, Codec, Policy, Put, Scalar, WriteState};
use cv_utf7::Utf7;
use std::alloc::Global;
use std::test::Fail;

/// What is written before the block: it leaves the start, or a shifted sequence with four, two or no bits pending.
const FRONTS: [&str; 4] = ["", "3b1", "3b1 3b2", "3b1 3b2 3b3"];

/// What ends a run: the end of the block, a direct character, `-`, `~`, `+`, U+FFFF, and characters of two code units.
const ENDS: [&str; 8] = [
    "",
    "20",
    "2d",
    "7e",
    "2b",
    "ffff",
    "1f600",
    "20 e9 1f600 e9 20",
];

/// What follows the end of a run.
const TAILS: [&str; 3] = [
    "",
    "61 62 63",
    "61 62 63 64 65 66 67 68 69 6a 6b 6c 6d 6e 6f 70",
];

/// Appends the bytes of characters one by one, and returns the state after them.
fn one_by_one(
    start: WriteState,
    characters: &[Scalar],
    bytes: &mut Vec<u8>,
) -> Result<WriteState, Fail> {
    let mut state = start;
    for c in characters {
        let mut out = [0; 8];
        let Put::Wrote { n, next } = Utf7.put_at(state, *c, &mut out, 0) else {
            return Err("a character isn't written".into());
        };
        bytes.extend_from_slice(out.get(..n).unwrap_or(&[]))?;
        state = next;
    }
    Ok(state)
}

/// The characters of a run of code units that are not ASCII, of its end and of what follows.
fn characters_of(alloc: Global, run: u32, end: &str, tail: &str) -> Result<Vec<Scalar>, Fail> {
    let mut characters = Vec::new(alloc);
    for k in 0..run.min(30) {
        characters.push(Scalar::new(0x80 + k * 0x6f1).ok_or("no scalar value")?)?;
    }
    characters.extend_from_slice(&scalars_of(alloc, end)?)?;
    characters.extend_from_slice(&scalars_of(alloc, tail)?)?;
    Ok(characters)
}

/// Whether a block of these characters is written as they are one by one, and nothing around it.
fn is_written(alloc: Global, front: &str, characters: &[Scalar]) -> Result<bool, Fail> {
    if characters.len() > 256 {
        return Err("a block that doesn't fit".into());
    }
    let mut before = Vec::new(alloc);
    let state = one_by_one(WriteState::Start, &scalars_of(alloc, front)?, &mut before)?;
    let mut bytes = Vec::new(alloc);
    let next = one_by_one(state, characters, &mut bytes)?;
    let mut out = [b'*'; 400];
    let Some(block) = Utf7.write_block(Policy::Strict, state, characters, &mut out, 3) else {
        return Ok(false);
    };
    let (around, rest) = out.split_at(3);
    let behind = rest.get(bytes.len()..).unwrap_or(&[]);
    Ok(
        block.wrote == bytes.len()
            && block.next == next
            && rest.starts_with(&bytes)
            && around.iter().all(|byte| *byte == b'*')
            && behind.iter().all(|byte| *byte == b'*'),
    )
}

#[test]
fn runs_are_written_as_one_by_one(rt: HostRuntime) -> Result<(), Fail> {
    for run in 0..31u32 {
        for end in ENDS {
            for tail in TAILS {
                let characters = characters_of(rt.alloc(), run, end, tail)?;
                for front in FRONTS {
                    let written = is_written(rt.alloc(), front, &characters)?;
                    assert!(rt; written, "{front}: {run} units, {end}, {tail}");
                }
            }
        }
    }
    Ok(())
}
