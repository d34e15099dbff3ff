//! Conversions under the strict policy, compared with bytes from other sources.
use crate::blocks::write_blocks;
use crate::converting::{conversion, convert, encoding};
use cv_base::{Policy, WriteState};
use cv_pivot::{Conversion, Outcome, Stop};
use std::alloc::{AllocError, Global};
use std::test::Fail;
use test_support::sides;

const LACKING: &str = r#"
UTF-8 US-ASCII: "A"c3a9"B" 9 = Lacking 3 0 "A"
UTF-8 US-ASCII: c3a9 0 = Lacking 2 0 ""
UTF-8 US-ASCII: "B" 0 = TooBig 1 0 ""
UTF-8 US-ASCII: c3 9 = Incomplete 1 0 ""
UTF-8 US-ASCII: "A"c3a9 0 = TooBig 3 0 ""; "A"c3a9 1 = Lacking 2 0 "A"; c3a9 9 = Lacking 2 0 ""; "?B" 9 = Done 0 0 "?B"
"#;

#[test]
fn a_lacking_character_is_not_used(rt: HostRuntime) -> Result<(), Fail> {
    convert(&rt, Policy::Strict, LACKING)
}

const IN_FRONT: &str = r#"
UTF-7 US-ASCII: "+AOk-" 9 = Lacking 4 0 ""; "AOk-" 9 = Lacking 4 0 ""; "-B" 9 = Done 0 0 "B"
UTF-7 ISO-8859-1: "+AMk-"20"+AQA-" 9 = Lacking 4 0 c920
UTF-16 US-ASCII: fffe"A"00e900 1 = Lacking 2 0 "A"; "B"00 9 = Done 0 0 "B"
UTF-16 US-ASCII: fffee900 0 = Lacking 2 0 ""
UTF-16BE ISO-8859-1: feff00"A" 9 = Lacking 4 0 ""
UTF-8 UTF-16: efbbbf 9 = Done 0 0 fefffeff
"#;

#[test]
fn marks_and_shifts_in_front_are_used(rt: HostRuntime) -> Result<(), Fail> {
    convert(&rt, Policy::Strict, IN_FRONT)
}

const KEPT: &str = r#"
UTF-8 US-ASCII: reset 0 = ""; c3a9 9 = Lacking 2 0 ""; reset 9 = ""; c3a9 9 = Lacking 2 0 ""
"#;

#[test]
fn a_reset_keeps_the_policy(rt: HostRuntime) -> Result<(), Fail> {
    convert(&rt, Policy::Strict, KEPT)
}

/// Encodings, and what blocks of three characters are written as at the start of a text. No block is written before the
/// byte order mark.
const BLOCKS: &str = r#"
US-ASCII 41 7f 41: 0 417f41 Start
US-ASCII 41 80 41: none
ISO-8859-1 41 ff 41: 0 41ff41 Start
ISO-8859-1 41 100 41: none
ISO-8859-1 41 10000 41: none
UTF-8 41 10ffff 41: 0 41f48fbfbf41 Start
UTF-16 41 41 41: none
UTF-16BE 41 41 41: 0 004100410041 Start
UTF-16LE 41 10ffff 41: 0 4100ffdbffdf4100 Start
UTF-32 41 41 41: none
UTF-32BE 41 41 41: 0 000000410000004100000041 Start
UTF-32LE 41 10ffff 41: 0 41000000ffff100041000000 Start
UTF-7 41 41 41: 0 "AAA" Start
"#;

/// The same after the byte order mark.
const MARKED_BLOCKS: &str = r#"
ISO-8859-1 41 ff 41: none
UTF-16 41 10ffff 41: 0 0041dbffdfff0041 Marked
UTF-32 41 41 41: 0 000000410000004100000041 Marked
"#;

#[test]
fn encodings_write_the_blocks_that_they_have(rt: HostRuntime) -> Result<(), Fail> {
    for (state, blocks) in [
        (WriteState::Start, BLOCKS),
        (WriteState::Marked, MARKED_BLOCKS),
    ] {
        for line in blocks.trim().lines() {
            let (name, block) = sides(line, " ")?;
            let encoding = encoding(rt.alloc(), name)?;
            write_blocks(&rt, &encoding, Policy::Strict, state, 1, block)?;
        }
    }
    Ok(())
}

/// How many characters a long text has.
const LONG: usize = 200;

/// The number of the character at index `place` of a long text, which repeats the sixteen characters from `first` on.
fn number_at(first: u16, place: usize) -> u16 {
    first.saturating_add((place % 16) as u16)
}

/// A long text in UTF-16BE, in which `other` is the character at index `place`.
fn text_with(alloc: Global, first: u16, place: usize, other: u16) -> Result<Vec<u8>, AllocError> {
    let mut text = Vec::new(alloc);
    for k in 0..LONG {
        let number = if k == place {
            other
        } else {
            number_at(first, k)
        };
        text.extend_from_slice(&number.to_be_bytes())?;
    }
    Ok(text)
}

/// Whether the bytes are the first characters of a long text, one byte each.
fn are_bytes(bytes: &[u8], first: u16) -> bool {
    let mut places = bytes.iter().enumerate();
    places.all(|(place, byte)| u16::from(*byte) == number_at(first, place))
}

/// Whether a conversion writes what is before the character that the target lacks, as far as `out` has room, and then
/// stops.
fn is_written_before(
    conversion: &mut Conversion,
    text: &[u8],
    first: u16,
    place: usize,
    out: &mut [u8],
) -> bool {
    let taken = place.min(out.len());
    let want = Outcome {
        left: LONG.saturating_sub(taken).saturating_mul(2),
        room_left: out.len().saturating_sub(taken),
        count: 0,
        stop: if taken < place {
            Stop::TooBig
        } else {
            Stop::Lacking
        },
    };
    conversion.convert(text, out) == want && are_bytes(out.get(..taken).unwrap_or(&[]), first)
}

#[test]
fn blocks_end_before_a_lacking_character(rt: HostRuntime) -> Result<(), Fail> {
    for (name, first, other) in [("US-ASCII", 0x61, 0xe9), ("ISO-8859-1", 0xc0, 0x100)] {
        for place in [0, 15, 16, 63, 64, 65, 130] {
            let text = text_with(rt.alloc(), first, place, other)?;
            for room in [2048, place, place / 2] {
                let mut conversion = conversion(rt.alloc(), "UTF-16BE", name, Policy::Strict)?;
                let mut out = vec![in rt.alloc(); 0u8; room]?;
                let written = is_written_before(&mut conversion, &text, first, place, &mut out);
                assert!(rt; written, "{name} {place} {room}");
            }
        }
    }
    Ok(())
}
