//! Conversions from and to charmaps, compared with bytes from other sources. Their texts are in `charmap_texts`.
use crate::converting::{convert, encoding};
use cv_base::Policy;
use cv_pivot::{Conversion, Encoding, Outcome, Stop};
use std::alloc::Global;
use std::test::Fail;

const ROWS: &str = r#"
TOY UTF-16BE: 81fe81ff82008201 16 = Done 0 0 0100010101020103
TOY UTF-16BE: 81fe81ff82008201 7 = TooBig 2 0 010001010102
TOY UTF-16BE: 81 9 = Incomplete 1 0 ""
TOY UTF-16BE: 8202 9 = Ill 2 0 ""
UTF-16BE TOY: 0100010101020103 16 = Done 0 0 81fe81ff82008201
UTF-16BE TOY: 01020104 9 = Done 0 1 8200"?"; 0102 1 = TooBig 2 0 ""
UTF-8 MOVED: e282ac"?o" 9 = Done 0 1 "oo?"
MOVED US-ASCII: "o?@a" 9 = Ill 1 1 "?o?"
TOY MOVED: "?"82008201 9 = Done 0 1 "o@o"
"#;

#[test]
fn charmaps_are_read_and_written(rt: HostRuntime) -> Result<(), Fail> {
    convert(&rt, Policy::Substitute, ROWS)
}

const STRICT: &str = r#"
UTF-16BE TOY: 0102010400"?" 9 = Lacking 4 0 8200; 010400"?" 0 = Lacking 4 0 ""; 00"?" 9 = Done 0 0 "?"
UTF-8 MOVED: "o"e282ac 9 = Lacking 3 0 "?"
TOY MOVED: "?"82008201 9 = Lacking 2 0 "o@"
"#;

#[test]
fn a_strict_conversion_stops_before_what_a_charmap_lacks(rt: HostRuntime) -> Result<(), Fail> {
    convert(&rt, Policy::Strict, STRICT)
}

const CLOSING: &str = r#"
UTF-7 TOY: "+AQI" 9 = Done 0 0 8200; reset 1 = ""; "AQI" 9 = Done 0 3 "???"
"#;

#[test]
fn a_charmap_has_nothing_to_close(rt: HostRuntime) -> Result<(), Fail> {
    convert(&rt, Policy::Substitute, CLOSING)
}

/// The characters of the charmap WIDE as UTF-32BE, and its strings.
fn all_of_wide(alloc: Global) -> Result<(Vec<u8>, Vec<u8>), Fail> {
    let mut scalars = Vec::new(alloc);
    let mut strings = Vec::new(alloc);
    for k in 0..65_534u32 {
        scalars.extend_from_slice(&(0x1_0000 + k).to_be_bytes())?;
        let [_, first, second, third] = (0x80_0000 + k).to_be_bytes();
        strings.extend_from_slice(&[first, second, third])?;
    }
    scalars.extend_from_slice(&[0, 0, 0, 0x3f])?;
    strings.extend_from_slice(&[0x81, 0, 0])?;
    Ok((scalars, strings))
}

/// Whether the whole input is converted to this output, and no `?` is written for a character.
fn is_converted(
    alloc: Global,
    encodings: (&Encoding, &Encoding),
    policy: Policy,
    input: &[u8],
    output: &[u8],
) -> Result<bool, Fail> {
    let (from, to) = encodings;
    let mut conversion = Conversion::new(to.clone()?, from.clone()?, policy);
    let mut out = vec![in alloc; 0u8; output.len()]?;
    let outcome = conversion.convert(input, &mut out);
    let whole = Outcome {
        left: 0,
        room_left: 0,
        count: 0,
        stop: Stop::Done,
    };
    Ok(outcome == whole && out.as_slice() == output)
}

#[test]
fn all_of_a_large_charmap_is_converted(rt: HostRuntime) -> Result<(), Fail> {
    let alloc = rt.alloc();
    let map = encoding(alloc, "WIDE")?;
    let plain = encoding(alloc, "UTF-32BE")?;
    let (scalars, strings) = all_of_wide(alloc)?;
    for policy in [Policy::Substitute, Policy::Strict] {
        let there = is_converted(alloc, (&plain, &map), policy, &scalars, &strings)?;
        let back = is_converted(alloc, (&map, &plain), policy, &strings, &scalars)?;
        assert!(rt; there && back, "{policy:?}");
    }
    Ok(())
}
