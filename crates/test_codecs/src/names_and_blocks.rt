//! Names, scalar values and blocks, compared with values from other sources.
use crate::blocks::{read_blocks, write_blocks};
use crate::writing::write_lines;
use cv_base::{Ascii, Latin1, Policy, ReadState, Scalar, WriteState, same_name};
use std::test::Fail;
use test_support::{bytes_of, sides};

const NAMES: &str = r#"
"" "": same
"iso-8859-1" "ISO-8859-1": same
c4ff c4ff: same
"UTF8" "UTF-8": other
"UTF-8" "UTF-8"20: other
"@" "`": other
c4 e4: other
"#;

#[test]
fn names_differ_by_more_than_case(rt: HostRuntime) -> Result<(), Fail> {
    for line in NAMES.trim().lines() {
        let (names, wanted) = sides(line, ": ")?;
        let (one, other) = sides(names, " ")?;
        let one = bytes_of(rt.alloc(), one)?;
        let other = bytes_of(rt.alloc(), other)?;
        assert_eq!(rt; same_name(&one, &other), wanted == "same", "{line}");
    }
    Ok(())
}

#[test]
fn scalar_values_are_no_surrogates(rt: HostRuntime) -> Result<(), Fail> {
    for value in [0, 0x41, 0xD7FF, 0xE000, 0xFFFE, 0x10_FFFF] {
        assert_eq!(rt; Scalar::new(value).map(Scalar::value), Some(value));
    }
    for value in [0xD800, 0xDFFF, 0x11_0000, u32::MAX] {
        assert_eq!(rt; Scalar::new(value), None);
    }
    Ok(())
}

/// Texts of ISO-8859-1, how many bytes at their start are US-ASCII, and their characters.
const FRONTS: &str = r#"
"" 0:
"A"007f 3: 41 0 7f
"caf"e92080ff 3: 63 61 66
"#;

const LATIN1_TEXTS: &str = r#"
"" 0:
"A"007f 3: 41 0 7f
"caf"e92080ff 7: 63 61 66 e9 20 80 ff
"#;

/// What their characters are in US-ASCII, one by one. The tables after it have blocks of them.
const ONE_BY_ONE: &str = r#"
41 0 7f: "A"007f Start ""
63 61 66: "caf" Start ""
e9: lacking
20: 20 Start ""
80: lacking
ff: lacking
"#;

const SUBSTITUTED: &str = r#"
: 0 "" Start
41 0 7f: 0 "A"007f Start
63 61 66 e9 20 80 ff: 3 "caf?"20"??" Start
"#;

const STRICT: &str = r#"
: 0 "" Start
41 0 7f: 0 "A"007f Start
63 61 66 e9 20 80 ff: none
"#;

const LATIN1: &str = r#"
: 0 "" Start
41 0 7f: 0 "A"007f Start
63 61 66 e9 20 80 ff: 0 "caf"e92080ff Start
"#;

#[test]
fn blocks_are_read_and_written(rt: HostRuntime) -> Result<(), Fail> {
    read_blocks(&rt, &Ascii, ReadState::Start, FRONTS)?;
    read_blocks(&rt, &Latin1, ReadState::Start, LATIN1_TEXTS)?;
    let start = WriteState::Start;
    write_lines(&rt, &Ascii, start, ONE_BY_ONE)?;
    write_blocks(&rt, &Ascii, Policy::Substitute, start, 1, SUBSTITUTED)?;
    write_blocks(&rt, &Ascii, Policy::Strict, start, 1, STRICT)?;
    write_blocks(&rt, &Latin1, Policy::Strict, start, 1, LATIN1)
}
