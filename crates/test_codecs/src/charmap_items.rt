//! Small charmaps, read and written by items and by blocks. Their texts are in `charmap_texts`.
use crate::blocks::{read_blocks, write_blocks};
use crate::charmap_texts::charmap;
use crate::items::read_items;
use crate::writing::write_lines;
use cv_base::{Codec, Policy, ReadState, WriteState};
use std::process::Abort;
use std::test::Fail;
use test_support::sides;

const TOY: &str = r#"
81fe81: char 100 2, in Start
8201: char 103 2, in Start
"?": char 3f 1, in Start
81: incomplete
8202: ill
"": end
"#;

const MIXED: &str = r#"
4081: char 4e00 1, in Start
00ff00: char 4e00 3, in Start
00fffe: char 1fffe 3, in Start
00ff: incomplete
00ffff: ill
"?": ill
"#;

/// Reads the items of each line with a charmap, in two states: a charmap treats each state as the start.
fn read_as<R: Abort + AllocGlobal>(rt: &R, name: &str, table: &str) -> Result<(), Fail> {
    let map = charmap(rt.alloc(), name)?;
    for state in [ReadState::Start, ReadState::Big] {
        read_items(rt, &map, state, table)?;
    }
    Ok(())
}

#[test]
fn what_stands_next(rt: HostRuntime) -> Result<(), Fail> {
    read_as(&rt, "TOY", TOY)?;
    read_as(&rt, "MIXED", MIXED)
}

const TOY_WRITTEN: &str = r#"
102: 8200 Start ""
3f: "?" Start ""
104: lacking
"#;

const MIXED_WRITTEN: &str = r#"
4e00: 8140 Start ""
3f: 6f Start ""
10ffff: lacking
"#;

/// Writes the characters of each line with a charmap.
fn write_as<R: Abort + AllocGlobal>(rt: &R, name: &str, table: &str) -> Result<(), Fail> {
    let map = charmap(rt.alloc(), name)?;
    write_lines(rt, &map, WriteState::Start, table)
}

#[test]
fn the_first_pair_of_a_character_is_written(rt: HostRuntime) -> Result<(), Fail> {
    write_as(&rt, "TOY", TOY_WRITTEN)?;
    write_as(&rt, "MIXED", MIXED_WRITTEN)
}

/// Charmaps, how many pairs they have, and the size in bytes of their longest string.
const SIZES: &str = r#"
TOY: 5 2
MIXED: 5 3
"#;

#[test]
fn a_charmap_tells_its_name_and_sizes(rt: HostRuntime) -> Result<(), Fail> {
    let alloc = rt.alloc();
    for line in SIZES.trim().lines() {
        let (name, sizes) = sides(line, ": ")?;
        let map = charmap(alloc, name)?;
        let told = format!(in alloc; "{} {}", map.len(), map.most_bytes())?;
        assert_eq!(rt; told.as_str(), sizes, "{line}");
        assert!(rt; map.name() == name.as_bytes(), "{line}");
        assert!(rt;
            map.close(WriteState::Marked).as_slice().is_empty(),
            "{line}"
        );
    }
    Ok(())
}

#[test]
fn blocks_are_read(rt: HostRuntime) -> Result<(), Fail> {
    let mixed = charmap(rt.alloc(), "MIXED")?;
    let whole = "6f40814000fffe4000ffff 8: 3f 4e00 4e00 1fffe 4e00";
    read_blocks(&rt, &mixed, ReadState::Start, whole)?;
    read_blocks(&rt, &mixed, ReadState::Big, "6f40814000fffe4000ffff 0:")
}

/// Writes the characters of a line as a block with the charmap MIXED.
fn write_mixed<R: Abort + AllocGlobal>(
    rt: &R,
    policy: Policy,
    state: WriteState,
    at: usize,
    line: &str,
) -> Result<(), Fail> {
    let mixed = charmap(rt.alloc(), "MIXED")?;
    write_blocks(rt, &mixed, policy, state, at, line)
}

#[test]
fn blocks_are_written(rt: HostRuntime) -> Result<(), Fail> {
    let (strict, substitute) = (Policy::Strict, Policy::Substitute);
    let (start, marked) = (WriteState::Start, WriteState::Marked);
    let lacks = "4e00 41 1fffe: 1 81406f00fffe Start";
    write_mixed(&rt, strict, start, 1, "4e00 41 1fffe: none")?;
    write_mixed(&rt, substitute, start, 1, lacks)?;
    write_mixed(&rt, substitute, marked, 2, "4e00 41 1fffe: none")?;
    write_mixed(&rt, strict, start, 3, "4e00 1fffe: 0 814000fffe Start")
}
