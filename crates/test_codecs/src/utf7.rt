//! Test vectors of UTF-7 (RFC 2152), and of texts that are cut off or ill-formed.
use crate::blocks::read_blocks;
use crate::items::read_items;
use crate::writing::write_lines;
use cv_base::{Codec, ReadState, WriteState};
use cv_utf7::Utf7;
use std::test::Fail;

const ITEMS: &str = r#"
"A+ImIDkQ.": char 41 1, shift 1, char 2262 3, char 391 3, char 2e 1, end
"+": incomplete
"+A": shift 1, incomplete
"+-": char 2b 2, end
"+~": ill
"+A-": shift 1, shift 2, end
"+E-": shift 1, ill
"+3": shift 1, ill
"+2D3": shift 1, incomplete
"+2D3A": shift 1, ill
"+2D3eAA-": shift 1, char 1f600 6, shift 1, end
"+AOk-": shift 1, char e9 3, shift 1, end
"+AOkAKw-": shift 1, char e9 3, char 2b 3, shift 1, end
"A+AH4-B": char 41 1, shift 1, char 7e 3, shift 1, char 42 1, end
"-+Jjo--!": char 2d 1, shift 1, char 263a 3, shift 1, char 2d 1, char 21 1, end
"+AOk!": shift 1, char e9 3, char 21 1, end
"+AOl-": shift 1, char e9 3, ill
"+AOk~": shift 1, char e9 3, ill
"\": ill
"~": ill
c3: ill
"": end
"#;

#[test]
fn reads(rt: HostRuntime) -> Result<(), Fail> {
    read_items(&rt, &Utf7, ReadState::Start, ITEMS)
}

// Sequences of one to five characters among sixteen bytes, with what ends them.
const BLOCKS: &str = r#"
"+APw-abcdefghijklm" 12: fc 61 62 63 64 65 66 67
"+APwA3w-e_aus_Ko" 14: fc df 65 5f 61 75 73 5f
"+AOQA9gD8-abcdefgh" 15: e4 f6 fc 61 62 63 64 65
"+AOQA9gD8AOQA9g!ab_" 18: e4 f6 fc e4 f6 21 61 62
"+2D3eAA-abcdefghij" 15: 1f600 61 62 63 64 65 66 67
"+A-+A-+A-+APwA3w-" 17: fc df
"#;

#[test]
fn reads_blocks(rt: HostRuntime) -> Result<(), Fail> {
    read_blocks(&rt, &Utf7, ReadState::Start, BLOCKS)
}

const TEXTS: &str = r#"
41 7e 42: "A+AH4-B" Start ""
e9: "+AO" Shifted "k-"
e9 e9: "+AOkA6" Shifted "Q-"
e9 2b: "+AOkAK" Shifted "w-"
1f600: "+2D3eA" Shifted "A-"
2d 263a 2d 21: "-+Jjo--+AC" Shifted "E-"
2b 3f: "+-?" Start ""
2262 1f600 1f600 1f600: "+ImLYPd4A2D3eANg93g" Shifted "A-"
: "" Start ""
"#;

#[test]
fn writes(rt: HostRuntime) -> Result<(), Fail> {
    assert_eq!(rt; Utf7.most_bytes(), 6);
    write_lines(&rt, &Utf7, WriteState::Start, TEXTS)
}
