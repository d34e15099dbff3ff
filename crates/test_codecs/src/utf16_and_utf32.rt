//! Items and writing of UTF-16 and UTF-32 in their byte orders, and their forms of ASCII.
use crate::items::read_items;
use crate::writing::write_lines;
use cv_base::{AsciiForm, Codec, Endian, ReadState, WriteState};
use cv_utf16::{Order, Utf16, Utf32};
use std::test::Fail;

const UTF16: &str = r#"
feff: shift 2, in Big
fffe4100: shift 2, in Little
fe: incomplete
0041: char 41 2, in Big
"#;

const UTF16BE: &str = r#"
feff: char feff 2, in Start
d80000: ill
d83dde00: char 1f600 4, in Start
"#;

const UTF16LE: &str = r#"
3dd800: incomplete
00dc: ill
"#;

#[test]
fn utf16_items(rt: HostRuntime) -> Result<(), Fail> {
    let marked = Utf16::new(Order::Marked);
    read_items(&rt, &marked, ReadState::Start, UTF16)?;
    read_items(
        &rt,
        &marked,
        ReadState::Little,
        "fffe: char feff 2, in Little",
    )?;
    read_items(&rt, &Utf16::new(Order::Be), ReadState::Start, UTF16BE)?;
    read_items(&rt, &Utf16::new(Order::Le), ReadState::Start, UTF16LE)
}

const UTF32: &str = r#"
0000feff: shift 4, in Big
fffe0000: shift 4, in Little
fffe: incomplete
0011: ill
01: ill
"#;

const UTF32LE: &str = r#"
00d8: incomplete
00f60100: char 1f600 4, in Start
"#;

#[test]
fn utf32_items(rt: HostRuntime) -> Result<(), Fail> {
    let start = ReadState::Start;
    read_items(&rt, &Utf32::new(Order::Marked), start, UTF32)?;
    read_items(&rt, &Utf32::new(Order::Be), start, "0000d8: ill")?;
    read_items(&rt, &Utf32::new(Order::Le), start, UTF32LE)
}

#[test]
fn writes(rt: HostRuntime) -> Result<(), Fail> {
    let (start, marked) = (WriteState::Start, WriteState::Marked);
    let utf16 = Utf16::new(Order::Marked);
    write_lines(&rt, &utf16, start, r#"1f600: feffd83dde00 Marked """#)?;
    write_lines(&rt, &utf16, marked, r#"feff: feff Marked """#)?;
    write_lines(&rt, &Utf16::new(Order::Le), start, r#"e9: e900 Start """#)?;
    let utf32 = Utf32::new(Order::Marked);
    write_lines(&rt, &utf32, start, r#"e9: 0000feff000000e9 Marked """#)?;
    write_lines(
        &rt,
        &Utf32::new(Order::Be),
        start,
        r#"feff: 0000feff Start """#,
    )
}

#[test]
fn ascii_forms(rt: HostRuntime) {
    let (reads, writes) = (ReadState::Start, WriteState::Start);
    assert_eq!(rt;
        Utf16::new(Order::Be).reads_ascii(reads),
        Some(AsciiForm::Two(Endian::Big))
    );
    assert_eq!(rt;
        Utf16::new(Order::Le).writes_ascii(writes),
        Some(AsciiForm::Two(Endian::Little))
    );
    assert_eq!(rt;
        Utf32::new(Order::Marked).reads_ascii(ReadState::Little),
        Some(AsciiForm::Four(Endian::Little))
    );
    assert_eq!(rt;
        Utf32::new(Order::Marked).writes_ascii(WriteState::Marked),
        Some(AsciiForm::Four(Endian::Big))
    );
}
