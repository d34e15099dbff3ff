//! Items of UTF-8, how it is written, and its form of ASCII.
use crate::items::read_items;
use crate::writing::write_lines;
use cv_base::{AsciiForm, Codec, ReadState, WriteState};
use cv_utf8::Utf8;
use std::test::Fail;

const ITEMS: &str = r#"
f09f9880: char 1f600 4, in Start
efbbbf: char feff 3, in Start
e282: incomplete
c080: ill
ed: incomplete
eda0: ill
"": end
"#;

#[test]
fn utf8_items(rt: HostRuntime) -> Result<(), Fail> {
    read_items(&rt, &Utf8, ReadState::Start, ITEMS)
}

#[test]
fn writes(rt: HostRuntime) -> Result<(), Fail> {
    write_lines(&rt, &Utf8, WriteState::Start, r#"1f600: f09f9880 Start """#)
}

#[test]
fn ascii_forms(rt: HostRuntime) {
    let (reads, writes) = (ReadState::Start, WriteState::Start);
    assert_eq!(rt; Utf8.reads_ascii(reads), Some(AsciiForm::Byte));
    assert_eq!(rt; Utf8.writes_ascii(writes), Some(AsciiForm::Byte));
}
