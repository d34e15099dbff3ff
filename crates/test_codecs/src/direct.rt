//! The loops that convert directly from one encoding to another, and the reading of UTF-8 by windows. The tests show
//! that they take all of a plain text. No contract says so, since what a loop leaves is converted by blocks.
use cv_block::{BigEndian, LittleEndian};
use cv_transcode::{
    Run, begins_with_supplementary, latin1_to_utf8, utf8_to_utf16, utf16_swapped, utf16_to_utf8,
    utf32_to_utf8, utf32_to_utf16,
};
use cv_utf8::read_utf16_lanes;
use std::alloc::Global;
use std::test::Fail;
use test_support::bytes_of;

/// Sixteen characters of one, two and three bytes in UTF-8: `Словоa: 漢字仮名交ひらが`, as Python encodes them.
pub(crate) const UTF8: &str =
    "d0a1d0bbd0bed0b2d0be613a20e6bca2e5ad97e4bbaee5908de4baa4e381b2e38289e3818c";

const UTF16BE: &str = "0421043b043e0432043e0061003a00206f225b574eee540d4ea430723089304c";

const UTF16LE: &str = "21043b043e0432043e0461003a002000226f575bee4e0d54a44e723089304c30";

const UTF32LE: &str = "210400003b0400003e040000320400003e040000610000003a00000020000000\
    226f0000575b0000ee4e00000d540000a44e000072300000893000004c300000";

/// Sixteen characters of ISO-8859-1: `Füße à la crème `.
pub(crate) const LATIN1: &str = "46fcdf6520e0206c61206372e86d6520";

pub(crate) const LATIN1_AS_UTF8: &str = "46c3bcc39f6520c3a0206c61206372c3a86d6520";

/// The characters of `UTF8`, with one of four bytes among them.
const MIXED: &str =
    "d0a1d0bbd0bed0b2d0be613a20e6bca2f09f9880e5ad97e4bbaee5908de4baa4e381b2e38289e3818c";

const MIXED_AS_UTF16LE: &str =
    "21043b043e0432043e0461003a002000226f3dd800de575bee4e0d54a44e723089304c30";

/// The bytes of the words, 24 times: some hundreds of characters.
pub(crate) fn repeated(alloc: Global, words: &str) -> Result<Vec<u8>, Fail> {
    let mut text = Vec::new(alloc);
    let bytes = bytes_of(alloc, words)?;
    for _copy in 0..24usize {
        text.extend_from_slice(&bytes)?;
    }
    Ok(text)
}

/// The words 24 times, a letter of ASCII 600 times, and the words 24 times again.
pub(crate) fn apart(alloc: Global, words: &str, letter: &str) -> Result<Vec<u8>, Fail> {
    let mut text = repeated(alloc, words)?;
    let bytes = bytes_of(alloc, letter)?;
    for _letter in 0..600usize {
        text.extend_from_slice(&bytes)?;
    }
    text.extend_from_slice(&repeated(alloc, words)?)?;
    Ok(text)
}

/// An output with room for what any of the texts here is converted to.
pub(crate) fn room(alloc: Global) -> Result<Vec<u8>, Fail> {
    Ok(vec![in alloc; 0u8; 8192]?)
}

/// Whether a loop took a text but for at most `left` bytes at its end, and wrote a prefix of `wanted` that lacks at
/// most twice as many.
pub(crate) fn is_taken(
    run: Option<Run>,
    text: &[u8],
    left: usize,
    out: &[u8],
    wanted: &[u8],
) -> bool {
    let Some(run) = run else {
        return false;
    };
    let written = out.get(..run.wrote).unwrap_or(&[]);
    wanted.starts_with(written)
        && text.len().saturating_sub(run.used) <= left
        && wanted.len().saturating_sub(written.len()) <= 2usize.saturating_mul(left)
}

#[test]
fn utf16_to_utf8_takes_text(rt: HostRuntime) -> Result<(), Fail> {
    let text = repeated(rt.alloc(), UTF16BE)?;
    let wanted = repeated(rt.alloc(), UTF8)?;
    let mut out = room(rt.alloc())?;
    let run = utf16_to_utf8::<BigEndian>(&text, &mut out, 0);
    assert!(rt; is_taken(run, &text, 0, &out, &wanted));
    Ok(())
}

#[test]
fn utf16_swapped_takes_text(rt: HostRuntime) -> Result<(), Fail> {
    let text = repeated(rt.alloc(), UTF16BE)?;
    let wanted = repeated(rt.alloc(), UTF16LE)?;
    let mut out = room(rt.alloc())?;
    let run = utf16_swapped::<BigEndian, LittleEndian>(&text, &mut out, 0);
    assert!(rt; is_taken(run, &text, 0, &out, &wanted));
    Ok(())
}

#[test]
fn utf32_to_utf8_takes_text(rt: HostRuntime) -> Result<(), Fail> {
    let text = repeated(rt.alloc(), UTF32LE)?;
    let wanted = repeated(rt.alloc(), UTF8)?;
    let mut out = room(rt.alloc())?;
    let run = utf32_to_utf8::<LittleEndian>(&text, &mut out, 0);
    assert!(rt; is_taken(run, &text, 0, &out, &wanted));
    Ok(())
}

#[test]
fn utf32_to_utf16_takes_text(rt: HostRuntime) -> Result<(), Fail> {
    let text = repeated(rt.alloc(), UTF32LE)?;
    let wanted = repeated(rt.alloc(), UTF16BE)?;
    let mut out = room(rt.alloc())?;
    let run = utf32_to_utf16::<LittleEndian, BigEndian>(&text, &mut out, 0);
    assert!(rt; is_taken(run, &text, 0, &out, &wanted));
    Ok(())
}

#[test]
fn latin1_to_utf8_takes_text(rt: HostRuntime) -> Result<(), Fail> {
    let text = repeated(rt.alloc(), LATIN1)?;
    let wanted = repeated(rt.alloc(), LATIN1_AS_UTF8)?;
    let mut out = room(rt.alloc())?;
    let run = latin1_to_utf8(&text, &mut out, 0);
    assert!(rt; is_taken(run, &text, 0, &out, &wanted));
    Ok(())
}

/// Windows end before a run of ASCII, and go on after it.
#[test]
fn runs_of_ascii_are_taken_from_utf32(rt: HostRuntime) -> Result<(), Fail> {
    let text = apart(rt.alloc(), UTF32LE, "61000000")?;
    let mut out = room(rt.alloc())?;
    let run = utf32_to_utf8::<LittleEndian>(&text, &mut out, 0);
    assert!(rt; is_taken(run, &text, 0, &out, &apart(rt.alloc(), UTF8, "61")?));
    let run = utf32_to_utf16::<LittleEndian, BigEndian>(&text, &mut out, 0);
    assert!(rt; is_taken(run, &text, 0, &out, &apart(rt.alloc(), UTF16BE, "0061")?));
    Ok(())
}

#[test]
fn runs_of_ascii_are_taken_from_utf16(rt: HostRuntime) -> Result<(), Fail> {
    let text = apart(rt.alloc(), UTF16LE, "6100")?;
    let mut out = room(rt.alloc())?;
    let run = utf16_to_utf8::<LittleEndian>(&text, &mut out, 0);
    assert!(rt; is_taken(run, &text, 0, &out, &apart(rt.alloc(), UTF8, "61")?));
    let run = utf16_swapped::<LittleEndian, BigEndian>(&text, &mut out, 0);
    assert!(rt; is_taken(run, &text, 0, &out, &apart(rt.alloc(), UTF16BE, "0061")?));
    Ok(())
}

#[test]
fn utf8_to_utf16_takes_text(rt: HostRuntime) -> Result<(), Fail> {
    for (words, other) in [(UTF8, UTF16LE), (MIXED, MIXED_AS_UTF16LE)] {
        let text = repeated(rt.alloc(), words)?;
        let wanted = repeated(rt.alloc(), other)?;
        let mut out = room(rt.alloc())?;
        let run = utf8_to_utf16::<LittleEndian>(&text, &mut out, 0);
        assert!(rt; is_taken(run, &text, 0, &out, &wanted), "{words}");
    }
    Ok(())
}

/// How many bytes a loop took.
pub(crate) fn used(run: Option<Run>) -> usize {
    match run {
        Some(run) => run.used,
        None => 0,
    }
}

/// The first `n` bytes of a text.
pub(crate) fn first(text: &[u8], n: usize) -> &[u8] {
    text.get(..n).unwrap_or(&[])
}

/// The last characters of a text are a window too, however few they are.
#[test]
fn last_characters_are_taken(rt: HostRuntime) -> Result<(), Fail> {
    let latin1 = repeated(rt.alloc(), LATIN1)?;
    let utf16 = repeated(rt.alloc(), UTF16BE)?;
    let utf32 = repeated(rt.alloc(), UTF32LE)?;
    let mut out = room(rt.alloc())?;
    for n in 1..40usize {
        let text = first(&latin1, n);
        assert_eq!(rt; used(latin1_to_utf8(text, &mut out, 0)), n);
        let text = first(&utf16, n.saturating_mul(2));
        assert_eq!(rt;
            used(utf16_to_utf8::<BigEndian>(text, &mut out, 0)),
            text.len()
        );
        let text = first(&utf32, n.saturating_mul(4));
        assert_eq!(rt;
            used(utf32_to_utf8::<LittleEndian>(text, &mut out, 0)),
            text.len()
        );
    }
    Ok(())
}

/// Of UTF-8 all but a character that is cut off, and the byte after a last window of ASCII and sixteen others.
#[test]
fn last_bytes_are_taken(rt: HostRuntime) -> Result<(), Fail> {
    let text = repeated(rt.alloc(), UTF8)?;
    let mut out = room(rt.alloc())?;
    for n in 1..80usize {
        let text = first(&text, n);
        let used = used(utf8_to_utf16::<BigEndian>(text, &mut out, 0));
        assert!(rt; n.saturating_sub(used) <= 2, "{n}");
    }
    Ok(())
}

#[test]
fn five_of_four_bytes_are_seen(rt: HostRuntime) -> Result<(), Fail> {
    let faces = repeated(rt.alloc(), "f09f9880")?;
    assert!(rt; begins_with_supplementary(&faces));
    let mixed = repeated(rt.alloc(), MIXED)?;
    assert!(rt; !begins_with_supplementary(&mixed));
    Ok(())
}

/// The units that windows read, as UTF-16BE.
fn units_of(alloc: Global, text: &[u8]) -> Result<Vec<u8>, Fail> {
    let mut bytes = Vec::new(alloc);
    let mut at: usize = 0;
    for _window in 0..200usize {
        if text.len() < 18 || at > text.len() - 18 {
            break;
        }
        let units = read_utf16_lanes(text, at);
        push_units(&mut bytes, units.first.to_array().get(..units.firsts))?;
        push_units(&mut bytes, units.second.to_array().get(..units.seconds))?;
        at = at.saturating_add(units.used);
    }
    Ok(bytes)
}

fn push_units(bytes: &mut Vec<u8>, units: Option<&[u16]>) -> Result<(), Fail> {
    for unit in units.unwrap_or(&[]) {
        bytes.extend_from_slice(&unit.to_be_bytes())?;
    }
    Ok(())
}

#[test]
fn read_units_takes_text(rt: HostRuntime) -> Result<(), Fail> {
    let text = repeated(rt.alloc(), UTF8)?;
    let wanted = repeated(rt.alloc(), UTF16BE)?;
    let read = units_of(rt.alloc(), &text)?;
    assert!(rt; wanted.starts_with(&read));
    assert!(rt; wanted.len().saturating_sub(read.len()) <= 34);
    Ok(())
}
