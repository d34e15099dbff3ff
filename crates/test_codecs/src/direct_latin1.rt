//! The loop from UTF-8 to ISO-8859-1: what it takes, and where it ends.
use crate::direct::{LATIN1, LATIN1_AS_UTF8, UTF8, apart, first, is_taken, repeated, room, used};
use cv_transcode::{may_begin_latin1, utf8_to_latin1};
use std::test::Fail;
use test_support::bytes_of;

#[test]
fn utf8_to_latin1_takes_text(rt: HostRuntime) -> Result<(), Fail> {
    let text = repeated(rt.alloc(), LATIN1_AS_UTF8)?;
    let wanted = repeated(rt.alloc(), LATIN1)?;
    let mut out = room(rt.alloc())?;
    let run = utf8_to_latin1(&text, &mut out, 0);
    assert!(rt; is_taken(run, &text, 0, &out, &wanted));
    Ok(())
}

/// Words before and after each of these do not begin with them.
const LACKED_OR_BAD: [&str; 6] = ["d0a1", "e282ac", "f09f9880", "ff", "c3", "80"];

/// Windows end before a character that ISO-8859-1 lacks, and before a fault, at the latest where it is.
#[test]
fn utf8_to_latin1_ends_before_others(rt: HostRuntime) -> Result<(), Fail> {
    let words = repeated(rt.alloc(), LATIN1_AS_UTF8)?;
    let wanted = repeated(rt.alloc(), LATIN1)?;
    let mut out = room(rt.alloc())?;
    for other in LACKED_OR_BAD {
        let mut text = repeated(rt.alloc(), LATIN1_AS_UTF8)?;
        text.extend_from_slice(&bytes_of(rt.alloc(), other)?)?;
        text.extend_from_slice(&words)?;
        let run = utf8_to_latin1(&text, &mut out, 0);
        assert!(rt; used(run) <= words.len(), "{other}");
        assert!(rt; is_taken(run, &words, 18, &out, &wanted), "{other}");
    }
    Ok(())
}

/// After much ASCII windows end.
#[test]
fn utf8_to_latin1_ends_after_ascii(rt: HostRuntime) -> Result<(), Fail> {
    let text = apart(rt.alloc(), LATIN1_AS_UTF8, "61")?;
    let words = repeated(rt.alloc(), LATIN1_AS_UTF8)?;
    let mut out = room(rt.alloc())?;
    let used = used(utf8_to_latin1(&text, &mut out, 0));
    assert!(rt; used >= words.len());
    assert!(rt; used <= words.len().saturating_add(160));
    Ok(())
}

/// Bytes before and after those that are written stay.
#[test]
fn utf8_to_latin1_keeps_others(rt: HostRuntime) -> Result<(), Fail> {
    let text = repeated(rt.alloc(), LATIN1_AS_UTF8)?;
    let wanted = repeated(rt.alloc(), LATIN1)?;
    for n in 1..80usize {
        let mut out = vec![in rt.alloc(); 0xa5u8; 200]?;
        let Some(run) = utf8_to_latin1(first(&text, n), &mut out, 7) else {
            assert!(rt; n == 1, "{n}");
            continue;
        };
        let end = run.wrote.saturating_add(7);
        assert!(rt; n.saturating_sub(run.used) <= 1, "{n}");
        assert!(rt; wanted.starts_with(out.get(7..end).unwrap_or(&[])), "{n}");
        assert!(rt;
            out.get(..7).unwrap_or(&[]).iter().all(|b| *b == 0xa5),
            "{n}"
        );
        assert!(rt;
            out.get(end..).unwrap_or(&[]).iter().all(|b| *b == 0xa5),
            "{n}"
        );
    }
    Ok(())
}

#[test]
fn beginnings_of_latin1_are_seen(rt: HostRuntime) -> Result<(), Fail> {
    assert!(rt; may_begin_latin1(&repeated(rt.alloc(), LATIN1_AS_UTF8)?));
    assert!(rt; !may_begin_latin1(&repeated(rt.alloc(), UTF8)?));
    assert!(rt; !may_begin_latin1(&bytes_of(rt.alloc(), "d0a1")?));
    Ok(())
}
