//! Conversions, compared with bytes from other sources. `converting` says how a line is read.
use crate::converting::convert;
use cv_base::Policy;
use cv_pivot::{Conversion, builtin};
use std::alloc::{AllocError, Global};
use std::test::Fail;

mod charmaps;
mod strict;

const FROM_UTF8: &str = r#"
UTF-8 UTF-16BE: f09f9880 3 = TooBig 4 0 ""
UTF-8 UTF-16BE: f09f9880 4 = Done 0 0 d83dde00
UTF-8 ISO-8859-1: 41e282 9 = Incomplete 2 0 41; e282ac 9 = Done 0 1 3f
UTF-8 UTF-16BE: 41c080 9 = Ill 2 0 0041
UTF-8 UTF-16BE: eda0 9 = Ill 2 0 ""
UTF-8 UTF-16BE: c0 9 = Ill 1 0 ""
UTF-8 UTF-16BE: ed 9 = Incomplete 1 0 ""
UTF-8 UTF-16: 41 9 = Done 0 0 feff0041; 42 9 = Done 0 0 0042
UTF-8 UTF-16: 41 3 = TooBig 1 0 ""; 41 4 = Done 0 0 feff0041
UTF-8 UTF-32: 41 7 = TooBig 1 0 ""; 41 8 = Done 0 0 0000feff00000041
"#;

#[test]
fn from_utf8(rt: HostRuntime) -> Result<(), Fail> {
    convert(&rt, Policy::Substitute, FROM_UTF8)
}

const TO_UTF8: &str = r#"
UTF-32 UTF-8: fffe000041000000 9 = Done 0 0 41
UTF-32 UTF-8: ff 9 = Incomplete 1 0 ""
UTF-32 UTF-8: 01 9 = Ill 1 0 ""
UTF-32BE UTF-8: 0000feff 9 = Done 0 0 efbbbf
UTF-32LE UTF-8: 00d800 9 = Ill 3 0 ""
UTF-32LE UTF-8: 00d8 9 = Incomplete 2 0 ""
UTF-16BE UTF-8: d83d 9 = Incomplete 2 0 ""
UTF-16BE UTF-8: d83d0041 9 = Ill 4 0 ""
UTF-16BE UTF-8: dc 9 = Ill 1 0 ""
UTF-16BE UTF-8: d83dde00 3 = TooBig 4 0 ""
"#;

#[test]
fn to_utf8(rt: HostRuntime) -> Result<(), Fail> {
    convert(&rt, Policy::Substitute, TO_UTF8)
}

const ORDERS: &str = r#"
UTF-16 UTF-8: fffe4100 9 = Done 0 0 41; 4200 9 = Done 0 0 42; reset 0 = ""; 0043 9 = Done 0 0 43
"#;

#[test]
fn reset_forgets_the_order(rt: HostRuntime) -> Result<(), Fail> {
    convert(&rt, Policy::Substitute, ORDERS)
}

const SHIFTS: &str = r#"
ISO-8859-1 UTF-7: e9 9 = Done 0 0 "+AO"; reset 1 = TooBig; reset 2 = "k-"; e9 9 = Done 0 0 "+AO"; reset 0 = ""; e9 9 = Done 0 0 "+AO"
"#;

#[test]
fn a_shift_is_closed_by_reset(rt: HostRuntime) -> Result<(), Fail> {
    convert(&rt, Policy::Substitute, SHIFTS)
}

/// Converts a text of four bytes of UTF-8 to UTF-7. It is cut after its first `k` bytes if bit `k` of `cuts` is set.
/// Each call has an output of `room` bytes.
fn written_in_parts(
    alloc: Global,
    text: &[u8],
    cuts: usize,
    room: usize,
) -> Result<Vec<u8>, AllocError> {
    let mut written = Vec::new(alloc);
    let (Some(to), Some(from)) = (builtin(b"UTF-7"), builtin(b"UTF-8")) else {
        return Ok(written);
    };
    let mut conversion = Conversion::new(to, from, Policy::Substitute);
    let mut out = vec![in alloc; 0u8; room]?;
    let mut at: usize = 0;
    for end in 1..=4usize {
        if end < 4 && cuts & (1 << end) == 0 {
            continue;
        }
        let given = text.get(at..end).unwrap_or(&[]);
        let outcome = conversion.convert(given, &mut out);
        let wrote = room.saturating_sub(outcome.room_left);
        written.extend_from_slice(out.get(..wrote).unwrap_or(&[]))?;
        at = end.saturating_sub(outcome.left);
    }
    if let Ok(closing) = conversion.reset(2) {
        written.extend_from_slice(closing.as_slice())?;
    }
    Ok(written)
}

#[test]
fn utf7_does_not_depend_on_cuts(rt: HostRuntime) -> Result<(), Fail> {
    let face = [0xf0, 0x9f, 0x98, 0x80];
    for cuts in [0, 2, 4, 6, 8, 10, 12, 14] {
        for room in 6..12 {
            let written = written_in_parts(rt.alloc(), &face, cuts, room)?;
            assert!(rt;
                written.as_slice() == b"+2D3eAA-".as_slice(),
                "{cuts} {room}"
            );
        }
    }
    Ok(())
}
