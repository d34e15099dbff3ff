//! One text, cut in every way and converted with room for several sizes of output, while another caller converts.
use super::scripts::is_answered;
use cv_pivot::Stop;
use cv_world::{Answer, Op, World};
use std::alloc::Global;
use std::test::Fail;

/// U+1F600 in UTF-8.
const TEXT: [u8; 4] = *b"\xf0\x9f\x98\x80";

/// The ways to cut the text: the offsets at which its pieces end.
const WAYS: &str = "4, 1 4, 2 4, 3 4, 1 2 4, 1 3 4, 2 3 4, 1 2 3 4";

/// Opens the caller's descriptor, which writes UTF-7, under either policy.
const OPENINGS: &str = "
1 open UTF-7 UTF-8 = number 0
1 open UTF-7 UTF-8 strict = number 0
";

/// Closes the shift of the text.
const CLOSING: &str = r#"1 reset 0 2 = written "A-""#;

/// Opens the other caller's descriptor, which writes UTF-7 too.
const OTHER: &str = "2 open UTF-7 ISO-8859-1 = number 0";

/// The other caller's calls, one after each piece.
const OTHERS: &str = r#"
2 conv 0 9 e9 = Done 0 0 "+AO"
2 conv 0 9 e9 = Done 0 0 "kA6"
2 conv 0 9 e9 = Done 0 0 "QDp"
2 conv 0 9 e9 = Done 0 0 "AO"
"#;

#[test]
fn cuts_and_rooms_do_not_show(rt: HostRuntime) -> Result<(), Fail> {
    for opening in OPENINGS.trim().lines() {
        for ends in WAYS.split(", ") {
            for room in 6..10 {
                let written = is_written(rt.alloc(), opening, ends, room)?;
                assert!(rt; written, "{opening}, {ends}, {room}");
            }
        }
    }
    Ok(())
}

/// Whether a new world writes the whole text, and answers the other caller as if that were alone.
fn is_written(alloc: Global, opening: &str, ends: &str, room: u32) -> Result<bool, Fail> {
    let mut world = World::new(alloc);
    let mut written = Vec::new(alloc);
    let opened = is_answered(alloc, &mut world, opening)? && is_answered(alloc, &mut world, OTHER)?;
    let fed = feed(alloc, &mut world, ends, room, &mut written)?;
    let closed = is_answered(alloc, &mut world, CLOSING)?;
    Ok(opened && fed && closed && written.as_slice() == b"+2D3eA".as_slice())
}

/// Converts the text in these pieces, each together with the bytes that the call before it left, and appends what is
/// written. Returns whether the other caller got the expected answer after each.
fn feed(
    alloc: Global,
    world: &mut World,
    ends: &str,
    room: u32,
    written: &mut Vec<u8>,
) -> Result<bool, Fail> {
    let mut others = OTHERS.trim().lines();
    let mut from = 0;
    for end in ends.split(' ') {
        from = feed_piece(alloc, world, room, from, end.parse::<usize>()?, written)?;
        if !is_answered(alloc, world, others.next().unwrap_or(""))? {
            return Ok(false);
        }
    }
    Ok(true)
}

/// Converts a piece, and appends what is written. Returns the offset at which the bytes that are left begin. Fails if
/// any are left at the end of the text.
fn feed_piece(
    alloc: Global,
    world: &mut World,
    room: u32,
    from: usize,
    end: usize,
    written: &mut Vec<u8>,
) -> Result<usize, Fail> {
    let front = &TEXT[..TEXT.len().min(end)];
    let op = Op::Conv {
        number: 0,
        room,
        input: &front[front.len().min(from)..],
    };
    let Answer::Converted {
        stop,
        left,
        count: 0,
        bytes,
    } = world.step(alloc, 1, op)
    else {
        return Err("not converted".into());
    };
    if end == TEXT.len() && stop != Stop::Done {
        return Err("not all of the text was converted".into());
    }
    written.extend_from_slice(bytes.as_slice())?;
    Ok(front.len().saturating_sub(left as usize))
}
