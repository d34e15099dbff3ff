//! Tables of blocks. To read, a line is `INPUT USED: CHARACTERS`: how many bytes of the input are read, and as which
//! characters. To write, a line is `CHARACTERS: COUNT BYTES STATE`: for how many characters `?` is written, the bytes
//! of all, and the writer's state after them. Or it is `CHARACTERS: none`, if no block is written.
use crate::words::scalars_of;
use crate::writing::state_name;
use cv_base::{BlockCodec, Policy, ReadState, Scalar, WriteState};
use std::alloc::Global;
use std::process::Abort;
use std::test::Fail;
use test_support::{bytes_of, sides};

/// Reads the input of each line as a block, and compares the characters. The reader is in `state` before and after
/// each.
pub fn read_blocks<R: Abort + AllocGlobal, C: BlockCodec>(
    rt: &R,
    codec: &C,
    state: ReadState,
    table: &str,
) -> Result<(), Fail> {
    for line in table.trim().lines() {
        let (given, wanted) = sides(line, ":")?;
        let (input, used) = sides(given, " ")?;
        let input = bytes_of(rt.alloc(), input)?;
        let characters = scalars_of(rt.alloc(), wanted)?;
        let mut buffer = [Scalar::substitute(); 8];
        let block = codec.read_block(state, &input, &mut buffer);
        assert_eq!(rt; block.used, used.parse::<usize>()?, "{line}");
        assert_eq!(rt; block.next, state, "{line}");
        assert!(rt;
            buffer.get(..block.n) == Some(characters.as_slice()),
            "{line}"
        );
    }
    Ok(())
}

/// Writes the characters of each line as a block, at offset `at` of a slice, and compares the bytes. The writer is in
/// `state` before each.
pub fn write_blocks<R: Abort + AllocGlobal, C: BlockCodec>(
    rt: &R,
    codec: &C,
    policy: Policy,
    state: WriteState,
    at: usize,
    table: &str,
) -> Result<(), Fail> {
    for line in table.trim().lines() {
        let (characters, wanted) = sides(line, ": ")?;
        let characters = scalars_of(rt.alloc(), characters)?;
        let written = is_written(rt.alloc(), codec, policy, state, &characters, at, wanted)?;
        assert!(rt; written, "{line}");
    }
    Ok(())
}

/// Whether a block is written as expected, and nothing around it.
fn is_written<C: BlockCodec>(
    alloc: Global,
    codec: &C,
    policy: Policy,
    state: WriteState,
    characters: &[Scalar],
    at: usize,
    wanted: &str,
) -> Result<bool, Fail> {
    if at > 8 || characters.len() > 7 {
        return Err("a block that doesn't fit".into());
    }
    let mut out = [b'-'; 64];
    let block = codec.write_block(policy, state, characters, &mut out, at);
    let Some(block) = block else {
        return Ok(wanted == "none" && is_blank(&out));
    };
    let (count, ending) = sides(wanted, " ")?;
    let (bytes, name) = sides(ending, " ")?;
    let bytes = bytes_of(alloc, bytes)?;
    let (front, rest) = out.split_at(at);
    let around = is_blank(front) && is_blank(rest.get(bytes.len()..).unwrap_or(&[]));
    Ok(
        around
            && rest.starts_with(&bytes)
            && block.wrote == bytes.len()
            && block.count == count.parse::<usize>()?
            && name == state_name(block.next),
    )
}

/// Whether nothing is written in a part of the slice.
fn is_blank(part: &[u8]) -> bool {
    part.iter().all(|byte| *byte == b'-')
}
