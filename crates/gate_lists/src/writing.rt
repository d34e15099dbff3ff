//! Writing characters.
ghost use Rattle.std.specs.Prelude.{◌<◌, ◌≤◌, length};

use crate::forms::Form;
use cv_base::{BlockCodec, Codec, Policy, Scalar, WriteState};
use cv_trie::Charmap;
use std::alloc::{AllocError, Global};

/// The most characters of a block.
const MOST: usize = 256;

/// The most bytes of so many characters.
const MOST_BYTES: usize = 2048;

/// The value for no pair.
const NONE: u32 = u32::MAX;

/// Returns, for each number up to 10FFFF, the first pair whose character has it, or `NONE`.
pub fn firsts(alloc: Global, form: Form) -> Result<Vec<u32>, AllocError> {
    let mut firsts = vec![in alloc; NONE; 0x11_0000]?;
    for n in 0..form.count() {
        if let Some(first) = firsts.get_mut(form.character(n).value() as usize) {
            *first = n.min(*first);
        }
    }
    Ok(firsts)
}

/// Whether a character is written as the bytes of its first pair.
fn is_written(map: &Charmap, form: Form, first: u32, character: Scalar) -> bool {
    match map.put(WriteState::Start, character) {
        Some((piece, next)) => first != NONE
            && next == WriteState::Start
            && piece.as_slice() == form.bytes(first).as_slice(),
        None => first == NONE,
    }
}

/// Returns how many scalar values are written as the list says.
pub fn written_alone(map: &Charmap, form: Form, firsts: &[u32]) -> u32 {
    let mut count = 0u32;
    for value in 0..0x11_0000u32 {
        let first = firsts.get(value as usize).copied().unwrap_or(NONE);
        if let Some(character) = Scalar::new(value) {
            count = count.saturating_add(u32::from(is_written(map, form, first, character)));
        }
    }
    count
}

/// The bytes that some characters are written as, how many these are, and for how many characters they are those of
/// `?`: the first pair replaces what the list lacks.
fn wanted(form: Form, firsts: &[u32]) -> ([u8; MOST_BYTES], usize, usize) {
    let mut bytes = [0u8; MOST_BYTES];
    let mut end = 0usize;
    let mut lacking = 0usize;
    for first in firsts {
        let known = if *first == NONE { 0 } else { *first };
        for byte in form.bytes(known).as_slice() {
            if let Some(place) = bytes.get_mut(end) {
                *place = *byte;
            }
            end = end.saturating_add(1);
        }
        lacking = lacking.saturating_add(usize::from(*first == NONE));
    }
    (bytes, end, lacking)
}

/// Whether a block of characters is written under a policy as the list says.
fn is_written_under(
    map: &Charmap,
    policy: Policy,
    characters: &[Scalar],
    form: Form,
    firsts: &[u32],
) -> bool
    requires { length characters.now ≤ 256 }
{
    let mut out = [0u8; MOST_BYTES];
    let written = map.write_block(policy, WriteState::Start, characters, &mut out, 0);
    let (bytes, end, lacking) = wanted(form, firsts);
    match written {
        Some(block) => {
            policy.allows(lacking)
                && block.wrote == end
                && block.count == lacking
                && out.get(..end) == bytes.get(..end)
        }
        None => !policy.allows(lacking),
    }
}

/// Whether a block of characters is written as the list says, under each policy.
fn is_block_written(map: &Charmap, form: Form, top: u32, firsts: &[u32]) -> bool {
    let mut characters = [Scalar::substitute(); MOST];
    let characters = characters.get_mut(..firsts.len()).unwrap_or(&mut []);
    for (k, character) in characters.iter_mut().enumerate() {
        let Some(scalar) = Scalar::new(top.saturating_add(k as u32)) else {
            return true;
        };
        *character = scalar;
    }
    is_written_under(map, Policy::Substitute, characters, form, firsts)
        && is_written_under(map, Policy::Strict, characters, form, firsts)
}

/// Returns how many blocks of `size` numbers are written as the list says. Blocks of surrogates count too.
pub fn written_in_blocks(map: &Charmap, form: Form, firsts: &[u32], size: u32) -> u32
    requires { 0 < size }
{
    let mut count = 0u32;
    let mut top = 0u32;
    for chunk in firsts.chunks(size as usize) {
        count = count.saturating_add(u32::from(is_block_written(map, form, top, chunk)));
        top = top.saturating_add(size);
    }
    count
}
