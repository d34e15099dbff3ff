//! Reading byte strings.

use crate::forms::Form;
use cv_base::{BlockCodec, Codec, Item, ReadState, Scalar};
use cv_trie::Charmap;
use std::alloc::{AllocError, Global};

/// Whether the bytes of a pair are read as its character, and each shorter prefix of them as incomplete.
fn is_read(map: &Charmap, form: Form, n: u32) -> bool {
    let bytes = form.bytes(n);
    let whole = bytes.as_slice();
    let item = Item::Char {
        c: form.character(n),
        n: whole.len(),
        next: ReadState::Start,
    };
    let fronts = (1..whole.len()).all(|size| match whole.get(..size) {
        Some(front) => map.item(ReadState::Start, front) == Item::Incomplete,
        None => false,
    });
    fronts && map.item(ReadState::Start, whole) == item
}

/// Returns how many pairs are read alone.
pub fn read_alone(map: &Charmap, form: Form) -> usize {
    (0..form.count()).filter(|n| is_read(map, form, *n)).count()
}

/// The bytes of pairs, one after another.
fn joined(alloc: Global, form: Form, pairs: &[u32]) -> Result<Vec<u8>, AllocError> {
    let mut text = Vec::new(alloc);
    for n in pairs {
        text.extend_from_slice(form.bytes(*n).as_slice())?;
    }
    Ok(text)
}

/// How many of some pairs are read by blocks from their bytes, one after another, up to the first that isn't.
fn read_in_blocks(
    alloc: Global,
    map: &Charmap,
    form: Form,
    pairs: &[u32],
) -> Result<usize, AllocError> {
    let text = joined(alloc, form, pairs)?;
    let mut rest = text.as_slice();
    let mut buffer = [Scalar::substitute(); 50];
    let mut count = 0usize;
    for _ in 0..pairs.len() {
        let block = map.read_block(ReadState::Start, rest, &mut buffer);
        for character in buffer.iter().take(block.n) {
            if pairs.get(count).map(|n| form.character(*n)) != Some(*character) {
                return Ok(count);
            }
            count = count.saturating_add(1);
        }
        rest = rest.get(block.used..).unwrap_or(&[]);
    }
    Ok(count)
}

/// Returns how many pairs are read by blocks from the bytes of all, one after another, up to the first that isn't.
pub fn read_joined(alloc: Global, map: &Charmap, form: Form) -> Result<usize, AllocError> {
    let all: Vec<u32> = (0..form.count()).collect(alloc)?;
    read_in_blocks(alloc, map, form, &all)
}

/// `front` of the first 32 pairs in turn, then another pair twice, and then `back` of the first 32. These have one byte
/// if a form has several sizes.
fn around(alloc: Global, front: u32, other: u32, back: u32) -> Result<Vec<u32>, AllocError> {
    let mut pairs = Vec::new(alloc);
    for n in 0..front {
        pairs.push(n % 32)?;
    }
    pairs.push(other)?;
    pairs.push(other)?;
    for n in 0..back {
        pairs.push(n % 32)?;
    }
    Ok(pairs)
}

/// How many texts are read whole, of those with `front` of the first pairs before two others.
fn read_behind(alloc: Global, map: &Charmap, form: Form, front: u32) -> Result<usize, AllocError> {
    let mut count = 0usize;
    for other in 32..46 {
        for back in [0, 1, 18] {
            let pairs = around(alloc, front, other, back)?;
            let read = read_in_blocks(alloc, map, form, &pairs)?;
            count = count.saturating_add(usize::from(read == pairs.len()));
        }
    }
    Ok(count)
}

/// Returns how many texts are read whole, of those that change from the first pairs to others near the bounds of the
/// loops that read many at once.
pub fn read_around(alloc: Global, map: &Charmap, form: Form) -> Result<usize, AllocError> {
    let mut count = 0usize;
    for front in 0..35 {
        count = count.saturating_add(read_behind(alloc, map, form, front)?);
    }
    Ok(count)
}
