//! Tests of the encodings, of charmaps and of conversions. A crate with tests is proved twice. So the tests of crates
//! that many others use are here, and use only their public items. Proofs about nested arrays are expensive, so a table
//! is a text: `words` and `test_support` read its words, and `items`, `writing`, `blocks` and `converting` make the
//! calls of its lines.
#![tactic(auto)]

#[cfg(test)]
mod blocks;
#[cfg(test)]
mod byte_strings;
#[cfg(test)]
mod charmap_items;
#[cfg(test)]
mod charmap_pairs;
#[cfg(test)]
mod charmap_runs;
#[cfg(test)]
mod charmap_texts;
#[cfg(test)]
mod conversions;
#[cfg(test)]
mod converting;
#[cfg(test)]
mod direct;
#[cfg(test)]
mod direct_latin1;
#[cfg(test)]
mod items;
#[cfg(test)]
mod names_and_blocks;
#[cfg(test)]
mod room;
#[cfg(test)]
mod room_ends;
#[cfg(test)]
mod utf16_and_utf32;
#[cfg(test)]
mod utf7;
#[cfg(test)]
mod utf7_runs;
#[cfg(test)]
mod utf8;
#[cfg(test)]
mod words;
#[cfg(test)]
mod writing;
