//! Tests of scripts, reply lines, charmap files, the commands and the command line. A crate with tests is proved twice.
//! So the tests are not in the crates themselves, and show what a user of the program could see. Proofs about nested
//! arrays are expensive, so a table is a text: `words` and `test_support` read its words, and `tables` and `exchanging`
//! make the calls of its lines.
#![tactic(auto)]

#[cfg(test)]
mod calls;
#[cfg(test)]
mod charmaps;
#[cfg(test)]
mod checking;
#[cfg(test)]
mod command_lines;
#[cfg(test)]
mod console;
#[cfg(test)]
mod exchanging;
#[cfg(test)]
mod file_uploads;
#[cfg(test)]
mod interleavings;
#[cfg(test)]
mod large_uploads;
#[cfg(test)]
mod long_words;
#[cfg(test)]
mod longest_names;
#[cfg(test)]
mod many_reads;
#[cfg(test)]
mod program_streams;
#[cfg(test)]
mod refused_charmaps;
#[cfg(test)]
mod refused_uploads;
#[cfg(test)]
mod scripts;
#[cfg(test)]
mod standard;
#[cfg(test)]
mod streams;
#[cfg(test)]
mod tables;
#[cfg(test)]
mod words;
