//! The words of tables. A table is a text in which each line is a case.
use std::alloc::Global;
use std::test::Fail;
use test_support::sides;

/// Returns a word in which the first `x{N}`, if there is one, is replaced by the letter `x` N times.
pub fn written_out(alloc: Global, word: &str) -> Result<String, Fail> {
    let Some((front, rest)) = word.split_once("x{") else {
        return Ok(String::from_str(alloc, word)?);
    };
    let (count, back) = sides(rest, "}")?;
    let letters = "x".repeat(alloc, count.parse::<usize>()?)?;
    Ok(format!(in alloc; "{front}{letters}{back}")?)
}
