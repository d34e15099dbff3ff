//! The words of tables. A table is a text in which each line is a case, so that it reads like the standard that it is
//! from.
use cv_base::Scalar;
use std::alloc::Global;
use std::test::Fail;

/// Returns the character with a hexadecimal number.
pub fn scalar_of(word: &str) -> Result<Scalar, Fail> {
    let value = u32::from_str_radix(word, 16)?;
    Ok(Scalar::new(value).ok_or("no scalar value")?)
}

/// Returns the characters with these hexadecimal numbers.
pub fn scalars_of(alloc: Global, words: &str) -> Result<Vec<Scalar>, Fail> {
    let mut scalars = Vec::new(alloc);
    for word in words.split_whitespace() {
        scalars.push(scalar_of(word)?)?;
    }
    Ok(scalars)
}
