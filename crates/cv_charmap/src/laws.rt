//! What holds for every charmap.
ghost use Rattle.cv_charmap.specs.Maps.{MeansMaps};

/// If a text means a name and pairs, these are a charmap's: their byte strings have 1 to 8 bytes and are distinct, none
/// is a prefix of another, their characters are scalar values, the question mark is among them, and they are 262,144 at
/// most.
pub fn means_maps()
    ensures { MeansMaps }
{
    // The contract is the law; nothing runs.
}
