//! Surrogates: the code units of UTF-16 that come in pairs (Unicode 3.8, D71 to D75).
ghost use Rattle.std.specs.Prelude.{◌≡◌, ◌≤◌, ◌<◌, ◌↔◌, IsTrue};
ghost use Rattle.cv_base.specs.Units.{high_unit, low_unit};
ghost use Rattle.cv_block.specs.Surrogates.{IsSurrogate, IsHighUnit, IsLowUnit, IsPair};

/// Returns whether a code unit is a surrogate, high or low.
#[inline(always)]
pub fn is_surrogate(unit: u32) -> bool
    ensures { IsTrue result ↔ IsSurrogate unit }
{
    unit >= 0xd800 && unit < 0xe000
}

/// Returns whether a code unit is a high surrogate.
#[inline(always)]
pub fn is_high(unit: u32) -> bool
    ensures { IsTrue result ↔ IsHighUnit unit }
{
    unit / 0x400 == 0x36
}

/// Returns whether a code unit is a low surrogate.
#[inline(always)]
pub fn is_low(unit: u32) -> bool
    ensures { IsTrue result ↔ IsLowUnit unit }
{
    unit / 0x400 == 0x37
}

/// Returns the character of a high and a low surrogate. For other units the result has no meaning.
#[inline(always)]
pub fn from_surrogates(high: u32, low: u32) -> u32
    ensures { IsHighUnit high → IsLowUnit low → IsPair high low result }
{
    0x1_0000 + (high % 0x400) * 0x400 + low % 0x400
}

/// Returns the first code unit of a character: its high surrogate, or below U+10000 the character itself. It is
/// computed without a branch.
#[inline(always)]
pub fn lead_surrogate(value: u32) -> u32
    requires { value < 0x110000 }
    ensures one { value < 0x10000 → result ≡ value }
    ensures high { 0x10000 ≤ value → result ≡ high_unit value }
    ensures few { result < 0x10000 }
{
    if value < 0x1_0000 {
        value
    } else {
        0xd7c0 + value / 0x400
    }
}

/// Returns the low surrogate of a character from U+10000 on. For other characters the result has no meaning.
#[inline(always)]
pub fn trail_surrogate(value: u32) -> u32
    ensures low { 0x10000 ≤ value → result ≡ low_unit value }
    ensures few { result < 0x10000 }
{
    0xdc00 + value % 0x400
}
