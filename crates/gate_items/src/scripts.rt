//! The characters of texts.

use cv_base::Scalar;

/// Characters of one kind.
#[derive(Clone, Copy, Debug, PartialEq, Eq)]
pub enum Script {
    /// Letters of ASCII, which are direct characters in UTF-7.
    Letters,
    /// All of ASCII. UTF-7 shifts some of it, and some is read in a form in which it is not written.
    Ascii,
    /// One byte in ISO-8859-1, two in UTF-8.
    Latin,
    /// Two bytes in UTF-8.
    Cyrillic,
    /// Three bytes in UTF-8.
    Han,
    /// Four bytes in UTF-8, a surrogate pair in UTF-16.
    Emoji,
    /// Characters of these sizes in turn.
    Turns,
    /// The first and the last character of each size.
    Limits,
    /// Words of several languages.
    Words,
}

/// All scripts.
pub const SCRIPTS: [Script; 9] = [
    Script::Letters,
    Script::Ascii,
    Script::Latin,
    Script::Cyrillic,
    Script::Han,
    Script::Emoji,
    Script::Turns,
    Script::Limits,
    Script::Words,
];

/// Scripts whose characters all have the same size, for long runs.
pub const PLAIN: [Script; 5] = [
    Script::Letters,
    Script::Latin,
    Script::Cyrillic,
    Script::Han,
    Script::Emoji,
];

const TURNS: [char; 5] = ['x', 'é', 'ж', '漢', '😀'];

/// The first and the last character of each size, in bytes of UTF-8 and of ISO-8859-1 and in units of UTF-16.
pub const LIMITS: [char; 11] = [
    '\u{7f}',
    '\u{80}',
    '\u{ff}',
    '\u{100}',
    '\u{7ff}',
    '\u{800}',
    '\u{d7ff}',
    '\u{e000}',
    '\u{ffff}',
    '\u{10000}',
    '\u{10ffff}',
];

const WORDS: [char; 31] = [
    'c', 'a', 'f', 'é', ' ', 'м', 'и', 'р', ',', ' ', '大', 'き', 'い', ' ', 't', 'h', 'e', ' ', 'o',
    'l', 'd', ' ', 'ñ', 'u', '😀', '👍', ' ', 'н', 'о', '!', ' ',
];

/// The entry of a list at an index that wraps around at the end of the list.
fn by_turns(list: &[char], place: usize) -> u32 {
    let there = place.checked_rem(list.len());
    there.and_then(|k| list.get(k)).map_or(0, |c| u32::from(*c))
}

impl Script {
    /// Returns the character at index `place` of a text of this kind.
    pub fn character(self, place: usize) -> Scalar {
        let number = match self {
            Script::Letters => 0x61 + (place % 26) as u32,
            Script::Ascii => (place % 128) as u32,
            Script::Latin => 0xC0 + (place % 64) as u32,
            Script::Cyrillic => 0x410 + (place % 64) as u32,
            Script::Han => 0x4E00 + (place % 512) as u32,
            Script::Emoji => 0x1_F600 + (place % 64) as u32,
            Script::Turns => by_turns(&TURNS, place),
            Script::Limits => by_turns(&LIMITS, place),
            Script::Words => by_turns(&WORDS, place),
        };
        Scalar::new(number).unwrap_or(Scalar::substitute())
    }
}
