//! What stops a conversion, or a loop in it, in the middle of a text.

/// Characters that are tried besides the limits. Some targets lack some of them, UTF-7 shifts some, and U+FEFF is a
/// mark at the start of a text.
pub const CHARACTERS: [char; 5] = ['a', '+', '漢', '😀', '\u{feff}'];

const UTF_8: &[&[u8]] = &[
    b"\xbf",
    b"\xc0\xbf",
    b"\xc1\xbf",
    b"\xc2\x7f",
    b"\xdf\xc0",
    b"\xe0\x9f\xbf",
    b"\xe1\x7f\x80",
    b"\xe1\x80\x7f",
    b"\xed\xa0\x80",
    b"\xed\xbf\xbf",
    b"\xef\xbf\xc0",
    b"\xf0\x8f\xbf\xbf",
    b"\xf1\x80\x80\x7f",
    b"\xf3\xbf\xbf\xc0",
    b"\xf4\x90\x80\x80",
    b"\xf5\x80\x80\x80",
];

const UTF_16BE: &[&[u8]] = &[
    b"\xd8\0\0A",
    b"\xdb\xff\xe0\0",
    b"\xd8\x3d\xd8\x3d",
    b"\xdc\0",
    b"\xdf\xff",
];

const UTF_16LE: &[&[u8]] = &[
    b"\0\xd8A\0",
    b"\xff\xdb\0\xe0",
    b"\x3d\xd8\x3d\xd8",
    b"\0\xdc",
    b"\xff\xdf",
];

const UTF_32BE: &[&[u8]] = &[
    b"\0\0\xd8\0",
    b"\0\0\xdf\xff",
    b"\0\x11\0\0",
    b"\xff\xff\xff\xff",
];

const UTF_32LE: &[&[u8]] = &[
    b"\0\xd8\0\0",
    b"\xff\xdf\0\0",
    b"\0\0\x11\0",
    b"\xff\xff\xff\xff",
];

const UTF_7: &[&[u8]] = &[
    b"+-",
    b"+!",
    b"+AGE",
    b"+AGE-",
    b"+AGE!",
    b"+AGE~",
    b"+AGE\x80",
    b"+AGF-",
    b"+AA-",
    b"+2D3eAA-",
    b"+2D3eAQ-",
    b"+2D0-",
    b"+2D0AYQ-",
    b"+3gA-",
];

/// Returns ill-formed byte strings of an encoding, and for UTF-7 also well-formed shifted sequences.
pub fn bytes_in(encoding: &str) -> &'static [&'static [u8]] {
    match encoding {
        "UTF-8" => UTF_8,
        "UTF-16BE" => UTF_16BE,
        "UTF-16LE" => UTF_16LE,
        "UTF-32BE" => UTF_32BE,
        "UTF-32LE" => UTF_32LE,
        "UTF-7" => UTF_7,
        _ => &[],
    }
}
