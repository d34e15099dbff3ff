//! Forms of charmaps, and their texts.

use cv_base::Scalar;
use std::alloc::{AllocError, Global};

/// A form of charmaps. The first pair of each is that of the question mark.
#[derive(Clone, Copy, Debug, PartialEq, Eq)]
pub enum Form {
    /// `count` byte strings of one size, each with a character of its own, and `step` between the numbers of the
    /// characters.
    Sized { size: u8, count: u32, step: u32 },
    /// `count` byte strings of 1 to 8 bytes, each with a character of its own.
    Mixed { count: u32 },
    /// `count` byte strings of three bytes, all of one character except the first.
    Crowded { count: u32 },
    /// `count` byte strings of four bytes, as in GB18030, except the first 32, which have one. Twenty values of the
    /// fourth byte are adjacent, and the last four of them have the same last four bits as the first four.
    Dense { count: u32 },
    /// `count` byte strings of two bytes, as in EUC-KR and GBK, except the first 32, which have one. 0xA0, which is in
    /// the middle of the first bytes, is one of these 32. Second bytes are 0x40 or above.
    Led { count: u32 },
    /// `count` byte strings of one to four bytes, as in EUC-JP and GB18030: the first 32 have one, and of each four
    /// others two have two bytes, one has three and one has four.
    Various { count: u32 },
}

/// All forms, with their names.
pub const FORMS: [(&str, Form); 15] = [
    (
        "1 byte",
        Form::Sized {
            size: 1,
            count: 256,
            step: 1,
        },
    ),
    (
        "1 byte, far apart",
        Form::Sized {
            size: 1,
            count: 256,
            step: 4000,
        },
    ),
    (
        "2 bytes",
        Form::Sized {
            size: 2,
            count: 7000,
            step: 1,
        },
    ),
    (
        "3 bytes",
        Form::Sized {
            size: 3,
            count: 65_536,
            step: 16,
        },
    ),
    (
        "4 bytes",
        Form::Sized {
            size: 4,
            count: 5000,
            step: 3,
        },
    ),
    (
        "5 bytes",
        Form::Sized {
            size: 5,
            count: 5000,
            step: 200,
        },
    ),
    (
        "6 bytes",
        Form::Sized {
            size: 6,
            count: 5000,
            step: 1,
        },
    ),
    (
        "7 bytes",
        Form::Sized {
            size: 7,
            count: 5000,
            step: 7,
        },
    ),
    (
        "8 bytes",
        Form::Sized {
            size: 8,
            count: 5000,
            step: 64,
        },
    ),
    ("1 to 8 bytes", Form::Mixed { count: 16_000 }),
    ("one character", Form::Crowded { count: 5000 }),
    (
        "two bytes, whole",
        Form::Sized {
            size: 2,
            count: 65_536,
            step: 1,
        },
    ),
    ("four bytes, dense", Form::Dense { count: 13_000 }),
    ("1 and 2 bytes", Form::Led { count: 8000 }),
    ("1 to 4 bytes", Form::Various { count: 12_000 }),
];

/// The bytes of a pair.
#[derive(Clone, Copy, Debug)]
pub struct Bytes {
    all: [u8; 8],
    size: u8,
}

/// Spreads numbers, so that consecutive ones are far from each other. Since the factor is odd, numbers with different
/// last bits keep different last bits.
fn spread(n: u32) -> u64 {
    u64::from(n).wrapping_mul(0x9E37_79B9_7F4A_7C15)
}

impl Bytes {
    /// Bytes of a size, which are different for different numbers that fit in as many bits.
    fn of(size: u8, n: u32) -> Bytes {
        Bytes {
            all: spread(n).to_le_bytes(),
            size,
        }
    }

    /// One or four bytes: the first 32 numbers have one, and then each 20 numbers have the same first three.
    fn dense(n: u32) -> Bytes {
        let rest = n.saturating_sub(32);
        let first = 0x81 + (rest / 12_600 % 64) as u8;
        let second = 0x30 + (rest / 1260 % 10) as u8;
        let third = 0x81 + (rest / 20 % 63) as u8;
        let fourth = 0x30 + (rest % 20) as u8;
        if n < 32 {
            Bytes {
                all: [0x20 + n as u8, 0, 0, 0, 0, 0, 0, 0],
                size: 1,
            }
        } else {
            Bytes {
                all: [first, second, third, fourth, 0, 0, 0, 0],
                size: 4,
            }
        }
    }

    /// One or two bytes: the first 31 numbers have one below 128, the next has 0xA0, and then each 190 numbers have the
    /// same first byte, which is none of these.
    fn led(n: u32) -> Bytes {
        let rest = n.saturating_sub(32);
        let first = 0x81 + (rest / 190 % 126) as u8;
        let beyond = first + u8::from(first >= 0xA0);
        let second = 0x40 + (rest % 190) as u8;
        let single = if n < 31 { 0x20 + n as u8 } else { 0xA0 };
        if n < 32 {
            Bytes {
                all: [single, 0, 0, 0, 0, 0, 0, 0],
                size: 1,
            }
        } else {
            Bytes {
                all: [beyond, second, 0, 0, 0, 0, 0, 0],
                size: 2,
            }
        }
    }

    /// Two, three or four bytes. Those of three and of four have a first byte of their own.
    fn long(n: u32) -> Bytes {
        let turn = n / 4;
        let row = 0xA1 + (turn / 94 % 32) as u8;
        let cell = 0xA1 + (turn % 94) as u8;
        let block = 0x30 + (turn / 1260 % 10) as u8;
        let third = 0x81 + (turn / 10 % 126) as u8;
        let fourth = 0x30 + (turn % 10) as u8;
        let (all, size) = match n % 4 {
            0 => ([row, cell, 0, 0, 0, 0, 0, 0], 2),
            1 => ([row + 32, cell, 0, 0, 0, 0, 0, 0], 2),
            2 => ([0x8F, row, cell, 0, 0, 0, 0, 0], 3),
            _ => ([0x8E, block, third, fourth, 0, 0, 0, 0], 4),
        };
        Bytes { all, size }
    }

    /// One byte for the first 32, and two, three or four for others.
    fn various(n: u32) -> Bytes {
        if n < 32 {
            Bytes {
                all: [0x20 + n as u8, 0, 0, 0, 0, 0, 0, 0],
                size: 1,
            }
        } else {
            Bytes::long(n - 32)
        }
    }

    /// Bytes of a size, with the size in the first three bits, so that none begins another.
    fn marked(size: u8, n: u32) -> Bytes {
        let mark = size.saturating_sub(1) % 8 * 32;
        let front = (spread(n) % 32) as u8;
        let [b, c, d, e, f, g, h, _] = (spread(n) >> 5).to_le_bytes();
        Bytes {
            all: [mark | front, b, c, d, e, f, g, h],
            size,
        }
    }

    /// Returns the bytes.
    pub fn as_slice(&self) -> &[u8] {
        self.all.get(..usize::from(self.size)).unwrap_or(&[])
    }
}

/// The character with a number, counted from the question mark, without the surrogates.
fn counted(n: u32, step: u32) -> Scalar {
    let value = n.saturating_mul(step).saturating_add(0x3F);
    let past = if value < 0xD800 {
        value
    } else {
        value.saturating_add(0x800)
    };
    Scalar::new(past).unwrap_or(Scalar::substitute())
}

impl Form {
    /// Returns how many pairs there are.
    pub fn count(self) -> u32 {
        match self {
            Form::Sized { count, .. } => count,
            Form::Mixed { count } => count,
            Form::Crowded { count } => count,
            Form::Dense { count } => count,
            Form::Led { count } => count,
            Form::Various { count } => count,
        }
    }

    /// The bytes of a pair.
    pub fn bytes(self, n: u32) -> Bytes {
        match self {
            Form::Sized { size, .. } => Bytes::of(size, n),
            Form::Mixed { .. } if n < 32 => Bytes::marked(1, n),
            Form::Mixed { .. } => Bytes::marked((n % 7) as u8 + 2, n),
            Form::Crowded { .. } => Bytes::of(3, n),
            Form::Dense { .. } => Bytes::dense(n),
            Form::Led { .. } => Bytes::led(n),
            Form::Various { .. } => Bytes::various(n),
        }
    }

    /// The character of a pair.
    pub fn character(self, n: u32) -> Scalar {
        match self {
            Form::Sized { step, .. } => counted(n, step),
            Form::Mixed { .. } => counted(n, 5),
            Form::Dense { .. } => counted(n, 2),
            Form::Led { .. } => counted(n, 3),
            Form::Various { .. } => counted(n, 7),
            Form::Crowded { .. } => counted(n.min(1), 0x4E00),
        }
    }

    /// Returns the charmap's text.
    pub fn text(self, alloc: Global) -> Result<String, AllocError> {
        let mut text = format!(in alloc; "<code_set_name> FORM\n<mb_cur_max> 8\nCHARMAP\n")?;
        for n in 0..self.count() {
            text.push_str(&format!(in alloc; "<U{:08X}> ", self.character(n).value())?)?;
            for byte in self.bytes(n).as_slice() {
                text.push_str(&format!(in alloc; "\\x{byte:02X}")?)?;
            }
            text.push_str("\n")?;
        }
        text.push_str("END CHARMAP\n")?;
        Ok(text)
    }
}
