//! Encodings that charmaps define, made by a rule. They have the shape of those that are in use.

/// A kind of encoding. A turn makes another one of the same kind.
#[derive(Clone, Copy)]
pub enum Kind {
    /// One byte: Latin letters, as CP1252.
    Western,
    /// One byte: Cyrillic letters, as KOI8-R.
    Cyrillic,
    /// One and two bytes: ideographs, as GBK.
    Chinese,
    /// One and two bytes: syllables, as EUC-KR.
    Korean,
    /// One, two and three bytes: kana and ideographs, as EUC-JP.
    Japanese,
    /// One, two and four bytes: all characters, as GB18030.
    Unified,
}

/// Bytes of a character, as a number, and how many they are.
#[derive(Clone, Copy)]
pub struct Code {
    pub bytes: u32,
    pub size: u32,
}

/// A character's place among some that follow one another, and those behind them.
fn place_in(character: u32, first: u32, count: u32, before: u32) -> Option<u32> {
    let place = character.checked_sub(first)?;
    if place < count {
        before.checked_add(place)
    } else {
        None
    }
}

/// A place turned round: the places of so many are put into another order.
fn turned(place: u32, count: u32, turn: u32) -> u32 {
    let far = u64::from(place)
        .wrapping_mul(7919)
        .wrapping_add(u64::from(turn));
    u32::try_from(far % u64::from(count.max(1))).unwrap_or(0)
}

fn one(place: u32, base: u32) -> Option<Code> {
    Some(Code {
        bytes: base.wrapping_add(place) % 256,
        size: 1,
    })
}

/// Two bytes by rows of so many cells.
fn two(place: u32, lead: u32, row: u32, cell: u32) -> Option<Code> {
    let row = row.max(1);
    let first = lead.wrapping_add(place / row) % 256;
    let second = cell.wrapping_add(place % row) % 256;
    Some(Code {
        bytes: first.wrapping_mul(256).wrapping_add(second),
        size: 2,
    })
}

/// Two bytes of GBK's rows, which leave out 7F.
fn two_of_gbk(place: u32) -> Option<Code> {
    let cell = place % 190;
    let second = if cell < 63 { 0x40 } else { 0x41 };
    let first = 0x81u32.wrapping_add(place / 190) % 256;
    Some(Code {
        bytes: first
            .wrapping_mul(256)
            .wrapping_add(second)
            .wrapping_add(cell),
        size: 2,
    })
}

/// Four bytes that count as those of GB18030 do.
fn four(place: u32, lead: u32) -> Option<Code> {
    let first = lead.wrapping_add(place / 12_600) % 256;
    let second = 0x30u32.wrapping_add(place / 1_260 % 10);
    let third = 0x81u32.wrapping_add(place / 10 % 126);
    let fourth = 0x30u32.wrapping_add(place % 10);
    let high = first.wrapping_mul(256).wrapping_add(second);
    let low = third.wrapping_mul(256).wrapping_add(fourth);
    Some(Code {
        bytes: high.wrapping_mul(65_536).wrapping_add(low),
        size: 4,
    })
}

/// How many ideographs there are.
const IDEOGRAPHS: u32 = 20_902;

fn western(character: u32, turn: u32) -> Option<Code> {
    if let Some(place) = place_in(character, 0xA0, 96, 0) {
        return one(turned(place, 96, turn), 0xA0);
    }
    one(place_in(character, 0x2010, 32, 0)?, 0x80)
}

fn cyrillic(character: u32, turn: u32) -> Option<Code> {
    if let Some(place) = place_in(character, 0x400, 96, 0) {
        return one(turned(place, 96, turn), 0xA0);
    }
    one(place_in(character, 0x2500, 32, 0)?, 0x80)
}

fn chinese(character: u32, turn: u32) -> Option<Code> {
    let place = place_in(character, 0x4E00, IDEOGRAPHS, 0)
        .or(place_in(character, 0x3000, 32, 20_902))
        .or(place_in(character, 0xFF00, 96, 20_934))?;
    two_of_gbk(turned(place, 21_030, turn))
}

fn korean(character: u32, turn: u32) -> Option<Code> {
    let place = place_in(character, 0xAC00, 8_700, 0)
        .or(place_in(character, 0x3000, 32, 8_700))
        .or(place_in(character, 0xFF00, 96, 8_732))?;
    two(turned(place, 8_828, turn), 0xA1, 94, 0xA1)
}

fn japanese(character: u32, turn: u32) -> Option<Code> {
    let place = place_in(character, 0x4E00, 12_000, 256).or(place_in(character, 0x3000, 256, 0))?;
    let place = turned(place, 12_256, turn);
    let Some(far) = place.checked_sub(8_836) else {
        return two(place, 0xA1, 94, 0xA1);
    };
    let code = two(far, 0xA1, 94, 0xA1)?;
    Some(Code {
        bytes: code.bytes.wrapping_add(0x8F_0000),
        size: 3,
    })
}

fn unified(character: u32, turn: u32) -> Option<Code> {
    if let Some(place) = place_in(character, 0x4E00, IDEOGRAPHS, 0) {
        return two_of_gbk(turned(place, IDEOGRAPHS, turn));
    }
    let place = place_in(character, 0x80, 0x4D80, 0)
        .or(place_in(character, 0x9FA6, 0x385A, 0x4D80))
        .or(place_in(character, 0xE000, 0x2000, 0x85DA));
    if let Some(place) = place {
        return four(place, 0x81);
    }
    four(place_in(character, 0x1_0000, 180_000, 0)?, 0x90)
}

impl Kind {
    /// The bytes of a character, if it has some.
    pub fn code(self, character: u32, turn: u32) -> Option<Code> {
        if character < 0x80 {
            return one(character, 0);
        }
        match self {
            Kind::Western => western(character, turn),
            Kind::Cyrillic => cyrillic(character, turn),
            Kind::Chinese => chinese(character, turn),
            Kind::Korean => korean(character, turn),
            Kind::Japanese => japanese(character, turn),
            Kind::Unified => unified(character, turn),
        }
    }

    /// Where the characters begin and end that it may have, in turn.
    pub fn spans(self) -> &'static [(u32, u32)] {
        match self {
            Kind::Western => &[(0, 0x100), (0x2010, 0x2030)],
            Kind::Cyrillic => &[(0, 0x80), (0x400, 0x460), (0x2500, 0x2520)],
            Kind::Chinese => &[
                (0, 0x80),
                (0x3000, 0x3020),
                (0x4E00, 0x9FA6),
                (0xFF00, 0xFF60),
            ],
            Kind::Korean => &[
                (0, 0x80),
                (0x3000, 0x3020),
                (0xAC00, 0xCDFC),
                (0xFF00, 0xFF60),
            ],
            Kind::Japanese => &[(0, 0x80), (0x3000, 0x3100), (0x4E00, 0x7CE0)],
            Kind::Unified => &[(0, 0xD800), (0xE000, 0x1_0000)],
        }
    }

    /// How many bytes a character has at most.
    pub fn most_bytes(self) -> u32 {
        match self {
            Kind::Western | Kind::Cyrillic => 1,
            Kind::Chinese | Kind::Korean => 2,
            Kind::Japanese => 3,
            Kind::Unified => 4,
        }
    }
}
