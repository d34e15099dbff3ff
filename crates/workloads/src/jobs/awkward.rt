//! What peers send that are broken or hostile: bad bytes, and after each the rest again; pieces of some bytes, and rooms for some; shifts
//! at each word; texts of which the target lacks most.

use super::serve;
use crate::digest::Digest;
use crate::form::Form;
use crate::frames::{AMPLE, Frames};
use crate::language::Language;
use crate::random::Random;
use crate::stock::Stock;
use cv_cache::Cached;
use cv_commands::RunFault;
use std::alloc::{AllocError, Global};
use std::random::RandomSource;
use std::sync::Wait;
use std::thread::Threads;

/// Words in UTF-7, each of which shifts.
const SHIFTED: [&str; 15] = [
    "+BD8EQAQ4BDIENQRC-",
    "+BDwEOARA-",
    "+BD8EOARBBEwEPAQ+-",
    "+BEEERwRRBEI-",
    "+ZeVnLA-",
    "+ZYdbVw-",
    "+Ti1lhw-",
    "gr+APYA3w-e",
    "f+APw-r",
    "+A8ADuwO3A8EDvwPGA78DwQOvA7E-",
    "+BEIENQRBBEI-",
    "+BDoEMAQ2BDQESwQ5-",
    "+BEEEOwQ+BDIEPg-",
    "+wMi4XMa0-",
    "+1VytbcW0-",
];

/// The texts that awkward peers have.
#[derive(Drop)]
struct Texts {
    mixed: Stock,
    russian: Stock,
    words: Stock,
    shifted: Stock,
}

/// How long a character of UTF-8 is, by its first byte.
fn size_of(first: u8) -> usize {
    match first {
        0..=0xBF => 1,
        0xC0..=0xDF => 2,
        0xE0..=0xEF => 3,
        _ => 4,
    }
}

/// How many bytes from a place on are whole characters of UTF-8, so many at most, but one character at least.
fn whole(text: &[u8], at: usize, most: usize) -> usize {
    let mut size: usize = 0;
    for _character in 0..most.max(1) {
        let Some(first) = text.get(at.saturating_add(size)) else {
            break;
        };
        let more = size.saturating_add(size_of(*first));
        if size > 0 && more > most {
            break;
        }
        size = more;
    }
    size
}

/// Appends some characters of a paragraph, 50 to 200 bytes.
fn push_some(text: &mut Vec<u8>, random: &mut Random, stock: &Stock) -> Result<(), AllocError> {
    let paragraph = stock.paragraph(random);
    let most = random.between(50, 200);
    let size = whole(paragraph, 0, most);
    text.extend_from_slice(paragraph.get(..size).unwrap_or(b""))
}

/// A text with many bad bytes, and where it goes on behind each.
#[derive(Drop)]
struct Damaged {
    text: Vec<u8>,
    starts: Vec<usize>,
}

fn make_damaged(alloc: Global, random: &mut Random, stock: &Stock) -> Result<Damaged, AllocError> {
    let mut text = Vec::new(alloc);
    let mut starts = Vec::new(alloc);
    for _part in 0..random.between(40, 200) {
        starts.push(text.len())?;
        push_some(&mut text, random, stock)?;
        text.push(0xFF)?;
    }
    Ok(Damaged { text, starts })
}

/// Behind each bad byte the rest is sent again.
fn push_damaged<'a>(
    alloc: Global,
    frames: &mut Frames<'a>,
    damaged: &'a Damaged,
    target: &str,
) -> Result<(), AllocError> {
    frames.open(alloc, 1, target, "UTF-8", false)?;
    for start in &damaged.starts {
        frames.conv(1, AMPLE, &[damaged.text.get(*start..).unwrap_or(b"")])?;
    }
    frames.close(1)
}

/// A text in pieces of a few bytes.
fn push_small_pieces<'a>(
    alloc: Global,
    random: &mut Random,
    frames: &mut Frames<'a>,
    text: &'a [u8],
) -> Result<(), AllocError> {
    frames.open(alloc, 1, "UTF-16LE", "UTF-8", false)?;
    let mut at: usize = 0;
    for _piece in 0..text.len() {
        let size = whole(text, at, random.between(1, 8));
        let Some(piece) = text.get(at..at.saturating_add(size)) else {
            break;
        };
        frames.conv(1, AMPLE, &[piece])?;
        at = at.saturating_add(size);
    }
    frames.close(1)
}

/// A text into rooms of a few bytes: each time what is left is sent again.
fn push_small_rooms<'a>(
    alloc: Global,
    random: &mut Random,
    frames: &mut Frames<'a>,
    text: &'a [u8],
) -> Result<(), AllocError> {
    frames.open(alloc, 1, "UTF-8", "UTF-8", false)?;
    let mut at: usize = 0;
    for _call in 0..text.len() {
        if at >= text.len() {
            break;
        }
        let room = random.between(1, 40);
        let rest = text.get(at..).unwrap_or(b"");
        frames.conv(1, u32::try_from(room).unwrap_or(AMPLE), &[rest])?;
        let size = whole(text, at, room);
        at = at.saturating_add(if size <= room { size } else { 0 });
    }
    frames.close(1)
}

/// Texts from one encoding to another, so many of so many bytes.
fn push_texts<'a>(
    alloc: Global,
    random: &mut Random,
    frames: &mut Frames<'a>,
    stock: &'a Stock,
    names: (&str, &str),
    size: usize,
) -> Result<(), AllocError> {
    frames.open(alloc, 1, names.0, names.1, false)?;
    for _text in 0..6 {
        frames.conv(1, AMPLE, &stock.text(alloc, random, size)?)?;
    }
    frames.close(1)
}

/// What a stream's texts are.
#[derive(Drop)]
struct Contents {
    first: Damaged,
    second: Damaged,
    pieces: Vec<u8>,
    rooms: Vec<u8>,
}

fn make_contents(
    alloc: Global,
    random: &mut Random,
    mixed: &Stock,
) -> Result<Contents, AllocError> {
    Ok(Contents {
        first: make_damaged(alloc, random, mixed)?,
        second: make_damaged(alloc, random, mixed)?,
        pieces: mixed.joined(alloc, random, 12_000)?,
        rooms: mixed.joined(alloc, random, 2_000)?,
    })
}

fn stream<'a>(
    alloc: Global,
    random: &mut Random,
    texts: &'a Texts,
    own: &'a Contents,
) -> Result<Frames<'a>, AllocError> {
    let mut frames = Frames::new(alloc);
    push_damaged(alloc, &mut frames, &own.first, "UTF-16LE")?;
    push_damaged(alloc, &mut frames, &own.second, "UTF-8")?;
    push_small_pieces(alloc, random, &mut frames, &own.pieces)?;
    push_small_rooms(alloc, random, &mut frames, &own.rooms)?;
    push_texts(
        alloc,
        random,
        &mut frames,
        &texts.words,
        ("UTF-7", "UTF-8"),
        6_000,
    )?;
    push_texts(
        alloc,
        random,
        &mut frames,
        &texts.shifted,
        ("UTF-8", "UTF-7"),
        6_000,
    )?;
    push_texts(
        alloc,
        random,
        &mut frames,
        &texts.russian,
        ("US-ASCII", "UTF-8"),
        12_000,
    )?;
    push_texts(
        alloc,
        random,
        &mut frames,
        &texts.russian,
        ("ISO-8859-1", "UTF-8"),
        12_000,
    )?;
    frames.bye(1)?;
    Ok(frames)
}

/// So many streams.
pub fn awkward<R: RandomSource + Threads + Wait + Sync>(
    rt: &R,
    alloc: Global,
    count: u32,
    random: &mut Random,
) -> Result<Digest, RunFault> {
    let mixed = [
        Language::English,
        Language::German,
        Language::Russian,
        Language::Chinese,
        Language::Chat,
    ];
    let wordy = [Language::German, Language::Greek, Language::Chat];
    let texts = Texts {
        mixed: Stock::new(alloc, random, &mixed, Form::Utf8)?,
        russian: Stock::new(alloc, random, &[Language::Russian], Form::Utf8)?,
        words: Stock::new(alloc, random, &wordy, Form::Utf8)?,
        shifted: Stock::of_words(alloc, random, &SHIFTED)?,
    };
    let cached = Cached::new(alloc)?;
    let mut digest = Digest::new();
    for _stream in 0..count {
        let own = make_contents(alloc, random, &texts.mixed)?;
        let frames = stream(alloc, random, &texts, &own)?;
        serve(rt, alloc, &cached, &frames, &mut digest)?;
    }
    Ok(digest)
}
