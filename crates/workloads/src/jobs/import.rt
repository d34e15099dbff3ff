//! A file importer: whole files between Unicode forms, some 64 KB at once.

use super::serve;
use crate::digest::Digest;
use crate::form::Form;
use crate::frames::Frames;
use crate::language::Language;
use crate::random::Random;
use crate::stock::Stock;
use cv_cache::Cached;
use cv_commands::RunFault;
use std::alloc::{AllocError, Global};
use std::random::RandomSource;
use std::sync::Wait;
use std::thread::Threads;

/// How many pieces a file has.
const PIECES: u32 = 24;

/// Room for all that a piece can come to.
const ROOM: u32 = 262_144;

/// Files that are alike: their encoding, the one that is wanted, and how many of ten they are.
#[derive(Drop)]
struct Files {
    from: &'static str,
    to: &'static str,
    weight: u32,
    stock: Stock,
}

const ALL: [Language; 9] = [
    Language::English,
    Language::German,
    Language::French,
    Language::Russian,
    Language::Greek,
    Language::Chinese,
    Language::Japanese,
    Language::Korean,
    Language::Chat,
];

const WESTERN: [Language; 3] = [Language::English, Language::German, Language::French];

fn files_of(
    alloc: Global,
    random: &mut Random,
    from: (&'static str, Form),
    to: &'static str,
    weight: u32,
) -> Result<Files, AllocError> {
    let languages: &[Language] = match from.1 {
        Form::Latin1 => &WESTERN,
        _ => &ALL,
    };
    Ok(Files {
        from: from.0,
        to,
        weight,
        stock: Stock::new(alloc, random, languages, from.1)?,
    })
}

fn all_files(alloc: Global, random: &mut Random) -> Result<Vec<Files>, AllocError> {
    let mut all = Vec::new(alloc);
    all.push(files_of(alloc, random, ("UTF-16LE", Form::Utf16Le), "UTF-8", 3)?)?;
    all.push(files_of(alloc, random, ("ISO-8859-1", Form::Latin1), "UTF-8", 2)?)?;
    all.push(files_of(alloc, random, ("UTF-8", Form::Utf8), "UTF-8", 2)?)?;
    all.push(files_of(alloc, random, ("UTF-8", Form::Utf8), "UTF-16LE", 2)?)?;
    all.push(files_of(alloc, random, ("UTF-32LE", Form::Utf32Le), "UTF-8", 1)?)?;
    Ok(all)
}

/// A stream with one file.
fn file<'a>(
    alloc: Global,
    random: &mut Random,
    files: &'a Files,
) -> Result<Frames<'a>, AllocError> {
    let mut frames = Frames::new(alloc);
    frames.open(alloc, 1, files.to, files.from, false)?;
    for _piece in 0..PIECES {
        let size = random.between(60_000, 65_536);
        let piece = files.stock.text(alloc, random, size)?;
        frames.conv(1, ROOM, &piece)?;
    }
    frames.close(1)?;
    Ok(frames)
}

/// So many times ten files.
pub fn import<R: RandomSource + Threads + Wait + Sync>(
    rt: &R,
    alloc: Global,
    count: u32,
    random: &mut Random,
) -> Result<Digest, RunFault> {
    let all = all_files(alloc, random)?;
    let cached = Cached::new(alloc)?;
    let mut digest = Digest::new();
    for _ten in 0..count {
        for files in &all {
            for _file in 0..files.weight {
                let frames = file(alloc, random, files)?;
                serve(rt, alloc, &cached, &frames, &mut digest)?;
            }
        }
    }
    Ok(digest)
}
