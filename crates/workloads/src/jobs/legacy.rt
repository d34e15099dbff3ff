//! Texts from and to charmaps, some with letters that the map lacks.

use super::serve;
use crate::digest::Digest;
use crate::form::Form;
use crate::frames::{AMPLE, Frames};
use crate::language::Language;
use crate::maps::{Map, five_maps};
use crate::random::Random;
use crate::stock::Stock;
use cv_cache::{Cached, HashKeys};
use cv_commands::RunFault;
use std::alloc::{AllocError, Global};
use std::random::RandomSource;
use std::sync::Wait;
use std::thread::Threads;

/// How many texts are converted by each map, in each direction.
const TEXTS: u32 = 10;

/// What is converted to each map, in the order of the maps.
fn unicode_stocks(alloc: Global, random: &mut Random) -> Result<Vec<Stock>, AllocError> {
    let lists: [&[Language]; 5] = [
        &[Language::German, Language::French, Language::English],
        &[Language::Russian, Language::Russian, Language::Chat],
        &[Language::Chinese, Language::Chinese, Language::Chat],
        &[Language::Korean, Language::Korean, Language::Greek],
        &[Language::Japanese, Language::Japanese, Language::Chat],
    ];
    let mut stocks = Vec::new(alloc);
    for languages in lists {
        stocks.push(Stock::new(alloc, random, languages, Form::Utf8)?)?;
    }
    Ok(stocks)
}

fn push_texts<'a>(
    alloc: Global,
    random: &mut Random,
    frames: &mut Frames<'a>,
    caller: u32,
    stock: &'a Stock,
) -> Result<(), AllocError> {
    for _text in 0..TEXTS {
        let most = if random.is_one_in(3) { 64_000 } else { 8_000 };
        let size = random.between(1_000, most);
        let text = stock.text(alloc, random, size)?;
        frames.conv(caller, AMPLE, &text)?;
    }
    frames.close(caller)
}

/// A stream of one caller.
fn stream<'a>(
    alloc: Global,
    random: &mut Random,
    caller: u32,
    maps: &'a [Map],
    stocks: &'a [Stock],
) -> Result<Frames<'a>, AllocError> {
    let mut frames = Frames::new(alloc);
    for map in maps {
        frames.put(caller, &map.head, &map.mappings)?;
    }
    for (map, stock) in maps.iter().zip(stocks) {
        frames.open(alloc, caller, "UTF-8", map.name, false)?;
        push_texts(alloc, random, &mut frames, caller, &map.stock)?;
        frames.open(alloc, caller, map.name, "UTF-8", false)?;
        push_texts(alloc, random, &mut frames, caller, stock)?;
    }
    frames.bye(caller)?;
    Ok(frames)
}

/// So many streams of texts.
pub fn legacy<R: RandomSource + Threads + Wait + Sync>(
    rt: &R,
    alloc: Global,
    count: u32,
    random: &mut Random,
) -> Result<Digest, RunFault> {
    let maps = five_maps(alloc, random)?;
    let stocks = unicode_stocks(alloc, random)?;
    let cached = Cached::with_keys(alloc, HashKeys::drawn(rt))?;
    let mut digest = Digest::new();
    for caller in 0..count {
        let frames = stream(alloc, random, caller, &maps, &stocks)?;
        serve(rt, alloc, &cached, &frames, &mut digest)?;
    }
    Ok(digest)
}
