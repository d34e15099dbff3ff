//! A mail gateway: callers that upload the charmaps that others uploaded before, and then convert words of headers and parts of mails.

use super::serve;
use crate::digest::Digest;
use crate::form::Form;
use crate::frames::{AMPLE, Frames};
use crate::language::Language;
use crate::maps::{Map, five_maps};
use crate::random::Random;
use crate::stock::Stock;
use cv_cache::{Cached, HashKeys};
use cv_commands::RunFault;
use std::alloc::{AllocError, Global};
use std::random::RandomSource;
use std::sync::Wait;
use std::thread::Threads;

/// How many callers a stream has.
const CALLERS: u32 = 10;

/// How many mails come in a stream.
const MAILS: u32 = 300;

/// How many bytes of a part are sent at once, about.
const PIECE: usize = 4096;

/// What mails are written in.
#[derive(Drop)]
struct Mails {
    utf8: Stock,
    latin1: Stock,
    ascii: Stock,
    maps: Vec<Map>,
}

impl Mails {
    fn new(alloc: Global, random: &mut Random) -> Result<Mails, AllocError> {
        let all = [
            Language::English,
            Language::German,
            Language::French,
            Language::Russian,
            Language::Greek,
            Language::Chinese,
            Language::Japanese,
            Language::Korean,
            Language::Chat,
        ];
        let western = [Language::English, Language::German, Language::French];
        Ok(Mails {
            utf8: Stock::new(alloc, random, &all, Form::Utf8)?,
            latin1: Stock::new(alloc, random, &western, Form::Latin1)?,
            ascii: Stock::new(alloc, random, &[Language::English], Form::Ascii)?,
            maps: five_maps(alloc, random)?,
        })
    }

    /// An encoding by chance, half of them UTF-8 and a fifth of them charmaps, with texts in it.
    fn source(&self, random: &mut Random) -> (&str, &Stock) {
        match random.below(10) {
            0 | 1 => match self.maps.get(random.below(self.maps.len())) {
                Some(map) => (map.name, &map.stock),
                None => ("UTF-8", &self.utf8),
            },
            2 | 3 => ("ISO-8859-1", &self.latin1),
            4 => ("US-ASCII", &self.ascii),
            _ => ("UTF-8", &self.utf8),
        }
    }
}

/// The pieces of a part. One in twenty has a bad byte, behind which the client goes on.
fn push_pieces<'a>(
    alloc: Global,
    random: &mut Random,
    frames: &mut Frames<'a>,
    caller: u32,
    stock: &'a Stock,
    size: usize,
) -> Result<(), AllocError> {
    for _piece in 0..size / PIECE + 1 {
        let mut piece = stock.text(alloc, random, size.min(PIECE))?;
        if random.is_one_in(20) {
            let rest = stock.text(alloc, random, 1000)?;
            piece.push(b"\xFF")?;
            piece.extend_from_slice(&rest)?;
            frames.conv(caller, AMPLE, &piece)?;
            frames.conv(caller, AMPLE, &rest)?;
        } else {
            frames.conv(caller, AMPLE, &piece)?;
        }
    }
    Ok(())
}

/// A mail: some words of its header, each by a descriptor of its own, and its parts.
fn push_mail<'a>(
    alloc: Global,
    random: &mut Random,
    frames: &mut Frames<'a>,
    mails: &'a Mails,
    caller: u32,
) -> Result<(), AllocError> {
    for _word in 0..random.between(3, 8) {
        let (name, stock) = mails.source(random);
        frames.open(alloc, caller, "UTF-8", name, false)?;
        frames.conv(caller, AMPLE, &[stock.line(random)])?;
        frames.close(caller)?;
    }
    for _part in 0..random.between(1, 3) {
        let (name, stock) = mails.source(random);
        let strict = random.is_one_in(12);
        let target = if strict { "ISO-8859-1" } else { "UTF-8" };
        frames.open(alloc, caller, target, name, strict)?;
        let most = match random.below(3) {
            0 => 2_000,
            1 => 10_000,
            _ => 60_000,
        };
        let size = random.between(300, most);
        push_pieces(alloc, random, frames, caller, stock, size)?;
        frames.close(caller)?;
    }
    Ok(())
}

/// One stream: each caller uploads its charmaps, mails come, and the callers leave.
fn stream<'a>(
    alloc: Global,
    random: &mut Random,
    mails: &'a Mails,
) -> Result<Frames<'a>, AllocError> {
    let mut frames = Frames::new(alloc);
    for caller in 0..CALLERS {
        for map in &mails.maps {
            frames.put(caller, &map.head, &map.mappings)?;
        }
    }
    for _mail in 0..MAILS {
        let caller = random.number() % CALLERS;
        push_mail(alloc, random, &mut frames, mails, caller)?;
    }
    for caller in 0..CALLERS {
        frames.bye(caller)?;
    }
    Ok(frames)
}

/// So many streams of mails.
pub fn gateway<R: RandomSource + Threads + Wait + Sync>(
    rt: &R,
    alloc: Global,
    count: u32,
    random: &mut Random,
) -> Result<Digest, RunFault> {
    let mails = Mails::new(alloc, random)?;
    let cached = Cached::with_keys(alloc, HashKeys::drawn(rt))?;
    let mut digest = Digest::new();
    for _stream in 0..count {
        let frames = stream(alloc, random, &mails)?;
        serve(rt, alloc, &cached, &frames, &mut digest)?;
    }
    Ok(digest)
}
