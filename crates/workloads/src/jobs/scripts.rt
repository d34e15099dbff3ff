//! Scripts of conversions in hexadecimal, whose reply lines are printed.

use crate::alphabet::Kind;
use crate::charmap::{charmap_head, charmap_mappings};
use crate::digest::Digest;
use crate::form::Form;
use crate::language::Language;
use crate::random::Random;
use crate::stock::Stock;
use cv_commands::{RunFault, run_script};
use std::alloc::{AllocError, Global};
use std::random::RandomSource;
use std::sync::Wait;
use std::thread::Threads;

/// How many conversions a script has.
const CONVERSIONS: u32 = 1500;

/// Appends a charmap's upload, with `|` for each line feed.
fn push_upload(alloc: Global, random: &mut Random, script: &mut Vec<u8>) -> Result<(), AllocError> {
    let turn = random.number();
    let mut text = charmap_head(alloc, Kind::Western, "WINDOWS", turn)?;
    text.extend_from_slice(&charmap_mappings(alloc, random, Kind::Western, turn)?)?;
    script.extend_from_slice(b"# a charmap\n1 1 put ")?;
    for byte in &text {
        script.push(if *byte == b'\n' { b'|' } else { *byte })?;
    }
    script.push(b'\n')?;
    Ok(())
}

/// Appends a conversion of some words, or of a text of 1 to 16 KB.
fn push_conversion(
    alloc: Global,
    random: &mut Random,
    script: &mut Vec<u8>,
    stock: &Stock,
    tag: u32,
) -> Result<(), AllocError> {
    let descriptor = random.below(4);
    let head = format!(in alloc; "1 {tag} conv {descriptor} 1000000 ")?;
    script.extend_from_slice(head.as_bytes())?;
    if random.is_one_in(6) {
        let size = random.between(2_000, 32_000);
        for paragraph in &stock.text(alloc, random, size)? {
            script.extend_from_slice(paragraph)?;
        }
    } else {
        script.extend_from_slice(stock.line(random))?;
    }
    script.push(b'\n')?;
    Ok(())
}

fn script(alloc: Global, random: &mut Random, stock: &Stock) -> Result<Vec<u8>, AllocError> {
    let mut script = Vec::new(alloc);
    push_upload(alloc, random, &mut script)?;
    script.extend_from_slice(
        b"1 2 open UTF-8 UTF-8\n1 3 open UTF-16LE UTF-8\n1 4 open WINDOWS UTF-8\n1 5 open ISO-8859-1 UTF-8\n\n",
    )?;
    for number in 0..CONVERSIONS {
        push_conversion(alloc, random, &mut script, stock, 6 + number)?;
    }
    script.extend_from_slice(b"1 9999 bye\n")?;
    Ok(script)
}

/// So many scripts.
pub fn scripts<R: RandomSource + Threads + Wait + Sync>(
    rt: &R,
    alloc: Global,
    count: u32,
    random: &mut Random,
) -> Result<Digest, RunFault> {
    let languages = [
        Language::English,
        Language::German,
        Language::Russian,
        Language::Chinese,
        Language::Chat,
    ];
    let stock = Stock::new(alloc, random, &languages, Form::Digits)?;
    let mut digest = Digest::new();
    for _script in 0..count {
        let script = script(alloc, random, &stock)?;
        digest.take(&run_script(rt, alloc, &script, 1)?);
    }
    Ok(digest)
}
