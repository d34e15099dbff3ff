//! The five charmaps that the gateway's peers use.

use crate::alphabet::Kind;
use crate::charmap::{charmap_head, charmap_mappings};
use crate::form::Form;
use crate::language::Language;
use crate::random::Random;
use crate::stock::Stock;
use std::alloc::{AllocError, Global};

/// A charmap, and texts in its encoding.
#[derive(Drop)]
pub struct Map {
    pub name: &'static str,
    pub head: Vec<u8>,
    pub mappings: Vec<u8>,
    pub stock: Stock,
}

const KINDS: [(&str, Kind, &[Language]); 5] = [
    (
        "WINDOWS",
        Kind::Western,
        &[Language::German, Language::French],
    ),
    (
        "CYRILLIC",
        Kind::Cyrillic,
        &[Language::Russian, Language::English],
    ),
    (
        "CHINESE",
        Kind::Chinese,
        &[Language::Chinese, Language::Chinese, Language::English],
    ),
    ("KOREAN", Kind::Korean, &[Language::Korean]),
    ("JAPANESE", Kind::Japanese, &[Language::Japanese]),
];

/// A charmap of each kind.
pub fn five_maps(alloc: Global, random: &mut Random) -> Result<Vec<Map>, AllocError> {
    let mut maps = Vec::new(alloc);
    for (name, kind, languages) in KINDS {
        let turn = random.number();
        let head = charmap_head(alloc, kind, name, turn)?;
        let mappings = charmap_mappings(alloc, random, kind, turn)?;
        let stock = Stock::new(alloc, random, languages, Form::Map(kind, turn))?;
        maps.push(Map {
            name,
            head,
            mappings,
            stock,
        })?;
    }
    Ok(maps)
}
