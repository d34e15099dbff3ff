//! Paragraphs that texts are put together from.

use crate::form::{Form, spelled};
use crate::language::{Language, paragraph, push_words};
use crate::random::Random;
use std::alloc::{AllocError, Global};

/// Paragraphs and lines of a few words, spelled in one encoding.
#[derive(Drop)]
pub struct Stock {
    paragraphs: Vec<Vec<u8>>,
    lines: Vec<Vec<u8>>,
}

/// How many paragraphs, and lines, a stock has.
const PARAGRAPHS: usize = 192;

fn language_of(random: &mut Random, languages: &[Language]) -> Language {
    match languages.get(random.below(languages.len())) {
        Some(language) => *language,
        None => Language::English,
    }
}

impl Stock {
    /// Paragraphs in these languages.
    pub fn new(
        alloc: Global,
        random: &mut Random,
        languages: &[Language],
        form: Form,
    ) -> Result<Stock, AllocError> {
        let mut paragraphs = Vec::new(alloc);
        let mut lines = Vec::new(alloc);
        for _paragraph in 0..PARAGRAPHS {
            let language = language_of(random, languages);
            let text = paragraph(alloc, random, language)?;
            paragraphs.push(spelled(alloc, &text, form)?)?;
            let mut line = String::new(alloc);
            push_words(alloc, &mut line, random, language, 6)?;
            lines.push(spelled(alloc, &line, form)?)?;
        }
        Ok(Stock { paragraphs, lines })
    }

    /// Paragraphs of 40 of these words, with a space behind each.
    pub fn of_words(
        alloc: Global,
        random: &mut Random,
        words: &[&str],
    ) -> Result<Stock, AllocError> {
        let mut paragraphs = Vec::new(alloc);
        for _paragraph in 0..PARAGRAPHS {
            let mut text = Vec::new(alloc);
            for _word in 0..40 {
                text.extend_from_slice(random.word(words).as_bytes())?;
                text.push(b' ')?;
            }
            paragraphs.push(text)?;
        }
        let lines = Vec::new(alloc);
        Ok(Stock { paragraphs, lines })
    }

    /// One of its paragraphs.
    pub fn paragraph(&self, random: &mut Random) -> &[u8] {
        match self.paragraphs.get(random.below(self.paragraphs.len())) {
            Some(paragraph) => paragraph.as_slice(),
            None => b"",
        }
    }

    /// A line of some words.
    pub fn line(&self, random: &mut Random) -> &[u8] {
        match self.lines.get(random.below(self.lines.len())) {
            Some(line) => line.as_slice(),
            None => b"",
        }
    }

    /// Appends paragraphs by chance, of so many bytes at least in all.
    pub fn push_text<'a>(
        &'a self,
        random: &mut Random,
        size: usize,
        text: &mut Vec<&'a [u8]>,
    ) -> Result<(), AllocError> {
        let mut length: usize = 0;
        for _paragraph in 0..size {
            if length >= size {
                break;
            }
            let paragraph = self.paragraph(random);
            length = length.saturating_add(paragraph.len());
            text.push(paragraph)?;
        }
        Ok(())
    }

    /// A text of so many bytes at least: whole paragraphs by chance.
    pub fn text(
        &self,
        alloc: Global,
        random: &mut Random,
        size: usize,
    ) -> Result<Vec<&[u8]>, AllocError> {
        let mut text = Vec::new(alloc);
        self.push_text(random, size, &mut text)?;
        Ok(text)
    }

    /// The bytes of such a text, one after another.
    pub fn joined(
        &self,
        alloc: Global,
        random: &mut Random,
        size: usize,
    ) -> Result<Vec<u8>, AllocError> {
        let mut bytes = Vec::new(alloc);
        for paragraph in &self.text(alloc, random, size)? {
            bytes.extend_from_slice(paragraph)?;
        }
        Ok(bytes)
    }
}
