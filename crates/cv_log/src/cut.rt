//! Cuts texts that are too long.
ghost use Rattle.std.specs.Prelude.{◌≡◌};

use std::fmt::{self, Display, Formatter, Write};

/// Shows a text, or its beginning and `…` if it is too long.
#[derive(Drop)]
pub(crate) struct Shortened<D> {
    text: D,
    most: usize,
}

/// A text of which at most `most` bytes are shown.
pub(crate) fn cut<D>(text: D, most: usize) -> Shortened<D>
    ensures text { result.text ≡ text }
    ensures most { result.most ≡ most }
{
    Shortened { text, most }
}

impl<D: Display> Display for Shortened<D> {
    fn fmt<W: fmt::Write>(&self, f: &mut Formatter<W>) -> fmt::Result {
        let mut shown = Shown {
            f,
            left: self.most,
            is_cut: false,
        };
        write!(shown, "{}", self.text)?;
        if shown.is_cut {
            return f.write_str("…");
        }
        Ok(())
    }
}

/// A writer that passes on as many bytes as there is room for, but only whole characters.
#[derive(Drop)]
struct Shown<'f, W> {
    f: &'f mut Formatter<W>,
    left: usize,
    is_cut: bool,
}

impl<'f, W: fmt::Write> fmt::Write for Shown<'f, W> {
    fn write_str(&mut self, text: &str) -> fmt::Result {
        if self.is_cut {
            return Ok(());
        }
        let kept = text.floor_char_boundary(self.left);
        self.is_cut = kept < text.len();
        self.left -= kept;
        self.f.write_str(&text[..kept])
    }
}
