//! What the header of a charmap declares.

ghost use Rattle.std.specs.Prelude.{◌≡◌};
ghost use Rattle.cv_lex.specs.Seen.{setting_seen};
ghost use Rattle.cv_charmap.specs.Headers.{with_declared, undeclared, marks_by};
ghost use Rattle.cv_charmap.specs.Private.Seen.{header_seen};

use cv_lex::{Marks, Setting};

/// The values that hold after some header lines.
#[derive(Clone, Copy, Debug)]
pub(crate) struct Header<'a> {
    pub(crate) name: Option<&'a [u8]>,
    pub(crate) most: u8,
    pub(crate) least: u8,
    pub(crate) escape: u8,
    pub(crate) comment: u8,
}

impl<'a> Header<'a> {
    /// Returns the values that hold if nothing is declared.
    pub(crate) fn new() -> Header<'a>
        ensures { header_seen result ≡ undeclared }
    {
        Header {
            name: None,
            most: 1,
            least: 1,
            escape: b'\\',
            comment: b'#',
        }
    }

    /// Returns the values that hold after one more declaration.
    pub(crate) fn with(self, setting: Setting<'a>) -> Header<'a>
        ensures { header_seen result
            ≡ with_declared (header_seen self.entry) (setting_seen setting.entry) }
    {
        let mut header = self;
        match setting {
            Setting::Name(name) => header.name = Some(name),
            Setting::MbMax(n) => header.most = n,
            Setting::MbMin(n) => header.least = n,
            Setting::Escape(b) => header.escape = b,
            Setting::Comment(b) => header.comment = b,
            Setting::Other => {}
        }
        header
    }

    /// Returns the marks by which a line is read. `inside` says whether it is below `CHARMAP`.
    pub(crate) fn marks(&self, inside: bool) -> Marks
        ensures { result ≡ marks_by (header_seen self.now) inside }
    {
        Marks {
            escape: self.escape,
            comment: self.comment,
            inside,
        }
    }
}
