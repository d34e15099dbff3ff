//! Cutting a text into lines.

ghost use Rattle.std.specs.Prelude.{◌≡◌};

use crate::text_lines::Lines;

/// Returns the lines of a text, each without its line feed and without one carriage return before it.
pub fn lines(text: &[u8]) -> Lines<'_>
    ensures { result ≡ text.now }
{
    Lines { rest: text }
}
