//! The declarations of header lines.

ghost use Rattle.std.specs.Prelude.{◌≡◌, ◌<◌, ◌≤◌, length, IfSome, MatchOption, true, false};
ghost use Rattle.std.specs.List.{position_or_len, list_any, list_all};
ghost use Rattle.std.specs.Char.{is_ascii_graphic};
ghost use Rattle.cv_lex.specs.Declarations as spec;
ghost use Rattle.cv_lex.specs.Private.Results.{setting_read};

use crate::cause::Cause;
use crate::line::Setting;
use crate::words::{are_graphic, is, value_behind};

/// Returns the index of the first `>`.
fn close_at(text: &[u8]) -> Option<usize>
    ensures { MatchOption result (list_any spec.is_close text.now ≡ false) (λ n.
        (list_any spec.is_close text.now ≡ true)
        × (n ≡ position_or_len spec.is_close text.now) × (n < length text.now)) }
{
    let (mut n, mut rest) = (0, text);
    while let [byte, more @ ..] = rest {
        if *byte == b'>' {
            return Some(n);
        }
        n += 1;
        rest = more;
    }
    None
}

/// Returns a value without the one pair of quotation marks around it, if it has one.
fn unquoted(value: &[u8]) -> &[u8]
    ensures { result.now ≡ spec.unquoted value.now }
{
    if value.len() >= 2 && value[0] == b'"' && value[value.len() - 1] == b'"' {
        &value[1..value.len() - 1]
    } else {
        value
    }
}

/// Returns the name of a code set, if it has 1 to 64 visible ASCII characters.
fn name_by(name: &[u8]) -> Result<Setting<'_>, Cause>
    ensures { setting_read result ≡ spec.name_by name.now }
{
    if !name.is_empty() && name.len() <= 64 && are_graphic(name) {
        Ok(Setting::Name(name))
    } else {
        Err(Cause::Declaration)
    }
}

/// Returns the byte of a value that is one digit from 1 to 8.
fn size_by(value: &[u8]) -> Option<u8>
    ensures value { result ≡ spec.sole spec.is_size value.now }
    ensures digit { IfSome result (λ b. 48 ≤ b) }
{
    match value {
        [byte] if b'1' <= *byte && *byte <= b'8' => Some(*byte),
        _ => None,
    }
}

/// Returns the byte of a value that is one ASCII punctuation character other than `<` and `>`.
fn mark_by(value: &[u8]) -> Option<u8>
    ensures { result ≡ spec.sole spec.is_mark value.now }
{
    match value {
        [byte] if byte.is_ascii_punctuation() && *byte != b'<' && *byte != b'>' => Some(*byte),
        _ => None,
    }
}

/// Returns what a name and its value declare.
#[tactic(auto, unfolding(crate::specs::Declarations::declared_by))]
fn declared_by<'a>(key: &[u8], value: &'a [u8]) -> Result<Setting<'a>, Cause>
    ensures { setting_read result ≡ spec.declared_by key.now value.now }
{
    if is(key, b"code_set_name") {
        return name_by(unquoted(value));
    }
    let setting = if is(key, b"mb_cur_max") {
        size_by(value).map(|b| Setting::MbMax(b - b'0'))
    } else if is(key, b"mb_cur_min") {
        size_by(value).map(|b| Setting::MbMin(b - b'0'))
    } else if is(key, b"escape_char") {
        mark_by(value).map(|b| Setting::Escape(b))
    } else if is(key, b"comment_char") {
        mark_by(value).map(|b| Setting::Comment(b))
    } else {
        Some(Setting::Other)
    };
    setting.ok_or(Cause::Declaration)
}

/// Reads a header line that declares something.
#[tactic(auto, unfolding(crate::specs::Declarations::declaration_of))]
pub(crate) fn read_declaration(line: &[u8]) -> Result<Setting<'_>, Cause>
    ensures { setting_read result ≡ spec.declaration_of line.now }
{
    let [first, rest @ ..] = line else {
        return Err(Cause::Declaration);
    };
    if *first != b'<' {
        return Err(Cause::Declaration);
    }
    let Some(end) = close_at(rest) else {
        return Err(Cause::Declaration);
    };
    declared_by(&rest[..end], value_behind(&rest[end + 1..]))
}
