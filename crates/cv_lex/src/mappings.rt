//! Mapping lines.

ghost use Rattle.std.specs.Prelude.{◌≡◌, ◌<◌, length, IfSome, IfNone, false, ok_or};
ghost use Rattle.std.specs.Option.{option_map};
ghost use Rattle.std.specs.Bool.{OnTrue};
ghost use Rattle.cv_lex.specs.Names as names;
ghost use Rattle.cv_lex.specs.Mappings as spec;
ghost use Rattle.cv_lex.specs.Private.Results.{mapping_read, bytes_read};
ghost use Rattle.cv_lex.specs.Seen.{line_read};

use crate::cause::Cause;
use crate::encoding::constants;
use crate::line::Line;
use crate::names::{name_of, range_of};
use crate::words::{after_blanks, begins, has, value_behind};
use arrayvec::ArrayVec;
use cv_base::Scalar;

/// Returns a name up to the first `>` that is not escaped, and what follows it.
fn name_from(escape: u8, text: &[u8]) -> Option<(&[u8], &[u8])>
    ensures { option_map (λ p. (p.0.now, p.1.now)) result ≡ spec.name_from escape false text.now }
{
    let mut escaped = false;
    for (n, byte) in text.iter().enumerate() {
        if escaped {
            escaped = false;
        } else if *byte == escape {
            escaped = true;
        } else if *byte == b'>' {
            return Some((&text[..n], &text[n + 1..]));
        }
    }
    None
}

/// Returns the name at the start in angle brackets, and what follows it.
fn name_at(escape: u8, text: &[u8]) -> Option<(&[u8], &[u8])>
    ensures { option_map (λ p. (p.0.now, p.1.now)) result ≡ spec.bracketed_name escape text.now }
{
    let [first, rest @ ..] = text else {
        return None;
    };
    if *first == b'<' {
        name_from(escape, rest)
    } else {
        None
    }
}

/// Returns a name without its escape characters, if it has at most 64 bytes then. No longer name means a character.
fn unescaped(escape: u8, name: &[u8]) -> Option<ArrayVec<u8, 64>>
    ensures some { IfSome result (λ v. v.items ≡ spec.plain escape name.now) }
    ensures none { IfNone result (64 < length (spec.plain escape name.now)) }
{
    let mut plain = ArrayVec::new();
    let (mut escaped, mut rest) = (false, name);
    while let [byte, more @ ..] = rest {
        if !escaped && *byte == escape {
            escaped = true;
        } else {
            if plain.is_full() {
                return None;
            }
            plain.push(*byte);
            escaped = false;
        }
        rest = more;
    }
    Some(plain)
}

/// Tells whether a name has no escape character.
fn is_plain(escape: u8, name: &[u8]) -> bool
    ensures { OnTrue result (spec.plain escape name.now ≡ name.now) }
{
    !has(escape, name)
}

/// Returns the character of a name that may have escape characters.
fn character(escape: u8, name: &[u8]) -> Result<Scalar, Cause>
    ensures { result ≡ names.character_of (spec.plain escape name.now) }
{
    if is_plain(escape, name) {
        return name_of(name);
    }
    match unescaped(escape, name) {
        Some(plain) => name_of(plain.as_slice()),
        None => Err(Cause::UnknownName),
    }
}

/// Returns the first and the last number of a range, whose names may have escape characters.
fn ends(escape: u8, hex: bool, first: &[u8], last: &[u8]) -> Result<(u32, u32), Cause>
    ensures { result
        ≡ names.range_of hex (spec.plain escape first.now) (spec.plain escape last.now) }
{
    if is_plain(escape, first) && is_plain(escape, last) {
        return range_of(hex, first, last);
    }
    let Some(first) = unescaped(escape, first) else {
        return Err(Cause::Range);
    };
    let Some(last) = unescaped(escape, last) else {
        return Err(Cause::Range);
    };
    range_of(hex, first.as_slice(), last.as_slice())
}

/// Returns the encoding after blanks.
fn encoding_at(text: &[u8]) -> Result<&[u8], Cause>
    ensures { bytes_read result ≡ ok_or (spec.encoding_at text.now) Cause.Syntax }
{
    let encoding = value_behind(text);
    if encoding.is_empty() {
        Err(Cause::Syntax)
    } else {
        Ok(encoding)
    }
}

/// Reads what follows a single name.
#[tactic(auto, unfolding(crate::specs::Mappings::single_by))]
fn read_single<'a>(escape: u8, name: &[u8], rest: &[u8]) -> Result<Line<'a>, Cause>
    ensures { line_read result ≡ mapping_read (spec.single_by escape name.now rest.now) }
{
    let encoding = encoding_at(rest)?;
    let c = character(escape, name)?;
    let bytes = constants(escape, encoding)?;
    Ok(Line::One { c, bytes })
}

/// Reads what follows the first name of a range.
#[tactic(auto, unfolding(crate::specs::Mappings::ranged_by))]
fn read_ranged<'a>(escape: u8, hex: bool, name: &[u8], rest: &[u8]) -> Result<Line<'a>, Cause>
    ensures { line_read result ≡ mapping_read (spec.ranged_by escape hex name.now rest.now) }
{
    let Some((second, rest)) = name_at(escape, rest) else {
        return Err(Cause::Syntax);
    };
    let encoding = encoding_at(rest)?;
    let (first, last) = ends(escape, hex, name, second)?;
    let bytes = constants(escape, encoding)?;
    Ok(Line::Range {
        first,
        last,
        hex,
        bytes,
    })
}

/// Reads a mapping line.
#[tactic(auto, unfolding(crate::specs::Mappings::mapping_of))]
pub(crate) fn read_mapping<'a>(escape: u8, line: &[u8]) -> Result<Line<'a>, Cause>
    ensures { line_read result ≡ mapping_read (spec.mapping_of escape line.now) }
{
    let Some((name, rest)) = name_at(escape, after_blanks(line)) else {
        return Err(Cause::Syntax);
    };
    if begins(rest, b"...") {
        read_ranged(escape, false, name, &rest[3..])
    } else if begins(rest, b"..") {
        read_ranged(escape, true, name, &rest[2..])
    } else {
        read_single(escape, name, rest)
    }
}
