//! The conversions by windows of sixteen characters.
ghost use Rattle.std.specs.Prelude.{◌≡◌, ◌≤◌, ◌<◌, [], ◌∷◌, length, IfSome, MatchOption};
ghost use Rattle.cv_transcode.specs.Runs.{IsTranscoded};
ghost use Rattle.cv_utf16.specs.Utf16.{utf16};
ghost use Rattle.cv_utf16.specs.Utf32.{utf32};
ghost use Rattle.cv_utf8.specs.Utf8.{utf8_bytes};

use crate::latin1::Latin1Window;
use crate::mixed::convert_all;
use crate::run::Run;
use crate::utf8::Utf8Window;
use crate::utf16::Utf16Window;
use crate::utf32::Utf32Window;
use crate::windows::convert_to_end;
use cv_block::ByteOrder;

/// Converts characters at the start of a text from UTF-16 to UTF-8, by windows of sixteen units, into a slice from
/// index `at` on. It may convert fewer than possible. All other bytes of the slice stay. Returns `None` if it converted
/// none.
#[inline(never)]
pub fn utf16_to_utf8<O: ByteOrder>(text: &[u8], out: &mut [u8], at: usize) -> Option<Run>
    requires { at ≤ length out.old }
    ensures some { IfSome result (λ run. 0 < run.used) }
    ensures run { MatchOption result (out.new ≡ out.old) (λ run.
        IsTranscoded (utf16 O.endian) utf8_bytes text.now out.old at run out.new) }
{
    convert_all::<Utf16Window<O>, Utf8Window>(text, out, at)
}

/// Converts characters at the start of a text from one byte order of UTF-16 to another, by windows of sixteen units,
/// into a slice from index `at` on. It may convert fewer than possible. All other bytes of the slice stay. Returns
/// `None` if it converted none.
#[inline(never)]
pub fn utf16_swapped<O: ByteOrder, P: ByteOrder>(
    text: &[u8],
    out: &mut [u8],
    at: usize,
) -> Option<Run>
    requires { at ≤ length out.old }
    ensures some { IfSome result (λ run. 0 < run.used) }
    ensures run { MatchOption result (out.new ≡ out.old) (λ run.
        IsTranscoded (utf16 O.endian) (utf16 P.endian) text.now out.old at run out.new) }
{
    convert_all::<Utf16Window<O>, Utf16Window<P>>(text, out, at)
}

/// Converts characters at the start of a text from UTF-32 to UTF-8, by windows of sixteen units, into a slice from
/// index `at` on. It may convert fewer than possible. All other bytes of the slice stay. Returns `None` if it converted
/// none.
#[inline(never)]
pub fn utf32_to_utf8<O: ByteOrder>(text: &[u8], out: &mut [u8], at: usize) -> Option<Run>
    requires { at ≤ length out.old }
    ensures some { IfSome result (λ run. 0 < run.used) }
    ensures run { MatchOption result (out.new ≡ out.old) (λ run.
        IsTranscoded (utf32 O.endian) utf8_bytes text.now out.old at run out.new) }
{
    convert_all::<Utf32Window<O>, Utf8Window>(text, out, at)
}

/// Converts characters at the start of a text from UTF-32 to UTF-16, by windows of sixteen units, into a slice from
/// index `at` on. It may convert fewer than possible. All other bytes of the slice stay. Returns `None` if it converted
/// none.
#[inline(never)]
pub fn utf32_to_utf16<O: ByteOrder, P: ByteOrder>(
    text: &[u8],
    out: &mut [u8],
    at: usize,
) -> Option<Run>
    requires { at ≤ length out.old }
    ensures some { IfSome result (λ run. 0 < run.used) }
    ensures run { MatchOption result (out.new ≡ out.old) (λ run.
        IsTranscoded (utf32 O.endian) (utf16 P.endian) text.now out.old at run out.new) }
{
    convert_all::<Utf32Window<O>, Utf16Window<P>>(text, out, at)
}

/// Converts characters at the start of a text from ISO-8859-1 to UTF-8, by windows of sixteen, into a slice from index
/// `at` on. It may convert fewer than possible. All other bytes of the slice stay. Returns `None` if it converted none.
#[inline(never)]
pub fn latin1_to_utf8(text: &[u8], out: &mut [u8], at: usize) -> Option<Run>
    requires { at ≤ length out.old }
    ensures some { IfSome result (λ run. 0 < run.used) }
    ensures run { MatchOption result (out.new ≡ out.old) (λ run.
        IsTranscoded (λ c. c ∷ []) utf8_bytes text.now out.old at run out.new) }
{
    let run = convert_to_end::<Latin1Window, Utf8Window>(text, out, at);
    if run.used == 0 { None } else { Some(run) }
}
