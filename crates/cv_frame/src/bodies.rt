//! Reads the bodies of requests. A reader returns `None` if the body is not exactly of its form; the service then
//! answers `Status::BadRequest`. Numbers are of 32 bits, big-endian.

ghost use Rattle.std.specs.Prelude.{◌≡◌, ◌≤◌, ◌+◌, IfSome, length};
ghost use Rattle.std.specs.Option.{option_map};
ghost use Rattle.cv_frame.specs.Bodies.{name_at, drop_of, policy_of, open_of, conv_of, u32_of, reset_of};

use crate::reading::number;
use cv_base::Policy;

/// The body of an OPEN. A name may be empty.
#[derive(Clone, Copy, Debug)]
pub struct OpenBody<'a> {
    /// The target's name.
    pub to: &'a [u8],
    /// The source's name.
    pub from: &'a [u8],
    /// What the descriptor does at a character that the target lacks.
    pub policy: Policy,
}

/// Returns the name at the start, whose length is the first byte, and what follows it.
fn read_name_at(bytes: &[u8]) -> Option<(&[u8], &[u8])>
    ensures { option_map (λ p. (p.0.now, p.1.now)) result ≡ name_at bytes.now }
{
    let (n, rest) = bytes.split_first()?;
    let n = *n as usize;
    if rest.len() < n {
        return None;
    }
    Some(rest.split_at(n))
}

/// Reads the body of a DROP: a charmap's name, which may be empty.
pub fn read_name(body: &[u8]) -> Option<&[u8]>
    ensures { option_map (λ name. name.now) result ≡ drop_of body.now }
{
    let (name, rest) = read_name_at(body)?;
    if rest.is_empty() { Some(name) } else { None }
}

/// Reads the policy after the names of an OPEN.
fn read_policy(bytes: &[u8]) -> Option<Policy>
    ensures { result ≡ policy_of bytes.now }
{
    match bytes {
        [] | [0] => Some(Policy::Substitute),
        [1] => Some(Policy::Strict),
        _ => None,
    }
}

/// Reads the body of an OPEN: the target's name, then the source's, then the policy. No byte or a byte 0 is
/// `Policy::Substitute`: `?` is written for a character that the target lacks. A byte 1 is `Policy::Strict`: the
/// descriptor stops before such a character.
#[tactic(auto, unfolding(crate::specs::Bodies::open_of))]
pub fn read_open(body: &[u8]) -> Option<OpenBody<'_>>
    ensures { option_map (λ o. record { to = o.to.now; from = o.from.now; policy = o.policy }) result
        ≡ open_of body.now }
{
    let (to, rest) = read_name_at(body)?;
    let (from, rest) = read_name_at(rest)?;
    let policy = read_policy(rest)?;
    Some(OpenBody { to, from, policy })
}

/// Reads the body of a CONV: the descriptor's number, the room in bytes and the input, which is the rest.
#[tactic(auto, unfolding(crate::specs::Bodies::conv_of))]
pub fn read_conv(body: &[u8]) -> Option<(u32, u32, &[u8])>
    ensures fields { option_map (λ p. (p.0, p.1, p.2.now)) result ≡ conv_of body.now }
    ensures within { IfSome result (λ p. length p.2.now + 8 ≤ length body.now) }
{
    if body.len() < 8 {
        return None;
    }
    Some((number(body), number(&body[4..]), &body[8..]))
}

/// Reads the body of a RESET: the descriptor's number and the room in bytes.
#[tactic(auto, unfolding(crate::specs::Bodies::reset_of))]
pub fn read_reset(body: &[u8]) -> Option<(u32, u32)>
    ensures { result ≡ reset_of body.now }
{
    if body.len() == 8 {
        Some((number(body), number(&body[4..])))
    } else {
        None
    }
}

/// Reads the body of a CLOSE: the descriptor's number.
#[tactic(auto, unfolding(crate::specs::Bodies::u32_of))]
pub fn read_number(body: &[u8]) -> Option<u32>
    ensures { result ≡ u32_of body.now }
{
    if body.len() == 4 {
        Some(number(body))
    } else {
        None
    }
}
