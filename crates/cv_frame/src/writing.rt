//! Writes frames.

ghost use Rattle.std.specs.Prelude.{◌≡◌, ◌≤◌, ◌+◌, ◌++◌, List, ℕ, OnOk, OnErr, length, vec_len, vec_capacity};
ghost use Rattle.cv_frame.specs.Message.{FitsFrame, spelling};
ghost use Rattle.cv_frame.specs.Bodies.{name_body, policy_body};
ghost use Rattle.cv_frame.specs.Asks.{AskFits, ask_code, ask_body, request_of};

use crate::ask::Ask;
use crate::ops::{BYE, CLOSE, CONV, DROP, OPEN, PART, PUT, RESET};
use crate::reply::Reply;
use crate::sizes::{FRAME_HEAD, MOST_BODY};
use cv_base::{Memory, Policy};

/// Appends bytes for which there is room.
fn append(out: &mut Vec<u8>, bytes: &[u8])
    requires { vec_len out.old + length bytes.now ≤ vec_capacity out.old }
    ensures items { out.new.items ≡ out.old.items ++ bytes.now }
    ensures len { vec_len out.new ≡ vec_len out.old + length bytes.now }
    ensures room { vec_capacity out.old ≤ vec_capacity out.new }
{
    out.extend_from_slice(bytes).unwrap()
}

/// Appends a name, after the byte that is its length.
fn append_name(out: &mut Vec<u8>, name: &[u8])
    requires byte { length name.now ≤ 255 }
    requires fits { vec_len out.old + 1 + length name.now ≤ vec_capacity out.old }
    ensures items { out.new.items ≡ out.old.items ++ name_body name.now }
    ensures len { vec_len out.new ≡ vec_len out.old + 1 + length name.now }
    ensures room { vec_capacity out.old ≤ vec_capacity out.new }
{
    append(out, &[name.len() as u8]);
    append(out, name);
}

/// Returns what follows the names of an OPEN.
fn policy_bytes(policy: Policy) -> &'static [u8]
    ensures { result.now ≡ policy_body policy }
{
    match policy {
        Policy::Substitute => b"",
        Policy::Strict => b"\x01",
    }
}

/// Returns what precedes a body of n bytes in its frame: the length, the caller, the tag, and the op or the status.
pub fn frame_head(caller: u32, tag: u32, code: u8, n: usize) -> [u8; FRAME_HEAD]
    requires { n ≤ MOST_BODY }
    ensures { (body : List ℕ) → length body ≡ n → result ++ body ≡
        spelling (record { caller = caller; tag = tag; code = code; body = body }) }
{
    let [a, b, c, d] = (9 + n as u32).to_be_bytes();
    let [e, f, g, h] = caller.to_be_bytes();
    let [i, j, k, l] = tag.to_be_bytes();
    [a, b, c, d, e, f, g, h, i, j, k, l, code]
}

/// Begins a frame: makes room for all of it, and appends what precedes its body of n bytes.
fn begin_frame(out: &mut Vec<u8>, caller: u32, tag: u32, code: u8, n: usize) -> Result<(), Memory>
    requires { n ≤ MOST_BODY }
    ensures begins { OnOk result ((body : List ℕ) → length body ≡ n → out.new.items ++ body ≡ out.old.items ++
        spelling (record { caller = caller; tag = tag; code = code; body = body })) }
    ensures room { OnOk result (vec_len out.new + n ≤ vec_capacity out.new) }
    ensures err { OnErr result (out.new.items ≡ out.old.items) }
{
    out.reserve(FRAME_HEAD + n)?;
    append(out, &frame_head(caller, tag, code, n));
    Ok(())
}

/// Appends the frame of a reply. If an allocation fails, the buffer is unchanged.
pub fn write_reply(out: &mut Vec<u8>, reply: &Reply) -> Result<(), Memory>
    ensures ok { OnOk result (out.new.items ≡ out.old.items ++ spelling reply.now) }
    ensures err { OnErr result (out.new.items ≡ out.old.items) }
{
    let head = reply.head.as_slice();
    let tail = reply.tail.as_slice();
    let code = reply.status.number();
    begin_frame(out, reply.caller, reply.tag, code, head.len() + tail.len())?;
    append(out, head);
    append(out, tail);
    Ok(())
}

/// Returns the number of an ask's op.
fn op_of(ask: &Ask<'_>) -> u8
    ensures { result ≡ ask_code ask.now }
{
    match *ask {
        Ask::Put(_) => PUT,
        Ask::DropMap(_) => DROP,
        Ask::Open { .. } => OPEN,
        Ask::Conv { .. } => CONV,
        Ask::Reset { .. } => RESET,
        Ask::Close(_) => CLOSE,
        Ask::Bye => BYE,
        Ask::Part(_) => PART,
        Ask::Raw { op, .. } => op,
    }
}

/// Returns how many bytes an ask's body has.
fn body_len(ask: &Ask<'_>) -> usize
    requires { AskFits ask.now }
    ensures { result ≡ length (ask_body ask.now) }
{
    match *ask {
        Ask::DropMap(name) => 1 + name.len(),
        Ask::Open { to, from, policy } => 2 + to.len() + from.len() + policy_bytes(policy).len(),
        Ask::Conv { input, .. } => 8 + input.len(),
        Ask::Reset { .. } => 8,
        Ask::Close(_) => 4,
        Ask::Bye => 0,
        Ask::Put(body) | Ask::Part(body) | Ask::Raw { body, .. } => body.len(),
    }
}

/// Appends an ask's body.
fn append_body(out: &mut Vec<u8>, ask: &Ask<'_>)
    requires fits { AskFits ask.now }
    requires room { vec_len out.old + length (ask_body ask.now) ≤ vec_capacity out.old }
    ensures { out.new.items ≡ out.old.items ++ ask_body ask.now }
{
    match *ask {
        Ask::DropMap(name) => append_name(out, name),
        Ask::Open { to, from, policy } => {
            append_name(out, to);
            append_name(out, from);
            append(out, policy_bytes(policy));
        }
        Ask::Conv {
            number,
            room,
            input,
        } => {
            append(out, &number.to_be_bytes());
            append(out, &room.to_be_bytes());
            append(out, input);
        }
        Ask::Reset { number, room } => {
            append(out, &number.to_be_bytes());
            append(out, &room.to_be_bytes());
        }
        Ask::Close(number) => append(out, &number.to_be_bytes()),
        Ask::Bye => {}
        Ask::Put(body) | Ask::Part(body) | Ask::Raw { body, .. } => append(out, body),
    }
}

/// Appends the frame of a request. Names have at most 255 bytes and the body at most 1,048,567, and so the input of a
/// `Conv` has at most 1,048,559. If an allocation fails, the buffer is unchanged.
pub fn write_request(out: &mut Vec<u8>, caller: u32, tag: u32, ask: &Ask<'_>) -> Result<(), Memory>
    requires { AskFits ask.now }
    ensures ok { OnOk result (out.new.items ≡ out.old.items ++ spelling (request_of caller tag ask.now)) }
    ensures fits { FitsFrame (request_of caller tag ask.now) }
    ensures err { OnErr result (out.new.items ≡ out.old.items) }
{
    begin_frame(out, caller, tag, op_of(ask), body_len(ask))?;
    append_body(out, ask);
    Ok(())
}
