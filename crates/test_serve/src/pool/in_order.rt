//! The replies to a batch are in the order of its requests, for any number of workers.
use super::pool_of;
use cv_cache::{Cached, Plain};
use cv_frame::ops::{CONV, OPEN};
use cv_frame::{Reply, Request, Status};
use cv_pool::{Open, Pool};
use std::alloc::{AllocError, Global};
use std::sync::Wait;
use std::test::Fail;
use std::thread::Threads;
use test_support::{request, sides};

/// The body of an OPEN from US-ASCII to UTF-8.
const TO_UTF8: &[u8] = b"\x05UTF-8\x08US-ASCII";

/// How many callers there are.
const CALLERS: u32 = 64;

/// The number of workers, and how many bytes each CONV has. A batch of small ones runs on the calling thread, and one
/// of the others on several threads if there are several workers.
const SIZES: &str = "1 1, 2 1, 16 1, 1 5000, 2 5000, 3 20000, 16 20000, 16 40000";

#[test]
fn replies_stand_in_the_order_of_the_requests(rt: HostRuntime) -> Result<(), Fail> {
    for case in SIZES.split(", ") {
        let (workers, size) = sides(case, " ")?;
        let body = letters(rt.alloc(), size.parse::<usize>()?)?;
        let answered = all_answered(&rt, rt.alloc(), workers.parse::<u32>()?, &body)?;
        assert!(rt; answered, "{case}");
    }
    Ok(())
}

/// Returns the body of a CONV of `size` letters A on descriptor 0, with exactly the room that they need, up to 65,535
/// bytes.
pub fn letters(alloc: Global, size: usize) -> Result<Vec<u8>, AllocError> {
    let mut body = Vec::new(alloc);
    body.extend_from_slice(b"\0\0\0\0")?;
    body.extend_from_slice(&(size.min(65_535) as u32).to_be_bytes())?;
    body.resize(size.saturating_add(8), b'A')?;
    Ok(body)
}

/// Whether a pool of `workers` workers gives the right replies to each caller's OPEN and CONV of letters.
fn all_answered<R: Threads + Wait + Sync>(
    rt: &R,
    alloc: Global,
    workers: u32,
    conv: &[u8],
) -> Result<bool, Fail> {
    let mut pool = pool_of(alloc, workers)?;
    let opens = opens(alloc)?;
    let opened = is_answered(rt, alloc, &mut pool, &opens, b"\0\0\0\0", b"")?;
    let convs = convs(alloc, conv)?;
    let letters = conv.get(8..).unwrap_or(b"");
    let converted = is_answered(rt, alloc, &mut pool, &convs, b"\0\0\0\0\0\0\0\0", letters)?;
    Ok(opened && converted)
}

/// Returns OPENs of all callers in order.
pub fn opens(alloc: Global) -> Result<Vec<Request<'static>>, Fail> {
    let mut opens = Vec::new(alloc);
    for caller in 0..CALLERS {
        opens.push(request(caller, caller + 100, OPEN, TO_UTF8))?;
    }
    Ok(opens)
}

/// Returns CONVs of all callers in the opposite order.
pub fn convs(alloc: Global, body: &[u8]) -> Result<Vec<Request<'_>>, Fail> {
    let mut convs = Vec::new(alloc);
    for caller in 0..CALLERS {
        let last = CALLERS - 1 - caller;
        convs.push(request(last, last + 200, CONV, body))?;
    }
    Ok(convs)
}

/// Whether a pool gives 64 replies to a batch, each with this body, which is `head` and then `tail`.
fn is_answered<R: Threads + Wait + Sync>(
    rt: &R,
    alloc: Global,
    pool: &mut Pool<Cached, Open>,
    requests: &[Request],
    head: &[u8],
    tail: &[u8],
) -> Result<bool, Fail> {
    let replies = pool.batch(rt, alloc, requests)?;
    Ok(replies.len() == 64 && are_replies(&replies, requests, head, tail))
}

/// Whether these are the replies to requests, in their order, each with this body and the status OK.
fn are_replies(replies: &[Reply], requests: &[Request], head: &[u8], tail: &[u8]) -> bool {
    for (reply, request) in replies.iter().zip(requests) {
        if !is_reply(reply, request.caller, request.tag, head, tail) {
            return false;
        }
    }
    replies.len() == requests.len()
}

/// Whether this is the reply to a request of this caller and tag, with this body and the status OK.
fn is_reply(reply: &Reply, caller: u32, tag: u32, head: &[u8], tail: &[u8]) -> bool {
    reply.caller == caller
        && reply.tag == tag
        && reply.status == Status::Ok
        && reply.head.as_slice() == head
        && reply.tail.as_slice() == tail
}

/// One caller has all the work, so no thread is started. An empty batch has no replies.
#[test]
fn one_caller_is_answered(rt: HostRuntime) -> Result<(), Fail> {
    let body = letters(rt.alloc(), 50_000)?;
    let requests = [
        request(7, 1, OPEN, TO_UTF8),
        request(7, 2, CONV, &body),
        request(7, 3, CONV, &body),
        request(7, 4, CONV, &body),
    ];
    let mut pool = Pool::new(rt.alloc(), 2, Plain, Open)?;
    let replies = pool.batch(&rt, rt.alloc(), &requests)?;
    assert_eq!(rt; replies.len(), 4);
    let letters = body.get(8..).unwrap_or(b"");
    for (reply, request) in replies.iter().zip(&requests).skip(1) {
        let ok = is_reply(reply, 7, request.tag, b"\0\0\0\0\0\0\0\0", letters);
        assert!(rt; ok);
    }
    let none = pool.batch(&rt, rt.alloc(), &[])?;
    assert!(rt; none.is_empty());
    Ok(())
}
