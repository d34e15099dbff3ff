//! Cuts the next batch of requests off the bytes of a stream.

ghost use Rattle.std.specs.Prelude.{◌≡◌, ◌≤◌, ◌<◌, ◌++◌, IfOk, length, drop};
ghost use Rattle.std.specs.List.{AllByRecursion};
ghost use Rattle.cv_frame.specs.Cut.{messages_of};
ghost use Rattle.cv_frame.specs.Message.{joined, FitsFrame};
ghost use Rattle.cv_loop.specs.Private.Batches.{next_requests};
ghost use Rattle.cv_loop.specs.Private.Draining.{EndsBatch};

use cv_base::Memory;
use cv_frame::{Frame, Request, next_request};
use std::alloc::Global;

/// Why a batch ended.
#[derive(Clone, Copy, Debug)]
pub enum End {
    /// The batch is full, or a request of the other kind follows. More whole frames may follow.
    More,
    /// Less than a frame follows.
    Partial,
    /// A length follows that no frame has.
    Bad { length: u32 },
}

/// Requests from the start of some bytes.
#[derive(Drop)]
pub struct Batch<'a> {
    pub requests: Vec<Request<'a>>,
    /// How many bytes the frames of the requests have.
    pub used: usize,
    pub end: End,
}

/// How many frames one batch has at most.
const FRAMES_PER_BATCH: usize = 64;

/// Returns the next batch. It has at most 64 requests: either uploads, no more than `uploads_at_once`, or requests that
/// are no uploads. So the requests before an upload are answered before it runs.
pub fn next_batch(alloc: Global, bytes: &[u8], uploads_at_once: usize) -> Result<Batch<'_>, Memory>
    requires { 0 < uploads_at_once }
    ensures within { IfOk result (λ b. b.used ≤ length bytes.now) }
    ensures cut { IfOk result (λ b. bytes.now ≡ joined b.requests.items ++ drop b.used bytes.now) }
    ensures fits { IfOk result (λ b. AllByRecursion FitsFrame b.requests.items) }
    ensures few { IfOk result (λ b. length b.requests.items ≤ FRAMES_PER_BATCH) }
    ensures next { IfOk result (λ b. b.requests.items ≡ next_requests uploads_at_once (messages_of bytes.now)) }
    ensures end { IfOk result (λ b. EndsBatch b.end b.used (drop b.used bytes.now)) }
{
    let mut batch = Batch {
        requests: Vec::new(alloc),
        used: 0,
        end: End::More,
    };
    // The first request decides of which kind the batch is, and how many requests it has at most.
    let mut uploads = false;
    let mut most = FRAMES_PER_BATCH;
    while batch.requests.len() < most {
        match next_request(&bytes[batch.used..]) {
            Frame::Whole { request, n } => {
                let is_upload = request.is_upload();
                if is_upload && batch.requests.is_empty() {
                    uploads = true;
                    most = uploads_at_once.min(FRAMES_PER_BATCH);
                }
                if is_upload != uploads {
                    return Ok(batch);
                }
                batch.requests.push(request)?;
                batch.used += n;
            }
            Frame::Partial => {
                batch.end = End::Partial;
                return Ok(batch);
            }
            Frame::Bad { length } => {
                batch.end = End::Bad { length };
                return Ok(batch);
            }
        }
    }
    Ok(batch)
}
