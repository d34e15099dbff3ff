//! Engines append for a batch, and write for a stream, the frames of the replies that they would return.
use super::in_order::{convs, letters, opens};
use super::pool_of;
use crate::asking::{WAYS, Way, told};
use crate::streams::{TOLD, TWO_CALLERS};
use cv_cache::Plain;
use cv_frame::{Frame, Request, next_request};
use cv_loop::WorldWith;
use cv_world::World;
use std::alloc::{AllocError, Global};
use std::sync::Wait;
use std::test::Fail;
use std::thread::Threads;
use test_support::sides;

/// The number of workers, and how many bytes each CONV has. A batch of small ones runs on the calling thread, and one
/// of the others on several threads if there are several workers.
const POOLS: &str = "1 1, 2 1, 16 1, 1 5000, 2 5000, 3 20000, 16 20000";

#[test]
fn pools_append_what_they_reply(rt: HostRuntime) -> Result<(), Fail> {
    for case in POOLS.split(", ") {
        let (workers, size) = sides(case, " ")?;
        let workers = workers.parse::<u32>()?;
        let body = letters(rt.alloc(), size.parse::<usize>()?)?;
        let replied = answers_of(&rt, rt.alloc(), Way::Batch, workers, &body)?;
        for way in WAYS {
            let frames = answers_of(&rt, rt.alloc(), way, workers, &body)?;
            assert!(rt; frames.as_slice() == replied.as_slice(), "{way:?} {case}");
        }
    }
    Ok(())
}

/// The replies of a pool of `workers` workers to 64 callers, each of which opens a descriptor and converts these
/// letters.
fn answers_of<R: Threads + Wait + Sync>(
    rt: &R,
    alloc: Global,
    way: Way,
    workers: u32,
    conv: &[u8],
) -> Result<Vec<u8>, Fail> {
    let mut pool = pool_of(alloc, workers)?;
    let mut frames = told(rt, alloc, way, &mut pool, &opens(alloc)?)?;
    let converted = told(rt, alloc, way, &mut pool, &convs(alloc, conv)?)?;
    frames.extend_from_slice(&converted)?;
    Ok(frames)
}

/// The uploads, OPENs and CONVs of two callers in one batch, which two workers answer on two threads.
#[test]
fn two_callers_are_told_in_each_way(rt: HostRuntime) -> Result<(), Fail> {
    let requests = requests_in(rt.alloc(), TWO_CALLERS)?;
    for way in WAYS {
        let mut world = World::new(rt.alloc());
        let frames = told(&rt, rt.alloc(), way, &mut world, &requests)?;
        assert!(rt; frames.as_slice() == TOLD, "{way:?}, World");
        let mut with = WorldWith::new(rt.alloc(), Plain);
        let frames = told(&rt, rt.alloc(), way, &mut with, &requests)?;
        assert!(rt; frames.as_slice() == TOLD, "{way:?}, WorldWith");
        let mut pool = pool_of(rt.alloc(), 2)?;
        let frames = told(&rt, rt.alloc(), way, &mut pool, &requests)?;
        assert!(rt; frames.as_slice() == TOLD, "{way:?}, Pool");
    }
    Ok(())
}

/// The requests of a stream.
fn requests_in(alloc: Global, stream: &[u8]) -> Result<Vec<Request<'_>>, AllocError> {
    let mut requests = Vec::new(alloc);
    let mut rest = stream;
    for _ in 0..stream.len() {
        let Frame::Whole { request, n } = next_request(rest) else {
            break;
        };
        requests.push(request)?;
        rest = rest.get(n..).unwrap_or(b"");
    }
    Ok(requests)
}
