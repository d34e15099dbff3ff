//! A pool within a budget: each worker has a part of it, and what the callers hold is reported after each batch.
use crate::asking::{WAYS, told};
use cv_cache::Cached;
use cv_caller::{CALLER_BYTES, DESCRIPTOR_BYTES};
use cv_frame::Status;
use cv_frame::ops::{BYE, OPEN};
use cv_pool::{Open, Pool, Tallied, Tally};
use cv_world::{Budget, Usage};
use std::sync::atomic::{AtomicU64, Ordering};
use std::test::Fail;
use test_support::{OK, push_frame, request};

/// The body of an OPEN from US-ASCII to UTF-8.
const NAMES: &[u8] = b"\x05UTF-8\x08US-ASCII";

/// How many bytes are counted for a caller with one descriptor.
const ONE: u64 = CALLER_BYTES + DESCRIPTOR_BYTES;

/// What the callers of a pool hold, as it was reported last.
#[derive(Drop)]
struct Holdings {
    bytes: AtomicU64,
    callers: AtomicU64,
}

impl Holdings {
    /// Nothing is held.
    fn new() -> Holdings {
        Holdings {
            bytes: AtomicU64::new(0),
            callers: AtomicU64::new(0),
        }
    }

    /// How many bytes are counted for them.
    fn bytes(&self) -> u64 {
        self.bytes.load(Ordering::SeqCst)
    }

    /// How many of them have something.
    fn callers(&self) -> u64 {
        self.callers.load(Ordering::SeqCst)
    }
}

impl Tally for Holdings {
    fn note(&self, usage: Usage) {
        self.bytes.store(usage.bytes, Ordering::SeqCst);
        self.callers
            .store(u64::from(usage.callers), Ordering::SeqCst);
    }
}

/// Each worker has room for one caller with one descriptor.
#[test]
fn each_worker_has_a_part_of_the_budget(rt: HostRuntime) -> Result<(), Fail> {
    let refused = Status::NoMemory.number();
    let budget = Budget {
        bytes: 2 * ONE + 1,
        callers: 3,
    };
    let requests = [
        request(1, 0, OPEN, NAMES),
        request(2, 1, OPEN, NAMES),
        request(3, 2, OPEN, NAMES),
        request(4, 3, OPEN, NAMES),
        request(1, 4, BYE, b""),
        request(3, 5, OPEN, NAMES),
    ];
    let mut wanted = Vec::new(rt.alloc());
    push_frame(&mut wanted, 1, 0, OK, &[0; 4])?;
    push_frame(&mut wanted, 2, 1, OK, &[0; 4])?;
    push_frame(&mut wanted, 3, 2, refused, b"")?;
    push_frame(&mut wanted, 4, 3, refused, b"")?;
    push_frame(&mut wanted, 1, 4, OK, b"")?;
    push_frame(&mut wanted, 3, 5, OK, &[0; 4])?;
    for way in WAYS {
        let cached = Cached::new(rt.alloc())?;
        let holdings = Holdings::new();
        let pool = Pool::within(rt.alloc(), 2, &cached, Open, budget)?;
        let mut engine = Tallied::new(pool, &holdings);
        assert_eq!(rt; holdings.bytes(), 0, "{way:?}");
        let frames = told(&rt, rt.alloc(), way, &mut engine, &requests)?;
        assert!(rt; frames == wanted, "{way:?}");
        assert_eq!(rt; holdings.bytes(), 2 * ONE, "{way:?}");
        assert_eq!(rt; holdings.callers(), 2, "{way:?}");
    }
    Ok(())
}
