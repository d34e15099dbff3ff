//! Histograms of times.
ghost use Rattle.std.specs.Prelude.{◌≡◌, ◌≤◌};
ghost use Rattle.cv_metrics.specs.Buckets.{bucket_of};

use crate::cells::{add, count_at, zeros};
use std::alloc::{AllocError, Global};
use std::sync::atomic::{AtomicU64, Ordering};

/// The upper bounds of the buckets in nanoseconds, each of which belongs to its bucket, and how Prometheus has them in
/// seconds. One more bucket has all longer times.
pub const BOUNDS: [(u64, &str); 11] = [
    (10_000, "0.00001"),
    (30_000, "0.00003"),
    (100_000, "0.0001"),
    (300_000, "0.0003"),
    (1_000_000, "0.001"),
    (3_000_000, "0.003"),
    (10_000_000, "0.01"),
    (30_000_000, "0.03"),
    (100_000_000, "0.1"),
    (300_000_000, "0.3"),
    (1_000_000_000, "1"),
];

/// The bucket of a time in nanoseconds: how many bounds are below it.
pub fn bucket_of(nanos: u64) -> usize
    ensures bucket { result ≡ bucket_of nanos }
    ensures below { result ≤ 11 }
{
    match nanos {
        0..=10_000 => 0,
        10_001..=30_000 => 1,
        30_001..=100_000 => 2,
        100_001..=300_000 => 3,
        300_001..=1_000_000 => 4,
        1_000_001..=3_000_000 => 5,
        3_000_001..=10_000_000 => 6,
        10_000_001..=30_000_000 => 7,
        30_000_001..=100_000_000 => 8,
        100_000_001..=300_000_000 => 9,
        300_000_001..=1_000_000_000 => 10,
        _ => 11,
    }
}

/// How many buckets there are.
pub(crate) const BUCKETS: usize = 12;

/// How often times came that fall into each bucket, and the sum of all.
#[derive(Drop)]
pub(crate) struct Histogram {
    buckets: Vec<AtomicU64>,
    nanos: AtomicU64,
}

/// What a histogram has at one time.
#[derive(Clone, Copy, Debug)]
pub(crate) struct Times {
    pub(crate) buckets: [u64; BUCKETS],
    pub(crate) nanos: u64,
}

impl Times {
    /// No time.
    pub(crate) fn none() -> Times {
        Times {
            buckets: [0; BUCKETS],
            nanos: 0,
        }
    }
}

impl Histogram {
    /// No time yet.
    pub(crate) fn new(alloc: Global) -> Result<Histogram, AllocError> {
        Ok(Histogram {
            buckets: zeros(alloc, BUCKETS)?,
            nanos: AtomicU64::new(0),
        })
    }

    /// The same time came so often.
    pub(crate) fn note(&self, nanos: u64, times: u64) {
        add(&self.buckets, bucket_of(nanos), times);
        self.nanos
            .fetch_add(nanos.wrapping_mul(times), Ordering::Relaxed);
    }

    /// Adds what this one has.
    pub(crate) fn add_to(&self, all: &mut Times) {
        for bucket in 0..BUCKETS {
            all.buckets[bucket] = all.buckets[bucket].wrapping_add(count_at(&self.buckets, bucket));
        }
        all.nanos = all.nanos.wrapping_add(self.nanos.load(Ordering::Relaxed));
    }
}
