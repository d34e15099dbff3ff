//! How much the callers of a world may hold.
ghost use Rattle.std.specs.Prelude.{◌≡◌, ◌+◌, ◌*◌, ◌-◌, ◌≤◌, ◌^◌, ◌&&◌, min, nat_le, IfSome, IfNone};

use crate::world::World;
use cv_caller::{CALLER_BYTES, DESCRIPTOR_BYTES};

/// How much the callers of a world may hold together, and how many callers there may be.
#[derive(Clone, Copy, Debug, PartialEq, Eq)]
pub struct Budget {
    /// The greatest number of bytes that they may be counted for.
    pub bytes: u64,
    /// The greatest number of callers that may have something.
    pub callers: u32,
}

impl Budget {
    /// Makes a budget of these limits. `None` is no limit.
    pub fn of(bytes: Option<u64>, callers: Option<u32>) -> Budget
        ensures bytes { IfSome bytes (λ limit. result.bytes ≡ limit) }
        ensures callers { IfSome callers (λ limit. result.callers ≡ limit) }
        ensures no_bytes { IfNone bytes (result.bytes ≡ 2 ^ 64 - 1) }
        ensures no_callers { IfNone callers (result.callers ≡ 2 ^ 32 - 1) }
    {
        Budget {
            bytes: bytes.unwrap_or(u64::MAX),
            callers: callers.unwrap_or(u32::MAX),
        }
    }

    /// Returns whether each of the workers that share the budget has room for a caller with one descriptor: 672 bytes.
    pub fn is_enough_for(self, workers: u32) -> bool
        ensures { result ≡ (nat_le (672 * workers) self.bytes && nat_le workers self.callers) }
    {
        let bytes = u64::from(workers) * (CALLER_BYTES + DESCRIPTOR_BYTES);
        bytes <= self.bytes && workers <= self.callers
    }
}

/// The budget without limits.
pub const UNLIMITED: Budget = Budget {
    bytes: u64::MAX,
    callers: u32::MAX,
};

/// What the callers of one or several worlds hold.
#[derive(Clone, Copy, Debug, PartialEq, Eq)]
pub struct Usage {
    /// The number of bytes that they are counted for.
    pub bytes: u64,
    /// The number of callers that have something.
    pub callers: u32,
    /// What they may hold.
    pub budget: Budget,
}

/// The usage of no world: nothing is held, and nothing may be.
pub const NO_USAGE: Usage = Usage {
    bytes: 0,
    callers: 0,
    budget: Budget {
        bytes: 0,
        callers: 0,
    },
};

impl Usage {
    /// Returns the sum of two usages. The numbers saturate.
    pub fn and(self, other: Usage) -> Usage
        ensures bytes { result.bytes ≡ min (self.bytes + other.bytes) (2 ^ 64 - 1) }
        ensures callers { result.callers ≡ min (self.callers + other.callers) (2 ^ 32 - 1) }
        ensures budget_bytes { result.budget.bytes ≡ min (self.budget.bytes + other.budget.bytes) (2 ^ 64 - 1) }
        ensures budget_callers { result.budget.callers ≡ min (self.budget.callers + other.budget.callers) (2 ^ 32 - 1) }
    {
        Usage {
            bytes: self.bytes.saturating_add(other.bytes),
            callers: self.callers.saturating_add(other.callers),
            budget: Budget {
                bytes: self.budget.bytes.saturating_add(other.budget.bytes),
                callers: self.budget.callers.saturating_add(other.budget.callers),
            },
        }
    }
}

impl World {
    /// Returns what the callers hold, which is within their budget.
    pub fn usage(&self) -> Usage
        ensures bytes { result.bytes ≤ result.budget.bytes }
        ensures callers { result.callers ≤ result.budget.callers }
    {
        Usage {
            bytes: self.callers.held,
            callers: self.callers.map.len() as u32,
            budget: self.callers.budget,
        }
    }
}
