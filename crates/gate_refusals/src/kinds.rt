//! Kinds of engines, and what one failed allocation may lead to.

use crate::again::Trouble;
use crate::serving::Way;
use crate::texts::joined;
use cv_cache::{Cached, Compiler};
use cv_loop::ServeFault;
use std::alloc::Global;
use std::sync::Wait;

/// The engine that is asked.
#[derive(Clone, Copy)]
pub enum Kind {
    World,
    WithCache,
    /// A pool with a cache.
    TwoWorkers,
    /// A world with a cache that holds a text.
    HoldingOne,
    /// A pool with such a cache.
    HoldingTwo,
}

/// What is missing because an allocation failed.
#[derive(Clone, Copy, PartialEq, Eq)]
pub enum Lacking {
    Nothing,
    /// The results of requests, each of which got ENOMEM.
    Requests,
    /// The replies to the last requests: the engine broke off.
    Rest,
    /// There was another fault.
    Other,
}

impl Lacking {
    /// Returns what is missing, from the result of an engine, and from whether one of its replies is ENOMEM.
    pub fn of(told: Result<(), ServeFault>, has_refusal: bool) -> Lacking {
        match told {
            Ok(()) if has_refusal => Lacking::Requests,
            Ok(()) => Lacking::Nothing,
            Err(ServeFault::Memory) => Lacking::Rest,
            Err(_) => Lacking::Other,
        }
    }
}

impl Kind {
    pub fn has_threads(self) -> bool {
        matches!(self, Kind::TwoWorkers | Kind::HoldingTwo)
    }

    fn holds(self) -> bool {
        matches!(self, Kind::HoldingOne | Kind::HoldingTwo)
    }

    /// Puts a text into a new cache, if the cache of this kind holds one.
    pub fn fill<R: Wait>(self, rt: &R, alloc: Global, cached: &Cached) -> Result<(), Trouble> {
        if !self.holds() {
            return Ok(());
        }
        let text = joined(alloc)?;
        cached.compile(rt, alloc, &text)?;
        if cached.bytes(rt) == 0 {
            return Err(Trouble::Memory);
        }
        Ok(())
    }

    /// Returns whether one failed allocation may lead to this. A cache that holds a text drops it, and the request is
    /// tried once more, so none gets ENOMEM. Outside of requests, a world that appends asks for memory only for its
    /// replies, and for them in two ways, so it does not break off.
    pub fn may(self, way: Way, lacking: Lacking) -> bool {
        match lacking {
            Lacking::Nothing => true,
            Lacking::Requests => !self.holds(),
            Lacking::Rest => !matches!((self, way), (Kind::HoldingOne, Way::Appended)),
            Lacking::Other => false,
        }
    }
}
