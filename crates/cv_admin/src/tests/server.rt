//! A server for the tests. It serves nothing.
use crate::operated::{Health, Operated};
use std::alloc::{AllocError, Global};
use std::sync::atomic::{AtomicU32, Ordering};

/// It reports the health that it was given, and counts calls of `drain`.
#[derive(Drop)]
pub(crate) struct Still {
    pub(crate) health: Health,
    pub(crate) drains: AtomicU32,
}

impl Still {
    pub(crate) fn new(health: Health) -> Still {
        Still {
            health,
            drains: AtomicU32::new(0),
        }
    }
}

impl Operated for Still {
    fn health(&self) -> Health {
        self.health
    }

    fn metrics(&self, alloc: Global) -> Result<String, AllocError> {
        String::from_str(alloc, "iconvd_places 4\n")
    }

    fn streams(&self, alloc: Global) -> Result<String, AllocError> {
        String::from_str(alloc, "[]")
    }

    fn drain(&self) {
        let _before = self.drains.fetch_add(1, Ordering::SeqCst);
    }
}
