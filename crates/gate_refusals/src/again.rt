//! Calls that are made again if an allocation failed.

use cv_base::Memory;
use cv_charmap::CompileFault;
use cv_commands::RunFault;
use cv_loop::ServeFault;
use std::alloc::AllocError;

/// Why a layer has no result.
#[derive(Clone, Copy, Debug, PartialEq, Eq)]
pub enum Trouble {
    /// An allocation failed outside of the calls that are made again, for what they are given.
    Memory,
    /// A call gave another result than with ample memory.
    Fault,
}

impl From<Memory> for Trouble {
    fn from(_e: Memory) -> Trouble {
        Trouble::Memory
    }
}

impl From<AllocError> for Trouble {
    fn from(_e: AllocError) -> Trouble {
        Trouble::Memory
    }
}

impl From<CompileFault> for Trouble {
    fn from(fault: CompileFault) -> Trouble {
        match fault {
            CompileFault::Memory => Trouble::Memory,
            CompileFault::Map(_) => Trouble::Fault,
        }
    }
}

impl From<ServeFault> for Trouble {
    fn from(fault: ServeFault) -> Trouble {
        match fault {
            ServeFault::Memory => Trouble::Memory,
            _ => Trouble::Fault,
        }
    }
}

impl From<RunFault> for Trouble {
    fn from(fault: RunFault) -> Trouble {
        match fault {
            RunFault::Memory => Trouble::Memory,
            RunFault::Serve(fault) => Trouble::from(fault),
            _ => Trouble::Fault,
        }
    }
}

/// Prints to standard error the name of a call in which an allocation failed.
pub fn say_lacking<R: Eprint>(rt: &R, name: &str) {
    let _ = eprintln!(rt; "{name}");
}

/// Returns the result of a call that was made again. There is memory then, so any error is a fault.
pub fn ample<T, E: Drop>(told: Result<T, E>) -> Result<T, Trouble> {
    match told {
        Ok(told) => Ok(told),
        Err(_) => Err(Trouble::Fault),
    }
}

/// Returns whether one of the reply lines has the status ENOMEM.
pub fn has_refusal(lines: &[u8]) -> bool {
    let word = b"ENOMEM".as_slice();
    lines.windows(word.len()).any(|front| front == word)
}
