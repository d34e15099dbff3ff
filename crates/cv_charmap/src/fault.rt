//! Why a charmap text was not read.
ghost use Rattle.std.specs.Prelude.{◌≡◌};
ghost use Rattle.cv_charmap.specs.declared.fault.CompileFault.TheVariants.{Memory};

use cv_lex::Cause;
use std::alloc::AllocError;
use thiserror::Error;

/// The first fault of a charmap text.
#[derive(Clone, Copy, Debug, PartialEq, Eq, Error)]
#[error("line {line}: {cause}")]
pub struct MapFault {
    /// The number of the line, counted from 1; 4,294,967,295 is for all later lines too. 0 if the text as a whole has
    /// the fault.
    pub line: u32,
    /// What is wrong.
    pub cause: Cause,
}

/// Why a charmap text was not read.
#[derive(Clone, Copy, Debug, PartialEq, Eq, Error)]
pub enum CompileFault {
    /// The text has a fault.
    #[error("{0}")]
    Map(MapFault),
    /// An allocation failed.
    #[error("out of memory")]
    Memory,
}

impl From<AllocError> for CompileFault {
    ghost from_gives = { λ _ e. e ≡ Memory };

    fn from(_e: AllocError) -> CompileFault {
        CompileFault::Memory
    }
}
