//! The op and the status of an answered request.
ghost use Rattle.std.specs.Prelude.{◌≡◌, ◌==◌, ◌<◌, ◌+◌, ◌*◌, min};
ghost use Rattle.cv_metrics.specs.Ops.{op_index};

use crate::op_kind::OpKind;
use cv_frame::Status;

/// The op of a request, and the number of its reply's status.
#[derive(Clone, Copy, Debug, PartialEq, Eq)]
pub struct OpStatus {
    pub op: OpKind,
    pub status: u8,
}

impl OpStatus {
    /// How many statuses are counted apart: the 16 of the protocol, and one for all other numbers.
    pub const STATUSES: usize = 17;

    /// How many counters there are: one for each op and status.
    pub const COUNT: usize = 153;

    /// Returns the index of its counter. Each op has a row of 17 counters, one for each status.
    pub fn index(self) -> usize
        ensures index { result ≡ 17 * op_index self.op + min self.status 16 }
        ensures below { result < 153 }
    {
        let status = self.status.min(16) as usize;
        17 * self.op.index() + status
    }

    /// Returns the name of its status, such as `EILSEQ`, or `other`.
    pub fn status_name(self) -> &'static str {
        match Status::from_number(self.status) {
            Some(status) => status.name(),
            None => "other",
        }
    }

    /// Returns whether its status is ENOMEM: an allocation failed.
    pub fn lacks_memory(self) -> bool
        ensures { result ≡ (self.status == 6) }
    {
        self.status == Status::NoMemory.number()
    }
}
