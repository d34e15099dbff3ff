//! The ops of requests, as metrics name them.
ghost use Rattle.std.specs.Prelude.{◌≡◌, ◌<◌};
ghost use Rattle.cv_metrics.specs.Ops.{op_of, op_index};

use cv_frame::ops;

/// The op of a request.
#[derive(Clone, Copy, Debug, PartialEq, Eq)]
pub enum OpKind {
    Put,
    Drop,
    Open,
    Conv,
    Reset,
    Close,
    Bye,
    Part,
    /// An op that the service does not know, or one that was not kept because an allocation failed.
    Other,
}

impl OpKind {
    /// The number of variants.
    pub const COUNT: usize = 9;

    /// All variants, each at the index that `index` returns.
    pub const ALL: [OpKind; 9] = [
        OpKind::Put,
        OpKind::Drop,
        OpKind::Open,
        OpKind::Conv,
        OpKind::Reset,
        OpKind::Close,
        OpKind::Bye,
        OpKind::Part,
        OpKind::Other,
    ];

    /// Returns the op that has this number in a request, or `Other` for an unknown number.
    pub fn of(number: u8) -> OpKind
        ensures { result ≡ op_of number }
    {
        match number {
            ops::PUT => OpKind::Put,
            ops::DROP => OpKind::Drop,
            ops::OPEN => OpKind::Open,
            ops::CONV => OpKind::Conv,
            ops::RESET => OpKind::Reset,
            ops::CLOSE => OpKind::Close,
            ops::BYE => OpKind::Bye,
            ops::PART => OpKind::Part,
            _ => OpKind::Other,
        }
    }

    /// Returns its index in `ALL`.
    pub fn index(self) -> usize
        ensures index { result ≡ op_index self }
        ensures below { result < 9 }
    {
        match self {
            OpKind::Put => 0,
            OpKind::Drop => 1,
            OpKind::Open => 2,
            OpKind::Conv => 3,
            OpKind::Reset => 4,
            OpKind::Close => 5,
            OpKind::Bye => 6,
            OpKind::Part => 7,
            OpKind::Other => 8,
        }
    }

    /// Returns its word in scripts, or `other`.
    pub fn word(self) -> &'static str {
        match self {
            OpKind::Put => "put",
            OpKind::Drop => "drop",
            OpKind::Open => "open",
            OpKind::Conv => "conv",
            OpKind::Reset => "reset",
            OpKind::Close => "close",
            OpKind::Bye => "bye",
            OpKind::Part => "part",
            OpKind::Other => "other",
        }
    }
}
