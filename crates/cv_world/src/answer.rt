//! The answers to ops.
ghost use Rattle.std.specs.Prelude.{◌≡◌, ◌++◌, ◌∷◌, []};
ghost use Rattle.std.specs.Int.{w32, to_be_bytes};
ghost use Rattle.cv_lex.specs.Causes.{cause_number};
ghost use Rattle.cv_frame.specs.Message.{FitsFrame};
ghost use Rattle.cv_world.specs.Answers.{answer_code, answer_body, stop_status, AnswerFits};

use cv_base::Piece;
use cv_charmap::MapFault;
use cv_frame::{Bytes, Reply, Status};
use cv_pivot::Stop;
use std::alloc::Global;

/// The answer to an op.
#[derive(Debug, Drop)]
pub enum Answer {
    /// The request is done.
    Empty,
    /// The number of a new descriptor.
    Number(u32),
    /// How many mappings a charmap has, or how many bytes a part.
    Count(u32),
    /// The result of a conversion: why it stopped, how many bytes of the input are left, how many characters `?`
    /// replaces, and the output.
    Converted {
        stop: Stop,
        left: u32,
        count: u32,
        bytes: Bytes,
    },
    /// The bytes that close the target's shift.
    Written(Piece),
    /// The first fault of a charmap text.
    BadMap(MapFault),
    /// The request was refused for this cause, and changed nothing.
    Refused(Status),
}

pub(crate) fn status_of(stop: Stop) -> Status
    ensures { result ≡ stop_status stop }
{
    match stop {
        Stop::Done => Status::Ok,
        Stop::TooBig => Status::TooBig,
        Stop::Lacking => Status::Lacking,
        Stop::Ill => Status::Ill,
        Stop::Incomplete => Status::Incomplete,
    }
}

pub(crate) fn number_piece(n: u32) -> Piece
    ensures { result ≡ to_be_bytes w32 n }
{
    let mut piece = Piece::new();
    piece.push_number(n);
    piece
}

pub(crate) fn two_numbers(a: u32, b: u32) -> Piece
    ensures { result ≡ to_be_bytes w32 a ++ to_be_bytes w32 b }
{
    let mut piece = Piece::new();
    piece.push_number(a);
    piece.push_number(b);
    piece
}

pub(crate) fn fault_piece(fault: MapFault) -> Piece
    ensures { result ≡ to_be_bytes w32 fault.line ++ cause_number fault.cause ∷ [] }
{
    let mut piece = number_piece(fault.line);
    piece.push(fault.cause.number());
    piece
}

impl Answer {
    /// Makes the reply to a request of this caller and tag.
    pub fn reply(self, alloc: Global, caller: u32, tag: u32) -> Reply
        requires { AnswerFits self }
        ensures value { result
            ≡ record { caller = caller; tag = tag; code = answer_code self; body = answer_body self } }
        ensures fits { FitsFrame result }
    {
        let (status, head, tail) = match self {
            Answer::Empty => (Status::Ok, Piece::new(), Bytes::new(alloc)),
            Answer::Number(n) => (Status::Ok, number_piece(n), Bytes::new(alloc)),
            Answer::Converted {
                stop,
                left,
                count,
                bytes,
            } => (status_of(stop), two_numbers(left, count), bytes),
            Answer::Written(bytes) => (Status::Ok, bytes, Bytes::new(alloc)),
            Answer::Count(n) => (Status::Ok, number_piece(n), Bytes::new(alloc)),
            Answer::BadMap(fault) => (Status::BadMap, fault_piece(fault), Bytes::new(alloc)),
            Answer::Refused(status) => (status, Piece::new(), Bytes::new(alloc)),
        };
        Reply::new(caller, tag, status, head, tail)
    }
}
