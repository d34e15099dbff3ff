//! Replies.

ghost use Rattle.std.specs.Prelude.{◌≡◌, ◌≤◌, ◌+◌, ◌++◌, length};
ghost use Rattle.cv_frame.specs.Status.{status_number};
ghost use Rattle.cv_frame.specs.Message.{FitsFrame};

use crate::bytes::Bytes;
use crate::sizes::MOST_BODY;
use crate::status::Status;
use cv_base::Piece;
use std::marker::Model;

/// A reply. Its body is the head and then the tail, at most 1,048,567 bytes together, so that it fits a frame.
#[derive(Debug, Drop)]
pub struct Reply {
    pub caller: u32,
    pub tag: u32,
    pub status: Status,
    pub head: Piece,
    pub tail: Bytes,
}

impl Model for Reply {
    ghost use Rattle.std.specs.Prelude.{◌≤◌, ◌+◌, ◌++◌, length};
    ghost use Rattle.cv_frame.specs.Message.{Message};
    ghost use Rattle.cv_frame.specs.declared.sizes.TheConstants.{MOST_BODY};

    ghost Value = { Message };

    ghost use Rattle.cv_frame.specs.Status.{status_number};

    ghost view = { λ r.
        record { caller = r.caller; tag = r.tag; code = status_number r.status; body = r.head ++ r.tail } };

    ghost invariant = { λ r. length r.head + length r.tail ≤ MOST_BODY };
}

impl Reply {
    /// Makes a reply to the request of this caller and tag. Head and tail have at most 1,048,567 bytes together.
    pub fn new(caller: u32, tag: u32, status: Status, head: Piece, tail: Bytes) -> Self
        requires { length head + length tail ≤ MOST_BODY }
        ensures value { result
            ≡ record { caller = caller; tag = tag; code = status_number status; body = head ++ tail } }
        ensures fits { FitsFrame result }
    {
        Reply {
            caller,
            tag,
            status,
            head,
            tail,
        }
    }
}
