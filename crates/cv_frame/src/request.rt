//! Requests.

ghost use Rattle.std.specs.Prelude.{◌≡◌, ◌==◌};
ghost use Rattle.cv_frame.specs.Ops.{op_put};

use crate::ops::PUT;
use std::marker::Model;

/// A request as it came. Its body has at most 1,048,567 bytes.
#[derive(Debug, Drop)]
pub struct Request<'a> {
    pub caller: u32,
    pub tag: u32,
    pub op: u8,
    pub body: &'a [u8],
}

impl<'a> Model for Request<'a> {
    ghost use Rattle.std.specs.Prelude.{◌≤◌, length};
    ghost use Rattle.cv_frame.specs.Message.{Message};
    ghost use Rattle.cv_frame.specs.declared.sizes.TheConstants.{MOST_BODY};

    ghost Value = { Message };

    ghost view = { λ r. record { caller = r.caller; tag = r.tag; code = r.op; body = r.body.now } };

    ghost invariant = { λ r. length r.body.now ≤ MOST_BODY };
}

impl<'a> Request<'a> {
    /// Returns whether it is a PUT, whose text has to be compiled.
    #[inline]
    pub fn is_upload(&self) -> bool
        ensures { result ≡ (self.now.code == op_put) }
    {
        self.op == PUT
    }
}
