//! The ops of requests that have no reply yet.
ghost use Rattle.cv_metrics.specs.declared.op_kind.OpKind.TheVariants as OpKind;
ghost use Rattle.std.specs.Prelude.{◌≡◌, ◌==◌, ◌∷◌, ◌++◌, ◌⊎◌, ◌+◌, ◌^◌, ◌<◌, [], length};

use crate::op_kind::OpKind;
use std::alloc::Global;
use std::collections::VecDeque;
use std::marker::Model;

/// The ops of the requests that have no reply yet, the first that came first. An op that finds no memory is `Other`,
/// and so are those after it until their replies are there.
#[derive(Drop)]
pub struct Pending {
    ops: VecDeque<OpKind>,
    /// How many requests came after these whose op is not known.
    unknown: u64,
}

impl Model for Pending {
    ghost use Rattle.std.specs.Prelude.{List, ◌++◌, replicate};
    ghost use Rattle.cv_metrics.specs.declared.op_kind.OpKind.{OpKind};
    ghost use Rattle.cv_metrics.specs.declared.op_kind.OpKind.TheVariants.{Other};

    ghost Value = { List OpKind };

    ghost view = { λ p. p.ops.items ++ replicate p.unknown Other };
}

impl Pending {
    /// No request. It takes no memory.
    pub fn new(alloc: Global) -> Pending
        ensures { result ≡ [] }
    {
        Pending {
            ops: VecDeque::new(alloc),
            unknown: 0,
        }
    }

    /// Whether each request has its reply.
    pub fn is_empty(&self) -> bool
        ensures { result ≡ (length self.now == 0) }
    {
        self.ops.is_empty() && self.unknown == 0
    }

    /// How many requests have no reply yet.
    pub(crate) fn len(&self) -> u64 {
        self.unknown.saturating_add(self.ops.len() as u64)
    }

    /// A request of this op came.
    pub fn push(&mut self, op: OpKind)
        ensures { length self.old + 1 < 2 ^ 64 → (self.new ≡ self.old ++ op ∷ [])
            ⊎ (self.new ≡ self.old ++ OpKind.Other ∷ []) }
    {
        if self.unknown > 0 || self.ops.push_back(op).is_err() {
            self.unknown = self.unknown.saturating_add(1);
        }
    }

    /// The op of the next reply. A reply that answers no request has `Other`.
    pub fn pop(&mut self) -> OpKind
        ensures { (self.old ≡ result ∷ self.new) ⊎ ((self.old ≡ []) × (self.new ≡ []) × (result ≡ OpKind.Other)) }
    {
        match self.ops.pop_front() {
            Some(op) => op,
            None => {
                self.unknown = self.unknown.saturating_sub(1);
                OpKind::Other
            }
        }
    }
}
