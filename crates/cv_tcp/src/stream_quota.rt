//! How many streams are left to serve, for many threads.
ghost use Rattle.std.specs.Prelude.{◌≡◌, ℕ, ◌+◌, ◌^◌, ◌<◌, ◌≤◌, true, false, IfOk, OnOk, vec_len};
ghost use Rattle.std.specs.IoError.{raw_os_error};
ghost use Rattle.cv_tcp.specs.Accepting.{is_lasting};

use crate::draining::StartedDrain;
use std::alloc::{AllocError, Global};
use std::io;
use std::marker::Brand;
use std::sync::Mutex;
use std::sync::ledger::{Book, Ledger, Share};

/// A name for the quota of one call, which says in proofs how many streams are wanted. It is nothing at run time.
pub(crate) trait Quota: Ledger {
    ghost streams: { ℕ };
}

impl Quota for Brand {
    ghost streams = { 0 };
}

/// How many streams are left to serve, for all threads. Each thread counts those that it took.
#[derive(Drop)]
pub(crate) struct StreamQuota<Q: Quota> {
    left: u64,
    is_closed: bool,
    taken: Book<Q>,
    ghost all: { left + taken.total ≡ Q.streams },
    ghost fits: { Q.streams < 2 ^ 64 },
}

/// The streams that one thread took.
#[derive(Drop)]
pub(crate) struct Slot<Q: Quota> {
    served: u64,
    cut: u64,
    share: Share<Q>,
    ghost part: { share.parts ≡ 1 },
    ghost counted: { share.amount ≡ served },
    ghost few: { cut ≤ served },
}

impl<Q: Quota> Slot<Q> {
    /// Notes that the last stream was cut.
    pub(crate) fn note_cut(&mut self)
        requires { self.old.cut < self.old.served }
        ensures cut { self.new.cut ≡ self.old.cut + 1 }
        ensures served { self.new.served ≡ self.old.served }
    {
        self.cut += 1;
    }
}

/// The streams that all slots took.
#[derive(Clone, Copy, Debug, PartialEq, Eq)]
pub(crate) struct Total {
    /// How many streams were taken.
    pub(crate) served: u64,
    /// How many of them were cut.
    pub(crate) cut: u64,
    /// Whether no stream is left.
    pub(crate) is_all: bool,
}

impl<Q: Quota> StreamQuota<Q> {
    /// A quota of so many streams, of which none is taken yet.
    pub(crate) fn new(streams: u64, taken: Book<Q>) -> StreamQuota<Q>
        requires streams { streams ≡ Q.streams }
        requires none { taken.total ≡ 0 }
    {
        StreamQuota {
            left: streams,
            is_closed: false,
            taken,
        }
    }

    /// Takes a stream, if one is left and the quota is not closed. It returns whether it did.
    pub(crate) fn take(&mut self, slot: &mut Slot<Q>) -> bool
        ensures yes { result ≡ true → slot.new.served ≡ slot.old.served + 1 }
        ensures no { result ≡ false → slot.new.served ≡ slot.old.served }
        ensures cut { slot.new.cut ≡ slot.old.cut }
        ensures uncut { result ≡ true → slot.new.cut < slot.new.served }
    {
        if self.is_closed || self.left == 0 {
            return false;
        }
        let StreamQuota {
            left,
            is_closed: _,
            taken,
        } = self;
        let Slot {
            served,
            cut: _,
            share,
        } = slot;
        taken.audit(share);
        taken.add(share, 1);
        *left -= 1;
        *served += 1;
        true
    }

    /// Gives a stream back, and closes the quota: no thread takes another.
    fn give_back(&mut self, slot: &mut Slot<Q>)
        requires taken { slot.old.cut < slot.old.served }
        ensures { slot.new.served + 1 ≡ slot.old.served }
    {
        let StreamQuota {
            left,
            is_closed,
            taken,
        } = self;
        let Slot {
            served,
            cut: _,
            share,
        } = slot;
        taken.audit(share);
        taken.sub(share, 1);
        *is_closed = true;
        *left += 1;
        *served -= 1;
    }

    /// Gives a stream back, and closes the quota: an accept has failed, and every later one will.
    pub(crate) fn close(&mut self, slot: &mut Slot<Q>, failure: &io::Error)
        requires taken { slot.old.cut < slot.old.served }
        requires lasting { is_lasting (raw_os_error failure.now) ≡ true }
        ensures { slot.new.served + 1 ≡ slot.old.served }
    {
        self.give_back(slot);
    }

    /// The streams that all slots took.
    pub(crate) fn total(&mut self, mut slots: Vec<Mutex<Slot<Q>>>, all: &mut Share<Q>) -> Total
        requires parts { all.old.parts + vec_len slots ≡ Q.parts }
        requires none { all.old.amount ≡ 0 }
        ensures all { result.is_all ≡ true → result.served ≡ Q.streams }
        ensures some { result.served ≤ Q.streams }
        ensures cut { result.cut ≤ result.served }
    {
        let mut total = 0;
        let mut total_cut = 0;
        while let Some(slot) = slots.pop() {
            let Slot { served, cut, share } = slot.into_inner();
            all.merge(share);
            self.taken.audit(all);
            total += served;
            total_cut += cut;
        }
        self.taken.audit(all);
        Total {
            served: total,
            cut: total_cut,
            is_all: self.left == 0,
        }
    }
}

impl StartedDrain {
    /// Gives a stream back, and closes the quota: the drain has begun.
    pub(crate) fn close<Q: Quota>(self, quota: &mut StreamQuota<Q>, slot: &mut Slot<Q>)
        requires taken { slot.old.cut < slot.old.served }
        ensures { slot.new.served + 1 ≡ slot.old.served }
    {
        quota.give_back(slot);
    }
}

/// `count` slots that have taken no stream yet.
pub(crate) fn new_slots<Q: Quota>(
    alloc: Global,
    count: u64,
    all: &mut Share<Q>,
) -> Result<Vec<Mutex<Slot<Q>>>, AllocError>
    requires parts { count < all.old.parts }
    requires none { all.old.amount ≡ 0 }
    ensures len { IfOk result (λ slots. vec_len slots ≡ count) }
    ensures parts { IfOk result (λ slots. vec_len slots + all.new.parts ≡ all.old.parts) }
    ensures none { OnOk result (all.new.amount ≡ 0) }
{
    let mut slots = Vec::new(alloc);
    for _slot in 0..count {
        let share = all.split_off(1, 0);
        slots.push(Mutex::new(Slot {
            served: 0,
            cut: 0,
            share,
        }))?;
    }
    Ok(slots)
}
