//! How listening ends.
ghost use Rattle.std.specs.Prelude.{◌≡◌, ◌≤◌, true, false, None, Some, IfSome};
ghost use Rattle.cv_tcp.specs.Listening.{IsEnd};
ghost use Rattle.cv_tcp.specs.declared.listened.Listened.TheVariants.{Served, Drained};

use crate::stream_quota::Total;
use log::{Log, error};
use std::fmt::{self, Display, Formatter};

/// How listening ended without a fault.
#[derive(Clone, Copy, Debug, PartialEq, Eq)]
pub enum Listened {
    /// All streams that the terms allow were served: `streams`.
    Served { streams: u64 },
    /// A drain ended it. Until then `streams` streams were served, and `cut` of them were cut.
    Drained { streams: u64, cut: u64 },
}

/// How listening ended, from the streams that were taken and the number that were wanted. `None`: no drain has
/// begun, and streams are left.
pub(crate) fn ended(total: Total, wanted: u64, is_drained: bool) -> Option<Listened>
    requires all { total.is_all ≡ true → total.served ≡ wanted }
    requires some { total.served ≤ wanted }
    requires cut { total.cut ≤ total.served }
    ensures end { IfSome result (λ listened. IsEnd wanted listened) }
    ensures drained { is_drained ≡ true → result ≡ Some (Drained total.served total.cut) }
    ensures all { is_drained ≡ false → total.is_all ≡ true → result ≡ Some (Served total.served) }
    ensures left { is_drained ≡ false → total.is_all ≡ false → result ≡ None }
{
    let Total {
        served: streams,
        cut,
        is_all,
    } = total;
    if is_drained {
        Some(Listened::Drained { streams, cut })
    } else if is_all {
        Some(Listened::Served { streams })
    } else {
        None
    }
}

/// Shows milliseconds as seconds with one digit after the point.
#[derive(Clone, Copy, Debug)]
struct Seconds(u64);

impl Display for Seconds {
    fn fmt<W: fmt::Write>(&self, f: &mut Formatter<W>) -> fmt::Result {
        let Seconds(milliseconds) = *self;
        let (whole, part) = (milliseconds / 1_000, milliseconds % 1_000 / 100);
        write!(f, "{whole}.{part}")
    }
}

/// Logs that a drain has ended, if one has: how many streams were served and cut, and how long it took. `elapsed` is in
/// milliseconds.
pub(crate) fn tell<G: Log>(log: &G, listened: Listened, elapsed: u64) {
    if let Listened::Drained { streams, cut } = listened {
        let seconds = Seconds(elapsed);
        error!(log; streams, cut, seconds:% = seconds; "drained in {seconds} s: {streams} served, {cut} cut");
    }
}
