//! Counts the replies of a stream, for servers that count nothing else.
use crate::metered::Counts;
use crate::report::report_lack;
use cv_commands::{NO_USAGE, Tally, Usage};
use cv_frame::Status;
use cv_metrics::{Peer, Scan};
use log::Log;
use std::cell::{Cell, RefCell};

/// Counts the replies that were written whole, and logs the first that says that an allocation failed.
#[derive(Drop)]
pub(crate) struct ReplyCount<'a, G> {
    log: &'a G,
    peer: Peer,
    scan: RefCell<Scan>,
    replies: Cell<u64>,
    has_lacked: Cell<bool>,
    /// What its callers hold since the last batch.
    usage: Cell<Usage>,
}

impl<'a, G: Log> ReplyCount<'a, G> {
    /// Nothing was written yet.
    pub(crate) fn new(log: &'a G, peer: Peer) -> ReplyCount<'a, G> {
        ReplyCount {
            log,
            peer,
            scan: RefCell::new(Scan::new()),
            replies: Cell::new(0),
            has_lacked: Cell::new(false),
            usage: Cell::new(NO_USAGE),
        }
    }
}

impl<'a, G: Log> Tally for ReplyCount<'a, G> {
    fn note(&self, usage: Usage) {
        self.usage.set(usage);
    }
}

impl<'a, G: Log> Counts for ReplyCount<'a, G> {
    fn came(&self, _bytes: &[u8]) {}

    fn went(&self, bytes: &[u8], _is_all: bool) {
        let Ok(mut scan) = self.scan.try_borrow_mut() else {
            return;
        };
        let mut replies = self.replies.get();
        let mut lacks = false;
        let mut at = 0;
        while at < bytes.len() {
            let Some(seen) = scan.next(&bytes[at..]) else {
                break;
            };
            lacks |= seen.code == Status::NoMemory.number();
            replies = replies.saturating_add(1);
            at += seen.n;
        }
        self.replies.set(replies);
        if lacks && !self.has_lacked.replace(true) {
            report_lack(self.log, self.peer, self.usage.get());
        }
    }

    fn replies(&self) -> u64 {
        self.replies.get()
    }
}
