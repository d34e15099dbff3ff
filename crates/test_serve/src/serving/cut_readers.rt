//! Two callers, each with a charmap of the same name. How the reader cuts their stream changes no reply.
use crate::streams::{Narrow, TOLD, TWO_CALLERS};
use cv_loop::{FromReader, ServeFault, Served, ToWriter, serve};
use cv_world::World;
use std::alloc::Global;
use test_support::Slow;

/// Whether the replies are right if a reader gives the first `first` bytes and then the others, at most `step` at a
/// time.
fn is_served(alloc: Global, first: usize, step: usize) -> bool {
    let (bytes, more) = TWO_CALLERS.split_at(first.min(TWO_CALLERS.len()));
    let mut reader = FromReader::new(Slow {
        bytes,
        more,
        step,
        fails: false,
    });
    let mut writer = ToWriter::new(Narrow {
        taken: Vec::new(alloc),
        step: 65_536,
        room: 1_000,
        fails: false,
    });
    let mut world = World::new(alloc);
    let served: Result<Served, ServeFault> = serve(
        &mut world,
        &(),
        alloc,
        &mut reader,
        &mut writer,
        1_000,
    );
    let all = Ok(Served { requests: 6 });
    served == all && writer.into_inner().taken.as_slice() == TOLD
}

#[test]
fn each_cut_is_served_as_the_whole(rt: HostRuntime) {
    for first in 0..=TWO_CALLERS.len() {
        assert!(rt; is_served(rt.alloc(), first, 65_536), "{first}");
    }
}

#[test]
fn single_bytes_are_served_as_the_whole(rt: HostRuntime) {
    assert!(rt; is_served(rt.alloc(), 0, 1));
}
