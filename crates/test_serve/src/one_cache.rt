//! The charmaps of several callers with one cache, in a world and in a pool of two workers, asked in each of three
//! ways.
use crate::asking::{WAYS, Way, told};
use cv_cache::Cached;
use cv_frame::Request;
use cv_frame::ops::{CONV, DROP, OPEN, PUT};
use cv_loop::WorldWith;
use cv_pool::{Open, Pool};
use std::alloc::Global;
use std::sync::Wait;
use std::test::Fail;
use std::thread::Threads;
use test_support::{OK, charmap_text, push_frame, request};

/// An engine with a cache that the test can look into.
#[derive(Drop)]
enum Looked<'a> {
    World(WorldWith<&'a Cached>),
    Pool(Pool<&'a Cached, Open>),
}

impl Looked<'_> {
    /// Asks in one way, and fails if the frames of the replies are not `wanted`.
    fn ask<R: Threads + Wait + Sync>(
        &mut self,
        rt: &R,
        alloc: Global,
        way: Way,
        requests: &[Request],
        wanted: &[u8],
    ) -> Result<(), Fail> {
        let frames = match self {
            Looked::World(world) => told(rt, alloc, way, world, requests)?,
            Looked::Pool(pool) => told(rt, alloc, way, pool, requests)?,
        };
        if frames.as_slice() != wanted {
            return Err("other replies".into());
        }
        Ok(())
    }
}

#[test]
fn a_world_compiles_a_text_once_for_all_callers(rt: HostRuntime) -> Result<(), Fail> {
    for way in WAYS {
        let cached = Cached::new(rt.alloc())?;
        let mut world = Looked::World(WorldWith::new(rt.alloc(), &cached));
        let counts = counts_of(&rt, rt.alloc(), way, &mut world, &cached)?;
        assert_eq!(rt; counts, (1, 2), "{way:?}");
    }
    Ok(())
}

#[test]
fn a_pool_compiles_a_text_once_for_all_callers(rt: HostRuntime) -> Result<(), Fail> {
    for way in WAYS {
        let cached = Cached::new(rt.alloc())?;
        let mut pool = Looked::Pool(Pool::new(rt.alloc(), 2, &cached, Open)?);
        let counts = counts_of(&rt, rt.alloc(), way, &mut pool, &cached)?;
        assert_eq!(rt; counts, (1, 2), "{way:?}");
    }
    Ok(())
}

/// Callers 1 and 2 put the same text. Then caller 3 puts and drops 33 others, and callers 4 and 5 put the first text
/// again. Returns how many texts were found in the cache after caller 4, and after caller 5.
fn counts_of<R: Threads + Wait + Sync>(
    rt: &R,
    alloc: Global,
    way: Way,
    engine: &mut Looked<'_>,
    cached: &Cached,
) -> Result<(u64, u64), Fail> {
    put_toy(rt, alloc, way, engine, 1)?;
    put_toy(rt, alloc, way, engine, 2)?;
    put_others(rt, alloc, way, engine)?;
    put_toy(rt, alloc, way, engine, 4)?;
    let first = cached.found(rt);
    put_toy(rt, alloc, way, engine, 5)?;
    let second = cached.found(rt);
    read_toys(rt, alloc, way, engine)?;
    Ok((first, second))
}

/// A caller puts the text of the charmap TOY, in a batch of its own: texts of one batch may be compiled at the same
/// time.
fn put_toy<R: Threads + Wait + Sync>(
    rt: &R,
    alloc: Global,
    way: Way,
    engine: &mut Looked<'_>,
    caller: u32,
) -> Result<(), Fail> {
    let text = charmap_text(alloc, "TOY", "<U0100> \\x80")?;
    let requests = [request(caller, 1, PUT, text.as_bytes())];
    let mut wanted = Vec::new(alloc);
    push_frame(&mut wanted, caller, 1, OK, b"\0\0\0\x02")?;
    engine.ask(rt, alloc, way, &requests, &wanted)
}

/// Caller 3 puts 33 other texts, and drops each charmap in the same batch.
fn put_others<R: Threads + Wait + Sync>(
    rt: &R,
    alloc: Global,
    way: Way,
    engine: &mut Looked<'_>,
) -> Result<(), Fail> {
    for other in 0..33 {
        put_and_drop(rt, alloc, way, engine, other)?;
    }
    Ok(())
}

fn put_and_drop<R: Threads + Wait + Sync>(
    rt: &R,
    alloc: Global,
    way: Way,
    engine: &mut Looked<'_>,
    other: u32,
) -> Result<(), Fail> {
    let name = format!(in alloc; "M{other:02}")?;
    let body = format!(in alloc; "\x03M{other:02}")?;
    let text = charmap_text(alloc, name.as_str(), "<U0142> \\x80")?;
    let requests = [
        request(3, other, PUT, text.as_bytes()),
        request(3, other, DROP, body.as_bytes()),
    ];
    let mut wanted = Vec::new(alloc);
    push_frame(&mut wanted, 3, other, OK, b"\0\0\0\x02")?;
    push_frame(&mut wanted, 3, other, OK, b"")?;
    engine.ask(rt, alloc, way, &requests, &wanted)
}

/// Each caller that has TOY converts the bytes 3f and 80 to `?` and U+0100.
fn read_toys<R: Threads + Wait + Sync>(
    rt: &R,
    alloc: Global,
    way: Way,
    engine: &mut Looked<'_>,
) -> Result<(), Fail> {
    for caller in [1, 2, 4, 5] {
        read_toy(rt, alloc, way, engine, caller)?;
    }
    Ok(())
}

fn read_toy<R: Threads + Wait + Sync>(
    rt: &R,
    alloc: Global,
    way: Way,
    engine: &mut Looked<'_>,
    caller: u32,
) -> Result<(), Fail> {
    let requests = [
        request(caller, 8, OPEN, b"\x05UTF-8\x03TOY"),
        request(caller, 9, CONV, b"\0\0\0\0\0\0\0\x09?\x80"),
    ];
    let mut wanted = Vec::new(alloc);
    push_frame(&mut wanted, caller, 8, OK, b"\0\0\0\0")?;
    push_frame(&mut wanted, caller, 9, OK, b"\0\0\0\0\0\0\0\0?\xc4\x80")?;
    engine.ask(rt, alloc, way, &requests, &wanted)
}
