//! Requests that get ENOMEM unless the compiler drops what it keeps.
use cv_cache::{Compiler, Plain};
use cv_caller::CALLER_BYTES;
use cv_charmap::CompileFault;
use cv_frame::{Request, Status};
use cv_trie::Charmap;
use cv_world::{Budget, Replies, UNLIMITED, World};
use std::alloc::Global;
use std::sync::{Arc, Mutex, Wait};
use std::test::Fail;

/// A compiler that is out of memory until it has dropped `kept` things. It drops one each time that it is asked.
#[derive(Drop)]
struct Hoard {
    kept: Mutex<u32>,
}

impl<R: Wait> Compiler<R> for Hoard {
    fn compile(&self, rt: &R, alloc: Global, text: &[u8]) -> Result<Arc<Charmap>, CompileFault> {
        if *self.kept.lock(rt) > 0 {
            return Err(CompileFault::Memory);
        }
        Plain.compile(rt, alloc, text)
    }

    fn give_up(&self, rt: &R) -> bool {
        let mut kept = self.kept.lock(rt);
        let some = *kept > 0;
        *kept = kept.saturating_sub(1);
        some
    }
}

/// A compiler that always has memory, and counts its calls.
#[derive(Drop)]
struct Ample {
    compiled: Mutex<u32>,
    given_up: Mutex<u32>,
}

impl Ample {
    fn new() -> Ample {
        Ample {
            compiled: Mutex::new(0),
            given_up: Mutex::new(0),
        }
    }
}

impl<R: Wait> Compiler<R> for Ample {
    fn compile(&self, rt: &R, alloc: Global, text: &[u8]) -> Result<Arc<Charmap>, CompileFault> {
        let mut compiled = self.compiled.lock(rt);
        *compiled = compiled.saturating_add(1);
        Plain.compile(rt, alloc, text)
    }

    fn give_up(&self, rt: &R) -> bool {
        let mut given_up = self.given_up.lock(rt);
        *given_up = given_up.saturating_add(1);
        true
    }
}

/// The text of a charmap A with one mapping.
const SMALL: &[u8] = b"<code_set_name> A\nCHARMAP\n<question-mark> \\x6F\nEND CHARMAP\n";

/// The upload of this charmap: PUT, which is op 1.
const UPLOAD: Request = Request {
    caller: 1,
    tag: 1,
    op: 1,
    body: SMALL,
};

/// Uploads a charmap to a new world. Returns the status, and how many things the compiler keeps after it.
fn put<R: Wait>(rt: &R, alloc: Global, kept: u32) -> (Status, u32) {
    let hoard = Hoard {
        kept: Mutex::new(kept),
    };
    let request = UPLOAD;
    let mut world = World::new(alloc);
    let reply = world.answer(&hoard, rt, alloc, &request);
    (reply.status, hoard.kept.into_inner())
}

/// The same, if the reply is appended: its status is the thirteenth byte of the frame.
fn put_into<R: Wait>(rt: &R, alloc: Global, kept: u32) -> Result<(u8, u32), Fail> {
    let hoard = Hoard {
        kept: Mutex::new(kept),
    };
    let request = UPLOAD;
    let mut world = World::new(alloc);
    let mut replies = Replies::new(alloc);
    world.answer_into(&hoard, rt, alloc, &request, &mut replies)?;
    let Some(status) = replies.as_slice().get(12) else {
        return Err("the reply is whole".into());
    };
    Ok((*status, hoard.kept.into_inner()))
}

/// A request that finds no memory is tried once more if the compiler dropped something, and only once. The reply is
/// appended.
#[test]
fn what_is_kept_is_given_up_before_a_reply_is_appended(rt: HostRuntime) -> Result<(), Fail> {
    let (status, kept) = put_into(&rt, rt.alloc(), 0)?;
    assert_eq!(rt; status, Status::Ok.number());
    assert_eq!(rt; kept, 0);
    let (status, kept) = put_into(&rt, rt.alloc(), 1)?;
    assert_eq!(rt; status, Status::Ok.number());
    assert_eq!(rt; kept, 0);
    let (status, kept) = put_into(&rt, rt.alloc(), 5)?;
    assert_eq!(rt; status, Status::NoMemory.number());
    assert_eq!(rt; kept, 4);
    Ok(())
}

/// A request that finds no memory is tried once more if the compiler dropped something, and only once. The reply is
/// returned.
#[test]
fn what_is_kept_is_given_up_before_memory_lacks(rt: HostRuntime) -> Result<(), Fail> {
    let (status, kept) = put(&rt, rt.alloc(), 0);
    assert!(rt; matches!(status, Status::Ok));
    assert_eq!(rt; kept, 0);
    let (status, kept) = put(&rt, rt.alloc(), 1);
    assert!(rt; matches!(status, Status::Ok));
    assert_eq!(rt; kept, 0);
    let (status, kept) = put(&rt, rt.alloc(), 5);
    assert!(rt; matches!(status, Status::NoMemory));
    assert_eq!(rt; kept, 4);
    Ok(())
}

/// Uploads a charmap to two new worlds, each with this budget for one caller. The first returns its reply, the second
/// appends it. Returns both statuses, and how often the compiler was asked to compile and to give up what it keeps.
fn put_within<R: Wait>(rt: &R, alloc: Global, bytes: u64) -> Result<(u8, u8, u32, u32), Fail> {
    let ample = Ample::new();
    let budget = Budget { bytes, callers: 1 };
    let mut world = World::within(alloc, budget);
    let first = world.answer(&ample, rt, alloc, &UPLOAD);
    let mut world = World::within(alloc, budget);
    let mut replies = Replies::new(alloc);
    world.answer_into(&ample, rt, alloc, &UPLOAD, &mut replies)?;
    let Some(second) = replies.as_slice().get(12) else {
        return Err("the reply is whole".into());
    };
    let compiled = ample.compiled.into_inner();
    let given_up = ample.given_up.into_inner();
    Ok((first.status.number(), *second, compiled, given_up))
}

/// How many bytes are counted for a caller with this charmap.
fn bytes_of_one<R>(rt: &R, alloc: Global) -> u64 {
    let mut world = World::within(alloc, UNLIMITED);
    world.answer(&Plain, rt, alloc, &UPLOAD);
    world.usage().bytes
}

/// If the budget refuses a request, more memory would not help, so the compiler keeps what it has. If no charmap could
/// fit in the budget, none is compiled.
#[test]
fn nothing_is_given_up_for_a_budget(rt: HostRuntime) -> Result<(), Fail> {
    let bytes = bytes_of_one(&rt, rt.alloc());
    // Before a charmap is compiled, the budget must have room for 1,024 bytes. No charmap is smaller.
    assert!(rt; bytes >= CALLER_BYTES + 1_024, "{bytes}");
    let refused = Status::NoMemory.number();
    let held = Status::Ok.number();
    assert_eq!(rt; put_within(&rt, rt.alloc(), bytes)?, (held, held, 2, 0));
    assert_eq!(rt;
        put_within(&rt, rt.alloc(), bytes.saturating_sub(1))?,
        (refused, refused, 2, 0)
    );
    assert_eq!(rt;
        put_within(&rt, rt.alloc(), CALLER_BYTES + 1_023)?,
        (refused, refused, 0, 0)
    );
    assert_eq!(rt; put_within(&rt, rt.alloc(), 0)?, (refused, refused, 0, 0));
    Ok(())
}
