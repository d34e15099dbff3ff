//! A world with a budget: what it refuses, and which requests give back what was counted.
use super::scripts::is_answered;
use cv_caller::{CALLER_BYTES, DESCRIPTOR_BYTES};
use cv_world::{Budget, UNLIMITED, World};
use std::alloc::Global;
use std::process::Abort;
use std::test::Fail;

/// Sends the requests of all lines to one new world with this budget, and compares the answers. After each the callers
/// must hold no more than the budget.
fn ask<R: Abort + AllocGlobal>(rt: &R, budget: Budget, script: &str) -> Result<(), Fail> {
    let mut world = World::within(rt.alloc(), budget);
    for line in script.trim().lines() {
        let answered = is_answered(rt.alloc(), &mut world, line)?;
        assert!(rt; answered, "{line}");
        assert!(rt; world.usage().bytes <= budget.bytes, "{line}");
        assert!(rt; world.usage().callers <= budget.callers, "{line}");
    }
    Ok(())
}

/// A budget of so many bytes for two callers.
const fn two(bytes: u64) -> Budget {
    Budget { bytes, callers: 2 }
}

const TWO_OPEN: &str = "
1 open UTF-8 US-ASCII = number 0
1 open UTF-8 US-ASCII = number 1
1 open UTF-8 US-ASCII = ENOMEM
1 open UTF-9 US-ASCII = UNSUPPORTED
2 open UTF-8 US-ASCII = ENOMEM
2 part a = ENOMEM
2 part  = count 0
1 conv 1 9 \"A\" = Done 0 0 \"A\"
1 close 0 = empty
1 close 0 = EBADF
1 open UTF-8 US-ASCII = number 0
1 open UTF-8 US-ASCII = ENOMEM
1 bye = empty
2 open UTF-8 US-ASCII = number 0
2 open UTF-8 US-ASCII = number 1
2 open UTF-8 US-ASCII = ENOMEM
";

const ONE_OPEN: &str = "
1 open UTF-8 US-ASCII = number 0
1 open UTF-8 US-ASCII = ENOMEM
1 close 0 = empty
2 open UTF-8 US-ASCII = number 0
1 open UTF-8 US-ASCII = ENOMEM
";

#[test]
fn descriptors_are_counted(rt: HostRuntime) -> Result<(), Fail> {
    let bytes = CALLER_BYTES + 2 * DESCRIPTOR_BYTES;
    ask(&rt, two(bytes), TWO_OPEN)?;
    ask(&rt, two(bytes - 1), ONE_OPEN)
}

const PARTS: &str = "
1 part abcde = count 5
1 part fghij = count 10
1 part k = ENOMEM
1 part  = count 0
1 part abcdefghijk = ENOMEM
1 part abcdefghij = count 10
1 bye = empty
2 part abcdefghijk = ENOMEM
2 part abcdefghij = count 10
1 part a = ENOMEM
";

#[test]
fn parts_are_counted(rt: HostRuntime) -> Result<(), Fail> {
    ask(&rt, two(CALLER_BYTES + 10), PARTS)
}

const THREE_CALLERS: &str = "
1 open UTF-8 US-ASCII = number 0
2 part a = count 1
3 open UTF-8 US-ASCII = ENOMEM
3 part a = ENOMEM
3 put <code_set_name> A|CHARMAP|<question-mark> \\x3F||END CHARMAP| = ENOMEM
3 close 0 = EBADF
3 bye = empty
1 open UTF-8 US-ASCII = number 1
2 part  = count 0
3 part a = count 1
2 part a = ENOMEM
1 close 0 = empty
1 close 1 = empty
2 part a = count 1
";

#[test]
fn callers_are_counted(rt: HostRuntime) -> Result<(), Fail> {
    ask(&rt, two(u64::MAX), THREE_CALLERS)
}

const UPLOAD: &str =
    r"1 put <code_set_name> A|CHARMAP|<question-mark> \x3F||END CHARMAP| = count 1";

/// How many bytes are counted for a charmap of one mapping.
fn map_bytes(alloc: Global) -> Result<u64, Fail> {
    let mut world = World::within(alloc, UNLIMITED);
    if !is_answered(alloc, &mut world, UPLOAD)? {
        return Err("it is held".into());
    }
    Ok(world.usage().bytes.saturating_sub(CALLER_BYTES))
}

const TWO_MAPS: &str = r"
1 put <code_set_name> A|CHARMAP|<question-mark> \x3F||END CHARMAP| = count 1
1 put <code_set_name> B|CHARMAP|<question-mark> \x3F||END CHARMAP| = count 1
1 put <code_set_name> C|CHARMAP|<question-mark> \x3F||END CHARMAP| = ENOMEM
1 put <code_set_name> a|CHARMAP|<question-mark> \x3F||END CHARMAP| = EXISTS
1 open A UTF-8 = ENOMEM
1 part x = ENOMEM
1 drop C = NONAME
1 drop A = empty
1 put <code_set_name> C|CHARMAP|<question-mark> \x3F||END CHARMAP| = count 1
1 bye = empty
2 put <code_set_name> A|CHARMAP|<question-mark> \x3F||END CHARMAP| = count 1
2 put <code_set_name> C|CHARMAP|<question-mark> \x3F||END CHARMAP| = count 1
2 put <code_set_name> D|CHARMAP|<question-mark> \x3F||END CHARMAP| = ENOMEM
";

const ONE_MAP: &str = r"
1 put <code_set_name> A|CHARMAP|<question-mark> \x3F||END CHARMAP| = count 1
1 put <code_set_name> B|CHARMAP|<question-mark> \x3F||END CHARMAP| = ENOMEM
1 drop A = empty
2 put <code_set_name> B|CHARMAP|<question-mark> \x3F||END CHARMAP| = count 1
1 put <code_set_name> A|CHARMAP|<question-mark> \x3F||END CHARMAP| = ENOMEM
";

#[test]
fn charmaps_are_counted(rt: HostRuntime) -> Result<(), Fail> {
    let bytes = CALLER_BYTES.saturating_add(map_bytes(rt.alloc())?.saturating_mul(2));
    ask(&rt, two(bytes), TWO_MAPS)?;
    ask(&rt, two(bytes.saturating_sub(1)), ONE_MAP)
}

const PART_THEN_PUT: &str = r"
1 part <code_set_name> P|CHARMAP| = count 26
1 part <question-mark> \x3F| = count 47
1 put END CHARMAP = count 1
1 part a = ENOMEM
1 open P UTF-8 = ENOMEM
";

/// The charmap is counted, and the part from which it is built no more.
#[test]
fn a_part_gives_back_what_it_held(rt: HostRuntime) -> Result<(), Fail> {
    let bytes = CALLER_BYTES.saturating_add(map_bytes(rt.alloc())?);
    ask(&rt, two(bytes), PART_THEN_PUT)
}

const PART_STAYS: &str = r"
1 part <code_set_name> P|CHARMAP|<question-mark> \x3F| = count 47
1 put END CHARMAP = ENOMEM
1 part END CHARMAP = count 58
1 put  = ENOMEM
1 part  = count 0
";

/// A refused upload leaves the part, which stays counted.
#[test]
fn a_refused_upload_leaves_the_part(rt: HostRuntime) -> Result<(), Fail> {
    let bytes = CALLER_BYTES.saturating_add(map_bytes(rt.alloc())?);
    ask(&rt, two(bytes.saturating_sub(1)), PART_STAYS)
}
