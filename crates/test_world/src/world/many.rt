//! Many callers of one world: each has limits of its own.
use super::scripts::is_answered;
use cv_world::World;
use std::alloc::Global;
use std::test::Fail;

#[test]
fn each_of_100_callers_has_16_descriptors(rt: HostRuntime) -> Result<(), Fail> {
    let mut world = World::new(rt.alloc());
    for caller in 0..100 {
        let opened = opens_all(rt.alloc(), &mut world, caller)?;
        assert!(rt; opened, "{caller}");
    }
    for caller in 0..100 {
        let line = format!(in rt.alloc(); "{caller} conv 15 9 \"A\" = Done 0 0 \"A\"")?;
        let converted = is_answered(rt.alloc(), &mut world, line.as_str())?;
        assert!(rt; converted, "{caller}");
    }
    Ok(())
}

/// Whether a caller gets the numbers 0 to 15 in this order, and then EMFILE.
fn opens_all(alloc: Global, world: &mut World, caller: u32) -> Result<bool, Fail> {
    for number in 0..16 {
        let line = format!(in alloc; "{caller} open UTF-8 US-ASCII = number {number}")?;
        if !is_answered(alloc, world, line.as_str())? {
            return Ok(false);
        }
    }
    let line = format!(in alloc; "{caller} open UTF-8 US-ASCII = EMFILE")?;
    is_answered(alloc, world, line.as_str())
}
