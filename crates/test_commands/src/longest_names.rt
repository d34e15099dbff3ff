//! The longest name has 255 bytes, as docs/PROTOCOL.md says.
use crate::exchanging::exchange;
use std::test::Fail;

const LONGEST: &str = "
1 1 drop x{255} => 1 1 NONAME -
1 2 open x{255} UTF-8 => 1 2 UNSUPPORTED -
";

#[test]
fn names_of_255_bytes_are_asked_for(rt: HostRuntime) -> Result<(), Fail> {
    exchange(&rt, 1, LONGEST)
}
