//! The largest uploads. A frame holds at most 1,048,567 bytes of a text.
use crate::exchanging::exchange;
use std::test::Fail;

const PARTS: &str = "
1 1 part x{1048567} => 1 1 OK 000ffff7
1 2 part x{1048567} => 1 2 OK 001fffee
1 3 part x{1048567} => 1 3 OK 002fffe5
1 4 part x{1048567} => 1 4 OK 003fffdc
1 5 part x{1048567} => 1 5 OK 004fffd3
1 6 part x{1048567} => 1 6 OK 005fffca
1 7 part x{1048567} => 1 7 OK 006fffc1
1 8 part x{72} => 1 8 OK 00700009
1 9 part x{1} => 1 9 QUOTA -
1 10 part x{1048567} => 1 10 QUOTA -
1 11 put x => 1 11 BADMAP 0000000101
1 12 part x => 1 12 QUOTA -
1 13 part  => 1 13 OK 00000000
1 14 part x => 1 14 OK 00000001
";

#[test]
fn a_part_has_7340041_bytes_at_most(rt: HostRuntime) -> Result<(), Fail> {
    exchange(&rt, 2, PARTS)
}

const REFUSED: &str = "
1 1 part x{1048567} => 1 1 OK 000ffff7
1 2 part x{1048567} => 1 2 OK 001fffee
1 3 part x{1048567} => 1 3 OK 002fffe5
1 4 part x{1048567} => 1 4 OK 003fffdc
1 5 part x{1048567} => 1 5 OK 004fffd3
1 6 part x{1048567} => 1 6 OK 005fffca
1 7 part x{1048567} => 1 7 OK 006fffc1
1 8 part x{73} => 1 8 QUOTA -
1 9 part x{72} => 1 9 OK 00700009
";

#[test]
fn a_part_that_is_refused_changes_nothing(rt: HostRuntime) -> Result<(), Fail> {
    exchange(&rt, 2, REFUSED)
}

/// The texts of the first part and of the PUT have 1,048,567 bytes too.
const TEXT: &str = r"
1 1 part <code_set_name> L|CHARMAP|#x{1048540} => 1 1 OK 000ffff7
1 2 part x{1048567} => 1 2 OK 001fffee
1 3 part x{1048567} => 1 3 OK 002fffe5
1 4 part x{1048567} => 1 4 OK 003fffdc
1 5 part x{1048567} => 1 5 OK 004fffd3
1 6 part x{1048567} => 1 6 OK 005fffca
1 7 part x{1048567} => 1 7 OK 006fffc1
1 8 part x{72} => 1 8 OK 00700009
1 9 put x{1048521}|<question-mark> \x3F|<U0100> \x80|END CHARMAP => 1 9 OK 00000002
1 10 open UTF-8 L => 1 10 OK 00000000
1 11 conv 0 9 80 => 1 11 OK 0000000000000000c480
1 12 part  => 1 12 OK 00000000
";

#[test]
fn a_text_has_8388608_bytes_at_most(rt: HostRuntime) -> Result<(), Fail> {
    exchange(&rt, 2, TEXT)
}

/// The charmaps TOY of two callers, which differ in the character of the byte 80. Two or more workers compile them on a
/// thread each.
const LONG: &str = r"
1 1 put #x{20000}|<code_set_name> TOY|CHARMAP|<question-mark> \x3F|<U0100> \x80|END CHARMAP => 1 1 OK 00000002
2 1 put #x{20000}|<code_set_name> TOY|CHARMAP|<question-mark> \x3F|<U0142> \x80|END CHARMAP => 2 1 OK 00000002
2 2 open UTF-8 TOY => 2 2 OK 00000000
1 2 open UTF-8 TOY => 1 2 OK 00000000
2 3 conv 0 9 80 => 2 3 OK 0000000000000000c582
1 3 conv 0 9 80 => 1 3 OK 0000000000000000c480
";

#[test]
fn long_charmaps_come_at_once(rt: HostRuntime) -> Result<(), Fail> {
    for workers in [1, 2, 16] {
        exchange(&rt, workers, LONG)?;
    }
    Ok(())
}
