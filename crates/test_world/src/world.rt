//! One world and its callers, with ample memory. `scripts` says how a line is read.
mod budget_model;
mod budgets;
mod feeds;
mod many;
mod scripts;

use crate::world::scripts::ask;
use std::test::Fail;

const LIMITS: &str = r"
1 open US-ASCII UTF-8 = number 0
1 open US-ASCII UTF-8 = number 1
1 open US-ASCII UTF-8 = number 2
1 open US-ASCII UTF-8 = number 3
1 open US-ASCII UTF-8 = number 4
1 open US-ASCII UTF-8 = number 5
1 open US-ASCII UTF-8 = number 6
1 open US-ASCII UTF-8 = number 7
1 open US-ASCII UTF-8 = number 8
1 open US-ASCII UTF-8 = number 9
1 open US-ASCII UTF-8 = number 10
1 open US-ASCII UTF-8 = number 11
1 open US-ASCII UTF-8 = number 12
1 open US-ASCII UTF-8 = number 13
1 open US-ASCII UTF-8 = number 14
1 open US-ASCII UTF-8 = number 15
1 open US-ASCII UTF-8 = EMFILE
1 put <code_set_name> A|CHARMAP|<question-mark> \x3F||END CHARMAP| = count 1
1 put <code_set_name> B|CHARMAP|<question-mark> \x3F||END CHARMAP| = count 1
1 put <code_set_name> C|CHARMAP|<question-mark> \x3F||END CHARMAP| = count 1
1 put <code_set_name> D|CHARMAP|<question-mark> \x3F||END CHARMAP| = count 1
1 put <code_set_name> E|CHARMAP|<question-mark> \x3F||END CHARMAP| = count 1
1 put <code_set_name> F|CHARMAP|<question-mark> \x3F||END CHARMAP| = count 1
1 put <code_set_name> G|CHARMAP|<question-mark> \x3F||END CHARMAP| = count 1
1 put <code_set_name> H|CHARMAP|<question-mark> \x3F||END CHARMAP| = count 1
1 put <code_set_name> I|CHARMAP|<question-mark> \x3F||END CHARMAP| = QUOTA
1 put <code_set_name> h|CHARMAP|<question-mark> \x3F||END CHARMAP| = EXISTS
1 put <code_set_name> utf-8|CHARMAP|<question-mark> \x3F||END CHARMAP| = EXISTS
2 put <code_set_name> h|CHARMAP|<question-mark> \x3F||END CHARMAP| = count 1
";

#[test]
fn numbers_and_charmaps_have_limits(rt: HostRuntime) -> Result<(), Fail> {
    ask(&rt, LIMITS)
}

const MAPPINGS: &str = r"
1 put <code_set_name> A|<mb_cur_max> 3|CHARMAP|<question-mark> \x40|<U10000>..<U4FFFE> \x00\x00\x00|END CHARMAP| = count 262144
2 put <code_set_name> A|<mb_cur_max> 3|CHARMAP|<question-mark> \x40|<U10000>..<U4FFFE> \x00\x00\x00|END CHARMAP| = count 262144
3 put <code_set_name> B|CHARMAP|<question-mark> \x3F||END CHARMAP| = count 1
1 put <code_set_name> B|CHARMAP|<question-mark> \x3F||END CHARMAP| = QUOTA
2 put <code_set_name> B|CHARMAP|<question-mark> \x3F||END CHARMAP| = QUOTA
1 drop A = empty
1 put <code_set_name> B|CHARMAP|<question-mark> \x3F||END CHARMAP| = count 1
2 put <code_set_name> B|CHARMAP|<question-mark> \x3F||END CHARMAP| = QUOTA
";

#[test]
fn each_caller_has_262144_mappings(rt: HostRuntime) -> Result<(), Fail> {
    ask(&rt, MAPPINGS)
}

const IN_USE: &str = r"
1 put <code_set_name> TOY|CHARMAP|<question-mark> \x3F|<U0100> \x80|END CHARMAP| = count 2
1 open UTF-8 toy = number 0
1 drop TOY = BUSY
1 conv 0 9 80 = Done 0 0 c480
1 close 0 = empty
1 drop TOY = empty
1 drop TOY = NONAME
1 conv 0 9 80 = EBADF
1 conv 16 9 80 = EBADF
1 open UTF8 UTF-8 = UNSUPPORTED
";

#[test]
fn a_charmap_in_use_stays(rt: HostRuntime) -> Result<(), Fail> {
    ask(&rt, IN_USE)
}

const BYE: &str = r"
1 put <code_set_name> TOY|CHARMAP|<question-mark> \x3F|<U0100> \x80|END CHARMAP| = count 2
1 open UTF-8 TOY = number 0
2 put <code_set_name> TOY|CHARMAP|<question-mark> \x3F|<U0100> \x80|END CHARMAP| = count 2
2 open UTF-8 TOY = number 0
1 part xyz = count 3
1 bye = empty
1 conv 0 9 80 = EBADF
1 open UTF-8 TOY = UNSUPPORTED
1 part q = count 1
1 open UTF-8 US-ASCII = number 0
2 conv 0 9 80 = Done 0 0 c480
2 open UTF-8 TOY = number 1
";

#[test]
fn bye_empties_one_table(rt: HostRuntime) -> Result<(), Fail> {
    ask(&rt, BYE)
}

const KEYS: &str = r#"
1 open UTF-8 US-ASCII = number 0
2 open UTF-8 US-ASCII = number 0
1 close 0 = empty
3 open UTF-16BE US-ASCII = number 0
1 conv 0 9 "A" = EBADF
3 conv 0 9 "A" = Done 0 0 00"A"
2 conv 0 9 "A" = Done 0 0 "A"
1 open UTF-8 US-ASCII = number 0
"#;

#[test]
fn a_key_is_used_again(rt: HostRuntime) -> Result<(), Fail> {
    ask(&rt, KEYS)
}

const PARTS: &str = r"
1 part <code_set_name> P|CHARMAP|<question-mark> \x3F| = count 47
2 part <code_set_name> P|CHARMAP|<question-mark> \x6F| = count 47
1 put <U0100> \x80|END CHARMAP = count 2
1 put <U0100> \x80|END CHARMAP = BADMAP 2
1 open UTF-8 P = number 0
1 conv 0 9 80 = Done 0 0 c480
2 put <U0142> \x80|END CHARMAP = count 2
2 put <U0142> \x80|END CHARMAP = BADMAP 2
2 open UTF-8 P = number 0
2 conv 0 9 80 = Done 0 0 c582
";

#[test]
fn parts_are_their_callers(rt: HostRuntime) -> Result<(), Fail> {
    ask(&rt, PARTS)
}

const REFUSED_PUT: &str = "
2 part xyz = count 3
2 put END = BADMAP 1
2 part q = count 4
2 part = count 0
";

#[test]
fn a_refused_put_leaves_the_part(rt: HostRuntime) -> Result<(), Fail> {
    ask(&rt, REFUSED_PUT)
}
