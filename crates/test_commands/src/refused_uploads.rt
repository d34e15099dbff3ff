//! Charmaps that are refused: the line at fault, and the number of the cause. In a text `|` means a line feed.
use crate::exchanging::exchange;
use crate::tables::{Call, check_lines};
use std::random::RandomSource;
use std::sync::Wait;
use std::test::Fail;
use std::thread::Threads;

/// Texts, and the bodies of the replies: eight digits for the line, and two for the cause. Lines that begin with `//`
/// name the causes.
const REFUSED: &str = r#"
// NoMap
 => 000000000c
// Declaration
<code_set_name> BAD|<mb_cur_max> 9|CHARMAP|END CHARMAP => 0000000201
<code_set_name> BAD|END CHARMAP => 0000000201
// Syntax
<code_set_name> BAD|CHARMAP|<A>\x41|END CHARMAP => 0000000302
<code_set_name> BAD|CHARMAP|<U304B><U309A> \x41|END CHARMAP => 0000000302
// UnknownName
<code_set_name> BAD|CHARMAP|<foo> \x80|END CHARMAP => 0000000303
// NotScalar
<code_set_name> BAD|CHARMAP|<UD800> \x80|END CHARMAP => 0000000304
<code_set_name> BAD|CHARMAP|<UD7FF>..<UE000> \x80|END CHARMAP => 0000000304
// Range
<code_set_name> BAD|CHARMAP|<U00A0>...<U00A5> \x80|END CHARMAP => 0000000305
<code_set_name> BAD|CHARMAP|<A>...<Z> \x41|END CHARMAP => 0000000305
// Constant
<code_set_name> BAD|<mb_cur_max> 2|CHARMAP|<A> \d129\x40|END CHARMAP => 0000000406
<code_set_name> BAD|CHARMAP|<A> \d256|END CHARMAP => 0000000306
// Length
<code_set_name> BAD|CHARMAP|<A> \x81\x40|END CHARMAP => 0000000307
// Carry
<code_set_name> BAD|CHARMAP|<U0100>...<U0101> \xFF|END CHARMAP => 0000000308
// Clash
<code_set_name> BAD|CHARMAP|<A> \x81|<B> \x81|END CHARMAP => 0000000409
// Prefix
<code_set_name> BAD|<mb_cur_max> 2|CHARMAP|<A> \x81|<B> \x81\x40|END CHARMAP => 000000050a
// NoEnd
<code_set_name> BAD|CHARMAP|<question-mark> \x3F => 000000000d
// NoName
CHARMAP|<question-mark> \x3F|END CHARMAP => 000000000e
// NoSubstitute
<code_set_name> BAD|CHARMAP|<A> \x41|END CHARMAP => 000000000f
"#;

/// Uploads a text. Returns `true` if the reply is BADMAP with this body, and the upload had no effect. Otherwise it
/// fails, as `exchange` does.
pub fn is_answered<R: AllocGlobal + RandomSource + Threads + Wait + Sync>(
    rt: &R,
    text: &str,
    body: &str,
) -> Result<bool, Fail> {
    let table = format!(in rt.alloc();
        "1 1 put {text} => 1 1 BADMAP {body}\n1 2 open UTF-8 BAD => 1 2 UNSUPPORTED -\n1 3 part  => 1 3 OK 00000000\n"
    )?;
    exchange(rt, 1, table.as_str())?;
    Ok(true)
}

#[test]
fn refused_charmaps_are_answered_by_line_and_cause(rt: HostRuntime) -> Result<(), Fail> {
    check_lines(&rt, Call::Upload, REFUSED)
}
