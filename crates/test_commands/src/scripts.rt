//! Scripts and reply lines, compared with values from other sources.
use crate::exchanging::exchange;
use crate::tables::{Call, check_lines};
use crate::words::written_out;
use cv_commands::{RunFault, ask_script, show_replies, status};
use cv_loop::ServeFault;
use std::alloc::Global;
use std::test::Fail;
use test_support::bytes_of;

const SERVED: &str = "
# two descriptors
9 1 open ISO-8859-1 us-ascii => 9 1 OK 00000000
9 2 conv 0 9 4180 => 9 2 EILSEQ 000000010000000041
9 3 open US-ASCII ISO-8859-1 => 9 3 OK 00000001
9 4 conv 1 1 e941 => 9 4 E2BIG 00000001000000013f
9 5 conv 1 0 - => 9 5 OK 0000000000000000

9 6 close 0 => 9 6 OK -
9 7 conv 0 9 41 => 9 7 EBADF -
9 8 raw 9 - => 9 8 BADREQ -
9 9 open UTF-16 UTF-8 => 9 9 OK 00000000
9 10 conv 0 9 41 => 9 10 OK 0000000000000000feff0041
9 11 conv 0 9 42 => 9 11 OK 00000000000000000042
9 12 reset 0 0 => 9 12 OK -
9 13 conv 0 9 41e282 => 9 13 EINVAL 0000000200000000feff0041
9 14 reset 0 1000001 => 9 14 ROOM -
9 15 raw 5 00 => 9 15 BADREQ -
";

#[test]
fn scripts_are_served(rt: HostRuntime) -> Result<(), Fail> {
    exchange(&rt, 1, SERVED)
}

/// Scripts and their frames: the length, the caller, the tag, the op and the body.
const FRAMES: &str = r##"
"7 1 open US-ASCII ISO-8859-1"0a => 0000001d 00000007 00000001 03 08"US-ASCII"0a"ISO-8859-1"
"  007   01 open  US-ASCII   ISO-8859-1  " => 0000001d 00000007 00000001 03 08"US-ASCII"0a"ISO-8859-1"
"7 1 raw 3 0855532d41534349490a49534F2D383835392D31"0a => 0000001d 00000007 00000001 03 08"US-ASCII"0a"ISO-8859-1"
"1 1 open US-ASCII UTF-8 strict" => 00000019 00000001 00000001 03 08"US-ASCII"05"UTF-8"01
0a"# nothing"0a => ""
"1 1 part <code_set_name> P|CHARMAP|<question-mark> \x3F|"0a => 00000038 00000001 00000001 08 "<code_set_name> P"0a"CHARMAP"0a"<question-mark> \x3F"0a
"1 2 put <U0100> \x80|END CHARMAP" => 00000021 00000001 00000002 01 "<U0100> \x80"0a"END CHARMAP"
"  1   2  put   a | " => 0000000f 00000001 00000002 01 "  a "0a" "
"1 2 put a b c d e f g h" => 00000018 00000001 00000002 01 "a b c d e f g h"
"1 2 put "0a => 00000009 00000001 00000002 01
"1 2 part "0a => 00000009 00000001 00000002 08
"1 2 drop TOY" => 0000000d 00000001 00000002 02 03"TOY"
"1 2 drop a|b " => 0000000d 00000001 00000002 02 03"a|b"
"1 2 bye " => 00000009 00000001 00000002 07
"##;

/// Returns whether `ask_script` writes these frames for a script.
pub fn gives(alloc: Global, script: &str, frames: &str) -> Result<bool, Fail> {
    let script = bytes_of(alloc, script)?;
    let wanted = bytes_of(alloc, frames)?;
    let frames = ask_script(alloc, &script)?;
    Ok(frames.as_slice() == wanted.as_slice())
}

#[test]
fn scripts_give_frames(rt: HostRuntime) -> Result<(), Fail> {
    check_lines(&rt, Call::Ask, FRAMES)
}

/// The number of the line at which a script is refused with exit status 2, or 0 if it is taken.
fn refused_line(alloc: Global, script: &[u8]) -> Result<u32, Fail> {
    let Err(fault) = ask_script(alloc, script) else {
        return Ok(0);
    };
    match (fault, status(&fault)) {
        (RunFault::Line(number), 2) => Ok(number),
        _ => Err(fault.into()),
    }
}

/// Returns whether a script is refused at the line with this number, or is taken if that is 0. In the script `x{N}`
/// means the letter `x` N times.
pub fn is_refused_at(alloc: Global, script: &str, number: &str) -> Result<bool, Fail> {
    let number = number.parse::<u32>()?;
    let script = written_out(alloc, script)?;
    let script = bytes_of(alloc, script.as_str())?;
    Ok(refused_line(alloc, &script)? == number)
}

/// Names and texts of the greatest length, and longer ones, with the line that is refused, or 0.
const LIMITS: &str = r#"
"1 1 drop x{255}" => 0
"1 1 drop x{256}" => 1
"1 1 put x{1048567}" => 0
"1 1 put x{1048568}" => 1
"1 1 part x{1048567}" => 0
"1 1 part x{1048568}" => 1
"#;

#[test]
fn names_and_texts_have_a_limit(rt: HostRuntime) -> Result<(), Fail> {
    check_lines(&rt, Call::Refuse, LIMITS)
}

/// Scripts with a line that is no command, and the number of this line.
const NO_COMMANDS: &str = r##"
" " => 1
"7 1 close 0"0a 0a"# c"0a"7 2 shut 0"0a => 4
"7 1 CLOSE 0" => 1
"7 1 close +0" => 1
"7 1 close 0"0d => 1
"7 1 close 4294967296" => 1
"7 1 close" => 1
"7 1 close 0 0" => 1
"7 1 conv 0 9 4" => 1
"7 1 conv 0 9 4g" => 1
"7 1 raw 256 -" => 1
"7 1 open US-ASCII UTF-8 Strict" => 1
"7 1 open US-ASCII UTF-8 strict strict" => 1
"7 1 open US-ASCII" => 1
" # no comment" => 1
"7 1 put" => 1
"7 1 part" => 1
"7 1 Put a" => 1
"7 1 put"09"TOY" => 1
"7 1 drop" => 1
"7 1 drop TOY TOY" => 1
"7 1 bye 0" => 1
"##;

#[test]
fn other_lines_are_no_commands(rt: HostRuntime) -> Result<(), Fail> {
    check_lines(&rt, Call::Refuse, NO_COMMANDS)
}

#[test]
fn replies_are_shown(rt: HostRuntime) -> Result<(), Fail> {
    let reply = b"\0\0\0\x0a\0\0\0\x07\0\0\0\x02\x10\xab";
    let lines = show_replies(rt.alloc(), reply)?;
    assert!(rt; lines.as_slice() == b"7 2 16 ab\n".as_slice());
    let cut = show_replies(rt.alloc(), &reply[..13]).err();
    assert!(rt; cut == Some(RunFault::TruncatedReply));
    let bad = show_replies(rt.alloc(), b"\0\0\0\x08").err();
    assert!(rt; bad == Some(RunFault::BadReplyLength(8)));
    Ok(())
}

/// Faults and their texts.
const TEXTS: &str = "
Line(4): line 4: not a command
Serve(TruncatedFrame): truncated frame
Serve(BadLength { length: 8 }): bad length 8
Serve(Read): read failed
Serve(Write { written: 5 }): write failed after 5 bytes
Serve(TooManyReads): too many reads
Serve(Memory): out of memory
TruncatedReply: truncated reply
BadReplyLength(9): bad length 9
CannotListen: cannot listen
AcceptFailed: accept failed
CannotConnect: cannot connect
Memory: out of memory
";

#[test]
fn faults_have_their_texts(rt: HostRuntime) -> Result<(), Fail> {
    let mut texts = String::new(rt.alloc());
    for fault in [
        RunFault::Line(4),
        RunFault::Serve(ServeFault::TruncatedFrame),
        RunFault::Serve(ServeFault::BadLength { length: 8 }),
        RunFault::Serve(ServeFault::Read),
        RunFault::Serve(ServeFault::Write { written: 5 }),
        RunFault::Serve(ServeFault::TooManyReads),
        RunFault::Serve(ServeFault::Memory),
        RunFault::TruncatedReply,
        RunFault::BadReplyLength(9),
        RunFault::CannotListen,
        RunFault::AcceptFailed,
        RunFault::CannotConnect,
        RunFault::Memory,
    ] {
        writeln!(texts, "{fault:?}: {fault}")?;
    }
    assert!(rt; texts.as_str() == TEXTS.trim_start(), "{texts}");
    Ok(())
}
