//! Charmap texts, and the lines that `checkmap` prints for them. `checking` says how a text is written.
use crate::tables::{Call, check_lines};
use cv_commands::{RunFault, checkmap, status};
use cv_loop::ServeFault;
use std::fs;
use std::rt::Files;
use std::test::Fail;

const TOY: &str = r"<code_set_name> TOY
<mb_cur_max> 2
# two-byte part
CHARMAP
<question-mark> \x3F
<U0100>...<U0103> \d129\d254 carried into the first byte
END CHARMAP
";

const TOY_OTHERWISE: &str = r#"<code_set_name> "TOY"
<comment_char> %
<escape_char> /
<mb_cur_min> 1
<mb_cur_max> 2
% alias TOYS
CHARMAP
<U003F>     /x3f         QUESTION MARK
<U0100>..<U0103>     /x81/xfe     FOUR LETTERS
END CHARMAP
WIDTH
<U0100> 1
END WIDTH
"#;

#[test]
fn a_charmap_is_read_in_two_forms(rt: HostRuntime) -> Result<(), Fail> {
    check_lines(&rt, Call::Check(TOY), " => TOY 5")?;
    check_lines(&rt, Call::Check(TOY_OTHERWISE), " => TOY 5")
}

const CHARMAPS: &str = r#"
// a pair that is repeated adds nothing
<code_set_name> A|CHARMAP|<question-mark> \77|<period> \x2E|<full-stop> \x2F|<U002E> \d46|END CHARMAP => A 3
// one carriage return is dropped at the end of each line
"<code_set_name> A"0d"|CHARMAP"0d"|<question-mark> \77"0d"|<period> \x2E"0d"|<full-stop> \x2F"0d"|<U002E> \d46"0d"|END CHARMAP" => A 3
// `%` above CHARMAP, an escaped letter, and a line behind the end
% x|<code_set_name> A|CHARMAP|<\question-mark> \x3F|# <A> \x3F|END CHARMAP|<B> \x3F => A 1
// another comment character counts from the next line on; `%` is one above CHARMAP all the same
<code_set_name> A|# x|<comment_char> !|! # x|% x|CHARMAP|!|<question-mark> \x3F|END CHARMAP => A 1
// eight bytes are the most
<code_set_name> A|<mb_cur_max> 8|CHARMAP|<question-mark> \x01\x02\x03\x04\x05\x06\x07\x08|END CHARMAP => A 1
// `...` counts in decimal, `..` in hexadecimal digits
<code_set_name> A|CHARMAP|<question-mark> \x3F|<U0109>...<U0110> \x80|END CHARMAP => A 3
<code_set_name> A|CHARMAP|<question-mark> \x3F|<U0109>..<U0110> \x80|END CHARMAP => A 9
// ranges that overlap, shifted or not
<code_set_name> A|CHARMAP|<U0020>..<U0050> \x20|<U0028>..<U0060> \x28|<U0030> \x30|<U0020>..<U0064> \x20|END CHARMAP => A 69
// of two declarations the later holds, from the next line on
<code_set_name> A|<code_set_name> B extra|<escape_char> /|<escape_char> !|CHARMAP|<?> !x3F|<question-mark> !x3F|END CHARMAP => line 6: UnknownName
"<code_set_name> A|<code_set_name> B extra|<other> 9|<mb_cur_max>"09"8 |CHARMAP "09"|"09"<question-mark>"09"\x3F"09"\|END "09" CHARMAP " => B 1
// a name of quotation marks, an escaped `>`
<code_set_name> "|CHARMAP|<question-mark> \x3F|END CHARMAP => " 1
<code_set_name> A|CHARMAP|<question-mark> \x3F|<a\>b> \x40|END CHARMAP => line 4: UnknownName
"#;

#[test]
fn charmaps_are_read(rt: HostRuntime) -> Result<(), Fail> {
    check_lines(&rt, Call::Check(""), CHARMAPS)
}

/// The exit status of `checkmap` for a file with this text.
fn status_of_file<R: Files + Input + Print + AllocGlobal>(rt: &R, text: &str) -> Result<u8, Fail> {
    fs::write(rt, "charmap", text)?;
    let done = checkmap(rt, "charmap");
    fs::remove_file(rt, "charmap")?;
    Ok(done?)
}

#[test]
fn a_file_that_is_no_charmap_has_status_1(rt: HostRuntime) -> Result<(), Fail> {
    assert!(rt; status_of_file(&rt, TOY)? == 0);
    assert!(rt; status_of_file(&rt, "CHARMAP\n<A>")? == 1);
    Ok(())
}

#[test]
fn a_file_that_is_not_there_is_a_failed_read(rt: HostRuntime) -> Result<(), Fail> {
    let fault = checkmap(&rt, "no/such/charmap").err().ok_or("read")?;
    assert!(rt; fault == RunFault::Serve(ServeFault::Read));
    assert!(rt; status(&fault) == 1);
    Ok(())
}
