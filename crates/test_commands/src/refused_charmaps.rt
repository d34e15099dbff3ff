//! Texts that are no charmaps, and the line and the cause that are reported for them. `checking` says how a text is
//! written.
use crate::tables::{Call, check_lines};
use std::test::Fail;

/// Texts with each of the causes.
const REFUSED: &str = r#"
 => line 0: NoMap
<code_set_name> BAD|<mb_cur_max> 9|CHARMAP|END CHARMAP => line 2: Declaration
<code_set_name> BAD|END CHARMAP => line 2: Declaration
<code_set_name> BAD|CHARMAP|<A>\x41|END CHARMAP => line 3: Syntax
<code_set_name> BAD|CHARMAP|<U304B><U309A> \x41|END CHARMAP => line 3: Syntax
<code_set_name> BAD|CHARMAP|<foo> \x80|END CHARMAP => line 3: UnknownName
<code_set_name> BAD|CHARMAP|<UD800> \x80|END CHARMAP => line 3: NotScalar
<code_set_name> BAD|CHARMAP|<UD7FF>..<UE000> \x80|END CHARMAP => line 3: NotScalar
<code_set_name> BAD|CHARMAP|<U00A0>...<U00A5> \x80|END CHARMAP => line 3: Range
<code_set_name> BAD|CHARMAP|<A>...<Z> \x41|END CHARMAP => line 3: Range
<code_set_name> BAD|<mb_cur_max> 2|CHARMAP|<A> \d129\x40|END CHARMAP => line 4: Constant
<code_set_name> BAD|CHARMAP|<A> \d256|END CHARMAP => line 3: Constant
<code_set_name> BAD|CHARMAP|<A> \x81\x40|END CHARMAP => line 3: Length
<code_set_name> BAD|CHARMAP|<U0100>...<U0101> \xFF|END CHARMAP => line 3: Carry
<code_set_name> BAD|CHARMAP|<A> \x81|<B> \x81|END CHARMAP => line 4: Clash
<code_set_name> BAD|<mb_cur_max> 2|CHARMAP|<A> \x81|<B> \x81\x40|END CHARMAP => line 5: Prefix
<code_set_name> BAD|<mb_cur_max> 3|CHARMAP|<U10000>..<U50000> \x00\x00\x00|END CHARMAP => line 4: TooMany
<code_set_name> BAD|CHARMAP|<question-mark> \x3F => line 0: NoEnd
CHARMAP|<question-mark> \x3F|END CHARMAP => line 0: NoName
<code_set_name> BAD|CHARMAP|<A> \x41|END CHARMAP => line 0: NoSubstitute
"#;

/// Texts in which a line has two causes, and the one that is reported.
const TWO_CAUSES: &str = r#"
CHARMAP|<foo> => line 2: Syntax
CHARMAP|<UD800> => line 2: Syntax
CHARMAP|<A>...<B> => line 2: Syntax
CHARMAP|<A>...<B>\d256 => line 2: Syntax
CHARMAP|<A>....<B> \d256 => line 2: Syntax
CHARMAP|<A>\x41\x41 => line 2: Syntax
CHARMAP|<A> \x41|<B>\x41 => line 3: Syntax
CHARMAP|<UD7FF>..<UD800>\xFF => line 2: Syntax
CHARMAP|<foo> \d256 => line 2: UnknownName
CHARMAP|<foo> \x41\x41 => line 2: UnknownName
CHARMAP|<A> \x41|<foo> \x41 => line 3: UnknownName
<mb_cur_max> 2|CHARMAP|<A> \x41|<foo> \x41\x41 => line 4: UnknownName
CHARMAP|<UD800> \8 => line 2: NotScalar
CHARMAP|<UD800> \x41\x41 => line 2: NotScalar
CHARMAP|<A> \x41|<UD800> \x41 => line 3: NotScalar
<mb_cur_max> 2|CHARMAP|<A> \x41|<UD800> \x41\x41 => line 4: NotScalar
CHARMAP|<UE000>..<UD800> \xFF => line 2: Range
CHARMAP|<U0041>..<U00042> \d1234 => line 2: Range
CHARMAP|<U004A>...<U004B> \x41\x41 => line 2: Range
CHARMAP|<A> \x41|<U004A>...<U004B> \x41 => line 3: Range
<mb_cur_max> 2|CHARMAP|<A> \x41\x41|<U004A>...<U004B> \x41 => line 4: Range
CHARMAP|<A> \x41\101 => line 2: Constant
CHARMAP|<U0041>..<U0042> \xFF\8 => line 2: Constant
CHARMAP|<A> \x41|<B> \x41\8 => line 3: Constant
<mb_cur_max> 2|CHARMAP|<A> \x41|<B> \x41\x4 => line 4: Constant
CHARMAP|<UD800>..<UD801> \x41\18 => line 2: Constant
CHARMAP|<UD800>..<UD801> \x41\x41 => line 2: Length
CHARMAP|<U0041>..<U0042> \xFF\xFF => line 2: Length
<mb_cur_max> 2|CHARMAP|<A> \x41|<B> \x41\x42\x43 => line 4: Length
<mb_cur_min> 2|CHARMAP|<A> \x41 => line 3: Length
CHARMAP|<UD7FF>..<UD800> \xFF => line 2: NotScalar
CHARMAP|<A> \x81|<UD7FF>..<UD800> \x80 => line 3: NotScalar
<mb_cur_max> 2|CHARMAP|<A> \x81\x81|<UD7FF>..<UD800> \x80 => line 4: NotScalar
CHARMAP|<A> \xFF|<U0040>..<U0042> \xFE => line 3: Carry
CHARMAP|<A> \xFF|<U0040>..<U0042> \xFD => line 3: Clash
<mb_cur_max> 2|CHARMAP|<A> \x40|<B> \x41\x41|<U0041>..<U0042> \x40 => line 5: Prefix
// of two entries the first decides
CHARMAP|<A> \xFF|<UD7FF>..<UD800> \xFF => line 3: Clash
<mb_cur_max> 2|CHARMAP|<A> \xFF\xFF|<UD7FF>..<UD800> \xFF => line 4: Prefix
// of two lines the first decides, and a line before the whole text
CHARMAP|<A>|<foo> \x41 => line 2: Syntax
CHARMAP|<foo> \x41|<A> => line 2: UnknownName
<mb_cur_max> 9|CHARMAP|<A> => line 1: Declaration
// of two causes of the whole text the first decides
# no line => line 0: NoMap
CHARMAP => line 0: NoEnd
CHARMAP|END CHARMAP => line 0: NoName
"#;

/// Lines that differ a little from a form that is read.
const FORMS: &str = r#"
// a comment character counts from the line behind its declaration on, and `%` above the mappings alone
! x|<comment_char> ! => line 1: Declaration
<comment_char> !|# x => line 2: Declaration
<comment_char> !|CHARMAP|% x => line 3: Syntax
CHARMAP|% x => line 2: Syntax
// an escape character counts in the mappings alone
<escape_char> /|CHARMAP|<A> \x41 => line 3: Constant
// declarations without a blank, a value, a byte that is allowed, or with one too many
<mb_cur_max> => line 1: Declaration
<mb_cur_max>1 => line 1: Declaration
<mb_cur_min> 0 => line 1: Declaration
<mb_cur_min> 10 => line 1: Declaration
<escape_char> < => line 1: Declaration
<comment_char> a => line 1: Declaration
<code_set_name> "" => line 1: Declaration
// blanks before what has to stand in the first column
 CHARMAP => line 1: Declaration
CHARMAP| # x => line 2: Syntax
CHARMAP| END CHARMAP => line 2: Syntax
CHARMAP|ENDCHARMAP => line 2: Syntax
CHARMAP|CHARMAP => line 2: Syntax
// names without a byte, with small `u`, with three digits and with nine
CHARMAP|<> \x41 => line 2: UnknownName
CHARMAP|<u0041> \x41 => line 2: UnknownName
CHARMAP|<U041> \x41 => line 2: UnknownName
CHARMAP|<U000000041> \x41 => line 2: UnknownName
// an encoding between two names, and letters of types that are capitals
CHARMAP|<A> ... <B> => line 2: Constant
CHARMAP|<A> \X41 => line 2: Constant
// no mapping has at least two bytes and at most one
<mb_cur_min> 2|CHARMAP|<A> \x41\x41 => line 3: Length
"#;

#[test]
fn faulty_texts_are_refused(rt: HostRuntime) -> Result<(), Fail> {
    check_lines(&rt, Call::Check(""), REFUSED)?;
    check_lines(&rt, Call::Check(""), TWO_CAUSES)?;
    check_lines(&rt, Call::Check(""), FORMS)
}

/// 262,144 mappings, the most that there may be.
const FULL: &str = r"<code_set_name> FULL
<mb_cur_max> 3
CHARMAP
<question-mark> \x40
<U10000>..<U4FFFE> \x00\x00\x00
";

/// Lines after these mappings, and what is reported.
const AT_FULL: &str = r#"
END CHARMAP| => FULL 262144
<question-mark> \x40|END CHARMAP| => FULL 262144
<U10000>..<U4FFFE> \x00\x00\x00|END CHARMAP| => FULL 262144
<A> \x41|END CHARMAP| => line 6: TooMany
<U4FFFE>..<U4FFFF> \x03\xFF\xFE|END CHARMAP| => line 6: TooMany
<A> \x40|END CHARMAP| => line 6: Clash
<A> \x00|END CHARMAP| => line 6: Prefix
<A> \x40\x40|END CHARMAP| => line 6: Prefix
<UD800>..<UD801> \x41|END CHARMAP| => line 6: NotScalar
<A> \x41\x41\x41\x41|END CHARMAP| => line 6: Length
<A> \d256|END CHARMAP| => line 6: Constant
<U004A>...<U004B> \x41|END CHARMAP| => line 6: Range
<UD800> \x41|END CHARMAP| => line 6: NotScalar
<foo> \x41|END CHARMAP| => line 6: UnknownName
"#;

#[test]
fn the_list_can_be_full(rt: HostRuntime) -> Result<(), Fail> {
    check_lines(&rt, Call::Check(FULL), AT_FULL)
}

const BYTES: &str = r#"
""00 => line 1: Declaration
""0d => line 0: NoMap
""0d0d => line 1: Declaration
"||"ff => line 3: Declaration
"CHARMAP|<"e9"> \x41" => line 2: UnknownName
"CHARMAP|<A> \x41"00 => line 2: Constant
"#;

#[test]
fn bytes_that_are_no_text_are_refused(rt: HostRuntime) -> Result<(), Fail> {
    check_lines(&rt, Call::Check(""), BYTES)
}
