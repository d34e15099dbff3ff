//! Small charmaps by their names, for the tests that read, write and convert them.
use cv_charmap::read;
use cv_trie::Charmap;
use std::alloc::Global;
use std::test::Fail;

/// A range of two-byte strings, whose last byte carries into the first.
const TOY: &[u8] = b"<code_set_name> TOY\n\
    <mb_cur_max> 2\n\
    CHARMAP\n\
    <question-mark> \\x3F\n\
    <U0100>...<U0103> \\d129\\d254\n\
    END CHARMAP\n";

/// Byte strings of one, two and three bytes, a character that has three of them, and a question mark that isn't 3f.
const MIXED: &[u8] = b"<code_set_name> MIXED\n\
    <mb_cur_max> 3\n\
    CHARMAP\n\
    <question-mark> \\x6F\n\
    <U4E00> \\x81\\x40\n\
    <U4E00> \\x40\n\
    <U4E00> \\x00\\xFF\\x00\n\
    <U0001FFFE> \\x00\\xFF\\xFE\n\
    END CHARMAP\n";

/// A question mark that isn't 3f, and another character that is.
const MOVED: &[u8] = b"<code_set_name> MOVED\n\
    CHARMAP\n\
    <question-mark> \\x6F\n\
    <o> \\x3F\n\
    <U0102> \\x40\n\
    END CHARMAP\n";

/// 65,535 byte strings of three bytes.
const WIDE: &[u8] = b"<code_set_name> WIDE\n\
    <mb_cur_max> 3\n\
    CHARMAP\n\
    <question-mark> \\x81\\x00\\x00\n\
    <U00010000>..<U0001FFFD> \\x80\\x00\\x00\n\
    END CHARMAP\n";

/// Returns the charmap above that has this name.
pub fn charmap(alloc: Global, name: &str) -> Result<Charmap, Fail> {
    let text = match name {
        "TOY" => TOY,
        "MIXED" => MIXED,
        "MOVED" => MOVED,
        "WIDE" => WIDE,
        _ => return Err("no such charmap".into()),
    };
    Ok(Charmap::build(alloc, read(alloc, text)?)?)
}
