//! Ranges whose mappings are entered together, and what ends such a run.
use crate::words::scalar_of;
use cv_charmap::{Pairs, read};
use std::alloc::{AllocError, Global};
use std::test::Fail;
use test_support::{bytes_of, sides};

/// The text of a charmap with these mappings, each of which ends with `|`. They begin in line 5.
fn charmap(alloc: Global, mappings: &str) -> Result<Vec<u8>, AllocError> {
    let mut text = Vec::new(alloc);
    text.extend_from_slice(
        b"<code_set_name> RUNS\n<mb_cur_max> 4\nCHARMAP\n<question-mark> \\x3F\n",
    )?;
    for byte in mappings.as_bytes() {
        text.push(if *byte == b'|' { b'\n' } else { *byte })?;
    }
    text.extend_from_slice(b"END CHARMAP\n")?;
    Ok(text)
}

/// Mappings, and how many pairs their charmap has, with that of the question mark, or its first fault.
const MAPPINGS: &str = r#"
<U0100>..<U0357> \x80\xF0| = 601 pairs
<U0120> \x81\x10|<U0100>..<U0357> \x80\xF0| = 601 pairs
<U0100>..<U0357> \x80\xF0|<U0130>..<U0400> \x81\x20| = 770 pairs
<U0041> \x81\x10|<U0100>..<U0357> \x80\xF0| = line 6: Clash
<U0041> \x81|<U0100>..<U0357> \x80\xF0| = line 6: Prefix
<U0041> \x81\x10\x00|<U0100>..<U0357> \x80\xF0| = line 6: Prefix
<UD700>..<UD7FF> \x80\x10| = 257 pairs
<UD700>..<UE010> \x80\x10| = line 5: NotScalar
<U0010FF00>..<U0010FFFF> \x80\x10| = 257 pairs
<U0010FF00>..<U00110000> \x80\x10| = line 5: NotScalar
<U0100>..<U017F> \xFF\x80| = 129 pairs
<U0100>..<U0180> \xFF\x80| = line 5: Carry
<U0100>...<U0199> \x80\xF0| = 101 pairs
<U00010000>..<U0004FFFE> \x80\x00\x00\x00| = 262144 pairs
<U00010000>..<U0004FFFF> \x80\x00\x00\x00| = line 5: TooMany
"#;

/// How many pairs a charmap has, or its fault.
fn told(alloc: Global, text: &[u8]) -> Result<String, AllocError> {
    match read(alloc, text) {
        Ok(pairs) => format!(in alloc; "{} pairs", pairs.len()),
        Err(fault) => format!(in alloc; "{fault}"),
    }
}

#[test]
fn runs_end_where_their_entries_do(rt: HostRuntime) -> Result<(), Fail> {
    let alloc = rt.alloc();
    for line in MAPPINGS.trim().lines() {
        let (mappings, wanted) = sides(line, " = ")?;
        let told = told(alloc, &charmap(alloc, mappings)?)?;
        assert_eq!(rt; told.as_str(), wanted, "{mappings}");
    }
    Ok(())
}

/// Some pairs of a charmap with the second mappings above, after their indices.
const PAIRS: &str = r#"
1 8110 120
2 80f0 100
17 80ff 10f
18 8100 110
33 810f 11f
34 8111 121
600 8347 357
"#;

/// Whether a charmap has the pair of a line at its index.
fn has(alloc: Global, pairs: &Pairs, line: &str) -> Result<bool, Fail> {
    let (place, pair) = sides(line, " ")?;
    let (bytes, character) = sides(pair, " ")?;
    let entry = pairs.get(place.parse::<usize>()?).ok_or("no such pair")?;
    let bytes = bytes_of(alloc, bytes)?;
    Ok(entry.character() == scalar_of(character)? && entry.bytes() == bytes.as_slice())
}

#[test]
fn a_run_counts_bytes_and_characters(rt: HostRuntime) -> Result<(), Fail> {
    let alloc = rt.alloc();
    let text = charmap(alloc, r"<U0120> \x81\x10|<U0100>..<U0357> \x80\xF0|")?;
    let pairs = read(alloc, &text)?;
    for line in PAIRS.trim().lines() {
        assert!(rt; has(alloc, &pairs, line)?, "{line}");
    }
    Ok(())
}
