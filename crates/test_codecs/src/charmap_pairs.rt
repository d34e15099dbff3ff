//! The pairs of a small charmap, compared with a list made by hand.
use crate::words::scalar_of;
use cv_byte_trie::Lookup;
use cv_charmap::{CompileFault, Pairs, laws, read};
use std::alloc::Global;
use std::test::Fail;
use test_support::{bytes_of, sides};

const TOY: &[u8] = b"<code_set_name> TOY\n\
    <mb_cur_max> 2\n\
    # two-byte part\n\
    CHARMAP\n\
    <question-mark> \\x3F\n\
    <U0100>...<U0103> \\d129\\d254 carried into the first byte\n\
    END CHARMAP\n";

/// Its pairs, in the order of the text.
const PAIRS: &str = r#"
"?": 3f
81fe: 100
81ff: 101
8200: 102
8201: 103
"#;

/// Whether the charmap has this pair at index `place`.
fn has(alloc: Global, pairs: &Pairs, place: usize, pair: &str) -> Result<bool, Fail> {
    let (bytes, character) = sides(pair, ": ")?;
    let character = scalar_of(character)?;
    let entry = pairs.get(place).ok_or("no such pair")?;
    let bytes = bytes_of(alloc, bytes)?;
    Ok(entry.character() == character && entry.bytes() == bytes.as_slice())
}

#[test]
fn a_charmap_has_its_pairs_in_order(rt: HostRuntime) -> Result<(), Fail> {
    laws::means_maps();
    let pairs = read(rt.alloc(), TOY)?;
    assert_eq!(rt; pairs.name(), b"TOY".as_slice());
    assert_eq!(rt; pairs.len(), 5);
    for (place, pair) in PAIRS.trim().lines().enumerate() {
        assert!(rt; has(rt.alloc(), &pairs, place, pair)?, "{pair}");
    }
    assert!(rt; pairs.get(5).is_none());
    let (name, entries) = pairs.into_parts();
    assert_eq!(rt; name.as_slice(), b"TOY".as_slice());
    assert_eq!(rt; entries.find(b"\x82\x00\x82"), Lookup::Entry(3));
    Ok(())
}

/// The fault of the charmap in a text, as it is displayed.
fn told_fault(alloc: Global, text: &[u8]) -> Result<String, Fail> {
    match read(alloc, text) {
        Ok(_) => Err("no fault".into()),
        Err(fault) => Ok(format!(in alloc; "{fault}")?),
    }
}

#[test]
fn a_fault_is_told_in_a_line(rt: HostRuntime) -> Result<(), Fail> {
    let alloc = rt.alloc();
    let told = told_fault(alloc, b"<mb_cur_max> 9\nCHARMAP\n")?;
    assert_eq!(rt; told.as_str(), "line 1: Declaration");
    let told = told_fault(alloc, b"CHARMAP\n")?;
    assert_eq!(rt; told.as_str(), "line 0: NoEnd");
    let told = format!(in alloc; "{}", CompileFault::Memory)?;
    assert_eq!(rt; told.as_str(), "out of memory");
    Ok(())
}
