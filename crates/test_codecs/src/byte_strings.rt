//! A byte trie whose nodes have one edge, a few edges or many, compared with the strings that were added to it.
use cv_base::Scalar;
use cv_byte_trie::{Added, ByteTrie, Lookup, NONE};
use std::alloc::{AllocError, Global};
use std::test::Fail;
use test_support::{bytes_of, sides};

/// Adds a string. The trie takes strings of one to eight bytes.
fn add(trie: &mut ByteTrie, bytes: &[u8]) -> Result<Added, Fail> {
    if bytes.is_empty() || bytes.len() > 8 || trie.len() >= 1000 {
        return Err("a string that can't be added".into());
    }
    Ok(trie.add(bytes, Scalar::substitute())?)
}

/// What the trie finds at the start of a text.
fn find(trie: &ByteTrie, text: &[u8]) -> Result<Lookup, Fail> {
    if text.is_empty() {
        return Err("an empty text".into());
    }
    Ok(trie.find(text))
}

/// The code of the entry that one step from the root leads to, if it leads to one. It is the entry's index if the
/// string ends there.
fn walked(trie: &ByteTrie, byte: u8) -> Option<usize> {
    trie.assert_leads();
    let code = trie.step(0, byte);
    if code < NONE {
        Some(code as usize)
    } else {
        None
    }
}

/// Strings of two and three bytes: one after 0, a few after 1, and 256 after each of 2 and 3.
fn strings(alloc: Global) -> Result<Vec<Vec<u8>>, AllocError> {
    let mut strings = Vec::new(alloc);
    push(&mut strings, alloc, &[0, 7, 9])?;
    for byte in 0..8 {
        push(&mut strings, alloc, &[1, byte])?;
    }
    for byte in 0..=255 {
        push(&mut strings, alloc, &[2, 200, byte])?;
        push(&mut strings, alloc, &[3, byte, 200])?;
    }
    Ok(strings)
}

fn push(strings: &mut Vec<Vec<u8>>, alloc: Global, bytes: &[u8]) -> Result<(), AllocError> {
    strings.push(bytes.to_vec(alloc)?)?;
    Ok(())
}

/// Whether a trie has the string at index `place`.
fn has(trie: &ByteTrie, place: usize, string: &[u8]) -> Result<bool, Fail> {
    let bytes = trie.get(place).map(|entry| entry.bytes());
    Ok(find(trie, string)? == Lookup::Entry(place) && bytes == Some(string))
}

#[test]
fn strings_are_found_at_their_places(rt: HostRuntime) -> Result<(), Fail> {
    let strings = strings(rt.alloc())?;
    let mut trie = ByteTrie::new(rt.alloc())?;
    for string in &strings {
        assert_eq!(rt; add(&mut trie, string)?, Added::Entered, "{string:?}");
    }
    assert_eq!(rt; trie.len(), strings.len());
    for (place, string) in strings.iter().enumerate() {
        assert!(rt; has(&trie, place, string)?, "{string:?}");
    }
    assert_eq!(rt; walked(&trie, 4), None);
    Ok(())
}

/// Calls with a string, and their results.
const MEETING: &str = r#"
add "abc": Entered
add "abd": Entered
add "abc": Held(0)
add "ab": Begins
add "abde": Continues(1)
add "b": Entered
find "abdx": Entry(1)
find "a": Inside
find "ax": Nothing
find "bb": Entry(2)
"#;

/// The result of adding or finding a string, in the words of a line.
fn told(alloc: Global, trie: &mut ByteTrie, line: &str) -> Result<String, Fail> {
    let (done, string) = sides(line, " ")?;
    let bytes = bytes_of(alloc, string)?;
    if done == "add" {
        told_added(alloc, trie, &bytes)
    } else {
        told_found(alloc, trie, &bytes)
    }
}

fn told_added(alloc: Global, trie: &mut ByteTrie, bytes: &[u8]) -> Result<String, Fail> {
    let added = add(trie, bytes)?;
    Ok(format!(in alloc; "{added:?}")?)
}

fn told_found(alloc: Global, trie: &ByteTrie, text: &[u8]) -> Result<String, Fail> {
    let found = find(trie, text)?;
    Ok(format!(in alloc; "{found:?}")?)
}

#[test]
fn what_meets_others_is_not_added(rt: HostRuntime) -> Result<(), Fail> {
    let mut trie = ByteTrie::new(rt.alloc())?;
    for line in MEETING.trim().lines() {
        let (done, wanted) = sides(line, ": ")?;
        let told = told(rt.alloc(), &mut trie, done)?;
        assert_eq!(rt; told.as_str(), wanted, "{line}");
    }
    assert_eq!(rt; trie.entries().len(), 3);
    assert_eq!(rt; walked(&trie, b'b'), Some(2));
    let question = trie.get(0).map(|entry| entry.character());
    assert_eq!(rt; question, Some(Scalar::substitute()));
    Ok(())
}
