//! The room that a byte trie reserves ahead. It may be refused, and is given back in the end. `size` says how many
//! bytes the trie takes.
use cv_byte_trie::ByteTrie;
use cv_charmap::{Pairs, read};
use std::alloc::Global;
use std::test::Fail;

#[test]
fn room_that_is_refused_fails_nothing(rt: HostRuntime) -> Result<(), Fail> {
    let least = ByteTrie::new(rt.alloc())?.size();
    let refused = ByteTrie::with_room(rt.alloc(), usize::MAX)?;
    assert_eq!(rt; refused.size(), least);
    Ok(())
}

#[test]
fn room_is_there_until_it_is_given_back(rt: HostRuntime) -> Result<(), Fail> {
    let least = ByteTrie::new(rt.alloc())?.size();
    let mut trie = ByteTrie::with_room(rt.alloc(), 1000)?;
    assert_eq!(rt; trie.size(), least.saturating_add(16_000));
    trie.trim();
    assert_eq!(rt; trie.size(), least);
    Ok(())
}

/// A charmap of two pairs, with `lines` lines of comment.
fn commented(alloc: Global, lines: usize) -> Result<Pairs, Fail> {
    let mut text = Vec::from_slice(alloc, b"<code_set_name> TWO\nCHARMAP\n")?;
    for _ in 0..lines {
        text.extend_from_slice(b"# a line of comment that is as long as others are\n")?;
    }
    text.extend_from_slice(b"<U003F> \\x3f\n<U0100> \\x80\nEND CHARMAP\n")?;
    Ok(read(alloc, &text)?)
}

#[test]
fn a_charmap_keeps_no_room_for_more_pairs(rt: HostRuntime) -> Result<(), Fail> {
    let (_, few) = commented(rt.alloc(), 0)?.into_parts();
    let (_, many) = commented(rt.alloc(), 1000)?.into_parts();
    assert_eq!(rt; many.size(), few.size());
    Ok(())
}
