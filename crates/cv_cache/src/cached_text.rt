//! The texts that are held, with their charmaps, in the order of their use.
ghost use Rattle.std.specs.Prelude.{◌≡◌, ◌+◌, [], nat_eq, IfSome, OnOk, OnErr, IfOk, None, option_map};
ghost use Rattle.std.specs.List.{find};
ghost use Rattle.std.specs.Map.{lookup};
ghost use Rattle.lru.specs.LruCache.{lru_cache, put_entries, IsValid};
ghost use Rattle.cv_cache.specs.Held.{bytes_of};
ghost use Rattle.cv_cache.specs.Private.Numbers.{matches, IsNumberFor};

use crate::limits::MOST_TEXTS;
use crate::text_hasher::HashKeys;
use cv_base::Memory;
use cv_trie::Charmap;
use lru::LruCache;
use std::alloc::Global;
use std::num::NonZeroUsize;
use std::sync::Arc;

/// A text that is held, its sum by the keys of its cache, the charmap that it means, and how many bytes text and
/// charmap take.
#[derive(Drop)]
pub(crate) struct CachedText {
    pub(crate) sum: u64,
    pub(crate) text: Vec<u8>,
    pub(crate) charmap: Arc<Charmap>,
    pub(crate) size: usize,
}

/// The texts that are held, the last used first, and the keys by which they are summed. The key of an entry is a
/// number, not its text, because the map hashes the key in each of its calls.
#[derive(Drop)]
pub(crate) struct Texts {
    pub(crate) keys: HashKeys,
    pub(crate) entries: LruCache<u64, CachedText>,
}

impl Texts {
    /// No text yet. The keys are kept as given: a sum that was made outside the lock is only valid with the same keys.
    pub(crate) fn new(alloc: Global, keys: HashKeys) -> Result<Texts, Memory>
        ensures keys { IfOk result (λ texts. texts.keys ≡ keys) }
        ensures entries { IfOk result (λ texts. texts.entries ≡ lru_cache [] MOST_TEXTS) }
    {
        let Some(most) = NonZeroUsize::new(MOST_TEXTS) else {
            return Err(Memory);
        };
        let entries = LruCache::new(alloc, most)?;
        Ok(Texts { keys, entries })
    }
}

/// The entry of a text, and its number. Texts are compared only if their sums are equal.
pub(crate) fn entry_of<'a>(
    entries: &'a LruCache<u64, CachedText>,
    sum: u64,
    text: &[u8],
) -> Option<(u64, &'a CachedText)>
    ensures entry { option_map (λ r. (r.0, r.1.now)) result
        ≡ find (matches sum text.now) entries.now.entries }
    ensures valid { IsValid nat_eq entries.now }
{
    // By its contract, `len` states that the numbers differ.
    let _ = entries.len();
    for (number, kept) in entries {
        if kept.sum == sum && text == kept.text.as_slice() {
            return Some((*number, kept));
        }
    }
    None
}

/// A number that no entry has. It tries one number more than there may be entries, so one of them is free: mostly the
/// first, which follows the number of the text that was used last.
fn free_number(entries: &LruCache<u64, CachedText>) -> Option<u64>
    ensures { IfSome result (λ n. lookup (nat_eq n) entries.now.entries ≡ None) }
{
    let first = match entries.peek_mru() {
        Some((number, _)) => number.wrapping_add(1),
        None => 0,
    };
    for step in 0..=MOST_TEXTS as u64 {
        let number = first.wrapping_add(step);
        if !entries.contains(&number) {
            return Some(number);
        }
    }
    None
}

/// The number of a text that is held, or else a free number.
pub(crate) fn number_for(entries: &LruCache<u64, CachedText>, sum: u64, text: &[u8]) -> Option<u64>
    ensures number { IfSome result (IsNumberFor sum text.now entries.now.entries) }
    ensures valid { IsValid nat_eq entries.now }
{
    match entry_of(entries, sum, text) {
        Some((number, _)) => Some(number),
        None => free_number(entries),
    }
}

/// Puts an entry first, and returns how many bytes the dropped entry took: that with the same number, or, if the cache
/// was full, the last. Without a dropped entry it returns 0.
pub(crate) fn put(
    entries: &mut LruCache<u64, CachedText>,
    number: u64,
    kept: CachedText,
) -> Result<usize, Memory>
    ensures entries { OnOk result (entries.new
        ≡ lru_cache (put_entries nat_eq entries.old number kept) entries.old.cap) }
    ensures bytes { IfOk result (λ went. bytes_of entries.new.entries + went
        ≡ bytes_of entries.old.entries + kept.size) }
    ensures err { OnErr result (entries.new ≡ entries.old) }
{
    // By its contract, `len` states how many entries there are at most.
    let _ = entries.len();
    match entries.push(number, kept)? {
        Some((_, gone)) => Ok(gone.size),
        None => Ok(0),
    }
}
