//! Entering the entries of a mapping.

ghost use Rattle.std.specs.Prelude.{◌≡◌, ◌≤◌, ◌<◌, ◌+◌, ◌-◌, ◌^◌, ℕ, true, length, IfOk, Ok, nat_lt, ◌||◌};
ghost use Rattle.cv_base.specs.Scalars.{IsScalar};
ghost use Rattle.cv_charmap.specs.Entries.{entries_of, sized_entries};
ghost use Rattle.cv_charmap.specs.Private.Runs.{run_entries};
ghost use Rattle.cv_charmap.specs.Private.Seen.{RunsTo, Passes, PassesOn};
ghost use Rattle.cv_lex.specs.Mappings.{One, Range};

use crate::covered::LookedUp;
use crate::entry::entry_at;
use crate::header::Header;
use crate::pair_list::{EntryFault, PairList};
use crate::range_start::RangeStart;
use cv_base::Scalar;
use cv_lex::Cause;

/// Returns how many entries a range has.
fn count_of(first: u32, last: u32) -> u64
    ensures value { result ≡ last + 1 - first }
    ensures small { result ≤ 2 ^ 32 }
{
    (u64::from(last) + 1).saturating_sub(u64::from(first))
}

/// Returns the end of the run of scalar values in which a character is: the number after the last.
fn end_of(character: Scalar) -> u32
    ensures above { character < result }
    ensures small { result ≤ 0x110000 }
    ensures scalars { (n : ℕ) → character ≤ n → n < result → IsScalar n }
{
    if character.value() < 0xD800 {
        0xD800
    } else {
        0x11_0000
    }
}

/// Returns how many of the `left` entries of a range may be entered at once from one on: those that differ from it in
/// their last byte alone, and whose characters are consecutive.
fn run_limit(hex: bool, character: Scalar, last: u8, left: u64) -> usize
    ensures few { result ≤ left }
    ensures hex { 0 < result → hex ≡ true }
    ensures bytes { last + result ≤ 256 }
    ensures scalars { (k : ℕ) → k < result → IsScalar (character + k) }
{
    if !hex {
        return 0;
    }
    let characters = end_of(character) - character.value();
    let limit = (256 - u32::from(last)).min(characters);
    left.min(u64::from(limit)) as usize
}

/// Enters at most `left` entries of a range at once, from the `i`th on, and returns how many.
fn pass_run(pairs: &mut PairList, start: &RangeStart<'_>, i: u64, left: u64) -> usize
    requires some { 0 < length start.now.bytes.now }
    requires few { length start.now.bytes.now ≤ 8 }
    requires near { i < 2 ^ 32 }
    ensures run { 0 < result → (count : ℕ) → i + left ≤ count
        → PassesOn pairs.old start.now.hex start.now.first start.now.bytes.now i count
        (Ok (record { at = i; index = length pairs.old; size = result }, i + result)) pairs.new }
    ensures none { result ≡ 0 → pairs.new ≡ pairs.old }
    ensures near { result ≤ 256 }
{
    if left < 2 {
        return 0;
    }
    let Ok(entry) = entry_at(start, i) else {
        return 0;
    };
    let most = run_limit(start.hex, entry.1, entry.0[start.bytes.len() - 1], left);
    pairs.enter_run(&entry.0[..start.bytes.len()], entry.1, most)
}

/// Enters the `i`th entry of a range. Returns the index of its pair, and the number of the next entry that is not known
/// to be in the list.
fn pass_one(
    pairs: &mut PairList,
    start: &RangeStart<'_>,
    i: u64,
) -> Result<(usize, u64), EntryFault>
    requires some { 0 < length start.now.bytes.now }
    requires few { length start.now.bytes.now ≤ 8 }
    requires near { i < 2 ^ 32 }
    ensures passes { (count : ℕ) → i < count
        → Passes pairs.old start.now.hex start.now.first start.now.bytes.now i count
        result pairs.new }
    ensures near { IfOk result (λ p. p.1 ≤ 2 ^ 33) }
{
    let (word, c) = match entry_at(start, i) {
        Ok(entry) => entry,
        Err(cause) => return Err(EntryFault::Faulty(cause)),
    };
    let index = match pairs.enter(&word[..start.bytes.len()], c) {
        Ok(index) => index,
        Err(fault) => return Err(fault),
    };
    let known = pairs.covered_from(index, start.hex, u64::from(start.first) + i);
    Ok((index, i + known.max(1)))
}

/// Enters the `i`th entry of a range, and as many of those after it as can be entered at once. Returns where their
/// pairs are, and the number of the next entry that is not known to be in the list.
fn pass(
    pairs: &mut PairList,
    start: &RangeStart<'_>,
    i: u64,
    left: u64,
) -> Result<(LookedUp, u64), EntryFault>
    requires some { 0 < length start.now.bytes.now }
    requires few { length start.now.bytes.now ≤ 8 }
    requires near { i < 2 ^ 32 }
    ensures passes { (count : ℕ) → i < count → i + left ≤ count
        → PassesOn pairs.old start.now.hex start.now.first start.now.bytes.now i count
        result pairs.new }
    ensures near { IfOk result (λ p. p.1 ≤ 2 ^ 33) }
{
    let index = pairs.len();
    let size = pass_run(pairs, start, i, left) as u64;
    if size > 0 {
        return Ok((LookedUp { at: i, index, size }, i + size));
    }
    match pass_one(pairs, start, i) {
        Ok(passed) => {
            let alone = LookedUp {
                at: i,
                index: passed.0,
                size: 1,
            };
            Ok((alone, passed.1))
        }
        Err(fault) => Err(fault),
    }
}

/// Returns how many entries of a range, of `count`, may be entered at once from the `i`th on. Several are tried after
/// two, if the last was new.
fn left_of(grew: bool, i: u64, count: u64) -> u64
    requires { i < count }
    ensures { i + result ≤ count }
{
    if grew && i > 1 { count - i } else { 1 }
}

/// Enters the entries of a range.
pub(crate) fn enter_range(
    pairs: &mut PairList,
    start: &RangeStart<'_>,
    last: u32,
) -> Result<(), EntryFault>
    requires some { 0 < length start.now.bytes.now }
    requires few { length start.now.bytes.now ≤ 8 }
    ensures { (n : ℕ) → RunsTo (run_entries pairs.old n (entries_of
        (Range start.now.first last start.now.hex start.now.bytes.now))) n result pairs.new }
{
    let count = count_of(start.first, last);
    let mut found = Vec::new(pairs.alloc());
    let mut i: u64 = 0;
    let mut grew = false;
    while i < count {
        let before = pairs.len();
        let left = left_of(grew, i, count);
        let (run, next) = match pass(pairs, start, i, left) {
            Ok(passed) => passed,
            Err(fault) => return Err(fault),
        };
        if found.push(run).is_err() {
            return Err(EntryFault::Memory);
        }
        grew = pairs.len() > before;
        i = next;
    }
    match pairs.cover(start, &found, i) {
        Ok(()) => Ok(()),
        Err(_) => Err(EntryFault::Memory),
    }
}

/// Tells whether a mapping has too few or too many bytes.
fn is_unfit(header: &Header<'_>, bytes: &[u8]) -> bool
    ensures { result ≡ (nat_lt (length bytes.now) header.now.least
        || nat_lt header.now.most (length bytes.now)) }
{
    bytes.len() < usize::from(header.least) || usize::from(header.most) < bytes.len()
}

/// Enters a mapping of one character, if its number of bytes is allowed.
#[tactic(auto, using(crate::proofs::EntryLemmas::one_entry), unfolding(crate::specs::Private::Runs::run_entries))]
pub(crate) fn enter_sized_one(
    pairs: &mut PairList,
    header: &Header<'_>,
    c: Scalar,
    bytes: &[u8],
) -> Result<(), EntryFault>
    requires some { 0 < length bytes.now }
    requires few { length bytes.now ≤ 8 }
    ensures { (n : ℕ) → RunsTo (run_entries pairs.old n
        (sized_entries header.now.least header.now.most (One c bytes.now))) n result pairs.new }
{
    if is_unfit(header, bytes) {
        return Err(EntryFault::Faulty(Cause::Length));
    }
    match pairs.enter(bytes, c) {
        Ok(_) => Ok(()),
        Err(fault) => Err(fault),
    }
}

/// Enters the mappings of a range, if their number of bytes is allowed.
#[tactic(auto, unfolding(crate::specs::Private::Runs::run_entries))]
pub(crate) fn enter_sized_range(
    pairs: &mut PairList,
    header: &Header<'_>,
    start: &RangeStart<'_>,
    last: u32,
) -> Result<(), EntryFault>
    requires some { 0 < length start.now.bytes.now }
    requires few { length start.now.bytes.now ≤ 8 }
    ensures { (n : ℕ) → RunsTo (run_entries pairs.old n
        (sized_entries header.now.least header.now.most
        (Range start.now.first last start.now.hex start.now.bytes.now))) n result pairs.new }
{
    if is_unfit(header, start.bytes) {
        return Err(EntryFault::Faulty(Cause::Length));
    }
    enter_range(pairs, start, last)
}
