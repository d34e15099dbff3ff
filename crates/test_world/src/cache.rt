//! Charmaps that are compiled, and the cache that holds them with their texts.
use crate::words::text_of;
use cv_cache::{Cached, Compiler, HashKeys, Maps, Plain};
use cv_charmap::CompileFault;
use cv_trie::Charmap;
use std::alloc::{AllocError, Global};
use std::sync::{Arc, Wait};
use std::test::Fail;
use test_support::{charmap_text, sides, text_of_size};

/// The text of a charmap TOY with five mappings.
fn toy_text(alloc: Global) -> Result<String, AllocError> {
    charmap_text(alloc, "TOY", "<U0100>...<U0103> \\x80")
}

#[test]
fn a_text_is_compiled_to_what_it_means(rt: HostRuntime) -> Result<(), Fail> {
    let text = toy_text(rt.alloc())?;
    let charmap = Plain.compile(&rt, rt.alloc(), text.as_bytes())?;
    assert_eq!(rt; charmap.name(), b"TOY".as_slice());
    assert_eq!(rt; charmap.len(), 5);
    Ok(())
}

/// Texts, in which `|` means a line feed, and the first fault of each.
const FAULTS: &str = r#"
"CHARMAP|<U0041> \x41|<U0042> \x41|END CHARMAP|<" = line 3: Clash
"<mb_cur_max> 9|CHARMAP|" = line 1: Declaration
"" = line 0: NoMap
"#;

#[test]
fn the_first_fault_is_told(rt: HostRuntime) -> Result<(), Fail> {
    let cached = Cached::new(rt.alloc())?;
    for line in FAULTS.trim().lines() {
        let told = is_told(&rt, rt.alloc(), &cached, line)?;
        assert!(rt; told, "{line}");
    }
    assert_eq!(rt; cached.found(&rt), 0);
    Ok(())
}

/// Whether the fault of a line is reported without the cache, and twice with it.
fn is_told<R: Wait>(rt: &R, alloc: Global, cached: &Cached, line: &str) -> Result<bool, Fail> {
    let (text, fault) = sides(line, " = ")?;
    let text = text_of(alloc, text.trim_matches('"'))?;
    let plain = has_fault(alloc, Plain.compile(rt, alloc, &text), fault)?;
    let first = has_fault(alloc, cached.compile(rt, alloc, &text), fault)?;
    let again = has_fault(alloc, cached.compile(rt, alloc, &text), fault)?;
    Ok(plain && first && again)
}

/// Whether a text was refused for the fault that is displayed so.
fn has_fault(
    alloc: Global,
    compiled: Result<Arc<Charmap>, CompileFault>,
    wanted: &str,
) -> Result<bool, AllocError> {
    let Err(fault) = compiled else {
        return Ok(false);
    };
    let told = format!(in alloc; "{fault}")?;
    Ok(told.as_str() == wanted)
}

/// A line says how many other texts are compiled between two compilations of one text. Then it says how many texts were
/// found in the cache, and how many owners the second charmap has: itself, the cache, and the first if it is the same.
/// Last it says how many texts were found after a third compilation.
const OTHERS: &str = "
0 others: 1 found, 3 owners, then 2 found
1 others: 1 found, 3 owners, then 2 found
31 others: 1 found, 3 owners, then 2 found
32 others: 0 found, 2 owners, then 1 found
33 others: 0 found, 2 owners, then 1 found
";

#[test]
fn a_text_is_held_until_32_others_came(rt: HostRuntime) -> Result<(), Fail> {
    for line in OTHERS.trim().lines() {
        let (others, wanted) = sides(line, " others: ")?;
        let told = told_behind(&rt, rt.alloc(), others.parse::<u32>()?)?;
        assert_eq!(rt; told.as_str(), wanted, "{line}");
    }
    Ok(())
}

/// The result of a text that is compiled before and after `others` other texts, in the words of a line.
fn told_behind<R: Wait>(rt: &R, alloc: Global, others: u32) -> Result<String, Fail> {
    let cached = Cached::new(alloc)?;
    let first = toy(rt, alloc, &cached)?;
    compile_others(rt, alloc, &cached, others)?;
    let again = toy(rt, alloc, &cached)?;
    let found = cached.found(rt);
    let owners = Arc::strong_count(&again);
    if first.name() != again.name() {
        return Err("another name".into());
    }
    let _ = toy(rt, alloc, &cached)?;
    let then = cached.found(rt);
    Ok(format!(in alloc; "{found} found, {owners} owners, then {then} found")?)
}

/// Compiles the charmap TOY, which has five mappings.
fn toy<R: Wait>(rt: &R, alloc: Global, cached: &Cached) -> Result<Arc<Charmap>, Fail> {
    let text = toy_text(alloc)?;
    let charmap = cached.compile(rt, alloc, text.as_bytes())?;
    if charmap.name() != b"TOY".as_slice() || charmap.len() != 5 {
        return Err("another charmap".into());
    }
    Ok(charmap)
}

/// Compiles this many other texts.
fn compile_others<R: Wait>(
    rt: &R,
    alloc: Global,
    cached: &Cached,
    others: u32,
) -> Result<(), Fail> {
    for other in 0..others {
        compile_other(rt, alloc, cached, other)?;
    }
    Ok(())
}

fn compile_other<R: Wait>(rt: &R, alloc: Global, cached: &Cached, other: u32) -> Result<(), Fail> {
    let name = format!(in alloc; "OTHER{other}")?;
    let text = charmap_text(alloc, name.as_str(), "<U0100>...<U0103> \\x80")?;
    let charmap = cached.compile(rt, alloc, text.as_bytes())?;
    if charmap.name() != name.as_bytes() {
        return Err("another name".into());
    }
    Ok(())
}

#[test]
fn long_texts_are_not_held(rt: HostRuntime) -> Result<(), Fail> {
    let cached = Cached::new(rt.alloc())?;
    let found = found_of_size(&rt, rt.alloc(), &cached, 1_048_568)?;
    assert_eq!(rt; found, 0);
    let found = found_of_size(&rt, rt.alloc(), &cached, 1_048_567)?;
    assert_eq!(rt; found, 1);
    Ok(())
}

/// Compiles a text of this many bytes twice, and returns how many texts were found.
fn found_of_size<R: Wait>(
    rt: &R,
    alloc: Global,
    cached: &Cached,
    size: usize,
) -> Result<u64, Fail> {
    let text = text_of_size(alloc, size)?;
    for _ in 0..2 {
        if cached.compile(rt, alloc, &text)?.len() != 1 {
            return Err("another charmap".into());
        }
    }
    Ok(cached.found(rt))
}

/// Names of charmaps whose texts have the same sum of bytes.
const ONE_SUM: &str = "ABC ACB BAC BCA CAB CBA";

#[test]
fn texts_of_one_sum_are_told_apart(rt: HostRuntime) -> Result<(), Fail> {
    let cached = Cached::with_keys(rt.alloc(), HashKeys::drawn(&rt))?;
    for _ in 0..2 {
        for name in ONE_SUM.split(' ') {
            let text = charmap_text(rt.alloc(), name, "<U0100>...<U0103> \\x80")?;
            let charmap = cached.compile(&rt, rt.alloc(), text.as_bytes())?;
            assert_eq!(rt; charmap.name(), name.as_bytes());
        }
    }
    assert_eq!(rt; cached.found(&rt), 6);
    Ok(())
}

/// Mappings of 16,384 characters, each alone in its page of 64. No other mappings of as many characters take more
/// memory.
fn wide_mappings(alloc: Global) -> Result<String, AllocError> {
    let mut lines = String::new(alloc);
    for place in 0..16_384u32 {
        let character = 0x10000 + 64 * place;
        let (high, low) = (place / 256, place % 256);
        let line = format!(in alloc; "<U{character:08X}> \\x80\\x{high:02X}\\x{low:02X}\n")?;
        lines.push_str(line.as_str())?;
    }
    Ok(lines)
}

/// Compiles the text of a charmap with this number and the mappings. Returns how many bytes the cache holds after it.
fn bytes_behind<R: Wait>(
    rt: &R,
    alloc: Global,
    cached: &Cached,
    number: u32,
    mappings: &str,
) -> Result<usize, Fail> {
    let text = format!(in alloc;
        "<code_set_name> WIDE{number}\n<mb_cur_max> 3\nCHARMAP\n<question-mark> \\x3F\n{mappings}END CHARMAP\n"
    )?;
    if cached.compile(rt, alloc, text.as_bytes())?.len() != 16_385 {
        return Err("another charmap".into());
    }
    Ok(cached.bytes(rt))
}

/// Each of these charmaps takes about nine megabytes.
#[test]
fn texts_and_charmaps_have_64_mib_at_most(rt: HostRuntime) -> Result<(), Fail> {
    let cached = Cached::new(rt.alloc())?;
    let mappings = wide_mappings(rt.alloc())?;
    for number in 0..8 {
        let bytes = bytes_behind(&rt, rt.alloc(), &cached, number, mappings.as_str())?;
        assert!(rt; bytes <= 67_108_864, "{bytes}");
    }
    // The last is held, and the first was dropped.
    let bytes = bytes_behind(&rt, rt.alloc(), &cached, 7, mappings.as_str())?;
    assert!(rt; bytes > 50_331_648, "{bytes}");
    assert_eq!(rt; cached.found(&rt), 1);
    bytes_behind(&rt, rt.alloc(), &cached, 0, mappings.as_str())?;
    assert_eq!(rt; cached.found(&rt), 1);
    Ok(())
}

/// Room is reserved for as many pairs as a text of this size may have, and the rest is given back.
#[test]
fn a_long_comment_makes_no_charmap_larger(rt: HostRuntime) -> Result<(), Fail> {
    let short = text_of_size(rt.alloc(), 100)?;
    let long = text_of_size(rt.alloc(), 100_000)?;
    let small = Plain.compile(&rt, rt.alloc(), &short)?;
    let large = Plain.compile(&rt, rt.alloc(), &long)?;
    assert_eq!(rt; large.len(), 1);
    assert_eq!(rt; large.size(), small.size());
    Ok(())
}

/// The text of a charmap A with one mapping.
const SMALL: &[u8] = b"<code_set_name> A\nCHARMAP\n<question-mark> \\x6F\nEND CHARMAP\n";

#[test]
fn what_is_kept_is_found(rt: HostRuntime) -> Result<(), Fail> {
    let mut maps = Maps::new(rt.alloc())?;
    assert!(rt; maps.look(SMALL)?.is_none());
    let charmap = Plain.compile(&rt, rt.alloc(), SMALL)?;
    maps.keep(rt.alloc(), SMALL, charmap)?;
    let Some(held) = maps.look(SMALL)? else {
        return Err("nothing held".into());
    };
    assert_eq!(rt; held.name(), b"A".as_slice());
    assert_eq!(rt; maps.found(), 1);
    Ok(())
}

/// Whichever allocation fails, the result is out of memory, or the one with ample memory. The same is true the next
/// time.
#[test]
fn memory_lacks_or_it_is_compiled(rt: HostRuntime) -> Result<(), Fail> {
    let Ok(cached) = Cached::new(rt.alloc()) else {
        return Ok(());
    };
    for _ in 0..2 {
        match cached.compile(&rt, rt.alloc(), SMALL) {
            Ok(charmap) => assert_eq!(rt; charmap.len(), 1),
            Err(CompileFault::Memory) => {}
            Err(CompileFault::Map(_)) => return Err("a fault".into()),
        }
    }
    Ok(())
}
