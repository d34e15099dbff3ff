//! One caller's table, with ample memory. A line is `CALL = ANSWER`: a method with its arguments, and its result as
//! `{:?}` prints it. `add_map NAME MAPPINGS` adds a charmap with this name and these mappings. `encoding NAME` is how
//! many mappings the charmap has. `bind KEY TO FROM` binds the least free number to a key and to the encodings with
//! these names. `add_part TIMES TEXT` adds a text TIMES times.
ghost use Rattle.cv_caller.specs.Keyed.{IsHeld};

use cv_cache::{Compiler, Plain};
use cv_caller::{Found, Place, Table};
use cv_pivot::Encoding;
use cv_trie::Charmap;
use std::alloc::{AllocError, Global};
use std::fmt::Debug;
use std::mem::size_of;
use std::process::Abort;
use std::sync::Arc;
use std::test::Fail;
use test_support::{first_word, sides};

/// Makes the call of each line, and compares the answers.
fn call<R: Abort + AllocGlobal>(rt: &R, table: &mut Table, calls: &str) -> Result<(), Fail> {
    for line in calls.trim().lines() {
        let (call, wanted) = sides(line, " = ")?;
        let answer = answer(rt.alloc(), table, call)?;
        assert_eq!(rt; answer.as_str(), wanted, "{line}");
    }
    Ok(())
}

/// The answer to a call.
fn answer(alloc: Global, table: &mut Table, call: &str) -> Result<String, Fail> {
    let (method, rest) = first_word(call);
    match method {
        "add_map" => add_map(alloc, table, rest),
        "encoding" => printed(alloc, mappings(table, rest)),
        "find" => Ok(told_found(alloc, table, rest)?),
        "drop_map" => printed(alloc, table.drop_map(rest.as_bytes()).map(|_| ())),
        "add_part" => add_part(alloc, table, rest),
        "bind" => bind_line(alloc, table, rest),
        "unbind" => printed(alloc, table.unbind(rest.parse::<u32>()?)),
        "place" => printed(alloc, table.place(rest.parse::<u32>()?)),
        "least_free" => printed(alloc, table.least_free()),
        "is_empty" => printed(alloc, table.is_empty()),
        _ => Err("no such call".into()),
    }
}

/// An answer as Rust prints it.
fn printed<T: Debug + Drop>(alloc: Global, answer: T) -> Result<String, Fail> {
    Ok(format!(in alloc; "{answer:?}")?)
}

fn add_map(alloc: Global, table: &mut Table, rest: &str) -> Result<String, Fail> {
    let (name, mappings) = first_word(rest);
    let charmap = charmap(alloc, name, mappings)?;
    let added = table.add_map(alloc, charmap, u64::MAX);
    printed(alloc, added.map(|_| ()))
}

/// A charmap with this name, `?` and the mappings of this line.
fn charmap(alloc: Global, name: &str, mappings: &str) -> Result<Arc<Charmap>, Fail> {
    let text = format!(in alloc;
        "<code_set_name> {name}\n<mb_cur_max> 3\nCHARMAP\n<question-mark> \\x40\n{mappings}\nEND CHARMAP\n"
    )?;
    Ok(Plain.compile(&(), alloc, text.as_bytes())?)
}

/// How many mappings the charmap of a name has.
fn mappings(table: &Table, name: &str) -> Option<usize> {
    let Some(Found::Map(map)) = table.find(name.as_bytes()) else {
        return None;
    };
    match table.encoding(map) {
        Ok(Encoding::Charmap(charmap)) => Some(charmap.len()),
        _ => None,
    }
}

/// What a name is bound to, in the words of a line.
fn told_found(alloc: Global, table: &Table, name: &str) -> Result<String, AllocError> {
    match table.find(name.as_bytes()) {
        Some(Found::Map(map)) => format!(in alloc; "Map({map})"),
        Some(Found::Builtin(_)) => String::from_str(alloc, "Builtin"),
        None => String::from_str(alloc, "None"),
    }
}

fn add_part(alloc: Global, table: &mut Table, rest: &str) -> Result<String, Fail> {
    let (times, text) = sides(rest, " ")?;
    let times = times.parse::<u32>()?;
    let mut part = Vec::new(alloc);
    for _ in 0..times {
        part.extend_from_slice(text.as_bytes())?;
    }
    printed(alloc, table.add_part(alloc, &part, u64::MAX))
}

fn bind_line(alloc: Global, table: &mut Table, rest: &str) -> Result<String, Fail> {
    let (key, names) = sides(rest, " ")?;
    let (to, from) = sides(names, " ")?;
    let key = key.parse::<u32>()?;
    printed(alloc, bind(table, key, to, from))
}

/// Binds the least free number to a key and to encodings. Returns the number if it is bound to them then.
fn bind(table: &mut Table, key: u32, to: &str, from: &str) -> Option<u32> {
    let to = map(table, to);
    let from = map(table, from);
    let number = table.least_free()?;
    let place = Place { key, to, from };
    table.bind(number, place);
    if table.place(number) == Some(place) {
        Some(number)
    } else {
        None
    }
}

/// The slot of the charmap with this name, or `None` if the name is a built-in encoding's or unknown.
fn map(table: &Table, name: &str) -> Option<u8>
    ensures { IsHeld table.now.charmaps result }
{
    match table.find(name.as_bytes()) {
        Some(Found::Map(map)) => Some(map),
        _ => None,
    }
}

#[test]
fn a_table_is_small() {
    const _: () = prove!(size_of::<Table>() <= 208);
}

/// The calls after all numbers are bound, each to the key that is equal to it.
const NUMBERS: &str = "
least_free = None
place 16 = None
unbind 16 = None
unbind 7 = Some(Place { key: 7, to: None, from: None })
unbind 7 = None
least_free = Some(7)
is_empty = false
";

#[test]
fn numbers_are_the_least_free(rt: HostRuntime) -> Result<(), Fail> {
    let mut table = Table::new();
    for key in 0..16 {
        let number = bind(&mut table, key, "UTF-8", "UTF-8");
        assert_eq!(rt; number, Some(key));
    }
    call(&rt, &mut table, NUMBERS)?;
    for number in 0..16 {
        let _ = table.unbind(number);
    }
    assert!(rt; table.is_empty());
    Ok(())
}

const NAMES: &str = "
add_map UTF-8 = Err(Exists)
add_map utf-7 = Err(Exists)
add_map A = Ok(())
add_map a = Err(Exists)
add_map B = Ok(())
add_map C = Ok(())
add_map D = Ok(())
add_map E = Ok(())
add_map F = Ok(())
add_map G = Ok(())
add_map H = Ok(())
add_map I = Err(Quota)
add_map h = Err(Exists)
find c = Map(2)
drop_map c = Ok(())
drop_map C = Err(NoName)
drop_map UTF-8 = Err(NoName)
add_map I = Ok(())
find I = Map(2)
find us-ascii = Builtin
find UTF8 = None
";

#[test]
fn names_are_taken_once(rt: HostRuntime) -> Result<(), Fail> {
    let mut table = Table::new();
    call(&rt, &mut table, NAMES)
}

const IN_USE: &str = r"
add_map A <U0100> \x41 = Ok(())
encoding A = Some(2)
bind 3 a UTF-8 = Some(0)
drop_map A = Err(Busy)
unbind 0 = Some(Place { key: 3, to: Some(0), from: None })
bind 3 UTF-8 a = Some(0)
drop_map A = Err(Busy)
unbind 0 = Some(Place { key: 3, to: None, from: Some(0) })
bind 3 a a = Some(0)
drop_map A = Err(Busy)
unbind 0 = Some(Place { key: 3, to: Some(0), from: Some(0) })
drop_map A = Ok(())
is_empty = true
";

#[test]
fn a_charmap_in_use_stays(rt: HostRuntime) -> Result<(), Fail> {
    let mut table = Table::new();
    call(&rt, &mut table, IN_USE)
}

const MANY_MAPPINGS: &str = r"
add_map A <U10000>..<U4FFFE> \x00\x00\x00 = Ok(())
add_map B = Err(Quota)
drop_map A = Ok(())
add_map B = Ok(())
add_map A <U10000>..<U4FFFE> \x00\x00\x00 = Err(Quota)
";

#[test]
fn mappings_are_counted_in_all(rt: HostRuntime) -> Result<(), Fail> {
    let mut table = Table::new();
    call(&rt, &mut table, MANY_MAPPINGS)
}

const FULL_PART: &str = "
add_part 0 a = Ok(0)
is_empty = true
add_part 1048567 a = Ok(1048567)
add_part 1048567 a = Ok(2097134)
add_part 1048567 a = Ok(3145701)
add_part 1048567 a = Ok(4194268)
add_part 1048567 a = Ok(5242835)
add_part 1048567 a = Ok(6291402)
add_part 1048567 a = Ok(7339969)
add_part 72 a = Ok(7340041)
add_part 1 b = Err(Quota)
";

const NEXT_PART: &str = "
add_part 0 a = Ok(0)
is_empty = true
add_part 1 ab = Ok(2)
add_part 1 c = Ok(3)
";

#[test]
fn parts_are_put_together(rt: HostRuntime) -> Result<(), Fail> {
    let mut table = Table::new();
    call(&rt, &mut table, FULL_PART)?;
    assert_eq!(rt; table.part().len(), 7_340_041);
    call(&rt, &mut table, NEXT_PART)?;
    assert!(rt; table.part() == b"abc".as_slice());
    table.clear_part();
    assert!(rt; table.part().is_empty());
    Ok(())
}
