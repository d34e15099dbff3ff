//! Charmaps of every form, compared with their lists of pairs: what each byte string is read as, and what each scalar
//! value is written as.
#![tactic(auto)]

mod forms;
mod reading;
mod writing;

use cv_charmap::{CompileFault, Pairs, read};
use cv_trie::Charmap;
use forms::{FORMS, Form};
use std::io;
use std::process::ExitCode;

fn compare<R: Print + AllocGlobal>(rt: &R, name: &str, form: Form, pairs: Pairs) -> io::Result<()> {
    let map = Charmap::build(rt.alloc(), pairs).map_err(|_| io::ErrorKind::OutOfMemory)?;
    let alone = reading::read_alone(&map, form);
    let joined = reading::read_joined(rt.alloc(), &map, form)?;
    let around = reading::read_around(rt.alloc(), &map, form)?;
    let firsts = writing::firsts(rt.alloc(), form)?;
    let written = writing::written_alone(&map, form, &firsts);
    let blocks = writing::written_in_blocks(&map, form, &firsts, 64);
    let long = writing::written_in_blocks(&map, form, &firsts, 256);
    println!(rt;
        "{name}: {} pairs, {alone} read alone, {joined} in blocks, {around} texts",
        map.len()
    )?;
    println!(rt;
        "{name}: {written} scalar values written alone, {blocks} blocks of 64, {long} of 256"
    )
}

fn compare_each<R: Print + AllocGlobal>(rt: &R) -> io::Result<()> {
    for (name, form) in FORMS {
        let text = form.text(rt.alloc())?;
        match read(rt.alloc(), text.as_bytes()) {
            Ok(pairs) => compare(rt, name, form, pairs)?,
            Err(CompileFault::Map(fault)) => println!(rt; "{name}: {fault}")?,
            Err(CompileFault::Memory) => return Err(io::ErrorKind::OutOfMemory.into()),
        }
    }
    Ok(())
}

fn main(rt: HostRuntime) -> io::Result<ExitCode> {
    compare_each(&rt)?;
    Ok(ExitCode::SUCCESS)
}
