//! Every scalar value through every encoding and back, and every short input of UTF-8: what no table of examples
//! covers.
#![tactic(auto)]

mod alone;
mod pending;
mod short;
mod spelling;
mod text;

use cv_pivot::builtin;
use std::io;
use std::process::ExitCode;

/// The built-in encodings.
const ENCODINGS: [&str; 10] = [
    "US-ASCII",
    "ISO-8859-1",
    "UTF-8",
    "UTF-16",
    "UTF-16BE",
    "UTF-16LE",
    "UTF-32",
    "UTF-32BE",
    "UTF-32LE",
    "UTF-7",
];

fn encodings<R: Print + AllocGlobal>(rt: &R) -> io::Result<()> {
    let source = text::every_scalar(rt.alloc())?;
    for name in ENCODINGS {
        let Some(encoding) = builtin(name.as_bytes()) else {
            println!(rt; "{name}: no such encoding")?;
            continue;
        };
        let alone = alone::read_back(rt.alloc(), &encoding)?;
        let joined = text::read_back(rt.alloc(), encoding, &source)?;
        println!(rt; "{name}: {alone} read back alone, {joined} in one text")?;
    }
    Ok(())
}

fn fronts<R: Print + AllocGlobal>(rt: &R) -> io::Result<()> {
    let Some(encoding) = builtin(b"UTF-7") else {
        return println!(rt; "UTF-7: no such encoding");
    };
    let count = pending::read_back(rt.alloc(), &encoding)?;
    println!(rt; "UTF-7: {count} read back behind 21 fronts")
}

fn main(rt: HostRuntime) -> io::Result<ExitCode> {
    encodings(&rt)?;
    fronts(&rt)?;
    let short = short::as_the_table_says();
    println!(rt; "UTF-8: {short} inputs of one or two bytes are as the table says")?;
    Ok(ExitCode::SUCCESS)
}
