//! The whole command line for the parser.

use crate::flag::Flag;
use crate::flags::SUBCOMMANDS;
use crate::help::SCRIPTS;
use crate::version::VERSION;
use clap::Command;
use std::alloc::{AllocError, Global};

/// The program with all commands.
pub(crate) fn program<'a>(alloc: Global) -> Result<Command<'a>, AllocError> {
    let mut program = Command::new(alloc, "iconvd")
        .version(VERSION)
        .propagate_version(true)
        .about("A character set conversion service for many callers")
        .after_help(SCRIPTS)
        .subcommand_required(true);
    for subcommand in SUBCOMMANDS {
        program = program.subcommand(subcommand.command(alloc)?)?;
    }
    Ok(program)
}

/// The flags of a command.
pub(crate) fn flags_of(name: &str) -> &'static [Flag] {
    match SUBCOMMANDS.iter().find(|it| it.name == name) {
        Some(subcommand) => subcommand.flags,
        None => &[],
    }
}
