//! The values that the parser found for the command's flags.

use crate::flag::Flag;
use clap::ArgMatches;

/// The number that a flag of the command has, if it was given or has a default.
pub(crate) fn number_of<'a>(matches: &ArgMatches<'a>, flag: Flag) -> Option<u32> {
    match matches.subcommand() {
        Some((_, said)) => said.get_one::<u32>(flag.id()),
        None => None,
    }
}

/// The number that a flag of the command has; its default if the command does not have the flag.
pub(crate) fn number_or_default<'a>(matches: &ArgMatches<'a>, flag: Flag) -> u32 {
    number_of(matches, flag).unwrap_or(flag.default_number())
}

/// The word that a flag of the command has, if it was given or has a default.
pub(crate) fn word_of<'a>(matches: &ArgMatches<'a>, flag: Flag) -> Option<&'a str> {
    match matches.subcommand() {
        Some((_, said)) => said.get_str(flag.id()),
        None => None,
    }
}
