//! Flags and commands as values, from which come the parser, the help and the faults of values.

use crate::size::size_of;
use clap::{Arg, Command, value_parser};
use cv_tcp::{is_address, is_admin_address};
use std::alloc::{AllocError, Global};
use std::fmt::{self, Display, Formatter};

/// What is wrong with a word that is not an address.
const NO_ADDRESS: &str = "no HOST:PORT and no unix:PATH";

/// What is wrong with a word that is not a size.
const NO_SIZE: &str = "no number of bytes from 1, alone or with K, M or G";

/// The values that a flag takes.
#[derive(Clone, Copy)]
pub(crate) enum Values {
    /// The whole numbers from the first to the second.
    Numbers(u32, u32),
    /// The whole numbers of 64 bits.
    Counts,
    /// These words.
    Words(&'static [&'static str]),
    /// Sizes in bytes (`size_of`).
    Sizes,
    /// Addresses at which `listen` can listen.
    Listeners,
    /// Addresses at which it can have the admin pages.
    AdminListeners,
    /// Addresses of servers. Only a connection shows whether a word is one.
    Servers,
    /// Names of files, or `-` for standard input.
    Files,
}

/// A flag with a value; or an argument, which is a value alone and required.
#[derive(Clone, Copy)]
pub(crate) struct Flag {
    /// Its word after `--`. `None`: it is an argument.
    pub(crate) name: Option<&'static str>,
    /// What help and usage call its value.
    pub(crate) value: &'static str,
    /// What the help says.
    pub(crate) help: &'static str,
    pub(crate) values: Values,
    /// The value that it has if it is not given.
    pub(crate) default: Option<&'static str>,
}

/// A command.
#[derive(Clone, Copy)]
pub(crate) struct Subcommand {
    pub(crate) name: &'static str,
    /// The first line of its help.
    pub(crate) about: &'static str,
    /// The last lines of its help.
    pub(crate) after_help: &'static str,
    pub(crate) flags: &'static [Flag],
}

/// Shows a flag as the usage does.
impl Display for Flag {
    fn fmt<W: fmt::Write>(&self, f: &mut Formatter<W>) -> fmt::Result {
        match self.name {
            Some(name) => write!(f, "--{name} <{}>", self.value),
            None => write!(f, "<{}>", self.value),
        }
    }
}

impl Flag {
    /// The name by which the parser's matches have it.
    pub(crate) fn id(self) -> &'static str {
        self.name.unwrap_or(self.value)
    }

    /// The number that it has if it is not given; 0 if it has none.
    pub(crate) fn default_number(self) -> u32 {
        match self.default {
            Some(word) => word.parse::<u32>().unwrap_or(0),
            None => 0,
        }
    }

    /// What is wrong with a word that the parser takes as its value, if anything is.
    pub(crate) fn fault_of(self, word: &str) -> Option<&'static str> {
        match self.values {
            Values::Listeners if !is_address(word) => Some(NO_ADDRESS),
            Values::AdminListeners if !is_admin_address(word) => Some(NO_ADDRESS),
            Values::Sizes if size_of(word).is_none() => Some(NO_SIZE),
            _ => None,
        }
    }

    /// The flag for the parser.
    fn arg<'a>(self, alloc: Global) -> Arg<'a> {
        let arg = Arg::new(alloc, self.id()).help(self.help);
        let arg = match self.name {
            Some(name) => arg.long(name).value_name(self.value),
            None => arg.required(true),
        };
        let arg = match self.default {
            Some(word) => arg.default_value(word),
            None => arg,
        };
        match self.values {
            Values::Numbers(least, most) => {
                let range = i64::from(least)..=i64::from(most);
                arg.value_parser(value_parser!(u32).range(range))
            }
            Values::Counts => arg.value_parser(value_parser!(u64)),
            Values::Words(words) => arg.value_parser(words),
            _ => arg,
        }
    }
}

impl Subcommand {
    /// The command for the parser.
    pub(crate) fn command<'a>(self, alloc: Global) -> Result<Command<'a>, AllocError> {
        let mut command = Command::new(alloc, self.name)
            .about(self.about)
            .after_help(self.after_help);
        for flag in self.flags {
            command = command.arg(flag.arg(alloc))?;
        }
        Ok(command)
    }
}
