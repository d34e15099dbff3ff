//! What the command line asks for.

use cv_tcp::{LogFormat, Page, WhenFull};
use log::LevelFilter;

/// What the program has to do.
#[derive(Clone, Copy, Debug, PartialEq, Eq)]
pub enum Job<'a> {
    /// `run`: a script from standard input, the reply lines to standard output.
    Run,
    /// `ask`: a script from standard input, its request frames to standard output.
    Ask,
    /// `pipe`: request frames from standard input, the reply frames to standard output.
    Pipe,
    /// `show`: reply frames from standard input, their lines to standard output.
    Show,
    /// `listen`: serve the clients that connect to an address.
    Listen(&'a str),
    /// `call`: send the script from standard input to the server at an address, the reply lines to standard output.
    Call(&'a str),
    /// `admin`: print a page of the server at an admin address.
    Admin(&'a str, Page),
    /// `checkmap`: check the charmap in a file.
    CheckMap(&'a str),
}

/// What the command line says.
#[derive(Clone, Copy, Debug, PartialEq, Eq)]
pub struct Options<'a> {
    pub job: Job<'a>,
    /// How many workers serve: 1 if the command has no such option.
    pub workers: u32,
    /// How many streams are served: 1 if the command has no such option, `u64::MAX` for no limit.
    pub streams: u64,
    /// How many of them are served at the same time: 1 if the command has no such option.
    pub at_once: u32,
    /// How many seconds a stream waits for its client, if there is a limit.
    pub idle: Option<u32>,
    /// How many seconds `call` or `admin` waits for the server, if `--timeout` was given or has a default.
    pub timeout: Option<u32>,
    /// The address of the admin pages, if there are any.
    pub admin: Option<&'a str>,
    /// How many seconds a drain waits for the streams at most: 30 if the command has no such option.
    pub drain: u32,
    /// What happens to a client when all places are taken: it waits if the command has no such option.
    pub when_full: WhenFull,
    /// How many bytes one stream may hold, if there is a limit.
    pub stream_memory: Option<u64>,
    /// How many callers one stream may have, if there is a limit.
    pub callers: Option<u32>,
    /// Which records a server logs: only errors if the command has no such option.
    pub level: LevelFilter,
    /// How they are written: as text if the command has no such option.
    pub format: LogFormat,
}
