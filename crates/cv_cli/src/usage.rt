//! What the words of the command line mean, and their faults.
ghost use Rattle.std.specs.Prelude.{◌≡◌, ◌≢◌, ◌≤◌, IfOk};
ghost use Rattle.clap.specs.Values.{kind_of};

use crate::flag::Flag;
use crate::flags::{
    ADMIN, CALLERS, DRAIN, FILE, IDLE, LISTENER, LOG, LOG_FORMAT, MOST_WORKERS, PAGE, SERVER,
    STREAM_MEMORY, STREAMS, STREAMS_AT_ONCE, TIMEOUT, WHEN_FULL, WORKERS,
};
use crate::job::{Job, Options};
use crate::matched::{number_of, number_or_default, word_of};
use crate::size::size_of;
use crate::syntax::{flags_of, program};
use clap::error::ErrorKind;
use clap::{ArgMatches, Error};
use cv_commands::Budget;
use cv_tcp::{LogFormat, MOST_AT_ONCE, Page, WhenFull};
use log::LevelFilter;
use std::alloc::{AllocError, Global};

/// The job that the command and its arguments give.
fn job_of<'a>(matches: &ArgMatches<'a>) -> Job<'a> {
    match matches.subcommand_name() {
        Some("ask") => Job::Ask,
        Some("pipe") => Job::Pipe,
        Some("show") => Job::Show,
        Some("listen") => word_of(matches, LISTENER).map_or(Job::Run, Job::Listen),
        Some("call") => word_of(matches, SERVER).map_or(Job::Run, Job::Call),
        Some("admin") => match word_of(matches, SERVER) {
            Some(address) => Job::Admin(address, page_of(word_of(matches, PAGE))),
            None => Job::Run,
        },
        Some("checkmap") => word_of(matches, FILE).map_or(Job::Run, Job::CheckMap),
        _ => Job::Run,
    }
}

/// The page that a word names. The parser accepts only these four words.
fn page_of(word: Option<&str>) -> Page {
    match word {
        Some("metrics") => Page::Metrics,
        Some("streams") => Page::Streams,
        Some("drain") => Page::Drain,
        _ => Page::Health,
    }
}

/// How many workers the command has: 1 if it has no such option. The parser accepts only 1 to 16, but no contract says
/// so of a subcommand's options.
fn workers_of<'a>(matches: &ArgMatches<'a>) -> u32
    ensures { (1 ≤ result) × (result ≤ 16) }
{
    number_or_default(matches, WORKERS).clamp(1, MOST_WORKERS)
}

/// How many streams are served at the same time: 1 if the command has no such option. As for the workers, no contract
/// says what the parser accepts.
fn at_once_of<'a>(matches: &ArgMatches<'a>) -> u32
    ensures { (1 ≤ result) × (result ≤ 1000) }
{
    number_or_default(matches, STREAMS_AT_ONCE).clamp(1, MOST_AT_ONCE)
}

/// How many streams are served. Without `--streams`: 1, or no limit (`u64::MAX`) if several are served at once.
fn streams_of<'a>(matches: &ArgMatches<'a>, at_once: u32) -> u64 {
    let default = if at_once > 1 { u64::MAX } else { 1 };
    match matches.subcommand() {
        Some((_, said)) => said.get_one::<u64>(STREAMS.id()).unwrap_or(default),
        None => default,
    }
}

/// Which records are logged: only errors if the command has no such option.
fn level_of<'a>(matches: &ArgMatches<'a>) -> LevelFilter {
    match word_of(matches, LOG) {
        Some("info") => LevelFilter::Info,
        Some("debug") => LevelFilter::Debug,
        _ => LevelFilter::Error,
    }
}

/// How records are written: as text if the command has no such option.
fn format_of<'a>(matches: &ArgMatches<'a>) -> LogFormat {
    match word_of(matches, LOG_FORMAT) {
        Some("json") => LogFormat::Json,
        _ => LogFormat::Text,
    }
}

/// What happens to a client when all places are taken.
fn when_full_of<'a>(matches: &ArgMatches<'a>) -> WhenFull {
    match word_of(matches, WHEN_FULL) {
        Some("close") => WhenFull::Close,
        _ => WhenFull::Wait,
    }
}

/// The first value of the command that its flag does not take, and what is wrong with it.
fn wrong_value<'a>(matches: &ArgMatches<'a>) -> Option<(Flag, &'a str, &'static str)> {
    let (name, said) = matches.subcommand()?;
    for flag in flags_of(name) {
        if let Some(word) = said.get_str(flag.id()) {
            if let Some(fault) = flag.fault_of(word) {
                return Some((*flag, word, fault));
            }
        }
    }
    None
}

/// Parses the words of the command line; the first is the program's name. An error is a wrong command line, a request
/// for help or the version, or a failed allocation.
pub fn options<'a>(alloc: Global, words: &'a [&'a str]) -> Result<Options<'a>, Error>
    ensures workers { IfOk result (λ said. (1 ≤ said.workers) × (said.workers ≤ 16)) }
    ensures at_once { IfOk result (λ said. (1 ≤ said.at_once) × (said.at_once ≤ 1000)) }
{
    let matches = program(alloc)?.try_get_matches_from(words)?;
    if let Some((flag, word, fault)) = wrong_value(&matches) {
        return Err(no_value(alloc, flag, word, fault)?);
    }
    let workers = workers_of(&matches);
    let stream_memory = word_of(&matches, STREAM_MEMORY).and_then(size_of);
    let callers = number_of(&matches, CALLERS);
    if !Budget::of(stream_memory, callers).is_enough_for(workers) {
        return Err(no_share(alloc, workers)?);
    }
    let at_once = at_once_of(&matches);
    Ok(Options {
        job: job_of(&matches),
        workers,
        streams: streams_of(&matches, at_once),
        at_once,
        idle: number_of(&matches, IDLE),
        timeout: number_of(&matches, TIMEOUT),
        admin: word_of(&matches, ADMIN),
        drain: number_or_default(&matches, DRAIN),
        when_full: when_full_of(&matches),
        stream_memory,
        callers,
        level: level_of(&matches),
        format: format_of(&matches),
    })
}

/// The fault of a command line in which this word is the value of a flag.
fn no_value(alloc: Global, flag: Flag, word: &str, fault: &str) -> Result<Error, AllocError>
    ensures { IfOk result (λ fault. kind_of fault ≡ ErrorKind.InvalidValue) }
{
    let text = format!(in alloc; "invalid value '{word}' for '{flag}': {fault}")?;
    program(alloc)?.error(ErrorKind::InvalidValue, text.as_str())
}

/// The fault of a command line whose limits are too small to give each of the workers a share.
fn no_share(alloc: Global, workers: u32) -> Result<Error, AllocError>
    ensures { IfOk result (λ fault. kind_of fault ≡ ErrorKind.InvalidValue) }
{
    let text = format!(in alloc;
        "too little for '--{} {workers}': each worker needs 672 bytes of '--{}' and one of '--{}'",
        WORKERS.id(),
        STREAM_MEMORY.id(),
        CALLERS.id()
    )?;
    program(alloc)?.error(ErrorKind::InvalidValue, text.as_str())
}

/// Returns the fault of a command line with this word, which is not UTF-8.
pub fn not_utf8(alloc: Global, word: &[u8]) -> Result<Error, AllocError>
    ensures { IfOk result (λ fault. kind_of fault ≡ ErrorKind.InvalidValue) }
{
    let text = format!(in alloc; "argument '{}' is not UTF-8", word.escape_ascii())?;
    program(alloc)?.error(ErrorKind::InvalidValue, &text)
}

/// Returns the exit status of a fault of the command line: 1 if an allocation failed, else 2.
pub fn usage_status(fault: &Error) -> u8
    ensures memory { kind_of fault.now ≡ ErrorKind.OutOfMemory → result ≡ 1 }
    ensures usage { kind_of fault.now ≢ ErrorKind.OutOfMemory → result ≡ 2 }
{
    match fault.kind() {
        ErrorKind::OutOfMemory => 1,
        _ => 2,
    }
}
