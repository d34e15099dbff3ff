//! All flags and commands. `tools/options` makes the table of the shells' completions and the options of the manual
//! from this page: the text above a flag is what the manual says of it, with `bold` and *italic* words.

use crate::flag::{Flag, Subcommand, Values};
use crate::help::{ADMINISTERING, CALLING, CHARMAPS, FRAMES, LISTENING, SCRIPTS};
use cv_tcp::MOST_AT_ONCE;

/// How many workers there may be.
pub(crate) const MOST_WORKERS: u32 = 16;

/// The longest time, in seconds: a week.
const MOST_SECONDS: u32 = 604_800;

/// Where `listen` listens.
pub(crate) const LISTENER: Flag = Flag {
    name: None,
    value: "ADDR",
    help: "HOST:PORT, or unix:PATH",
    values: Values::Listeners,
    default: None,
};

/// Which server `call` and `admin` ask.
pub(crate) const SERVER: Flag = Flag {
    name: None,
    value: "ADDR",
    help: "HOST:PORT, or unix:PATH",
    values: Values::Servers,
    default: None,
};

/// Which page `admin` asks for.
pub(crate) const PAGE: Flag = Flag {
    name: None,
    value: "PAGE",
    help: "what to print, or drain to end the server",
    values: Values::Words(&["health", "metrics", "streams", "drain"]),
    default: None,
};

/// Which file `checkmap` reads.
pub(crate) const FILE: Flag = Flag {
    name: None,
    value: "FILE",
    help: "the charmap file, or - for standard input",
    values: Values::Files,
    default: None,
};

/// Serve up to *K* streams at the same time, 1 to 1000; 1 by default. Further clients wait until a stream ends, unless
/// `--when-full` says otherwise. Each stream has a thread. If the system gives fewer threads, `listen` says so in one
/// line, and goes on with those that it has.
pub(crate) const STREAMS_AT_ONCE: Flag = Flag {
    name: Some("at-once"),
    value: "K",
    help: "serve up to K streams at the same time, 1 to 1000; further clients wait",
    values: Values::Numbers(1, MOST_AT_ONCE),
    default: Some("1"),
};

/// End after *N* streams, 0 to 18446744073709551615. The default is 1, or no limit if `--at-once` is above 1.
pub(crate) const STREAMS: Flag = Flag {
    name: Some("streams"),
    value: "N",
    help: "exit after N streams [default: 1; no limit if --at-once is above 1]",
    values: Values::Counts,
    default: None,
};

/// End a stream if no byte came from its client, or none could be written to it, for *S* seconds, 1 to 604800. By
/// default there is no limit. A client that sends one byte before the time is up is not idle.
pub(crate) const IDLE: Flag = Flag {
    name: Some("idle"),
    value: "S",
    help: "end a stream if its client sends nothing, or takes no reply, for S seconds",
    values: Values::Numbers(1, MOST_SECONDS),
    default: None,
};

/// Answer HTTP/1.1 at *ADDR*, *HOST:PORT* or `unix:`*PATH*: `GET /health`, `GET /metrics`, `GET /streams` and
/// `POST /drain`. `listen` prints `admin` *ADDR* on the line after `listening`. A connection has one request and 2
/// seconds. Four connections are answered at the same time, and take no place of a stream. Any client that can connect
/// can end the server, so use 127.0.0.1 or a Unix socket. By default there are no pages.
pub(crate) const ADMIN: Flag = Flag {
    name: Some("admin"),
    value: "ADDR",
    help: "answer health, metrics, streams and drain by HTTP at ADDR",
    values: Values::AdminListeners,
    default: None,
};

/// Let a drain wait for streams at most *S* seconds, 1 to 604800; 30 by default. A drain begins when it is requested at
/// the `--admin` address. It ends each stream once all that its client has sent is answered and the client is silent
/// for a second. Then `listen` ends with status 0.
pub(crate) const DRAIN: Flag = Flag {
    name: Some("drain"),
    value: "S",
    help: "after a drain has begun, wait for streams at most S seconds",
    values: Values::Numbers(1, MOST_SECONDS),
    default: Some("30"),
};

/// What to do with a client that connects while all `--at-once` places are taken: let it wait until one is free
/// (`wait`, the default), or close its stream at once (`close`). A stream closed so does not count for `--streams`.
pub(crate) const WHEN_FULL: Flag = Flag {
    name: Some("when-full"),
    value: "ACTION",
    help: "what a client gets while K streams are served: it waits, or is closed",
    values: Values::Words(&["wait", "close"]),
    default: Some("wait"),
};

/// Refuse with ENOMEM a request that would take what the callers of its stream hold above *SIZE* bytes. *SIZE* is a
/// number, or one with K, M or G for KiB, MiB or GiB. By default there is no limit.
pub(crate) const STREAM_MEMORY: Flag = Flag {
    name: Some("stream-memory"),
    value: "SIZE",
    help: "refuse with ENOMEM what takes a stream above SIZE bytes; K, M and G are units [default: no limit]",
    values: Values::Sizes,
    default: None,
};

/// Refuse with ENOMEM a request that would give its stream more than *N* callers, 1 to 4294967295. By default there is
/// no limit.
pub(crate) const CALLERS: Flag = Flag {
    name: Some("callers"),
    value: "N",
    help: "refuse with ENOMEM a stream's callers above N [default: no limit]",
    values: Values::Numbers(1, u32::MAX),
    default: None,
};

/// Wait at most *S* seconds, 1 to 604800, for the connection, for each read and for each write. By default there is no
/// limit. If the server is silent for that long, the error is `no reply`, with status 1; if the connection is not made,
/// it is `cannot connect`.
pub(crate) const TIMEOUT: Flag = Flag {
    name: Some("timeout"),
    value: "S",
    help: "give up if the server is silent for S seconds",
    values: Values::Numbers(1, MOST_SECONDS),
    default: None,
};

/// Wait at most *S* seconds for the whole reply; 5 by default.
pub(crate) const ADMIN_TIMEOUT: Flag = Flag {
    name: Some("timeout"),
    value: "S",
    help: "give up if the whole reply has not come within S seconds",
    values: Values::Numbers(1, MOST_SECONDS),
    default: Some("5"),
};

/// What to log on standard error. `error` (the default): faults alone. `info`: also that it listens, the end of each
/// stream, with its peer, requests, bytes and seconds, the first request of a stream that is refused with ENOMEM, and,
/// if `--at-once` is above 1 or `--when-full` is `close`, that all places are taken and that one is free again.
/// `debug`: also the start of each stream, and each client whose stream is closed at once. No line has a text of a
/// caller.
pub(crate) const LOG: Flag = Flag {
    name: Some("log"),
    value: "LEVEL",
    help: "what to log on standard error: faults, also the end of each stream, or also its begin",
    values: Values::Words(&["error", "info", "debug"]),
    default: Some("error"),
};

/// `text` (the default) or `json`: one object a line, with the members time (RFC 3339, UTC), level and message; for a
/// stream also peer, requests, read, written and seconds; for a number of faults or dropped lines also count; for a
/// drain also streams, cut and seconds.
pub(crate) const LOG_FORMAT: Flag = Flag {
    name: Some("log-format"),
    value: "FORMAT",
    help: "log lines of text, or one JSON object a line",
    values: Values::Words(&["text", "json"]),
    default: Some("text"),
};

/// Run up to *W* uploads at once, 1 to 16; 1 by default. Conversions gain nothing by it. The replies, and their order,
/// do not depend on *W*.
pub(crate) const WORKERS: Flag = Flag {
    name: Some("workers"),
    value: "W",
    help: "how many charmap uploads run at once, 1 to 16; replies are the same",
    values: Values::Numbers(1, MOST_WORKERS),
    default: Some("1"),
};

/// All commands, with the flags of each in the order of its help.
pub(crate) const SUBCOMMANDS: &[Subcommand] = &[
    Subcommand {
        name: "run",
        about: "Runs the script on standard input and prints the reply lines",
        after_help: SCRIPTS,
        flags: &[WORKERS],
    },
    Subcommand {
        name: "ask",
        about: "Writes the script on standard input as request frames",
        after_help: SCRIPTS,
        flags: &[],
    },
    Subcommand {
        name: "pipe",
        about: "Serves the request frames on standard input and writes the reply frames",
        after_help: FRAMES,
        flags: &[WORKERS, STREAM_MEMORY, CALLERS],
    },
    Subcommand {
        name: "show",
        about: "Prints the reply frames on standard input as reply lines",
        after_help: FRAMES,
        flags: &[],
    },
    Subcommand {
        name: "listen",
        about: "Serves the clients that connect to an address, each with a server of its own",
        after_help: LISTENING,
        flags: &[
            LISTENER,
            STREAMS_AT_ONCE,
            STREAMS,
            IDLE,
            WORKERS,
            LOG,
            LOG_FORMAT,
            ADMIN,
            DRAIN,
            WHEN_FULL,
            STREAM_MEMORY,
            CALLERS,
        ],
    },
    Subcommand {
        name: "call",
        about: "Sends the script on standard input to a server and prints the reply lines",
        after_help: CALLING,
        flags: &[SERVER, TIMEOUT],
    },
    Subcommand {
        name: "admin",
        about: "Asks a server for its health, metrics or streams, or tells it to end",
        after_help: ADMINISTERING,
        flags: &[SERVER, PAGE, ADMIN_TIMEOUT],
    },
    Subcommand {
        name: "checkmap",
        about: "Checks a charmap file and prints its name and size, or its first error",
        after_help: CHARMAPS,
        flags: &[FILE],
    },
];
