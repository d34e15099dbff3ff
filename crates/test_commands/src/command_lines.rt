//! Command lines, and what the program reads from them.
use crate::tables::{Call, check_lines};
use cv_cli::{VERSION, options, usage_status};
use std::alloc::{AllocError, Global};
use std::test::Fail;
use test_support::sides;

/// The words of a command line. The first is the program's name.
fn words_of(alloc: Global, line: &str) -> Result<Vec<&str>, AllocError> {
    line.split_whitespace().collect(alloc)
}

/// Returns whether a command line is read as this: the job, the number of workers, and the number of streams.
pub fn says(alloc: Global, line: &str, wanted: &str) -> Result<bool, Fail> {
    let words = words_of(alloc, line)?;
    let said = options(alloc, &words).map_err(|_| "refused")?;
    let told = format!(in alloc; "{:?} {} {}", said.job, said.workers, said.streams)?;
    Ok(told.as_str() == wanted)
}

/// The text for a command line without a job. It has a usage error, or asks for help or the version.
fn answer(alloc: Global, line: &str) -> Result<String, Fail> {
    let words = words_of(alloc, line)?;
    let fault = options(alloc, &words).err().ok_or("taken")?;
    if usage_status(&fault) == 2 {
        Ok(format!(in alloc; "{fault}")?)
    } else {
        Err("not of usage".into())
    }
}

/// Returns whether a command line is refused with a text that contains `named`.
pub fn is_named(alloc: Global, line: &str, named: &str) -> Result<bool, Fail> {
    let said = answer(alloc, line)?;
    Ok(said.contains(named))
}

const TAKEN: &str = r#"
iconvd run => Run 1 1
iconvd ask => Ask 1 1
iconvd pipe => Pipe 1 1
iconvd show => Show 1 1
iconvd checkmap - => CheckMap("-") 1 1
iconvd run --workers 16 => Run 16 1
iconvd run --workers 1 => Run 1 1
iconvd pipe --workers=2 => Pipe 2 1
iconvd listen 127.0.0.1:0 => Listen("127.0.0.1:0") 1 1
iconvd listen 127.0.0.1:0 --streams 0 => Listen("127.0.0.1:0") 1 0
iconvd listen --streams 18446744073709551615 127.0.0.1:0 => Listen("127.0.0.1:0") 1 18446744073709551615
iconvd listen 127.0.0.1:0 --workers 16 => Listen("127.0.0.1:0") 16 1
iconvd listen --streams=2 --workers=3 127.0.0.1:0 => Listen("127.0.0.1:0") 3 2
iconvd listen unix:/run/iconvd => Listen("unix:/run/iconvd") 1 1
iconvd listen 127.0.0.1:0 --at-once 1 => Listen("127.0.0.1:0") 1 1
iconvd listen 127.0.0.1:0 --at-once 2 => Listen("127.0.0.1:0") 1 18446744073709551615
iconvd listen 127.0.0.1:0 --at-once 1000 --streams 50 => Listen("127.0.0.1:0") 1 50
iconvd call 127.0.0.1:0 => Call("127.0.0.1:0") 1 1
iconvd call unix:/run/iconvd --timeout 5 => Call("unix:/run/iconvd") 1 1
iconvd admin 127.0.0.1:0 health => Admin("127.0.0.1:0", Health) 1 1
iconvd admin unix:/run/admin metrics => Admin("unix:/run/admin", Metrics) 1 1
iconvd admin 127.0.0.1:0 streams --timeout 9 => Admin("127.0.0.1:0", Streams) 1 1
iconvd admin 127.0.0.1:0 drain => Admin("127.0.0.1:0", Drain) 1 1
"#;

#[test]
fn command_lines_are_read(rt: HostRuntime) -> Result<(), Fail> {
    check_lines(&rt, Call::Options, TAKEN)
}

/// Command lines of servers and clients, and what they say about `--at-once`, `--idle`, `--timeout` and the log.
const WAITING: &str = "
iconvd listen 127.0.0.1:0 => 1 None None Error Text
iconvd listen 127.0.0.1:0 --at-once 1000 --idle 604800 => 1000 Some(604800) None Error Text
iconvd listen 127.0.0.1:0 --log error --log-format text => 1 None None Error Text
iconvd listen 127.0.0.1:0 --log info --log-format json => 1 None None Info Json
iconvd listen 127.0.0.1:0 --idle=1 --log=debug => 1 Some(1) None Debug Text
iconvd call 127.0.0.1:0 => 1 None None Error Text
iconvd call 127.0.0.1:0 --timeout 1 => 1 None Some(1) Error Text
iconvd admin 127.0.0.1:0 health => 1 None Some(5) Error Text
iconvd admin 127.0.0.1:0 health --timeout 604800 => 1 None Some(604800) Error Text
";

#[test]
fn waiting_and_logging_are_read(rt: HostRuntime) -> Result<(), Fail> {
    let alloc = rt.alloc();
    for line in WAITING.trim().lines() {
        let (words, wanted) = sides(line, " => ")?;
        let words = words_of(alloc, words)?;
        let said = options(alloc, &words).map_err(|_| "refused")?;
        let told = format!(in alloc;
            "{} {:?} {:?} {:?} {:?}",
            said.at_once, said.idle, said.timeout, said.level, said.format
        )?;
        assert!(rt; told.as_str() == wanted, "{line}");
    }
    Ok(())
}

/// Command lines, and what they say about `--admin`, `--drain`, `--when-full`, `--stream-memory` and `--callers`.
const OPERATING: &str = r#"
iconvd listen 127.0.0.1:0 => None 30 Wait None None
iconvd listen 127.0.0.1:0 --admin 127.0.0.1:7880 => Some("127.0.0.1:7880") 30 Wait None None
iconvd listen 127.0.0.1:0 --admin=unix:/run/admin --drain 1 => Some("unix:/run/admin") 1 Wait None None
iconvd listen 127.0.0.1:0 --drain 604800 --when-full close => None 604800 Close None None
iconvd listen 127.0.0.1:0 --when-full wait --stream-memory 672 --callers 1 => None 30 Wait Some(672) Some(1)
iconvd listen 127.0.0.1:0 --stream-memory 64K --callers 4294967295 => None 30 Wait Some(65536) Some(4294967295)
iconvd pipe --stream-memory 10752 --callers 16 --workers 16 => None 30 Wait Some(10752) Some(16)
iconvd pipe --stream-memory 64M --callers 16 => None 30 Wait Some(67108864) Some(16)
iconvd pipe --stream-memory=17179869183G => None 30 Wait Some(18446744072635809792) None
iconvd pipe --stream-memory 18446744073709551615 => None 30 Wait Some(18446744073709551615) None
iconvd run => None 30 Wait None None
"#;

#[test]
fn operating_is_read(rt: HostRuntime) -> Result<(), Fail> {
    let alloc = rt.alloc();
    for line in OPERATING.trim().lines() {
        let (words, wanted) = sides(line, " => ")?;
        let words = words_of(alloc, words)?;
        let said = options(alloc, &words).map_err(|_| "refused")?;
        let told = format!(in alloc;
            "{:?} {} {:?} {:?} {:?}",
            said.admin, said.drain, said.when_full, said.stream_memory, said.callers
        )?;
        assert!(rt; told.as_str() == wanted, "{line}");
    }
    Ok(())
}

/// Command lines that are refused, and what the error names.
const REFUSED: &str = r#"
iconvd => subcommand
iconvd walk => 'walk'
iconvd checkmap => FILE
iconvd run --workers 0 => '0'
iconvd run --workers 17 => '17'
iconvd run --workers= => --workers
iconvd pipe --workers x => 'x'
iconvd pipe --workers 4294967297 => '4294967297'
iconvd ask --workers 2 => '--workers'
iconvd listen => ADDR
iconvd listen nowhere => 'nowhere'
iconvd listen 127.0.0.1: => '127.0.0.1:'
iconvd listen :7879 => ':7879'
iconvd listen 127.0.0.1:65536 => '127.0.0.1:65536'
iconvd listen unix: => 'unix:'
iconvd listen 127.0.0.1:0 --streams x => 'x'
iconvd listen 127.0.0.1:0 --streams -1 => -1
iconvd listen 127.0.0.1:0 --streams=18446744073709551616 => '18446744073709551616'
iconvd listen 127.0.0.1:0 --workers 0 => '0'
iconvd listen 127.0.0.1:0 --workers 17 => '17'
iconvd listen 127.0.0.1:0 --at-once 0 => '0'
iconvd listen 127.0.0.1:0 --at-once 1001 => '1001'
iconvd listen 127.0.0.1:0 --idle 0 => '0'
iconvd listen 127.0.0.1:0 --idle 604801 => '604801'
iconvd listen 127.0.0.1:0 --log all => 'all'
iconvd listen 127.0.0.1:0 --log-format xml => 'xml'
iconvd listen 127.0.0.1:0 --timeout 1 => '--timeout'
iconvd call => ADDR
iconvd call 127.0.0.1:0 --streams 2 => '--streams'
iconvd call 127.0.0.1:0 --timeout 0 => '0'
iconvd pipe --at-once 2 => '--at-once'
iconvd listen 127.0.0.1:0 --admin nowhere => 'nowhere'
iconvd listen 127.0.0.1:0 --admin unix: => '--admin <ADDR>'
iconvd listen 127.0.0.1:0 --admin fd:3 => '--admin <ADDR>'
iconvd listen 127.0.0.1:0 --drain 0 => '0'
iconvd listen 127.0.0.1:0 --drain 604801 => '604801'
iconvd listen 127.0.0.1:0 --when-full ask => 'ask'
iconvd listen 127.0.0.1:0 --callers 0 => '0'
iconvd pipe --callers 4294967296 => '4294967296'
iconvd pipe --callers 1 --workers 2 => '--callers'
iconvd listen 127.0.0.1:0 --stream-memory 671 => '--stream-memory'
iconvd pipe --stream-memory 10751 --workers 16 => '--workers 16'
iconvd pipe --stream-memory 0 => '0'
iconvd pipe --stream-memory 0K => '0K'
iconvd pipe --stream-memory= => --stream-memory
iconvd pipe --stream-memory K => 'K'
iconvd pipe --stream-memory 1T => '1T'
iconvd pipe --stream-memory 1k => '1k'
iconvd pipe --stream-memory 1KB => '1KB'
iconvd pipe --stream-memory +1 => '+1'
iconvd pipe --stream-memory 17179869184G => '17179869184G'
iconvd pipe --stream-memory 18446744073709551616 => '18446744073709551616'
iconvd run --stream-memory 1 => '--stream-memory'
iconvd admin => ADDR
iconvd admin 127.0.0.1:0 => PAGE
iconvd admin 127.0.0.1:0 places => 'places'
iconvd admin 127.0.0.1:0 health --timeout 0 => '0'
"#;

#[test]
fn what_is_wrong_is_named(rt: HostRuntime) -> Result<(), Fail> {
    check_lines(&rt, Call::Usage, REFUSED)
}

const HELP: &str = "
iconvd --help
iconvd -h
iconvd run --help
iconvd help run
";

#[test]
fn help_is_shown(rt: HostRuntime) -> Result<(), Fail> {
    for line in HELP.trim().lines() {
        let text = answer(rt.alloc(), line)?;
        let told = text.contains("\n  conv DESCRIPTOR ROOM HEX\n")
            && text.contains("\n  put TEXT  ")
            && text.contains("\nSee iconvd(1) and iconvd-protocol(5).\n");
        assert!(rt; told, "{text}");
    }
    Ok(())
}

/// Command lines, and the name before the version that they show.
const VERSIONS: &str = "
iconvd --version => iconvd
iconvd -V => iconvd
iconvd run --version => iconvd-run
";

#[test]
fn the_version_is_shown(rt: HostRuntime) -> Result<(), Fail> {
    for line in VERSIONS.trim().lines() {
        let (words, name) = sides(line, " => ")?;
        let text = answer(rt.alloc(), words)?;
        let want = format!(in rt.alloc(); "{name} {VERSION}\n")?;
        assert!(rt; text == want, "{text}");
    }
    Ok(())
}
