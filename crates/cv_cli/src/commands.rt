//! Runs the commands, and gives the exit status of each.
ghost use Rattle.std.specs.Prelude.{◌≡◌, ◌≢◌, ◌≤◌, IfOk, IfErr, OnOk, OnErr, if◌then◌else◌};
ghost use Rattle.clap.specs.Values.{kind_of};
ghost use Rattle.cv_commands.specs.Status.{status_of};
ghost use Rattle.cv_tcp.specs.Ends.{call_status_of};

use crate::flags::ADMIN_TIMEOUT;
use crate::job::{Job, Options};
use crate::scripts::{given_script, refuse_script};
use crate::usage::{options, usage_status};
use crate::version::VERSION;
use crate::words::arguments;
use clap::Error;
use clap::error::ErrorKind;
use cv_commands::{RunFault, ask_given, checkmap, pipe_within, run_given, show, status, write_all};
use cv_tcp::{
    Addresses, AdminFault, CallFault, LogLines, Operation, Outlet, Page, StandardError, Terms,
    call_admin, call_status, listen, listen_administered,
};
use std::alloc::Global;
use std::fs::Files;
use std::io;
use std::net::{Net, TcpListener, TcpStream};
use std::random::RandomSource;
use std::rt::Env;
use std::sync::Wait;
use std::thread::Threads;
use std::time::Clock;

/// The exit status of a command. A fault is written to standard error, if that is possible; the status does not depend
/// on it.
fn conclude<R: Eprint>(rt: &R, done: Result<(), RunFault>) -> u8
    ensures done { OnOk done (result ≡ 0) }
    ensures fault { IfErr done (λ fault. result ≡ status_of fault) }
{
    match done {
        Ok(()) => 0,
        Err(fault) => {
            let _ = eprintln!(rt; "iconvd: {fault}");
            status(&fault)
        }
    }
}

/// The exit status of `listen`. The log has already said why it cannot listen. Other faults are written to standard
/// error, if it takes them at once.
fn conclude_listening<R: Eprint>(rt: &R, done: Result<(), RunFault>) -> u8
    ensures done { OnOk done (result ≡ 0) }
    ensures fault { IfErr done (λ fault. result ≡ status_of fault) }
{
    match done {
        Ok(()) => 0,
        Err(RunFault::CannotListen) => status(&RunFault::CannotListen),
        Err(fault) => {
            let _ = StandardError::new(rt).put(format_args!("iconvd: {fault}"));
            status(&fault)
        }
    }
}

/// The exit status of `call`. A fault is written to standard error, if that is possible.
fn conclude_call<R: Eprint>(rt: &R, done: Result<(), CallFault>) -> u8
    ensures done { OnOk done (result ≡ 0) }
    ensures fault { IfErr done (λ fault. result ≡ call_status_of fault) }
{
    match done {
        Ok(()) => 0,
        Err(fault) => {
            let _ = eprintln!(rt; "iconvd: {fault}");
            call_status(&fault)
        }
    }
}

/// The exit status of `admin`: 0 if the status of the answer is a good one, else 1. A fault is written to standard
/// error, if that is possible.
fn conclude_admin<R: Eprint>(rt: &R, done: Result<bool, AdminFault>) -> u8
    ensures done { IfOk done (λ is_well. result ≡ (if is_well then 0 else 1)) }
    ensures fault { OnErr done (result ≡ 1) }
{
    match done {
        Ok(true) => 0,
        Ok(false) => 1,
        Err(fault) => {
            let _ = eprintln!(rt; "iconvd: {fault}");
            1
        }
    }
}

/// `admin`: asks for a page, and prints it.
fn admin<R>(rt: &R, address: &str, timeout: Option<u32>, page: Page) -> u8
where
    R: Print + Eprint + AllocGlobal + Clock + Net<Listener = TcpListener, Stream = TcpStream>,
    ensures { result ≤ 1 }
{
    let alloc = rt.alloc();
    let timeout = timeout.unwrap_or(ADMIN_TIMEOUT.default_number());
    let mut text = Vec::new(alloc);
    let called = call_admin(rt, alloc, address, timeout, page, &mut text);
    match write_all(io::writer(rt), &text) {
        Ok(_writer) => conclude_admin(rt, called),
        Err(fault) => conclude(rt, Err(fault)),
    }
}

/// `call`: sends a script to the server at an address, and prints the reply lines, including those from before a fault.
fn call<R>(rt: &R, address: &str, timeout: Option<u32>, script: &[u8]) -> Result<(), CallFault>
where
    R: Print + AllocGlobal + Clock + Net<Listener = TcpListener, Stream = TcpStream>,
{
    let alloc = rt.alloc();
    let mut lines = Vec::new(alloc);
    let called = cv_tcp::call(rt, alloc, address, timeout, script, &mut lines);
    let printed = write_all(io::writer(rt), &lines);
    // If both failed, the call's fault is reported: it says why lines are missing.
    called?;
    printed.map_err(CallFault::Run)?;
    Ok(())
}

/// The terms by which streams are served.
fn terms_of(said: Options<'_>) -> Terms
    ensures at_once { result.at_once ≡ said.entry.at_once }
    ensures workers { result.workers ≡ said.entry.workers }
{
    Terms {
        streams: said.streams,
        at_once: said.at_once,
        workers: said.workers,
        idle: said.idle,
        when_full: said.when_full,
        drain: said.drain,
        stream_memory: said.stream_memory,
        callers: said.callers,
    }
}

/// `listen`: serves the clients that connect to an address, and with `--admin` also answers the clients of the admin
/// pages.
fn serve<R>(rt: &R, address: &str, said: Options<'_>) -> Result<(), RunFault>
where
    R: Files + Print + Eprint + AllocGlobal + Clock + RandomSource + Threads + Wait + Sync,
    R: Net<Listener = TcpListener, Stream = TcpStream>,
    requires workers { (1 ≤ said.workers) × (said.workers ≤ 16) }
    requires at_once { 1 ≤ said.at_once }
{
    let (alloc, terms) = (rt.alloc(), terms_of(said));
    let log = LogLines::new(rt, StandardError::new(rt), said.level, said.format);
    let Some(admin) = said.admin else {
        listen(rt, alloc, &log, address, terms)?;
        return Ok(());
    };
    let operation = Operation::counted(rt, alloc, &terms, VERSION)?;
    let log = log.telling(operation.lost_lines());
    let addresses = Addresses {
        streams: address,
        admin,
    };
    listen_administered(rt, alloc, &log, addresses, terms, &operation)?;
    Ok(())
}

fn perform<R>(rt: &R, said: Options<'_>) -> u8
where
    R: Files + Input + Print + Eprint + AllocGlobal + Clock + RandomSource + Threads + Wait + Sync,
    R: Net<Listener = TcpListener, Stream = TcpStream>,
    requires workers { (1 ≤ said.workers) × (said.workers ≤ 16) }
    requires at_once { 1 ≤ said.at_once }
{
    match said.job {
        Job::Run => match given_script(rt) {
            Ok(script) => conclude(rt, run_given(rt, &script, said.workers)),
            Err(fault) => refuse_script(rt, &fault),
        },
        Job::Ask => match given_script(rt) {
            Ok(script) => conclude(rt, ask_given(rt, &script)),
            Err(fault) => refuse_script(rt, &fault),
        },
        Job::Pipe => conclude(rt, pipe_within(rt, said.workers, terms_of(said).budget())),
        Job::Show => conclude(rt, show(rt)),
        Job::Listen(address) => conclude_listening(rt, serve(rt, address, said)),
        Job::Call(address) => match given_script(rt) {
            Ok(script) => conclude_call(rt, call(rt, address, said.timeout, &script)),
            Err(fault) => refuse_script(rt, &fault),
        },
        Job::Admin(address, page) => admin(rt, address, said.timeout, page),
        Job::CheckMap(file) => match checkmap(rt, file) {
            Ok(status) => status,
            Err(fault) => conclude(rt, Err(fault)),
        },
    }
}

/// Prints the help or the version that the command line asked for.
fn print_help<R: Print>(rt: &R, alloc: Global, asked: &Error) -> Result<(), RunFault>
    ensures { IfErr result (λ fault. status_of fault ≡ 1) }
{
    let text = format!(in alloc; "{asked}")?;
    write_all(io::writer(rt), text.as_bytes())?;
    Ok(())
}

/// Handles a command line that gives no job, and returns the exit status. If it asks for help or the version, the text
/// is printed: 0, or 1 if that fails. If an allocation failed, that is reported: 1. Otherwise it reports what is wrong:
/// 2.
pub fn explain<R: Print + Eprint>(rt: &R, alloc: Global, fault: &Error) -> u8
    ensures memory { kind_of fault.now ≡ ErrorKind.OutOfMemory → result ≡ 1 }
    ensures help { kind_of fault.now ≡ ErrorKind.DisplayHelp → result ≤ 1 }
    ensures version { kind_of fault.now ≡ ErrorKind.DisplayVersion → result ≤ 1 }
    ensures usage { kind_of fault.now ≢ ErrorKind.OutOfMemory → kind_of fault.now ≢ ErrorKind.DisplayHelp
        → kind_of fault.now ≢ ErrorKind.DisplayVersion → result ≡ 2 }
{
    match fault.kind() {
        ErrorKind::DisplayHelp | ErrorKind::DisplayVersion => {
            conclude(rt, print_help(rt, alloc, fault))
        }
        ErrorKind::OutOfMemory => conclude(rt, Err(RunFault::Memory)),
        _ => {
            let _ = rt.eprint(fault);
            usage_status(fault)
        }
    }
}

fn obey<R>(rt: &R, alloc: Global) -> Result<u8, Error>
where
    R: Env
        + Files
        + Input
        + Print
        + Eprint
        + AllocGlobal
        + Clock
        + RandomSource
        + Threads
        + Wait
        + Sync,
    R: Net<Listener = TcpListener, Stream = TcpStream>,
{
    let arguments = arguments(rt, alloc)?;
    let words: Vec<&str> = arguments.iter().map(|word| word.as_str()).collect(alloc)?;
    let said = options(alloc, &words)?;
    Ok(perform(rt, said))
}

/// Runs the command of the command line, and returns the exit status.
pub fn program<R>(rt: &R) -> u8
where
    R: Env
        + Files
        + Input
        + Print
        + Eprint
        + AllocGlobal
        + Clock
        + RandomSource
        + Threads
        + Wait
        + Sync,
    R: Net<Listener = TcpListener, Stream = TcpStream>,
{
    let alloc = rt.alloc();
    match obey(rt, alloc) {
        Ok(status) => status,
        Err(fault) => explain(rt, alloc, &fault),
    }
}
