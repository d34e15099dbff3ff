//! Listens at an address.
ghost use Rattle.std.specs.Prelude.{◌≡◌, ◌≤◌, IfOk, IfErr};
ghost use Rattle.cv_tcp.specs.Faults.{IsOfListening};
ghost use Rattle.cv_tcp.specs.Listening.{IsEnd};

use crate::admin_inlet::{AdminAt, AdminInlet};
use crate::listened::{Listened, tell};
use crate::operation::Operation;
use crate::site::{Site, check_given, listen_at, refuse};
use crate::terms::Terms;
use cv_commands::RunFault;
use log::Log;
use std::alloc::Global;
use std::fs::Files;
use std::net::{Net, TcpListener, TcpStream};
use std::random::RandomSource;
use std::sync::Wait;
use std::thread::Threads;
use std::time::Clock;

/// Flushes the log, and logs a drain that ended listening.
fn conclude<R: Clock, G: Log>(
    site: &Site<'_, R, G>,
    listened: Result<Listened, RunFault>,
) -> Result<Listened, RunFault>
    ensures { result ≡ listened }
{
    // After a flush, the line of a drain is written however many faults the same second had.
    site.log.flush();
    if let Ok(listened) = listened {
        tell(site.log, listened, site.operation.drained_for(site.rt));
    }
    site.log.flush();
    listened
}

/// Listens as `listen` does, until all streams are served or the operation is drained. It returns which of these ended
/// it. A drain is logged when it has ended.
pub fn listen_until_drained<'a, R, G>(
    rt: &'a R,
    alloc: Global,
    log: &'a G,
    address: &str,
    terms: Terms,
    operation: &'a Operation,
) -> Result<Listened, RunFault>
where
    R: Net<Listener = TcpListener, Stream = TcpStream>
        + Files
        + Print
        + Clock
        + RandomSource
        + Threads
        + Wait
        + Sync,
    G: Log + Sync,
    requires at_once { 1 ≤ terms.at_once }
    requires workers { (1 ≤ terms.workers) × (terms.workers ≤ 16) }

    // All threads together took as many streams as are wanted. Or a drain had begun, and they took at most as many.
    ensures end { IfOk result (λ listened. IsEnd terms.streams listened) }

    // The fault of a stream is not among these.
    ensures err { IfErr result IsOfListening }
{
    let admin = None;
    let site = Site {
        rt,
        alloc,
        log,
        terms,
        operation,
        admin: &admin,
    };
    conclude(&site, listen_at(&site, address))
}

/// Removes the socket file of the admin pages, if there is one.
fn remove_admin<R: Files, G>(site: &Site<'_, R, G>) {
    if let Some(admin) = site.admin {
        admin.remove(site.rt);
    }
}

/// The addresses at which a server listens.
#[derive(Clone, Copy, Debug, PartialEq, Eq)]
pub struct Addresses<'a> {
    /// For its streams.
    pub streams: &'a str,
    /// For its admin pages.
    pub admin: &'a str,
}

/// Listens as `listen_until_drained` does, and meanwhile answers the clients of the admin pages at an address of their
/// own. That address is printed after the other one. The pages are answered until the last stream has ended, and only
/// if the operation counts (`Operation::counted`).
pub fn listen_administered<'a, R, G>(
    rt: &'a R,
    alloc: Global,
    log: &'a G,
    addresses: Addresses<'a>,
    terms: Terms,
    operation: &'a Operation,
) -> Result<Listened, RunFault>
where
    R: Net<Listener = TcpListener, Stream = TcpStream>
        + Files
        + Print
        + Clock
        + RandomSource
        + Threads
        + Wait
        + Sync,
    G: Log + Sync,
    requires at_once { 1 ≤ terms.at_once }
    requires workers { (1 ≤ terms.workers) × (terms.workers ≤ 16) }

    // All threads together took as many streams as are wanted. Or a drain had begun, and they took at most as many.
    ensures end { IfOk result (λ listened. IsEnd terms.streams listened) }

    // The fault of a stream is not among these.
    ensures err { IfErr result IsOfListening }
{
    if let Err(failure) = check_given(addresses.streams) {
        return Err(refuse(log, addresses.streams, &failure));
    }
    let admin = match AdminInlet::open(rt, alloc, addresses.admin) {
        Ok(admin) => Some(admin),
        Err(failure) => return Err(refuse(log, AdminAt(addresses.admin), &failure)),
    };
    let site = Site {
        rt,
        alloc,
        log,
        terms,
        operation,
        admin: &admin,
    };
    let listened = listen_at(&site, addresses.streams);
    remove_admin(&site);
    conclude(&site, listened)
}

/// Listens at an address, prints the address on standard output, serves streams by these terms, and returns how many.
/// Each stream has a new pool of workers; all share one cache of compiled charmaps. The fault of a stream is logged,
/// and the next stream is served.
pub fn listen<R, G>(
    rt: &R,
    alloc: Global,
    log: &G,
    address: &str,
    terms: Terms,
) -> Result<u64, RunFault>
where
    R: Net<Listener = TcpListener, Stream = TcpStream>
        + Files
        + Print
        + Clock
        + RandomSource
        + Threads
        + Wait
        + Sync,
    G: Log + Sync,
    requires at_once { 1 ≤ terms.at_once }
    requires workers { (1 ≤ terms.workers) × (terms.workers ≤ 16) }

    // All threads together took as many streams as are wanted.
    ensures served { IfOk result (λ n. n ≡ terms.streams) }

    // The fault of a stream is not among these.
    ensures err { IfErr result IsOfListening }
{
    let operation = Operation::new(&terms);
    match listen_until_drained(rt, alloc, log, address, terms, &operation)? {
        Listened::Served { streams } => Ok(streams),
        // This operation cannot be drained.
        Listened::Drained { .. } => Err(RunFault::AcceptFailed),
    }
}
