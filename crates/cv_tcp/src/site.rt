//! Listens at an address of any kind.
ghost use Rattle.std.specs.Prelude.{◌≡◌, ◌≤◌, IfOk, IfErr};
ghost use Rattle.cv_commands.specs.declared.fault.RunFault.TheVariants as RunFault;
ghost use Rattle.cv_tcp.specs.Faults.{IsOfListening};
ghost use Rattle.cv_tcp.specs.Listening.{IsEnd};

use crate::address::Address;
use crate::admin_inlet::AdminInlet;
use crate::inherited::Inherited;
use crate::inlet::{Bound, Inlet, Listener};
use crate::listened::Listened;
use crate::operation::Operation;
use crate::socket_file::{self, SocketAt};
use crate::streams::{Service, serve_until_drained};
use crate::terms::Terms;
use cv_commands::{RunFault, write_all};
use log::{Log, error, info};
use std::alloc::Global;
use std::fmt::Display;
use std::fs::Files;
use std::io::{self, ErrorKind};
use std::net::{Net, SocketAddr, TcpListener, TcpStream};
use std::random::RandomSource;
use std::sync::Wait;
use std::thread::Threads;
use std::time::Clock;

/// Prints the address at which the program listens, in one write, and logs it.
fn announce<R: Print, G: Log, D: Display + Drop>(
    rt: &R,
    alloc: Global,
    log: &G,
    address: D,
) -> Result<(), RunFault>
    ensures { IfErr result IsOfListening }
{
    let line = format!(in alloc; "listening {address}\n")?;
    write_all(io::writer(rt), line.as_bytes())?;
    info!(log; address:% = address; "listening");
    Ok(())
}

/// Prints the address of the admin pages, if there are any, and logs it.
fn announce_admin<R: Print, G: Log>(site: &Site<'_, R, G>) -> Result<(), RunFault>
    ensures { IfErr result IsOfListening }
{
    let Some(admin) = site.admin else {
        return Ok(());
    };
    let address = admin.address();
    let line = format!(in site.alloc; "admin {address}\n")?;
    write_all(io::writer(site.rt), line.as_bytes())?;
    info!(site.log; address:% = address; "admin pages");
    Ok(())
}

/// Logs why the program cannot listen at an address, and returns the fault.
pub(crate) fn refuse<G: Log, D: Display + Drop>(
    log: &G,
    address: D,
    failure: &io::Error,
) -> RunFault
    ensures { result ≡ RunFault.CannotListen }
{
    error!(log; address:% = address; "{address}: cannot listen: {failure}");
    RunFault::CannotListen
}

/// What listening needs at an address of any kind.
#[derive(Drop)]
pub(crate) struct Site<'a, R, G> {
    pub(crate) rt: &'a R,
    pub(crate) alloc: Global,
    pub(crate) log: &'a G,
    pub(crate) terms: Terms,
    pub(crate) operation: &'a Operation,
    /// The listener of the admin pages, if there are any.
    pub(crate) admin: &'a Option<AdminInlet>,
}

/// Prints the address at which the program listens, and serves the streams that come in there.
fn serve_at<R, G, L, D>(site: &Site<'_, R, G>, inlet: &L, address: D) -> Result<Listened, RunFault>
where
    R: Print + Clock + RandomSource + Threads + Wait + Sync,
    G: Log + Sync,
    L: Inlet + Sync,
    D: Display + Drop,
    requires at_once { 1 ≤ site.now.terms.at_once }
    requires workers { (1 ≤ site.now.terms.workers) × (site.now.terms.workers ≤ 16) }
    ensures end { IfOk result (λ listened. IsEnd site.now.terms.streams listened) }
    ensures err { IfErr result IsOfListening }
{
    announce(site.rt, site.alloc, site.log, address)?;
    announce_admin(site)?;
    serve_until_drained(&Service {
        rt: site.rt,
        alloc: site.alloc,
        log: site.log,
        inlet,
        terms: site.terms,
        operation: site.operation,
        admin: site.admin,
    })
}

/// A listener that a drain shuts.
fn bound<R: Wait, G>(site: &Site<'_, R, G>, listener: Listener) -> io::Result<Bound> {
    let bound = Bound::new(listener)?;
    site.operation.set_door(site.rt, bound.door()?);
    Ok(bound)
}

/// A listener at a TCP port, and the address that it has.
fn bind_tcp<R, G>(site: &Site<'_, R, G>, address: &str) -> io::Result<(Bound, SocketAddr)>
where
    R: Net<Listener = TcpListener, Stream = TcpStream> + Wait,
{
    let listener = TcpListener::bind(site.rt, address)?;
    let address = listener.local_addr()?;
    Ok((bound(site, Listener::Tcp(listener))?, address))
}

/// Listens at a TCP port and serves the streams that come in there.
pub(crate) fn listen_tcp<R, G>(site: &Site<'_, R, G>, address: &str) -> Result<Listened, RunFault>
where
    R: Net<Listener = TcpListener, Stream = TcpStream>
        + Print
        + Clock
        + RandomSource
        + Threads
        + Wait
        + Sync,
    G: Log + Sync,
    requires at_once { 1 ≤ site.now.terms.at_once }
    requires workers { (1 ≤ site.now.terms.workers) × (site.now.terms.workers ≤ 16) }
    ensures end { IfOk result (λ listened. IsEnd site.now.terms.streams listened) }
    ensures err { IfErr result IsOfListening }
{
    match bind_tcp(site, address) {
        Ok((inlet, bound)) => serve_at(site, &inlet, bound),
        Err(failure) => Err(refuse(site.log, address, &failure)),
    }
}

/// Listens at a Unix socket and serves the streams that come in there. At the end the socket's file is removed.
pub(crate) fn listen_unix<R, G>(site: &Site<'_, R, G>, path: &str) -> Result<Listened, RunFault>
where
    R: Net + Files + Print + Clock + RandomSource + Threads + Wait + Sync,
    G: Log + Sync,
    requires at_once { 1 ≤ site.now.terms.at_once }
    requires workers { (1 ≤ site.now.terms.workers) × (site.now.terms.workers ≤ 16) }
    ensures end { IfOk result (λ listened. IsEnd site.now.terms.streams listened) }
    ensures err { IfErr result IsOfListening }
{
    let listener = match socket_file::bind(site.rt, path) {
        Ok(listener) => listener,
        Err(failure) => return Err(refuse(site.log, SocketAt(path), &failure)),
    };
    let made = socket_file::id_of(site.rt, path);
    let served = serve_unix(site, Listener::Unix(listener), path);
    socket_file::remove(site.rt, path, made);
    served
}

/// Serves the streams that come in at a Unix socket.
pub(crate) fn serve_unix<R, G>(
    site: &Site<'_, R, G>,
    listener: Listener,
    path: &str,
) -> Result<Listened, RunFault>
where
    R: Print + Clock + RandomSource + Threads + Wait + Sync,
    G: Log + Sync,
    requires at_once { 1 ≤ site.now.terms.at_once }
    requires workers { (1 ≤ site.now.terms.workers) × (site.now.terms.workers ≤ 16) }
    ensures end { IfOk result (λ listened. IsEnd site.now.terms.streams listened) }
    ensures err { IfErr result IsOfListening }
{
    match bound(site, listener) {
        Ok(inlet) => serve_at(site, &inlet, SocketAt(path)),
        Err(failure) => Err(refuse(site.log, SocketAt(path), &failure)),
    }
}

/// A listener that the process was given.
fn given(number: Option<u16>) -> io::Result<Inherited> {
    match number {
        Some(number) => Inherited::new(number),
        None => Err(io::Error::from(ErrorKind::InvalidInput)),
    }
}

/// Checks that an address which names a descriptor names a listener. It is called before other files are opened,
/// because one of them could get that number.
pub(crate) fn check_given(address: &str) -> io::Result<()> {
    match Address::of(address) {
        Address::Given(number) => {
            let _listener = given(number)?;
            Ok(())
        }
        Address::Tcp(_) | Address::Unix(_) => Ok(()),
    }
}

/// Serves the streams that come in at a listener that the process was given. The listener is not shut.
pub(crate) fn listen_given<R, G>(
    site: &Site<'_, R, G>,
    address: &str,
    number: Option<u16>,
) -> Result<Listened, RunFault>
where
    R: Net + Print + Clock + RandomSource + Threads + Wait + Sync,
    G: Log + Sync,
    requires at_once { 1 ≤ site.now.terms.at_once }
    requires workers { (1 ≤ site.now.terms.workers) × (site.now.terms.workers ≤ 16) }
    ensures end { IfOk result (λ listened. IsEnd site.now.terms.streams listened) }
    ensures err { IfErr result IsOfListening }
{
    match given(number) {
        Ok(inlet) => serve_at(site, &inlet, address),
        Err(failure) => Err(refuse(site.log, address, &failure)),
    }
}

/// Listens at an address of any kind, and serves the streams that come in there.
pub(crate) fn listen_at<R, G>(site: &Site<'_, R, G>, address: &str) -> Result<Listened, RunFault>
where
    R: Net<Listener = TcpListener, Stream = TcpStream>
        + Files
        + Print
        + Clock
        + RandomSource
        + Threads
        + Wait
        + Sync,
    G: Log + Sync,
    requires at_once { 1 ≤ site.now.terms.at_once }
    requires workers { (1 ≤ site.now.terms.workers) × (site.now.terms.workers ≤ 16) }
    ensures end { IfOk result (λ listened. IsEnd site.now.terms.streams listened) }
    ensures err { IfErr result IsOfListening }
{
    match Address::of(address) {
        Address::Tcp(address) => listen_tcp(site, address),
        Address::Unix(path) => listen_unix(site, path),
        Address::Given(number) => listen_given(site, address, number),
    }
}
