//! Accepts that fail.
use super::kept::Kept;
use super::{bound, is_served, lines_like, terms};
use crate::connection::Connection;
use crate::inlet::{Bound, Inlet, Listener};
use crate::listened::Listened;
use crate::operation::Operation;
use crate::streams::{Service, serve_until_drained};
use cv_commands::RunFault;
use std::sync::atomic::{AtomicU64, Ordering};
use std::test::Fail;
use std::{io, thread};

/// A listener that is gone.
struct Gone;

impl Inlet for Gone {
    fn accept(&self) -> io::Result<Connection> {
        Err(io::Error::from_raw_os_error(22))
    }

    fn shut(&self) {}
}

#[test]
fn listening_ends_when_the_listener_is_gone(rt: HostRuntime) -> Result<(), Fail> {
    let log = Kept::new(&rt);
    for (streams, at_once, wanted) in [
        (0, 1, Ok(Listened::Served { streams: 0 })),
        (0, 9, Ok(Listened::Served { streams: 0 })),
        (1, 1, Err(RunFault::AcceptFailed)),
        (1, 9, Err(RunFault::AcceptFailed)),
        (99, 9, Err(RunFault::AcceptFailed)),
    ] {
        let terms = terms(streams, at_once);
        let operation = Operation::new(&terms);
        let admin = None;
        let service = Service {
            rt: &rt,
            alloc: rt.alloc(),
            log: &log,
            inlet: &Gone,
            terms,
            operation: &operation,
            admin: &admin,
        };
        assert_eq!(rt; serve_until_drained(&service), wanted);
    }
    assert!(rt; log.into_bytes().is_empty());
    Ok(())
}

/// A listener whose first three accepts fail: no descriptor is left, no memory is left, the client has gone.
#[derive(Drop)]
struct Short {
    inlet: Bound,
    asked: AtomicU64,
}

impl Inlet for Short {
    fn accept(&self) -> io::Result<Connection> {
        match self.asked.fetch_add(1, Ordering::SeqCst) {
            0 => Err(io::Error::from_raw_os_error(24)),
            1 => Err(io::Error::from_raw_os_error(12)),
            2 => Err(io::Error::from_raw_os_error(103)),
            _ => self.inlet.accept(),
        }
    }

    fn shut(&self) {
        self.inlet.shut();
    }
}

#[test]
fn an_accept_that_fails_is_tried_again(rt: HostRuntime) -> Result<(), Fail> {
    let (listener, address) = bound(&rt)?;
    let inlet = Short {
        inlet: Bound::new(Listener::Tcp(listener))?,
        asked: AtomicU64::new(0),
    };
    let log = Kept::new(&rt);
    let (rt, inlet, log_there) = (&rt, &inlet, &log);
    let (served, answered) = thread::join(
        rt,
        move || {
            let terms = terms(1, 1);
            let operation = Operation::new(&terms);
            let admin = None;
            let service = Service {
                rt,
                alloc: rt.alloc(),
                log: log_there,
                inlet,
                terms,
                operation: &operation,
                admin: &admin,
            };
            serve_until_drained(&service)
        },
        move || is_served(rt, address),
    );
    assert_eq!(rt; served, Ok(Listened::Served { streams: 1 }));
    assert!(rt; answered?);
    let line = "ERROR cannot accept: Too many open files (os error 24)";
    assert_eq!(rt; lines_like(&log.into_bytes(), line), 1);
    Ok(())
}

/// One thread shuts the listener while others may wait for clients.
#[test]
fn an_inlet_that_is_shut_ends_all_accepts(rt: HostRuntime) -> Result<(), Fail> {
    let (listener, _address) = bound(&rt)?;
    let log = Kept::new(&rt);
    let inlet = Bound::new(Listener::Tcp(listener))?;
    let (rt, log_there, inlet_there) = (&rt, &log, &inlet);
    let (served, ()) = thread::join(
        rt,
        move || {
            let terms = terms(9, 3);
            let operation = Operation::new(&terms);
            let admin = None;
            let service = Service {
                rt,
                alloc: rt.alloc(),
                log: log_there,
                inlet: inlet_there,
                terms,
                operation: &operation,
                admin: &admin,
            };
            serve_until_drained(&service)
        },
        move || inlet_there.shut(),
    );
    assert_eq!(rt; served, Err(RunFault::AcceptFailed));
    Ok(())
}
