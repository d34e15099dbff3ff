//! Listens at what the process was given.
use super::kept::Kept;
use super::{bound, connected, lines_like, terms};
use crate::listening::listen_until_drained;
use crate::operation::Operation;
use cv_commands::RunFault;
use std::os::fd::AsRawFd;
use std::test::Fail;

#[test]
fn only_a_listener_is_taken(rt: HostRuntime) -> Result<(), Fail> {
    let alloc = rt.alloc();
    let (listener, address) = bound(&rt)?;
    let stream = connected(&rt, address)?;
    drop(listener.accept()?);
    let number = format!(in alloc; "fd:{}", stream.as_raw_fd())?;
    for (address, cause) in [
        (number.as_str(), "Invalid argument (os error 22)"),
        ("fd:65535", "Bad file descriptor (os error 9)"),
        ("fd:x", "invalid input parameter"),
    ] {
        let log = Kept::new(&rt);
        let terms = terms(1, 1);
        let operation = Operation::new(&terms);
        let listened = listen_until_drained(&rt, alloc, &log, address, terms, &operation);
        assert_eq!(rt; listened, Err(RunFault::CannotListen), "at {address}");
        let line = format!(in alloc; "ERROR {address}: cannot listen: {cause}")?;
        assert_eq!(rt; lines_like(&log.into_bytes(), &line), 1, "at {address}");
    }
    Ok(())
}
