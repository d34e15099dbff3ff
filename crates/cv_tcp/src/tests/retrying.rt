//! Calls that a signal interrupts.
use crate::retrying::{Retrying, TimeFrom, Waits};
use std::io::{self, ErrorKind, Read, Write};
use std::sync::{Mutex, Wait};
use std::test::Fail;
use std::thread;
use std::time::{Clock, Duration};

/// For how many milliseconds a signal stops a call.
const STOPPED: u64 = 20;

/// A peer of whose calls so many are interrupted, each after a while. It notes which limits were set.
#[derive(Drop)]
struct Interrupted<'a, R> {
    rt: &'a R,
    left: u32,
    limits: &'a Mutex<Vec<Option<Duration>>>,
}

impl<R: Clock> Interrupted<'_, R> {
    /// Whether this call is interrupted.
    fn stop(&mut self) -> io::Result<()> {
        if self.left == 0 {
            return Ok(());
        }
        self.left -= 1;
        thread::sleep(self.rt, Duration::from_millis(STOPPED));
        Err(io::Error::from(ErrorKind::Interrupted))
    }
}

impl<R: Wait> Waits for Interrupted<'_, R> {
    fn limit_waits(&self, limit: Option<Duration>) {
        let _ = self.limits.lock(self.rt).push(limit);
    }
}

impl<R: Clock> Read for Interrupted<'_, R> {
    fn read(&mut self, buf: &mut [u8]) -> io::Result<usize> {
        self.stop()?;
        let Some(first) = buf.first_mut() else {
            return Ok(0);
        };
        *first = b'a';
        Ok(1)
    }
}

impl<R: Clock> Write for Interrupted<'_, R> {
    fn write(&mut self, bytes: &[u8]) -> io::Result<usize> {
        self.stop()?;
        Ok(bytes.len())
    }

    fn flush(&mut self) -> io::Result<()> {
        Ok(())
    }
}

#[test]
fn interrupted_calls_go_on(rt: HostRuntime) -> Result<(), Fail> {
    let limits = Mutex::new(Vec::new(rt.alloc()));
    for (interruptions, limit) in [(0, None), (3, None), (0, Some(60)), (3, Some(60))] {
        let limit = limit.map(Duration::from_secs);
        let inner = Interrupted {
            rt: &rt,
            left: interruptions,
            limits: &limits,
        };
        let mut stream = Retrying::new(&rt, inner, limit, TimeFrom::Call);
        let mut buf = [0; 2];
        assert_eq!(rt; stream.read(&mut buf)?, 1);
        assert_eq!(rt; buf, [b'a', 0]);
        assert_eq!(rt; stream.write(b"abc")?, 3);
    }
    // Three times with less and less time, and then with the whole limit again.
    let limits = limits.into_inner();
    assert_eq!(rt; limits.len(), 4);
    assert_eq!(rt; limits[3], Some(Duration::from_secs(60)));
    assert!(rt; limits[0] < limits[3] && limits[1] < limits[0] && limits[2] < limits[1]);
    Ok(())
}

#[test]
fn an_interrupted_call_ends_with_its_time(rt: HostRuntime) -> Result<(), Fail> {
    let limits = Mutex::new(Vec::new(rt.alloc()));
    let inner = Interrupted {
        rt: &rt,
        left: 2,
        limits: &limits,
    };
    let mut stream = Retrying::new(&rt, inner, Some(Duration::from_millis(1)), TimeFrom::Call);
    let mut buf = [0; 2];
    let read = stream.read(&mut buf).map_err(|failure| failure.kind());
    assert_eq!(rt; read, Err(ErrorKind::WouldBlock));
    let written = stream.write(b"abc").map_err(|failure| failure.kind());
    assert_eq!(rt; written, Err(ErrorKind::WouldBlock));
    assert_eq!(rt; stream.write(b"abc")?, 3);
    assert_eq!(rt; limits.into_inner().len(), 0);
    Ok(())
}

#[test]
fn time_may_count_from_the_first_interruption(rt: HostRuntime) -> Result<(), Fail> {
    let limits = Mutex::new(Vec::new(rt.alloc()));
    for (interruptions, limit, ends) in [
        (1, 1, Ok(1)),
        (2, 1, Err(ErrorKind::WouldBlock)),
        (3, 60_000, Ok(1)),
    ] {
        let inner = Interrupted {
            rt: &rt,
            left: interruptions,
            limits: &limits,
        };
        let limit = Some(Duration::from_millis(limit));
        let mut stream = Retrying::new(&rt, inner, limit, TimeFrom::Interruption);
        let mut buf = [0; 2];
        let read = stream.read(&mut buf).map_err(|failure| failure.kind());
        assert_eq!(rt; read, ends);
    }
    // Only the last one waited with less time: twice, and then with the whole limit again.
    let limits = limits.into_inner();
    assert_eq!(rt; limits.len(), 3);
    assert_eq!(rt; limits[2], Some(Duration::from_secs(60)));
    assert!(rt; limits[0] < limits[2] && limits[1] < limits[0]);
    Ok(())
}
