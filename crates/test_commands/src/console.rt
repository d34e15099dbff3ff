//! A runtime whose standard input is given bytes, and which keeps what is printed.
ghost use Rattle.std.specs.Prelude.{◌≤◌};

use cv_commands::{RunFault, ask, pipe, show};
use std::alloc::{Allocator, Global};
use std::fmt::Display;
use std::io::{self, BufRead, Lines};
use std::random::RandomSource;
use std::sync::{Mutex, Wait};
use std::test::Fail;
use std::thread::Threads;

/// It waits, starts threads and draws random bytes as the runtime `rt` does.
#[derive(Drop)]
pub struct Console<'a, R> {
    rt: &'a R,
    alloc: Global,
    input: &'a [u8],
    output: Mutex<Vec<u8>>,
}

impl<'a, R: AllocGlobal> Console<'a, R> {
    pub fn new(rt: &'a R, input: &'a [u8]) -> Console<'a, R> {
        let alloc = rt.alloc();
        Console {
            rt,
            alloc,
            input,
            output: Mutex::new(Vec::new(alloc)),
        }
    }

    /// Returns what was printed.
    pub fn into_output(self) -> Vec<u8> {
        self.output.into_inner()
    }
}

impl<'a, R: Wait> Wait for Console<'a, R> {}

impl<'a, R: Threads> Threads for Console<'a, R> {}

impl<'a, R: RandomSource> RandomSource for Console<'a, R> {
    fn fill_bytes(&self, buf: &mut [u8]) -> io::Result<()> {
        self.rt.fill_bytes(buf)
    }
}

impl<'a, R> Alloc for Console<'a, R> {
    type A = Global;

    fn alloc(&self) -> Global {
        self.alloc
    }
}

impl<'a, R> Input for Console<'a, R> {
    type Reader = &'a [u8];

    fn read_line<A: Allocator + Clone>(&self, buf: &mut String<A>) -> io::Result<usize> {
        self.reader().read_line(buf)
    }

    fn lines<A: Allocator>(&self, alloc: A) -> Lines<&'a [u8], A> {
        self.reader().lines(alloc)
    }

    fn reader(&self) -> &'a [u8] {
        self.input
    }
}

impl<'a, R: Wait> Print for Console<'a, R> {
    fn print<D: Display + Drop>(&self, value: D) -> io::Result<()> {
        let text = format!(in self.alloc; "{value}")?;
        self.write_all(text.as_bytes())
    }

    fn println<D: Display + Drop>(&self, value: D) -> io::Result<()> {
        self.print(value)?;
        self.write_all(b"\n")
    }

    fn write_all(&self, bytes: &[u8]) -> io::Result<()> {
        self.output.lock(self.rt).extend_from_slice(bytes)?;
        Ok(())
    }
}

/// Returns what `pipe` writes for these requests, and its fault, if it ended by one.
pub fn piped<R: AllocGlobal + RandomSource + Threads + Wait + Sync>(
    rt: &R,
    requests: &[u8],
    workers: u32,
) -> (Vec<u8>, Option<RunFault>)
    requires { (1 ≤ workers) × (workers ≤ 16) }
{
    let console = Console::new(rt, requests);
    let fault = pipe(&console, workers).err();
    (console.into_output(), fault)
}

/// Returns what `ask`, `pipe` and `show` print for a script, if each gets the output of the one before.
pub fn chain<R: AllocGlobal + RandomSource + Threads + Wait + Sync>(
    rt: &R,
    script: &[u8],
    workers: u32,
) -> Result<Vec<u8>, Fail>
    requires { (1 ≤ workers) × (workers ≤ 16) }
{
    let asked = Console::new(rt, script);
    ask(&asked)?;
    let requests = asked.into_output();
    let (replies, fault) = piped(rt, &requests, workers);
    if fault.is_some() {
        return Err("not served".into());
    }
    let shown = Console::new(rt, &replies);
    show(&shown)?;
    Ok(shown.into_output())
}
