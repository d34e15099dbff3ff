//! What the program does if an argument is not UTF-8, or if its standard output or standard error takes nothing.
use cv_cli::{arguments, explain, options, usage_status};
use std::alloc::Global;
use std::cell::Cell;
use std::env::FillError;
use std::fmt::Display;
use std::io::{self, ErrorKind};
use std::rt::Env;
use std::test::Fail;

/// A standard output that takes everything or nothing, and a standard error that keeps its text or takes nothing.
#[derive(Drop)]
struct Streams {
    alloc: Global,
    takes_output: bool,
    takes_errors: bool,
    errors: Cell<String>,
}

impl Print for Streams {
    fn print<D: Display + Drop>(&self, _value: D) -> io::Result<()> {
        self.write_all(b"")
    }

    fn println<D: Display + Drop>(&self, _value: D) -> io::Result<()> {
        self.write_all(b"")
    }

    fn write_all(&self, _bytes: &[u8]) -> io::Result<()> {
        if self.takes_output {
            Ok(())
        } else {
            Err(ErrorKind::BrokenPipe.into())
        }
    }
}

impl Eprint for Streams {
    fn eprint<D: Display + Drop>(&self, value: D) -> io::Result<()> {
        if !self.takes_errors {
            return Err(ErrorKind::BrokenPipe.into());
        }
        let before = self.errors.replace(String::new(self.alloc));
        let after = format!(in self.alloc; "{before}{value}")?;
        self.errors.set(after);
        Ok(())
    }

    fn eprintln<D: Display + Drop>(&self, value: D) -> io::Result<()> {
        self.eprint(value)?;
        self.eprint("\n")
    }
}

impl Streams {
    fn new(alloc: Global, takes_errors: bool) -> Streams {
        Streams {
            alloc,
            takes_output: false,
            takes_errors,
            errors: Cell::new(String::new(alloc)),
        }
    }
}

/// The arguments that a program was started with, the first of which is its name.
#[derive(Clone, Copy)]
struct Words(&'static [&'static [u8]]);

impl Env for Words {
    fn arg(&self, i: usize, buf: &mut [u8]) -> Result<usize, FillError> {
        let Some(word) = self.0.get(i) else {
            return Err(FillError::NotPresent);
        };
        if word.len() > buf.len() {
            return Err(FillError::TooLong);
        }
        buf[..word.len()].copy_from_slice(word);
        Ok(word.len())
    }

    fn var(&self, _name: &str, _buf: &mut [u8]) -> Result<usize, FillError> {
        Err(FillError::NotPresent)
    }

    fn var_at(&self, _i: usize, _buf: &mut [u8]) -> Result<usize, FillError> {
        Err(FillError::NotPresent)
    }
}

/// A word that is longer than the buffer that words are first read into.
const LONG: [u8; 700] = [b'x'; 700];

#[test]
fn words_are_read(rt: HostRuntime) -> Result<(), Fail> {
    let words = arguments(&Words(&[b"iconvd", &LONG, b""]), rt.alloc()).map_err(|_| "refused")?;
    assert_eq!(rt; words.len(), 3);
    assert!(rt; words[0].as_str() == "iconvd");
    assert!(rt; words[1].as_bytes() == LONG.as_slice());
    assert!(rt; words[2].is_empty());
    Ok(())
}

#[test]
fn a_word_that_is_no_text_is_named(rt: HostRuntime) -> Result<(), Fail> {
    let fault = arguments(&Words(&[b"iconvd", b"r\xffn"]), rt.alloc())
        .err()
        .ok_or("taken")?;
    let screen = Streams::new(rt.alloc(), true);
    assert_eq!(rt; explain(&screen, rt.alloc(), &fault), 2);
    let said = screen.errors.into_inner();
    assert!(rt;
        said.starts_with("error: argument 'r\\xffn' is not UTF-8\n"),
        "{said}"
    );
    Ok(())
}

#[test]
fn help_that_is_not_taken_is_a_failed_write(rt: HostRuntime) -> Result<(), Fail> {
    for word in ["--help", "--version"] {
        let asked = options(rt.alloc(), &["iconvd", word]).err().ok_or("taken")?;
        let screen = Streams::new(rt.alloc(), true);
        assert_eq!(rt; explain(&screen, rt.alloc(), &asked), 1);
        let said = screen.errors.into_inner();
        assert!(rt;
            said.as_str() == "iconvd: write failed after 0 bytes\n",
            "{said}"
        );
    }
    Ok(())
}

#[test]
fn help_that_is_taken_succeeds(rt: HostRuntime) -> Result<(), Fail> {
    for word in ["--help", "--version"] {
        let asked = options(rt.alloc(), &["iconvd", word]).err().ok_or("taken")?;
        let screen = Streams {
            takes_output: true,
            ..Streams::new(rt.alloc(), true)
        };
        assert_eq!(rt; explain(&screen, rt.alloc(), &asked), 0);
        assert!(rt; screen.errors.into_inner().is_empty());
    }
    Ok(())
}

#[test]
fn a_status_needs_no_standard_error(rt: HostRuntime) -> Result<(), Fail> {
    let closed = Streams::new(rt.alloc(), false);
    let fault = options(rt.alloc(), &["iconvd", "walk"])
        .err()
        .ok_or("taken")?;
    assert_eq!(rt; usage_status(&fault), 2);
    assert_eq!(rt; explain(&closed, rt.alloc(), &fault), 2);
    let asked = options(rt.alloc(), &["iconvd", "--help"])
        .err()
        .ok_or("taken")?;
    assert_eq!(rt; explain(&closed, rt.alloc(), &asked), 1);
    Ok(())
}
