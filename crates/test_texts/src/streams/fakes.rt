//! A reader and a writer whose calls fail when they are told to.

use std::io;
use std::io::{ErrorKind, Read, Write};

/// Which call fails, counted from 1, and how.
#[derive(Clone, Copy)]
pub struct FailsAt {
    pub call: u64,
    pub kind: ErrorKind,
}

/// A reader that gives this many bytes a call, and fails at one call.
#[derive(Drop)]
pub struct Source<'a> {
    rest: &'a [u8],
    most: usize,
    calls: u64,
    fails_at: FailsAt,
}

impl<'a> Source<'a> {
    pub fn new(text: &'a [u8], most: usize, fails_at: FailsAt) -> Source<'a> {
        Source {
            rest: text,
            most,
            calls: 0,
            fails_at,
        }
    }
}

impl Read for Source<'_> {
    fn read(&mut self, buf: &mut [u8]) -> io::Result<usize> {
        self.calls = self.calls.saturating_add(1);
        if self.calls == self.fails_at.call {
            return Err(io::Error::from(self.fails_at.kind));
        }
        let room = buf.len().min(self.most);
        let rest = &mut self.rest;
        rest.read(&mut buf[..room])
    }
}

/// A writer that takes this many bytes a call, and fails or takes none at one call.
#[derive(Drop)]
pub struct Sink {
    pub taken: Vec<u8>,
    most: usize,
    calls: u64,
    fails_at: FailsAt,
    is_silent: bool,
}

impl Sink {
    /// A silent sink takes no byte in place of its fails_at.
    pub fn new(taken: Vec<u8>, most: usize, fails_at: FailsAt, is_silent: bool) -> Sink {
        Sink {
            taken,
            most,
            calls: 0,
            fails_at,
            is_silent,
        }
    }

    fn call(&mut self) -> io::Result<()> {
        self.calls = self.calls.saturating_add(1);
        if self.calls == self.fails_at.call {
            return Err(io::Error::from(self.fails_at.kind));
        }
        Ok(())
    }
}

impl Write for Sink {
    fn write(&mut self, buf: &[u8]) -> io::Result<usize> {
        if let Err(error) = self.call() {
            return if self.is_silent { Ok(0) } else { Err(error) };
        }
        let count = buf.len().min(self.most);
        self.taken.extend_from_slice(&buf[..count])?;
        Ok(count)
    }

    fn flush(&mut self) -> io::Result<()> {
        self.call()
    }
}
