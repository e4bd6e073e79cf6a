//! Readers and writers that count their failed calls.

ghost use Rattle.std.specs.Prelude.{◌≡◌};
ghost use Rattle.std.specs.Io.{ReadsAtMost, WritesAtMost};
ghost use Rattle.std.specs.Io.KnownBytes.{Keeps, ReadConsumes, WriteAppends};
ghost use Rattle.counted_io.specs.Counts.{inner_of, failures, one_more, count_after, count_after_write};

use std::io;
use std::io::{Read, Write};

/// A reader or a writer, and how many of its calls failed.
#[derive(Drop)]
pub struct Counted<T> {
    inner: T,
    failed: u64,
}

impl<T> Counted<T> {
    /// Counts the calls from here on.
    pub fn new(inner: T) -> Counted<T>
        ensures inner { inner_of result ≡ inner }
        ensures none { failures result ≡ 0 }
    {
        Counted { inner, failed: 0 }
    }

    /// How many calls failed, a write that took no byte among them. It stays at 2^64 - 1.
    pub fn failed(&self) -> u64
        ensures { result ≡ failures self.now }
    {
        self.failed
    }

    fn count_failure(&mut self)
        ensures inner { inner_of self.new ≡ inner_of self.old }
        ensures counted { failures self.new ≡ one_more (failures self.old) }
    {
        self.failed = self.failed.saturating_add(1);
    }
}

impl<R: Read> Read for Counted<R> {
    ghost remaining = { λ c. R.remaining (inner_of c) };

    fn read(&mut self, buf: &mut [u8]) -> io::Result<usize>
        ensures bound { ReadsAtMost result buf.new }
        ensures bytes { ReadConsumes (R.remaining (inner_of self.old)) (R.remaining (inner_of self.new)) result buf.new }
        ensures counted { failures self.new ≡ count_after (failures self.old) result }
    {
        let result = self.inner.read(buf);
        if result.is_err() {
            self.count_failure();
        }
        result
    }
}

impl<W: Write> Write for Counted<W> {
    ghost contents = { λ c. W.contents (inner_of c) };

    fn write(&mut self, buf: &[u8]) -> io::Result<usize>
        ensures bound { WritesAtMost result buf.now }
        ensures bytes { WriteAppends (W.contents (inner_of self.old)) (W.contents (inner_of self.new)) result buf.now }
        ensures counted { failures self.new ≡ count_after_write (failures self.old) result }
    {
        let result = self.inner.write(buf);
        if matches!(result, Ok(0) | Err(_)) {
            self.count_failure();
        }
        result
    }

    fn flush(&mut self) -> io::Result<()>
        ensures bytes { Keeps (W.contents (inner_of self.old)) (W.contents (inner_of self.new)) }
        ensures counted { failures self.new ≡ count_after (failures self.old) result }
    {
        let result = self.inner.flush();
        if result.is_err() {
            self.count_failure();
        }
        result
    }
}
