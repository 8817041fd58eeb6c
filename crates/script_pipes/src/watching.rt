//! Readers and writers of std as sources and sinks.
ghost use Rattle.std.specs.Prelude.{◌≡◌, true};
ghost use Rattle.script_pipes.specs.{Failures.{count_with}, Watch.{Watch}};

use crate::reading::Source;
use crate::writing::Sink;
use std::io;
use std::io::{Read, Write};
use std::marker::Model;

/// A reader or writer of std, with the number of its reads, and of its calls that failed or accepted no byte.
#[derive(Drop)]
pub struct Watched<T> {
    inner: T,
    reads: u64,
    failed: u64,
}

impl<T> Model for Watched<T> {
    ghost Value = { Watch T };

    ghost view = { λ w. record { inner = w.inner; reads = w.reads; failed = w.failed } };
}

impl<T> Watched<T> {
    /// Wraps a reader or writer, with counts of 0.
    pub fn new(inner: T) -> Self
        ensures fresh { result ≡ record { inner = inner; reads = 0; failed = 0 } }
    {
        Watched {
            inner,
            reads: 0,
            failed: 0,
        }
    }

    /// Returns the reader or writer.
    pub fn into_inner(self) -> T
        ensures inner { result ≡ self.inner }
    {
        let Watched {
            inner,
            reads: _,
            failed: _,
        } = self;
        inner
    }
}

// Returns the count plus one; it saturates.
fn one_more(count: u64) -> u64
    ensures value { result ≡ count_with true count }
{
    count.saturating_add(1)
}

impl<R: Read> Source for Watched<R> {
    ghost remaining = { λ w. R.remaining w.inner };

    ghost reads = { λ w. w.reads };

    ghost failures = { λ w. w.failed };

    fn read(&mut self, buf: &mut [u8]) -> io::Result<usize> {
        let result = self.inner.read(buf);
        self.reads = one_more(self.reads);
        if result.is_err() {
            self.failed = one_more(self.failed);
        }
        result
    }
}

impl<W: Write> Sink for Watched<W> {
    ghost contents = { λ w. W.contents w.inner };

    ghost refusals = { λ w. w.failed };

    fn write(&mut self, buf: &[u8]) -> io::Result<usize> {
        let result = self.inner.write(buf);
        if matches!(&result, Ok(0) | Err(_)) {
            self.failed = one_more(self.failed);
        }
        result
    }
}
