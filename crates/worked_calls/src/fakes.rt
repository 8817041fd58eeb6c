//! Readers and writers that fail or are slow.
use std::io;
use std::io::{Error, ErrorKind, Read, Write};

/// Returns one byte per read, each after an interrupted read, and fails once its reads are used up.
#[derive(Drop)]
pub struct Slow<'a> {
    pub bytes: &'a [u8],
    pub is_interrupted: bool,
    pub reads_left: usize,
}

impl Read for Slow<'_> {
    fn read(&mut self, buf: &mut [u8]) -> io::Result<usize> {
        if self.reads_left == 0 {
            return Err(Error::from(ErrorKind::Other));
        }
        self.reads_left -= 1;
        self.is_interrupted = !self.is_interrupted;
        if self.is_interrupted {
            return Err(Error::from(ErrorKind::Interrupted));
        }
        match self.bytes.split_first() {
            Some((byte, rest)) if !buf.is_empty() => {
                buf[0] = *byte;
                self.bytes = rest;
                Ok(1)
            }
            _ => Ok(0),
        }
    }
}

/// Returns this many zeros, as many as fit at each read.
#[derive(Drop)]
pub struct Zeros(pub usize);

impl Read for Zeros {
    fn read(&mut self, buf: &mut [u8]) -> io::Result<usize> {
        let count = self.0.min(buf.len());
        self.0 -= count;
        Ok(count)
    }
}

/// Takes up to `width` bytes per write, and fails or takes none once its writes are used up.
#[derive(Drop)]
pub struct Narrow {
    pub held: Vec<u8>,
    pub width: usize,
    pub writes_left: usize,
    pub takes_none: bool,
}

impl Write for Narrow {
    fn write(&mut self, buf: &[u8]) -> io::Result<usize> {
        if self.writes_left == 0 {
            return if self.takes_none {
                Ok(0)
            } else {
                Err(Error::from(ErrorKind::Other))
            };
        }
        self.writes_left -= 1;
        let count = self.width.min(buf.len());
        self.held.extend_from_slice(&buf[..count])?;
        Ok(count)
    }

    fn flush(&mut self) -> io::Result<()> {
        Ok(())
    }
}
