//! Readers and writers over memory.

use std::io::{self, ErrorKind, Read, Write};

/// Gives octets in two pieces.
#[derive(Drop)]
pub(crate) struct Halves<'a> {
    first: &'a [u8],
    second: &'a [u8],
}

impl<'a> Halves<'a> {
    /// The first piece has `place` octets.
    pub(crate) fn new(octets: &'a [u8], place: usize) -> Halves<'a> {
        let (first, second) = octets.split_at_checked(place).unwrap_or((octets, &[]));
        Halves { first, second }
    }
}

impl Read for Halves<'_> {
    fn read(&mut self, buf: &mut [u8]) -> io::Result<usize> {
        if self.first.is_empty() {
            self.first = self.second;
            self.second = &[];
        }
        let count = self.first.len().min(buf.len());
        buf[..count].copy_from_slice(&self.first[..count]);
        self.first = &self.first[count..];
        Ok(count)
    }
}

/// A reader and a writer that fail.
#[derive(Drop)]
pub(crate) struct Failing;

impl Read for Failing {
    fn read(&mut self, _buf: &mut [u8]) -> io::Result<usize> {
        Err(io::Error::from(ErrorKind::Other))
    }
}

impl Write for Failing {
    fn write(&mut self, _buf: &[u8]) -> io::Result<usize> {
        Err(io::Error::from(ErrorKind::Other))
    }

    fn flush(&mut self) -> io::Result<()> {
        Ok(())
    }
}
