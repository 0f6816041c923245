//! A transport in memory.

use crate::transport::Transport;
use std::alloc::Global;
use std::io::{self, ErrorKind};

/// A transport that gives and takes few octets in a call, and keeps count of both.
#[derive(Drop)]
pub(crate) struct Memory<'a> {
    alloc: Global,
    /// What it gives next.
    rest: &'a [u8],
    /// The maximum number of octets per call.
    most: usize,
    /// How every other call fails.
    fails: ErrorKind,
    /// The number of reads that succeed.
    pub(crate) reads: usize,
    /// The number of writes that succeed.
    pub(crate) writes: usize,
    /// What it has given.
    given: Vec<u8>,
    /// What it has taken.
    taken: Vec<u8>,
}

impl<'a> Memory<'a> {
    /// A transport of which each call fails.
    pub(crate) fn new(alloc: Global, rest: &'a [u8], most: usize, fails: ErrorKind) -> Memory<'a> {
        Memory {
            alloc,
            rest,
            most,
            fails,
            reads: 0,
            writes: 0,
            given: Vec::new(alloc),
            taken: Vec::new(alloc),
        }
    }

    /// Whether it has taken just these octets.
    pub(crate) fn has_taken(&self, octets: &[u8]) -> bool {
        self.taken.as_slice() == octets
    }
}

impl Transport for Memory<'_> {
    ghost use Rattle.std.specs.Prelude.{Some};

    ghost given = { λ memory. Some memory.given.items };

    ghost taken = { λ memory. Some memory.taken.items };

    fn read_some(&mut self, room: &mut [u8]) -> io::Result<usize> {
        if self.reads == 0 {
            return Err(self.fails.into());
        }
        let count = self.most.min(self.rest.len()).min(room.len());
        self.given.extend_from_slice(&self.rest[..count])?;
        room[..count].copy_from_slice(&self.rest[..count]);
        self.rest = &self.rest[count..];
        self.reads -= 1;
        Ok(count)
    }

    fn write_both(&mut self, first: &[u8], second: &[u8]) -> io::Result<usize> {
        if self.writes == 0 {
            return Err(self.fails.into());
        }
        let mut both = Vec::from_slice(self.alloc, first)?;
        both.extend_from_slice(second)?;
        let count = self.most.min(both.len());
        self.taken.extend_from_slice(&both[..count])?;
        self.writes -= 1;
        Ok(count)
    }
}
