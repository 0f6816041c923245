//! A reader and a writer whose other side is a peer.

use crate::parts::peer::Peer;
use std::alloc::Global;
use std::cell::RefCell;
use std::io;
use std::io::{Read, Write};

/// One way to a peer, or from it.
#[derive(Clone, Copy)]
pub(crate) struct Pipe<'a, 'b> {
    pub(crate) alloc: Global,
    pub(crate) peer: &'a RefCell<Peer<'b>>,
}

impl Read for Pipe<'_, '_> {
    fn read(&mut self, into: &mut [u8]) -> io::Result<usize> {
        let mut given = Vec::new(self.alloc);
        if let Ok(mut peer) = self.peer.try_borrow_mut() {
            peer.turn(into.len(), &mut given);
        }
        let mut from = given.as_slice();
        from.read(into)
    }
}

impl Write for Pipe<'_, '_> {
    fn write(&mut self, octets: &[u8]) -> io::Result<usize> {
        let is_taken = match self.peer.try_borrow_mut() {
            Ok(mut peer) => peer.take(octets),
            Err(_) => false,
        };
        if is_taken {
            Ok(octets.len())
        } else {
            Err(io::Error::other("the peer has failed"))
        }
    }

    fn flush(&mut self) -> io::Result<()> {
        Ok(())
    }
}
