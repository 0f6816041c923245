//! A client of the host: octets on their way, and what it has taken.

use crate::served::{CloseReason, Place};
use h2_case::words::Words;
use h2_case_conn::answers::extend;
use std::alloc::Global;

/// What has become of a connection.
#[derive(Clone, Copy)]
pub(crate) enum End {
    /// It is open.
    Open,
    /// It is over, and its transport was closed.
    Over(Option<CloseReason>),
    /// Its transport is gone.
    Gone,
}

/// A client.
#[derive(Drop)]
pub(crate) struct Client {
    pub(crate) name: String,
    /// The name of its connection.
    pub(crate) place: Place,
    /// Octets that it has sent; the first of them were read.
    sent: Vec<u8>,
    /// The number of octets that were read.
    read: usize,
    /// Whether it has ended its side.
    pub(crate) has_ended: bool,
    /// The number of octets that it takes from now on.
    pub(crate) takes: usize,
    /// The octets that it has taken.
    taken: Vec<u8>,
    pub(crate) end: End,
}

impl Client {
    /// A client that takes all.
    pub(crate) fn new(alloc: Global, name: String, place: Place) -> Client {
        Client {
            name,
            place,
            sent: Vec::new(alloc),
            read: 0,
            has_ended: false,
            takes: usize::MAX,
            taken: Vec::new(alloc),
            end: End::Open,
        }
    }

    /// Sends octets.
    pub(crate) fn send(&mut self, octets: &[u8], words: &mut Words<'_>) {
        extend(&mut self.sent, octets, words);
    }

    /// The octets on their way.
    pub(crate) fn unread(&self) -> &[u8] {
        self.sent.get(self.read..).unwrap_or(&[])
    }

    /// Notes that octets on their way were read.
    pub(crate) fn mark_read(&mut self, count: usize) {
        self.read = self.read.saturating_add(count);
        if self.read >= self.sent.len() {
            self.sent.clear();
            self.read = 0;
        }
    }

    /// Whether its transport can be read: octets are on their way, or it has ended its side.
    pub(crate) fn is_readable(&self) -> bool {
        self.has_ended || !self.unread().is_empty()
    }

    /// Takes what it can of two parts, and returns the number of octets.
    pub(crate) fn write(&mut self, first: &[u8], second: &[u8], words: &mut Words<'_>) -> usize {
        let before = self.taken.len();
        self.write_part(first, words);
        self.write_part(second, words);
        self.taken.len().saturating_sub(before)
    }

    // Takes what it can of a part.
    fn write_part(&mut self, part: &[u8], words: &mut Words<'_>) {
        let piece = part.get(..self.takes).unwrap_or(part);
        self.takes = self.takes.saturating_sub(piece.len());
        extend(&mut self.taken, piece, words);
    }

    /// The octets that it has taken, which are then taken away.
    pub(crate) fn output(&mut self, alloc: Global) -> Vec<u8> {
        std::mem::replace(&mut self.taken, Vec::new(alloc))
    }
}
