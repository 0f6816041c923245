//! A file that is made as it is read, served in parts to a client in memory.

use crate::counts::Counts;
use crate::serving::mark;
use anyhow::Result;
use h2_ends::{Client, Config, EndEvent, FieldList, Message};
use h2_uses::{Opener, serve_files};
use std::alloc::Global;
use std::cell::RefCell;
use std::io;
use std::io::{Read, Repeat, Take, Write, repeat};

/// The octet that a file consists of.
const OCTET: u8 = b'.';

/// Opens a file of so many octets, whatever is asked for.
#[derive(Drop)]
struct Dots {
    length: u64,
}

impl Opener for Dots {
    type File = Take<Repeat>;

    fn open(&mut self, _head: &FieldList) -> Result<Option<Take<Repeat>>> {
        Ok(Some(repeat(OCTET).take(self.length)))
    }
}

/// A client, and what has come to it.
#[derive(Drop)]
struct Reader {
    client: Client,
    octets: usize,
    bodies: u64,
}

/// One way to the client, or from it.
#[derive(Drop)]
struct Pipe<'a> {
    alloc: Global,
    reader: &'a RefCell<Reader>,
}

impl Reader {
    /// Takes octets of the server, and lets it send as much again.
    fn take(&mut self, piece: &[u8]) -> Result<()> {
        let mut unused = piece;
        for _ in 0..u64::MAX {
            let taken = self.client.take(unused)?;
            unused = &unused[taken.used..];
            match taken.event {
                Some(EndEvent::Body { bytes, end, .. }) => {
                    self.octets = self.octets.wrapping_add(bytes.len());
                    self.bodies = self.bodies.wrapping_add(u64::from(end));
                }
                None if unused.is_empty() => break, // an event need not use octets
                _ => {}
            }
        }
        Ok(self.client.release_all()?)
    }
}

impl Read for Pipe<'_> {
    fn read(&mut self, into: &mut [u8]) -> io::Result<usize> {
        let mut given = Vec::new(self.alloc);
        if let Ok(mut reader) = self.reader.try_borrow_mut() {
            let _ = reader.client.put_out(into.len(), &mut given);
        }
        let mut from = given.as_slice();
        from.read(into)
    }
}

impl Write for Pipe<'_> {
    fn write(&mut self, octets: &[u8]) -> io::Result<usize> {
        let is_taken = match self.reader.try_borrow_mut() {
            Ok(mut reader) => reader.take(octets).is_ok(),
            Err(_) => false,
        };
        if is_taken {
            Ok(octets.len())
        } else {
            Err(io::Error::other("the client has failed"))
        }
    }

    fn flush(&mut self) -> io::Result<()> {
        Ok(())
    }
}

/// A client that asks for the file.
fn asking(alloc: Global) -> Result<Reader> {
    let request = Message::get(alloc, b"localhost", b"/")?;
    let mut reader = Reader {
        client: Client::new(alloc, Config::default())?,
        octets: 0,
        bodies: 0,
    };
    ask(&mut reader.client, request)?;
    Ok(reader)
}

fn ask(client: &mut Client, request: Message) -> Result<()> {
    match client.request(request) {
        Ok(_) => Ok(()),
        Err((_, refusal)) => Err(refusal.into()),
    }
}

/// Serves a file of so many octets. The driver looks before there is an end, and at last.
fn stream(alloc: Global, length: u64, counts: &mut Counts) -> Result<()> {
    mark(alloc)?;
    let reader = RefCell::new(asking(alloc)?);
    let mut from = Pipe {
        alloc,
        reader: &reader,
    };
    let mut to = Pipe {
        alloc,
        reader: &reader,
    };
    serve_files(alloc, &mut from, &mut to, &mut Dots { length })?;
    mark(alloc)?;
    let reader = reader.into_inner();
    counts.units = reader.bodies;
    counts.add_octets(reader.octets);
    Ok(())
}

/// Serves a file of so many octets.
pub(crate) fn stream_octets(alloc: Global, length: u64, counts: &mut Counts) -> i32 {
    match stream(alloc, length, counts) {
        Ok(()) => 0,
        Err(_) => 1,
    }
}
