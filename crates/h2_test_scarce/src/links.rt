//! Connections over links whose vectors have their room from the start.

ghost use Rattle.std.specs.Prelude.{None};

use crate::lists::get;
use crate::record::{Record, Scenario, holds};
use crate::walk::without_goaway;
use h2_engines::{
    Config, Fetched, Field, Link, LinkError, LinkFault, Message, fetch_link, serve_link,
};
use std::alloc::{AllocError, Global};

/// What a client of the default configuration sends that asks with GET for `/` of www.example.com
/// (RFC 7541, appendix C.4.1).
const ASKED: &[u8] = b"PRI * HTTP/2.0\r\n\r\nSM\r\n\r\n\
    \x00\x00\x18\x04\x00\x00\x00\x00\x00\x00\x01\x00\x00\x10\x00\x00\x02\x00\x00\x00\x00\
    \x00\x04\x00\x00\xff\xff\x00\x06\x00\x01\x00\x00\
    \x00\x00\x11\x01\x05\x00\x00\x00\x01\
    \x82\x86\x84\x41\x8c\xf1\xe3\xc2\xe5\xf2\x3a\x6b\xa0\xab\x90\xf4\xff";

/// What a server of the default configuration responds.
const ANSWERED: &[u8] = b"\
    \x00\x00\x18\x04\x00\x00\x00\x00\x00\x00\x01\x00\x00\x10\x00\x00\x03\x00\x00\x00\x64\
    \x00\x04\x00\x00\xff\xff\x00\x06\x00\x01\x00\x00\
    \x00\x00\x00\x04\x01\x00\x00\x00\x00\
    \x00\x00\x04\x01\x04\x00\x00\x00\x01\x88\x5c\x81\x73\
    \x00\x00\x06\x00\x01\x00\x00\x00\x01GET /\n";

/// What a client has not written yet where a response is complete that came with the SETTINGS of
/// the server: the acknowledgment of these. Where it fails it writes that before GOAWAY.
const ACK: &[u8] = b"\x00\x00\x00\x04\x01\x00\x00\x00\x00";

/// A link in memory whose output has room for what comes, and which fails where it has not.
#[derive(Drop)]
struct RoomyLink {
    input: &'static [u8],
    output: Vec<u8>,
    ended: bool,
    stalled: bool,
    failures: u64,
}

impl RoomyLink {
    /// A link that gives these octets.
    fn new(alloc: Global, input: &'static [u8]) -> Result<RoomyLink, AllocError> {
        Ok(RoomyLink {
            input,
            output: Vec::with_capacity(alloc, 1_000)?,
            ended: false,
            stalled: false,
            failures: 0,
        })
    }
}

impl Link for RoomyLink {
    ghost given = { λ link. None };

    ghost taken = { λ link. None };

    ghost ended = { λ link. link.ended };

    ghost stalled = { λ link. link.stalled };

    ghost faults = { λ link. link.failures };

    fn read(&mut self, buffer: &mut [u8]) -> Result<usize, LinkFault> {
        let count = self.input.len().min(buffer.len());
        buffer[..count].copy_from_slice(&self.input[..count]);
        self.input = &self.input[count..];
        self.ended = (!buffer.is_empty() && count == 0) || self.ended;
        Ok(count)
    }

    fn write(&mut self, octets: &[u8]) -> Result<usize, LinkFault> {
        let room = self.output.capacity().saturating_sub(self.output.len());
        let count = octets.len();
        if count > room || self.output.extend_from_slice(octets).is_err() {
            self.failures += 1;
            return Err(LinkFault);
        }
        self.stalled = (!octets.is_empty() && count == 0) || self.stalled;
        Ok(count)
    }

    fn failures(&self) -> u64 {
        self.failures
    }
}

/// Notes an error: N3 ends the run, with the first of the output, and perhaps GOAWAY.
fn note_error(error: LinkError, output: &[u8], record: &mut Record) {
    record.check(error == LinkError::Memory);
    record.fail();
    record.put_out(without_goaway(output).unwrap_or(output));
}

/// Notes fields.
fn note_fields(fields: &[Field], record: &mut Record) {
    for field in fields {
        record.note_octets(field.name.as_slice());
        record.note_octets(field.value.as_slice());
    }
}

/// Notes a response.
fn note_fetched(fetched: &Fetched, record: &mut Record) {
    note_fields(&fetched.head, record);
    record.note_octets(&fetched.body);
    record.check(fetched.interims.is_empty() && fetched.trailers.is_none());
}

/// A server over a link.
#[derive(Drop)]
struct Serving {
    link: RoomyLink,
}

impl Scenario for Serving {
    fn run(&mut self, record: &mut Record) {
        if self.link.failures == u64::MAX {
            return record.check(false);
        }
        let served = serve_link(record.alloc, &mut self.link, Config::default());
        match served {
            Ok(count) => {
                record.note(u64::from(count));
                record.put_out(&self.link.output);
            }
            Err(error) => note_error(error, &self.link.output, record),
        }
    }
}

/// A client over a link, with its request.
#[derive(Drop)]
struct Fetching {
    link: RoomyLink,
    message: Option<Message>,
}

impl Scenario for Fetching {
    fn run(&mut self, record: &mut Record) {
        if self.link.failures == u64::MAX {
            return record.check(false);
        }
        let Some(message) = self.message.take() else {
            return record.check(false);
        };
        let fetched = fetch_link(record.alloc, &mut self.link, Config::default(), message);
        match fetched {
            Ok(fetched) => {
                note_fetched(&fetched, record);
                record.put_out(&self.link.output);
                record.put_out(ACK);
            }
            Err(error) => note_error(error, &self.link.output, record),
        }
    }
}

/// A server over a link that gives a client's octets.
fn new_serving(alloc: Global) -> Result<Serving, AllocError> {
    Ok(Serving {
        link: RoomyLink::new(alloc, ASKED)?,
    })
}

/// A client over a link that gives a server's octets.
fn new_fetching(alloc: Global) -> Result<Fetching, AllocError> {
    Ok(Fetching {
        link: RoomyLink::new(alloc, ANSWERED)?,
        message: Some(get(alloc)?),
    })
}

/// Whether a server withstands refused memory, and writes these octets otherwise.
fn server_bears(alloc: Global) -> Result<bool, AllocError> {
    let (mut first, mut second) = (new_serving(alloc)?, new_serving(alloc)?);
    let bears = holds(alloc, &mut first, &mut second);
    Ok(bears && first.link.output.as_slice() == ANSWERED)
}

/// Whether a client does.
fn client_bears(alloc: Global) -> Result<bool, AllocError> {
    let (mut first, mut second) = (new_fetching(alloc)?, new_fetching(alloc)?);
    let bears = holds(alloc, &mut first, &mut second);
    Ok(bears && first.link.output.as_slice() == ASKED)
}

// rule: engines (own) N2 has the code with which the connection failed; memory is N3
#[test]
fn server_over_a_link(rt: HostRuntime) {
    assert!(rt; server_bears(rt.alloc()).unwrap_or(false));
}

#[test]
fn client_over_a_link(rt: HostRuntime) {
    assert!(rt; client_bears(rt.alloc()).unwrap_or(false));
}
