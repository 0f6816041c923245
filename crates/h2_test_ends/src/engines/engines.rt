//! Engines that do their work, or report that an allocation was refused: to themselves, or to their
//! link, whose write then fails. Then a prefix of the output was written, and perhaps GOAWAY.

use super::acts::get;
use h2_engines::{Config, Link, LinkError, MemoryLink, fetch_link, serve_link};
use std::alloc::{AllocError, Global};

/// What a client of the default configuration sends that asks with GET for `/` of www.example.com
/// (RFC 7541, appendix C.4.1).
const ASKED: &[u8] = b"PRI * HTTP/2.0\r\n\r\nSM\r\n\r\n\
    \x00\x00\x18\x04\x00\x00\x00\x00\x00\x00\x01\x00\x00\x10\x00\x00\x02\x00\x00\x00\x00\
    \x00\x04\x00\x00\xff\xff\x00\x06\x00\x01\x00\x00\
    \x00\x00\x11\x01\x05\x00\x00\x00\x01\
    \x82\x86\x84\x41\x8c\xf1\xe3\xc2\xe5\xf2\x3a\x6b\xa0\xab\x90\xf4\xff";

/// What a server of the default configuration responds.
const ANSWERED: &[u8] = b"\
    \x00\x00\x18\x04\x00\x00\x00\x00\x00\x00\x01\x00\x00\x10\x00\x00\x03\x00\x00\x00\x64\
    \x00\x04\x00\x00\xff\xff\x00\x06\x00\x01\x00\x00\
    \x00\x00\x00\x04\x01\x00\x00\x00\x00\
    \x00\x00\x04\x01\x04\x00\x00\x00\x01\x88\x5c\x81\x73\
    \x00\x00\x06\x00\x01\x00\x00\x00\x01GET /\n";

/// What precedes the GOAWAY at the end of an output; all of it where there is none.
fn without_goaway(output: &[u8]) -> &[u8] {
    match output.split_at_checked(output.len().saturating_sub(17)) {
        Some((others, [0, 0, 8, 7, 0, 0, 0, 0, 0, ..])) => others,
        _ => output,
    }
}

/// Whether an engine has ended so that it may, where its output is to be this.
fn is_sound(error: Option<LinkError>, link: &MemoryLink, wanted: &[u8]) -> bool {
    let (failures, output) = (link.failures(), link.output());
    match error {
        None => failures == 0 && output == wanted,
        Some(LinkError::Device) => failures == 1 && wanted.starts_with(output),
        Some(LinkError::Memory) => failures == 0 && wanted.starts_with(without_goaway(output)),
        Some(_) => false,
    }
}

/// A link that gives these octets.
fn new_link(alloc: Global, input: &[u8]) -> Result<MemoryLink, AllocError> {
    Ok(MemoryLink::new(alloc, Vec::from_slice(alloc, input)?))
}

/// Whether a server is sound.
fn serves(alloc: Global) -> Result<bool, AllocError> {
    let mut link = new_link(alloc, ASKED)?;
    if link.failures() > 0 {
        return Ok(false);
    }
    let error = serve_link(alloc, &mut link, Config::default()).err();
    Ok(is_sound(error, &link, ANSWERED))
}

/// Whether a client is.
fn fetches(alloc: Global) -> Result<bool, AllocError> {
    let message = get(alloc)?;
    let mut link = new_link(alloc, ANSWERED)?;
    if link.failures() > 0 {
        return Ok(false);
    }
    let error = fetch_link(alloc, &mut link, Config::default(), message).err();
    Ok(is_sound(error, &link, ASKED))
}

#[test]
fn a_refused_allocation_at_a_server(rt: HostRuntime) {
    assert!(rt; serves(rt.alloc()).unwrap_or(true));
}

#[test]
fn a_refused_allocation_at_a_client(rt: HostRuntime) {
    assert!(rt; fetches(rt.alloc()).unwrap_or(true));
}
