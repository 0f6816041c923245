//! A handler of whole requests: what an service is asked with.

ghost use Rattle.std.specs.Prelude.{◌≡◌};

use crate::asked::{asked, link_of, place_of};
use h2_ends::{Config, Message};
use h2_engines::MemoryLink;
use h2_serve::{Buffered, Field, HandlerFault, LinkError, Request, Service, serve_handler};
use std::alloc::Global;

/// Answers with how many octets the body has, a space and the value of the first trailer.
#[derive(Drop)]
struct Measure;

impl Service for Measure {
    fn respond(&mut self, alloc: Global, request: &Request) -> Result<Message, HandlerFault> {
        let mut text = request.body.len().to_string(alloc)?;
        text.push_str(" ")?;
        if let Some(list) = &request.trailers
            && let Some(first) = list.first()
        {
            let mut octets = Vec::from_slice(alloc, text.as_bytes())?;
            octets.extend_from_slice(first.value.as_slice())?;
            return Ok(Message::response(alloc, 200)?.body(&octets)?);
        }
        Ok(Message::response(alloc, 200)?.body(text.as_bytes())?)
    }
}

/// A POST with so many octets, and a trailer; none when out of memory.
fn post(alloc: Global, length: usize) -> Option<Message> {
    let body = vec![in alloc; b'x'; length].ok()?;
    let message = Message::request(alloc, b"POST", b"h", b"/").ok()?;
    let mut message = message.body(&body).ok()?;
    let mut list = Vec::new(alloc);
    list.push(Field::copy_of(alloc, b"sum", b"seven", false).ok()?)
        .ok()?;
    message.trailers = Some(list);
    Some(message)
}

/// All that a client sends that makes this request.
fn octets_of(alloc: Global, length: usize) -> Option<Vec<u8>> {
    let mut messages = Vec::new(alloc);
    messages.push(post(alloc, length)?).ok()?;
    asked(alloc, messages)
}

/// How a handler that takes bodies of so many octets serves a link, by the requests it counts.
fn measures(alloc: Global, link: &mut MemoryLink, most: usize) -> Result<u64, LinkError>
    requires { link.old.failures ≡ 0 }
{
    serve_handler(alloc, link, Config::default(), Buffered::new(Measure, most))
}

/// Whether a request with 40,000 octets, of which `most` are taken, is served, with these octets
/// among those that the server sends.
fn is_answered(alloc: Global, most: usize, sent: &[u8]) -> bool {
    let Some(octets) = octets_of(alloc, 40_000) else {
        return false;
    };
    match link_of(alloc, &octets, 16_384) {
        Ok(mut link) => {
            let served = measures(alloc, &mut link, most);
            served == Ok(1) && place_of(link.output(), sent).is_some()
        }
        Err(_) => false,
    }
}

// rule: handlers (own) A whole request is answered by what has come of it, all and in order
// The body has three frames, and as many octets as are taken.
#[test]
fn all_of_a_request(rt: HostRuntime) {
    assert!(rt; is_answered(rt.alloc(), 40_000, b"40000 seven"));
}

/// HEADERS of stream 1 with status 413 and END_STREAM.
const TOO_LARGE: &[u8] = b"\0\0\x05\x01\x05\0\0\0\x01\x48\x83\x68\x2c\xff";

/// RST_STREAM of stream 1 with NO_ERROR.
const STOP: &[u8] = b"\0\0\x04\x03\0\0\0\0\x01\0\0\0\0";

/// Whether a body that is too long is refused, and the client asked to stop if more is to come:
/// of the first, all has come before anything is sent; of the second, less than half.
fn is_refused(alloc: Global) -> bool {
    let is_whole = is_answered(alloc, 39_999, TOO_LARGE) && !is_answered(alloc, 39_999, STOP);
    is_whole && is_answered(alloc, 10_000, TOO_LARGE) && is_answered(alloc, 10_000, STOP)
}

// rule: HTTP 15.5.14 (own) A body above what is gathered is refused with status 413
// rule: 8.1 (own) The stream of a refused request is reset with NO_ERROR after the answer
#[test]
fn body_with_too_many_octets(rt: HostRuntime) {
    assert!(rt; is_refused(rt.alloc()));
}
