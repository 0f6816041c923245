//! What a handler has heard of a response.

use crate::asked::link_of;
use crate::receive::hearing::Hearing;
use h2_ends::{Config, Message};
use h2_receive::{FetchError, HandlerFault, LinkError, fetch_handler};
use std::alloc::{AllocError, Global};

/// What a server of the default configuration writes for GET of `/`: SETTINGS, the acknowledgment
/// of the client's, HEADERS with `:status` 200 and `content-length` 6, and DATA.
const RESPONSE: &[u8] = b"\
    \x00\x00\x18\x04\x00\x00\x00\x00\x00\
    \x00\x01\x00\x00\x10\x00\x00\x03\x00\x00\x00\x64\
    \x00\x04\x00\x00\xff\xff\x00\x06\x00\x01\x00\x00\
    \x00\x00\x00\x04\x01\x00\x00\x00\x00\
    \x00\x00\x04\x01\x04\x00\x00\x00\x01\x88\x5c\x81\x73\
    \x00\x00\x06\x00\x01\x00\x00\x00\x01GET /\n";

/// A request for `/`; none when out of memory. With `breaks` it has a field that no request may
/// have (RFC 9113, section 8.2.2).
fn request(alloc: Global, breaks: bool) -> Option<Message> {
    let message = Message::get(alloc, b"h", b"/").ok()?;
    if breaks {
        return message.field(alloc, b"connection", b"close").ok();
    }
    Some(message)
}

/// Whether a fetch over a link that gives these octets ends so, once this many heads and this body
/// were heard, and whether the handler has learned once how.
fn hears(
    alloc: Global,
    octets: &[u8],
    most: usize,
    hearing: Hearing,
    heads: u32,
    body: &[u8],
    outcome: Result<(), FetchError>,
) -> bool {
    let mut hearing = hearing;
    let (Some(message), Ok(mut link)) = (request(alloc, false), link_of(alloc, octets, most)) else {
        return false;
    };
    let ended = fetch_handler(alloc, &mut link, Config::default(), message, &mut hearing);
    let learned = hearing.ended == Some(outcome) && hearing.times == 1;
    ended == outcome && learned && hearing.heads == heads && hearing.body.as_slice() == body
}

// rule: engines (own) A handler hears a response part by part, as it comes
#[test]
fn whole_response_is_heard(rt: HostRuntime) {
    let alloc = rt.alloc();
    for most in [1usize, 7, 16_384] {
        let hearing = Hearing::new(alloc, false);
        let heard = hears(alloc, RESPONSE, most, hearing, 1, b"GET /\n", Ok(()));
        assert!(rt; heard, "{most}");
    }
}

// rule: engines (own) A handler hears a response part by part, as it comes
// Nothing is heard after the part that was refused.
#[test]
fn part_is_refused(rt: HostRuntime) {
    let alloc = rt.alloc();
    let refused = Err(FetchError::Handler(HandlerFault::Failed));
    let hearing = Hearing::new(alloc, true);
    assert!(rt; hears(alloc, RESPONSE, 7, hearing, 1, b"", refused));
}

/// RST_STREAM of stream 1 with CANCEL.
const CANCEL: &[u8] = b"\0\0\x04\x03\0\0\0\0\x01\0\0\0\x08";

/// The response with these octets in place of its last frame, which has 15 octets.
fn response_with(alloc: Global, last: &[u8]) -> Result<Vec<u8>, AllocError> {
    let mut octets = Vec::from_slice(alloc, RESPONSE)?;
    octets.truncate(RESPONSE.len().saturating_sub(15));
    octets.extend_from_slice(last)?;
    Ok(octets)
}

/// Whether a fetch ends so where these come in place of the last frame of the response.
fn ends_with(alloc: Global, last: &[u8], error: LinkError) -> bool {
    let Ok(octets) = response_with(alloc, last) else {
        return false;
    };
    let hearing = Hearing::new(alloc, false);
    let ended = Err(FetchError::Link(error));
    hears(alloc, &octets, 7, hearing, 1, b"", ended)
}

// rule: engines (own) A handler hears a response part by part, as it comes
#[test]
fn response_is_cut_off_or_reset(rt: HostRuntime) {
    assert!(rt; ends_with(rt.alloc(), b"", LinkError::CutOff));
    assert!(rt; ends_with(rt.alloc(), CANCEL, LinkError::Reset(8)));
}

/// Whether a request that breaks a rule is refused at once, with nothing written.
fn is_refused_at_once(alloc: Global) -> bool {
    let mut hearing = Hearing::new(alloc, false);
    let (Some(message), Ok(mut link)) = (request(alloc, true), link_of(alloc, b"", 1)) else {
        return false;
    };
    let ended = fetch_handler(alloc, &mut link, Config::default(), message, &mut hearing);
    let refused = Err(FetchError::Link(LinkError::Refused));
    ended == refused && hearing.ended == Some(refused) && link.output().is_empty()
}

// rule: engines (own) A handler hears a response part by part, as it comes
#[test]
fn request_that_breaks_a_rule(rt: HostRuntime) {
    assert!(rt; is_refused_at_once(rt.alloc()));
}
