//! A handler whose answers break a rule.

ghost use Rattle.std.specs.Prelude.{◌≡◌};

use crate::asked::{asked, link_of, ok_head, place_of};
use h2_ends::{Config, Malformed, Message};
use h2_engines::{Link, MemoryLink};
use h2_serve::{
    Cause, FieldList, Handler, HandlerFault, LinkError, Part, Reply, ResponseFault, serve_handler,
};
use std::alloc::Global;
use std::cell::Cell;

/// Answers POST with 413 and a body at its head, HEAD in parts, and all else with a name in
/// capitals.
#[derive(Drop)]
struct Faulty<'a> {
    /// How often it was told that a name is bad.
    faults: &'a Cell<u32>,
}

impl<'a> Handler for Faulty<'a> {
    type Work = ();

    fn head(
        &mut self,
        alloc: Global,
        _id: u32,
        list: &FieldList,
        _end: bool,
    ) -> Result<((), Reply), HandlerFault> {
        let method = list.value(b":method").unwrap_or(b"");
        if method == b"POST".as_slice() {
            let message = Message::response(alloc, 413)?.body(b"no")?;
            return Ok(((), Reply::Refuse(message)));
        }
        if method == b"HEAD".as_slice() {
            return Ok(((), Reply::Parts(ok_head(alloc)?)));
        }
        let message = Message::response(alloc, 200)?.field(alloc, b"X", b"y")?;
        Ok(((), Reply::Whole(message)))
    }

    fn body(
        &mut self,
        _alloc: Global,
        _work: &mut (),
        _octets: &[u8],
        _end: bool,
    ) -> Result<Reply, HandlerFault> {
        Err(HandlerFault::Failed)
    }

    fn trailers(
        &mut self,
        _alloc: Global,
        _work: &mut (),
        _list: &FieldList,
    ) -> Result<Reply, HandlerFault> {
        Err(HandlerFault::Failed)
    }

    fn part(
        &mut self,
        _alloc: Global,
        _work: &mut (),
        _room: &mut [u8],
    ) -> Result<Part, HandlerFault> {
        Err(HandlerFault::Failed)
    }

    fn fault(&self, id: u32, fault: ResponseFault) {
        if id == 1 && fault == ResponseFault::BadMessage(Malformed::BadName) {
            self.faults.set(self.faults.get().saturating_add(1));
        }
    }

    fn over(&mut self, _work: (), _cause: Cause) {}
}

/// All that a client sends that makes a request with this method, and a body.
fn octets_of(alloc: Global, method: &[u8], body: &[u8]) -> Option<Vec<u8>> {
    let message = Message::request(alloc, method, b"h", b"/").ok()?;
    let mut messages = Vec::new(alloc);
    messages.push(message.body(body).ok()?).ok()?;
    asked(alloc, messages)
}

/// How the handler serves a link, by the requests it counts.
fn serves(alloc: Global, link: &mut MemoryLink, faults: &Cell<u32>) -> Result<u64, LinkError>
    requires { link.old.failures ≡ 0 }
{
    serve_handler(alloc, link, Config::default(), Faulty { faults })
}

/// Whether a request is answered by these octets, and by no DATA but these, and how often the
/// handler was told that a name is bad.
fn answered(alloc: Global, method: &[u8], body: &[u8], sent: &[u8]) -> Option<u32> {
    let octets = octets_of(alloc, method, body)?;
    let mut link = link_of(alloc, &octets, 16_384).ok()?;
    let faults = Cell::new(0u32);
    let served = serves(alloc, &mut link, &faults);
    if served != Ok(1) || place_of(link.output(), sent).is_none() {
        return None;
    }
    Some(faults.get())
}

/// HEADERS of stream 1 with status 500 and END_STREAM.
const ERROR: &[u8] = b"\0\0\x01\x01\x05\0\0\0\x01\x8e";

/// HEADERS of stream 1 with status 200 and END_STREAM.
const HEAD: &[u8] = b"\0\0\x01\x01\x05\0\0\0\x01\x88";

/// DATA of stream 1 with `no` and END_STREAM, and then RST_STREAM with NO_ERROR.
const REFUSED: &[u8] = b"\0\0\x02\0\x01\0\0\0\x01no\0\0\x04\x03\0\0\0\0\x01\0\0\0\0";

/// What is answered to GET, to HEAD, and to a POST of which not all has come.
fn all_answered(alloc: Global) -> [Option<u32>; 3] {
    [
        answered(alloc, b"GET", b"", ERROR),
        answered(alloc, b"HEAD", b"", HEAD),
        answered(alloc, b"POST", &[b'x'; 30_000], REFUSED),
    ]
}

// rule: handlers (own) An answer that breaks a rule is a 500, or a reset once a head went
// rule: HTTP 9.3.2 (own) The body of an answer to HEAD is not sent
// rule: 8.1 (own) What comes of a request that was refused is dropped
#[test]
fn answers_that_break_a_rule(rt: HostRuntime) {
    assert!(rt; all_answered(rt.alloc()) == [Some(1), Some(0), Some(0)]);
}
