//! A handler that uses what has come of a body once it is asked for a part.

ghost use Rattle.std.specs.Prelude.{◌≡◌};

use crate::asked::{link_of, ok_head, place_of};
use h2_ends::Config;
use h2_engines::{Link, LinkError, MemoryLink};
use h2_serve::{Cause, FieldList, Handler, HandlerFault, Part, Reply, serve_handler};
use std::alloc::Global;

/// Answers each request with its head, and ends the answer once the request is complete.
#[derive(Drop)]
struct Using;

/// What has come of a request.
#[derive(Drop)]
struct Came {
    unused: u32,
    whole: bool,
}

impl Handler for Using {
    type Work = Came;

    fn head(
        &mut self,
        alloc: Global,
        _id: u32,
        _list: &FieldList,
        end: bool,
    ) -> Result<(Came, Reply), HandlerFault> {
        let came = Came {
            unused: 0,
            whole: end,
        };
        Ok((came, Reply::Parts(ok_head(alloc)?)))
    }

    fn body(
        &mut self,
        _alloc: Global,
        work: &mut Came,
        octets: &[u8],
        end: bool,
    ) -> Result<Reply, HandlerFault> {
        let more = u32::try_from(octets.len()).unwrap_or(u32::MAX);
        work.unused = work.unused.saturating_add(more);
        work.whole = end;
        Ok(Reply::Later)
    }

    fn trailers(
        &mut self,
        _alloc: Global,
        work: &mut Came,
        _list: &FieldList,
    ) -> Result<Reply, HandlerFault> {
        work.whole = true;
        Ok(Reply::Later)
    }

    fn part(
        &mut self,
        _alloc: Global,
        work: &mut Came,
        _room: &mut [u8],
    ) -> Result<Part, HandlerFault> {
        work.unused = 0;
        if work.whole {
            return Ok(Part::Last(0));
        }
        Ok(Part::Later)
    }

    fn held(&self, _work: &Came) -> usize {
        0
    }

    fn unused(&self, work: &Came) -> u32 {
        work.unused
    }

    fn over(&mut self, _work: Came, _cause: Cause) {}
}

/// The preface, SETTINGS, and a POST with four octets of its body, of which more is to come.
const REQUEST: &[u8] = b"PRI * HTTP/2.0\r\n\r\nSM\r\n\r\n\
    \x00\x00\x00\x04\x00\x00\x00\x00\x00\
    \x00\x00\x03\x01\x04\x00\x00\x00\x01\x83\x86\x84\
    \x00\x00\x04\x00\x00\x00\x00\x00\x01abcd";

/// WINDOW_UPDATE of four octets on stream 1.
const RETURNED: &[u8] = b"\x00\x00\x04\x08\x00\x00\x00\x00\x01\x00\x00\x00\x04";

/// Whether the four octets are returned before the read that finds no more input.
fn returns_used(alloc: Global, link: &mut MemoryLink) -> bool
    requires { link.old.failures ≡ 0 }
{
    let served = serve_handler(alloc, link, Config::default(), Using);
    served == Err(LinkError::CutOff) && place_of(link.output(), RETURNED).is_some()
}

/// The same of a new link.
fn returns_used_once(alloc: Global) -> Option<bool> {
    let mut link = link_of(alloc, REQUEST, 16_384).ok()?;
    Some(returns_used(alloc, &mut link))
}

// rule: 6.9 (own) Before a read that may wait credit is returned for all that is used
#[test]
fn credit_of_what_a_part_uses(rt: HostRuntime) {
    assert_eq!(rt; returns_used_once(rt.alloc()), Some(true));
}

/// The head of DATA with 16,384 octets on stream 1.
const LONG: &[u8] = b"\x00\x40\x00\x00\x00\x00\x00\x00\x01";

/// The head of DATA with 3,616 octets on stream 1, which fill a window of 20,000 after those.
const SHORT: &[u8] = b"\x00\x0e\x20\x00\x00\x00\x00\x00\x01";

/// WINDOW_UPDATE of 20,000 octets on stream 1.
const ALL_RETURNED: &[u8] = b"\x00\x00\x04\x08\x00\x00\x00\x00\x01\x00\x00\x4e\x20";

/// A POST whose body fills a window of 20,000 octets, and goes on.
fn filled_window(alloc: Global) -> Option<Vec<u8>> {
    let zeros = [0u8; 16_384];
    let mut octets = Vec::from_slice(alloc, &REQUEST[..45]).ok()?;
    octets.extend_from_slice(LONG).ok()?;
    octets.extend_from_slice(&zeros).ok()?;
    octets.extend_from_slice(SHORT).ok()?;
    octets.extend_from_slice(&zeros[..3_616]).ok()?;
    Some(octets)
}

/// Whether all of a stream's window is returned before the read that finds no more input, though
/// the last read was long, and half of the connection's window is left.
fn returns_window(alloc: Global, link: &mut MemoryLink) -> bool
    requires { link.old.failures ≡ 0 }
{
    let Ok(config) = Config::new(4_096, 20_000, 100) else {
        return false;
    };
    let served = serve_handler(alloc, link, config, Using);
    served == Err(LinkError::CutOff) && place_of(link.output(), ALL_RETURNED).is_some()
}

/// The same of a new link, which gives all in one read.
fn returns_window_once(alloc: Global) -> Option<bool> {
    let octets = filled_window(alloc)?;
    let mut link = link_of(alloc, &octets, 32_786).ok()?;
    Some(returns_window(alloc, &mut link))
}

// rule: 6.9 (own) Before a read that may wait credit is returned for all that is used
#[test]
fn credit_of_a_long_read(rt: HostRuntime) {
    assert_eq!(rt; returns_window_once(rt.alloc()), Some(true));
}
