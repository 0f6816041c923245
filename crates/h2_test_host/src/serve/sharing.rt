//! A whole body beside one that is given in parts.

ghost use Rattle.std.specs.Prelude.{◌≡◌};

use crate::asked::{asked, link_of, ok_head, place_of};
use h2_ends::{Config, Message};
use h2_engines::{Link, MemoryLink};
use h2_serve::{Cause, FieldList, Handler, HandlerFault, Part, Reply, serve_handler};
use std::alloc::Global;

/// So many octets have the bodies that are given in parts: more than one part.
const LONG: usize = 40_000;

/// Answers `/whole` with a few octets, and others with many, in parts.
#[derive(Drop)]
struct Sharing;

impl Handler for Sharing {
    type Work = usize;

    fn head(
        &mut self,
        alloc: Global,
        _id: u32,
        list: &FieldList,
        _end: bool,
    ) -> Result<(usize, Reply), HandlerFault> {
        if list.value(b":path") == Some(b"/whole".as_slice()) {
            let message = Message::response(alloc, 200)?.body(b"few")?;
            return Ok((0, Reply::Whole(message)));
        }
        Ok((LONG, Reply::Parts(ok_head(alloc)?)))
    }

    fn body(
        &mut self,
        _alloc: Global,
        _work: &mut usize,
        _octets: &[u8],
        _end: bool,
    ) -> Result<Reply, HandlerFault> {
        Ok(Reply::Later)
    }

    fn trailers(
        &mut self,
        _alloc: Global,
        _work: &mut usize,
        _list: &FieldList,
    ) -> Result<Reply, HandlerFault> {
        Ok(Reply::Later)
    }

    fn part(
        &mut self,
        _alloc: Global,
        work: &mut usize,
        room: &mut [u8],
    ) -> Result<Part, HandlerFault> {
        let left = *work;
        if left <= room.len() {
            return Ok(Part::Last(left));
        }
        *work = left.saturating_sub(room.len());
        Ok(Part::Octets(room.len()))
    }

    fn held(&self, _work: &usize) -> usize {
        0
    }

    fn unused(&self, _work: &usize) -> u32 {
        0
    }

    fn over(&mut self, _work: usize, _cause: Cause) {}
}

/// DATA with `few` on stream 3.
const FEW: &[u8] = b"\x00\x00\x03\x00\x01\x00\x00\x00\x03few";

/// The head of a part of 16,384 octets on stream 1.
const PART: &[u8] = b"\x00\x40\x00\x00\x00\x00\x00\x00\x01";

/// What a client sends that asks for many octets, and then for few.
fn asked_both(alloc: Global) -> Option<Vec<u8>> {
    let mut messages = Vec::new(alloc);
    messages
        .push(Message::get(alloc, b"h", b"/long").ok()?)
        .ok()?;
    messages
        .push(Message::get(alloc, b"h", b"/whole").ok()?)
        .ok()?;
    asked(alloc, messages)
}

/// Whether the few octets go before the first part of the many.
fn goes_first(alloc: Global, link: &mut MemoryLink) -> bool
    requires { link.old.failures ≡ 0 }
{
    let served = serve_handler(alloc, link, Config::default(), Sharing);
    match (place_of(link.output(), FEW), place_of(link.output(), PART)) {
        (Some(few), Some(part)) => served == Ok(2) && few < part,
        _ => false,
    }
}

/// The same of a new link.
fn goes_first_once(alloc: Global) -> Option<bool> {
    let octets = asked_both(alloc)?;
    let mut link = link_of(alloc, &octets, 16_384).ok()?;
    Some(goes_first(alloc, &mut link))
}

// rule: handlers (own) Whole bodies have their share before a part is asked for
#[test]
fn whole_bodies_go_first(rt: HostRuntime) {
    assert_eq!(rt; goes_first_once(rt.alloc()), Some(true));
}
