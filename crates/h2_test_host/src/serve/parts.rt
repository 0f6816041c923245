//! A handler that gives its answers part by part, and is told that they are over.

ghost use Rattle.std.specs.Prelude.{◌≡◌};

use crate::asked::{asked, link_of, ok_head, place_of};
use h2_ends::{Config, Message};
use h2_engines::{Link, MemoryLink};
use h2_serve::{Cause, FieldList, Handler, HandlerFault, Part, Reply, serve_handler};
use std::alloc::Global;

/// Answers each request with `ab`, and then `c`, after it has once had nothing.
#[derive(Drop)]
struct Counting<'a> {
    /// How many exchanges are over, each with its answer whole.
    done: &'a mut u32,
}

impl<'a> Handler for Counting<'a> {
    type Work = u32;

    fn head(
        &mut self,
        alloc: Global,
        _id: u32,
        _list: &FieldList,
        _end: bool,
    ) -> Result<(u32, Reply), HandlerFault> {
        Ok((0, Reply::Parts(ok_head(alloc)?)))
    }

    fn body(
        &mut self,
        _alloc: Global,
        _work: &mut u32,
        _octets: &[u8],
        _end: bool,
    ) -> Result<Reply, HandlerFault> {
        Ok(Reply::Later)
    }

    fn trailers(
        &mut self,
        _alloc: Global,
        _work: &mut u32,
        _list: &FieldList,
    ) -> Result<Reply, HandlerFault> {
        Ok(Reply::Later)
    }

    fn part(
        &mut self,
        _alloc: Global,
        work: &mut u32,
        room: &mut [u8],
    ) -> Result<Part, HandlerFault> {
        let times = *work;
        *work = times.saturating_add(1);
        if room.len() < 2 {
            return Err(HandlerFault::Failed);
        }
        match times {
            0 => {
                room[0] = b'a';
                room[1] = b'b';
                Ok(Part::Octets(2))
            }
            1 => Ok(Part::Later),
            _ => {
                room[0] = b'c';
                Ok(Part::Last(1))
            }
        }
    }

    fn held(&self, _work: &u32) -> usize {
        0
    }

    fn unused(&self, _work: &u32) -> u32 {
        0
    }

    fn over(&mut self, _work: u32, cause: Cause) {
        if cause == Cause::Done {
            *self.done = self.done.saturating_add(1);
        }
    }
}

/// DATA with `ab` that goes on, on stream 1.
const FIRST: &[u8] = b"\x00\x00\x02\x00\x00\x00\x00\x00\x01ab";

/// DATA with `c` that ends stream 1.
const LAST: &[u8] = b"\x00\x00\x01\x00\x01\x00\x00\x00\x01c";

/// PING, after which the handler is asked again.
const PING: &[u8] = b"\x00\x00\x08\x06\x00\x00\x00\x00\x00\x00\x00\x00\x00\x00\x00\x00\x00";

/// What a client sends that asks once, and sends a PING after that.
fn asked_once(alloc: Global) -> Option<Vec<u8>> {
    let mut messages = Vec::new(alloc);
    messages.push(Message::get(alloc, b"h", b"/").ok()?).ok()?;
    let mut octets = asked(alloc, messages)?;
    octets.extend_from_slice(PING).ok()?;
    Some(octets)
}

/// Whether the parts go, and how many exchanges are over then.
fn gives_parts(alloc: Global, link: &mut MemoryLink, done: &mut u32) -> bool
    requires { link.old.failures ≡ 0 }
{
    let served = serve_handler(alloc, link, Config::default(), Counting { done });
    let output = link.output();
    served == Ok(1) && place_of(output, FIRST).is_some() && place_of(output, LAST).is_some()
}

/// The same of a new link.
fn gives_parts_once(alloc: Global) -> Option<(bool, u32)> {
    let octets = asked_once(alloc)?;
    let mut link = link_of(
        alloc,
        &octets,
        octets.len().saturating_sub(PING.len()).max(1),
    )
    .ok()?;
    let mut done = 0u32;
    let gives = gives_parts(alloc, &mut link, &mut done);
    Some((gives, done))
}

// rule: engines (own) A handler answers over any link
#[test]
fn parts_of_an_answer(rt: HostRuntime) {
    assert_eq!(rt; gives_parts_once(rt.alloc()), Some((true, 1)));
}
