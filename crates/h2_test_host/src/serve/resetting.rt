//! A request that its client resets before it is whole, and one after it that is answered.

ghost use Rattle.std.specs.Prelude.{◌≡◌};

use crate::asked::{link_of, output_of, place_of};
use h2_ends::{Client, Config, Message};
use h2_engines::{Link, MemoryLink};
use h2_serve::serve_handler;
use h2_server::{Buffered, Echo};
use std::alloc::Global;

/// DATA with the whole answer to the second request, which ends stream 3.
const ANSWER: &[u8] = b"\x00\x00\x07\x00\x01\x00\x00\x00\x03GET /b\n";

/// RST_STREAM with CANCEL, on stream 1.
const RESET: &[u8] = b"\x00\x00\x04\x03\x00\x00\x00\x00\x01\x00\x00\x00\x08";

/// What a client sends that begins a request, resets it, and makes another.
fn asked_twice(alloc: Global) -> Option<Vec<u8>> {
    let mut client = Client::new(alloc, Config::default()).ok()?;
    ask_twice(alloc, &mut client)
}

fn ask_twice(alloc: Global, client: &mut Client) -> Option<Vec<u8>> {
    begin_and_reset(alloc, client)?;
    let second = Message::get(alloc, b"h", b"/b").ok()?;
    client.request(second).ok()?;
    output_of(alloc, client)
}

fn begin_and_reset(alloc: Global, client: &mut Client) -> Option<()> {
    let first = Message::request(alloc, b"POST", b"h", b"/a").ok()?;
    let id = client.begin(&first.head).ok()?;
    client.reset(id, 8).ok()
}

/// Whether the second request alone is answered, whole, and both are counted.
fn answers_second(alloc: Global, link: &mut MemoryLink) -> bool
    requires { link.old.failures ≡ 0 }
{
    let served = serve_handler(alloc, link, Config::default(), Buffered::new(Echo, 16));
    let output = link.output();
    served == Ok(2) && place_of(output, ANSWER).is_some() && place_of(output, b"/a").is_none()
}

/// The same of a new link.
fn answers_second_once(alloc: Global) -> Option<bool> {
    let octets = asked_twice(alloc)?;
    if place_of(&octets, RESET).is_none() {
        return None;
    }
    let mut link = link_of(alloc, &octets, 16_384).ok()?;
    Some(answers_second(alloc, &mut link))
}

// rule: engines (own) Where serving ends well each request was answered whole or reset
#[test]
fn one_is_reset_and_one_answered(rt: HostRuntime) {
    assert_eq!(rt; answers_second_once(rt.alloc()), Some(true));
}
