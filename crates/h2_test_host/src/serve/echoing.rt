//! The handler that answers with what was asked, beside `serve_link`.

ghost use Rattle.std.specs.Prelude.{◌≡◌};

use crate::asked::{asked, link_of};
use h2_ends::{Config, Message};
use h2_engines::{Link, LinkError, MemoryLink, serve_link};
use h2_serve::serve_handler;
use h2_server::{Buffered, Echo};
use std::alloc::Global;

/// The most octets of a body: as many as `serve_link` takes.
const MOST: usize = 1_048_576;

/// So many octets has a body of several frames.
const LONG: usize = 40_000;

/// The requests: GET, HEAD and two of POST.
fn requests(alloc: Global) -> Option<Vec<Message>> {
    let mut messages = Vec::new(alloc);
    messages.push(Message::get(alloc, b"h", b"/a").ok()?).ok()?;
    messages.push(request(alloc, b"HEAD", b"")?).ok()?;
    messages.push(request(alloc, b"POST", b"some body")?).ok()?;
    let long = vec![in alloc; b'x'; LONG].ok()?;
    messages.push(request(alloc, b"POST", &long)?).ok()?;
    Some(messages)
}

/// A request for `/b`.
fn request(alloc: Global, method: &[u8], body: &[u8]) -> Option<Message> {
    let message = Message::request(alloc, method, b"h", b"/b").ok()?;
    message.body(body).ok()
}

/// How a handler that answers with what was asked serves a link, by the requests it counts.
pub(crate) fn echoes(alloc: Global, link: &mut MemoryLink) -> Result<u64, LinkError>
    requires { link.old.failures ≡ 0 }
{
    serve_handler(alloc, link, Config::default(), Buffered::new(Echo, MOST))
}

/// Whether it gives the octets and the answer of `serve_link`, where it gives this.
fn is_same(alloc: Global, octets: &[u8], most: usize, answer: Result<u64, LinkError>) -> bool {
    let (Ok(mut first), Ok(mut second)) = (
        link_of(alloc, octets, most),
        link_of(alloc, octets, most),
    ) else {
        return false;
    };
    let served = serve_link(alloc, &mut first, Config::default());
    let echoed = echoes(alloc, &mut second);
    echoed == answer && served.map(u64::from) == answer && first.output() == second.output()
}

/// All that a client sends that makes the requests.
fn all_asked(alloc: Global) -> Option<Vec<u8>> {
    let messages = requests(alloc)?;
    asked(alloc, messages)
}

/// Whether all of the requests are answered as by `serve_link`.
fn answers_as(alloc: Global, most: usize) -> bool {
    match all_asked(alloc) {
        Some(octets) => is_same(alloc, &octets, most, Ok(4)),
        None => false,
    }
}

/// Whether it ends as `serve_link` does where the input ends inside a frame.
fn is_cut_off_as(alloc: Global) -> bool {
    let Some(mut octets) = all_asked(alloc) else {
        return false;
    };
    octets.truncate(octets.len().saturating_sub(1));
    is_same(alloc, &octets, 7, Err(LinkError::CutOff))
}

// rule: engines (own) A handler answers over any link
#[test]
fn as_serve_link_answers(rt: HostRuntime) {
    for most in [1usize, 24, 16_383, 16_384] {
        assert!(rt; answers_as(rt.alloc(), most), "{most}");
    }
}

// rule: engines (own) A handler answers over any link
// The input ends inside a frame, and begins with no preface.
#[test]
fn as_serve_link_ends(rt: HostRuntime) {
    assert!(rt; is_cut_off_as(rt.alloc()));
    let http1 = b"GET / HTTP/1.1\r\n\r\n";
    assert!(rt; is_same(rt.alloc(), http1, 7, Err(LinkError::Stream(1))));
}
