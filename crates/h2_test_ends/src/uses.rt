//! README's server, client and POST, run on traffic as it comes.

use anyhow::Result;
use h2_ends::{Field, FieldList, Message};
use h2_engines::MemoryLink;
use h2_uses::{Handler, Hello, Response, get, post, serve};
use std::alloc::Global;
use std::collections::BTreeMap;
use std::test::Fail;

/// The client's preface and SETTINGS; GET on stream 1, HEAD on 3, and POST of four octets on 5.
const ASKED: &[u8] = b"PRI * HTTP/2.0\r\n\r\nSM\r\n\r\n\x00\x00\x00\x04\x00\x00\x00\x00\x00\
    \x00\x00\x03\x01\x05\x00\x00\x00\x01\x82\x86\x84\
    \x00\x00\x08\x01\x05\x00\x00\x00\x03B\x04HEAD\x86\x84\
    \x00\x00\x03\x01\x04\x00\x00\x00\x05\x83\x86\x84\x00\x00\x04\x00\x01\x00\x00\x00\x05abcd";

/// The server's SETTINGS, its acknowledgment, and 200 with a body on stream 1.
const ANSWERED: &[u8] = b"\x00\x00\x00\x04\x00\x00\x00\x00\x00\x00\x00\x00\x04\x01\x00\x00\x00\x00\
    \x00\x00\x01\x01\x04\x00\x00\x00\x01\x88\x00\x00\x06\x00\x01\x00\x00\x00\x01hello\n";

/// The client's preface and SETTINGS, and a GET request whose authority is `u@h`.
const USER: &[u8] = b"PRI * HTTP/2.0\r\n\r\nSM\r\n\r\n\x00\x00\x00\x04\x00\x00\x00\x00\x00\
    \x00\x00\x08\x01\x05\x00\x00\x00\x01\x82\x86\x84\x01\x03u@h";

/// 400 without a body on stream 1.
const BAD_REQUEST: &[u8] = b"\x00\x00\x01\x01\x05\x00\x00\x00\x01\x8c";

/// The server's SETTINGS, GOAWAY that names no stream, and PING.
const GONE: &[u8] = b"\x00\x00\x00\x04\x00\x00\x00\x00\x00\
    \x00\x00\x08\x07\x00\x00\x00\x00\x00\x00\x00\x00\x00\x00\x00\x00\x00\
    \x00\x00\x08\x06\x00\x00\x00\x00\x0012345678";

/// The acknowledgment of that PING.
const PONG: &[u8] = b"\x00\x00\x08\x06\x01\x00\x00\x00\x0012345678";

/// What follows the server's acknowledgment where each request is answered with a body: 200 with it
/// on stream 1, RST_STREAM with INTERNAL_ERROR on 3, which asked with HEAD, and 200 on 5.
const RESET: &[u8] = b"\x00\x00\x04\x03\x00\x00\x00\x00\x03\x00\x00\x00\x02";

/// Answers each request with a field of 1,500 octets, which no table keeps.
#[derive(Drop)]
struct Long;

impl Handler for Long {
    fn answer(&mut self, alloc: Global, _head: &FieldList) -> Result<Message> {
        let mut message = Message::response(alloc, 200)?;
        let cookie = vec![in alloc; b'x'; 1_500]?;
        message
            .head
            .push(Field::copy_of(alloc, b"set-cookie", &cookie, true)?)?;
        Ok(message)
    }
}

/// Answers each request with a body, HEAD too.
#[derive(Drop)]
struct Bodies;

impl Handler for Bodies {
    fn answer(&mut self, alloc: Global, _head: &FieldList) -> Result<Message> {
        Ok(Message::response(alloc, 200)?.body(b"hello\n")?)
    }
}

/// What a server writes for these octets.
fn answered<H: Handler>(alloc: Global, octets: &[u8], handler: &mut H) -> Result<Vec<u8>> {
    let mut from = octets;
    let mut to = Vec::new(alloc);
    serve(alloc, &mut from, &mut to, handler)?;
    Ok(to)
}

/// What a client that makes `count` requests reads of the octets, and what it sends.
fn asked(alloc: Global, count: usize, octets: &[u8]) -> Result<(BTreeMap<u32, Response>, Vec<u8>)> {
    let mut from = octets;
    let mut to = Vec::new(alloc);
    let paths = vec![in alloc; b"/".as_slice(); count]?;
    let responses = get(alloc, &mut from, &mut to, &paths)?;
    Ok((responses, to))
}

/// The opening of 33 octets, an acknowledgment of 9, three heads of 10, two bodies of 15, and the
/// WINDOW_UPDATE of 13 that returns the four octets.
fn three_are_answered(alloc: Global) -> bool {
    match answered(alloc, ASKED, &mut Hello) {
        Ok(to) => to.len() == 33 + 9 + 3 * 10 + 2 * 15 + 13,
        Err(_) => false,
    }
}

/// A body that answers HEAD resets that stream alone: the answers on streams 1 and 5 have 25 octets
/// each.
fn a_body_to_head_resets_one_stream(alloc: Global) -> bool {
    match answered(alloc, ASKED, &mut Bodies) {
        Ok(to) => { to.len() == 33 + 9 + 2 * 10 + 13 + 2 * 15 + 13 && to[52..].starts_with(RESET) }
        Err(_) => false,
    }
}

/// A request whose authority names a user is answered with 400.
fn a_user_is_refused(alloc: Global) -> bool {
    match answered(alloc, USER, &mut Hello) {
        Ok(to) => to.ends_with(BAD_REQUEST),
        Err(_) => false,
    }
}

/// The number of 100 responses with a long field that are complete, where all are asked for at
/// once.
fn whole_of_a_hundred(alloc: Global) -> Result<usize> {
    let (_, octets) = asked(alloc, 100, b"")?;
    let octets = answered(alloc, &octets, &mut Long)?;
    let (responses, _) = asked(alloc, 100, &octets)?;
    Ok(
        responses
            .values()
            .filter(|response| response.is_whole)
            .count(),
    )
}

/// 60 requests are over by one GOAWAY, and the PING after it, in the same piece, is answered.
fn sixty_are_over(alloc: Global) -> bool {
    match asked(alloc, 60, GONE) {
        Ok((responses, to)) => {
            to.ends_with(PONG) && responses.values().all(|response| response.is_over)
        }
        Err(_) => false,
    }
}

/// Whether a response is complete, with its status and body.
fn is_hello(one: &Response) -> bool {
    let (status, body) = (one.status.as_slice(), one.body.as_slice());
    one.is_whole && status == b"200".as_slice() && body == b"hello\n".as_slice()
}

/// The status and the body are kept, and the response is complete.
fn one_is_kept(alloc: Global) -> bool {
    match asked(alloc, 1, ANSWERED) {
        Ok((responses, _)) => match responses.get(&1) {
            Some(one) => is_hello(one),
            None => false,
        },
        Err(_) => false,
    }
}

/// A POST is answered with the response's body.
fn a_post_is_answered(alloc: Global) -> Result<bool> {
    let mut link = MemoryLink::new(alloc, Vec::from_slice(alloc, ANSWERED)?);
    let body = Vec::from_slice(alloc, b"{\"a\": 1}")?;
    let fetched = post(alloc, &mut link, b"localhost", b"/", body)?;
    Ok(fetched.body.as_slice() == b"hello\n".as_slice())
}

#[test]
fn the_server_answers(rt: HostRuntime) -> Result<(), Fail> {
    assert!(rt; three_are_answered(rt.alloc()));
    Ok(())
}

#[test]
fn a_wrong_answer_resets_its_stream(rt: HostRuntime) -> Result<(), Fail> {
    assert!(rt; a_body_to_head_resets_one_stream(rt.alloc()));
    Ok(())
}

// rule: 8.3.1 An :authority with an @ in it names a user, and a call says so
#[test]
fn no_user_is_served(rt: HostRuntime) -> Result<(), Fail> {
    assert!(rt; a_user_is_refused(rt.alloc()));
    Ok(())
}

#[test]
fn long_answers_all_come(rt: HostRuntime) -> Result<(), Fail> {
    assert!(rt; matches!(whole_of_a_hundred(rt.alloc()), Ok(100)));
    Ok(())
}

#[test]
fn nothing_is_lost_after_goaway(rt: HostRuntime) -> Result<(), Fail> {
    assert!(rt; sixty_are_over(rt.alloc()));
    Ok(())
}

#[test]
fn the_client_asks(rt: HostRuntime) -> Result<(), Fail> {
    assert!(rt; one_is_kept(rt.alloc()));
    Ok(())
}

#[test]
fn the_client_posts(rt: HostRuntime) -> Result<(), Fail> {
    assert!(rt; matches!(a_post_is_answered(rt.alloc()), Ok(true)));
    Ok(())
}
