//! Many messages, one after another on streams 1, 3, 5 and so on: how many go as expected, up to
//! the first that does not.

use crate::side::Side;
use h2_case::messages::read_message;
use h2_case::text::Text;
use h2_case::words::Words;
use h2_case_conn::answers::add_value;
use h2_case_conn::cuts::WHOLE;
use h2_case_conn::notes::{Notes, take_all};
use h2_ends::Message;
use std::alloc::Global;

/// Reads a message that was read before, with the same words.
pub(crate) fn read_again(alloc: Global, given: Words<'_>, text: &mut Text) -> Message {
    let mut words = given;
    let message = read_message(alloc, &mut words);
    if words.fault().is_some() {
        text.refuse();
    }
    message
}

// Takes the output away where much of it is queued.
fn give_out(alloc: Global, side: &mut Side) {
    if side.conn().waiting() > 60_000 {
        let mut out = Vec::new(alloc);
        let _ = side.put_out(usize::MAX, &mut out);
    }
}

// Takes a frame; returns whether these lines are what is handed out.
fn hands_out(alloc: Global, side: &mut Side, frame: &[u8], wanted: &Text) -> bool {
    let mut notes = Notes::new(alloc, false);
    take_all(side, WHOLE, frame, &mut notes);
    notes.lines.as_str() == wanted.as_str()
}

// A server takes a complete request, hands out its head alone, and is given this answer.
fn is_served(alloc: Global, side: &mut Side, id: u32, given: Words<'_>, text: &mut Text) -> bool {
    let [a, b, c, d] = id.to_be_bytes();
    let frame = [0, 0, 3, 1, 5, a, b, c, d, 0x82, 0x86, 0x84];
    let mut head = Text::new(alloc);
    head.push_labeled("head ", id);
    head.push_str(" end\n  :method: GET\n  :scheme: http\n  :path: /\n");
    let is_heard = hands_out(alloc, side, &frame, &head);
    let is_answered = side.respond(id, read_again(alloc, given, text)).is_ok();
    give_out(alloc, side);
    is_heard && is_answered
}

// Gives a client a request; returns whether it has this stream, which alone is active.
fn is_asked(alloc: Global, side: &mut Side, id: u32, given: Words<'_>, text: &mut Text) -> bool {
    match side.request(read_again(alloc, given, text)) {
        Ok(number) => {
            number == id
                && side.conn().next_live(0) == Some(id)
                && side.conn().next_live(id).is_none()
        }
        Err(_) => false,
    }
}

// A client is given this request, takes a complete response, hands out its head alone, and then no
// stream is active.
fn is_answered(alloc: Global, side: &mut Side, id: u32, given: Words<'_>, text: &mut Text) -> bool {
    let is_asked = is_asked(alloc, side, id, given, text);
    let [a, b, c, d] = id.to_be_bytes();
    let frame = [0, 0, 1, 1, 5, a, b, c, d, 0x88];
    let mut head = Text::new(alloc);
    head.push_labeled("head ", id);
    head.push_str(" end\n  :status: 200\n");
    let is_heard = hands_out(alloc, side, &frame, &head);
    give_out(alloc, side);
    is_asked && is_heard && side.conn().next_live(0).is_none()
}

// The number of these `count` messages that went as expected, up to the first that did not.
fn count_of(alloc: Global, side: &mut Side, count: u32, given: Words<'_>, text: &mut Text) -> u32 {
    for place in 0..count {
        let id = place.wrapping_mul(2).wrapping_add(1);
        let went = if side.is_server() {
            is_served(alloc, side, id, given, text)
        } else {
            is_answered(alloc, side, id, given, text)
        };
        if !went {
            return place;
        }
    }
    count
}

/// Adds how many of a number of messages went as expected.
pub(crate) fn add_crowd(alloc: Global, side: &mut Side, words: &mut Words<'_>, text: &mut Text) {
    words.expect("each");
    let count = words.number();
    let given = *words;
    let _ = read_message(alloc, words);
    let went = count_of(alloc, side, count, given, text);
    add_value(text, went);
}
