//! Two ends that are joined in memory: what one puts out, the other takes.

use crate::end_events::{add_body, add_event};
use crate::side::Side;
use h2_case::text::Text;
use h2_case_conn::cuts::WHOLE;
use h2_case_conn::notes::{Taker, Used, take_part};
use h2_ends::{EndEvent, FieldList};
use std::alloc::Global;

/// What an end hands out: the octets of a body in one line, in however many parts they come, and
/// first that SETTINGS were acknowledged, since that comes at any place among them.
#[derive(Drop)]
struct Heard {
    alloc: Global,
    lines: Text,
    /// The stream of the body that was handed out last.
    id: Option<u32>,
    octets: Vec<u8>,
    end: bool,
    /// How often SETTINGS were acknowledged.
    acked: u32,
}

impl Heard {
    fn new(alloc: Global) -> Heard {
        Heard {
            alloc,
            lines: Text::new(alloc),
            id: None,
            octets: Vec::new(alloc),
            end: false,
            acked: 0,
        }
    }

    // Adds the line of the body that was handed out last.
    fn end_body(&mut self) {
        if let Some(id) = self.id {
            add_body(&mut self.lines, id, &self.octets, self.end);
            self.octets.clear();
            self.id = None;
        }
    }

    // Keeps octets of a body.
    fn keep_body(&mut self, id: u32, octets: &[u8], end: bool) {
        if self.id != Some(id) {
            self.end_body();
        }
        self.id = Some(id);
        self.end = end;
        if self.octets.extend_from_slice(octets).is_err() {
            self.lines.refuse();
        }
    }

    // Keeps what is handed out.
    fn keep(&mut self, event: EndEvent<&FieldList, &[u8]>) {
        match event {
            EndEvent::Body { id, bytes, end } => self.keep_body(id, bytes, end),
            EndEvent::Acked => self.acked = self.acked.saturating_add(1),
            _ => {
                self.end_body();
                add_event(self.alloc, &mut self.lines, event);
            }
        }
    }

    // Keeps what is handed out, if something is; returns whether it is.
    fn note(&mut self, handed: Option<EndEvent<&FieldList, &[u8]>>) -> bool {
        match handed {
            Some(event) => {
                self.keep(event);
                true
            }
            None => false,
        }
    }

    // Adds what was kept after the name of the end.
    fn add_to(&mut self, name: &str, text: &mut Text) {
        self.end_body();
        text.push_str(name);
        text.push_line(":");
        for _ in 0..self.acked {
            text.push_line("acked");
        }
        text.push_text(&self.lines);
    }
}

impl Taker<Heard> for Side {
    fn take_piece(&mut self, piece: &[u8], heard: &mut Heard) -> Option<Used> {
        match self.take(piece) {
            Ok(taken) => Some(Used {
                count: taken.used,
                comes_out: heard.note(taken.event),
            }),
            Err(_) => None,
        }
    }
}

// Moves at most `most` octets from one end to the other; returns their number, or `None` where a
// call is refused.
fn move_octets(
    alloc: Global,
    from: &mut Side,
    to: &mut Side,
    most: usize,
    heard: &mut Heard,
) -> Option<usize> {
    if from.pump().is_err() {
        return None;
    }
    let mut out = Vec::new(alloc);
    match from.put_out(most, &mut out) {
        Ok(count) if take_part(to, WHOLE, &out, heard) && to.release_all().is_ok() => Some(count),
        _ => None,
    }
}

/// Moves octets to and from the other end, at most `most` at once, until none are queued; and adds
/// what each of the two hands out.
pub(crate) fn exchange(
    alloc: Global,
    near: &mut Side,
    far: &mut Side,
    most: usize,
    text: &mut Text,
) {
    let (mut by_near, mut by_far) = (Heard::new(alloc), Heard::new(alloc));
    for _ in 0..u64::MAX {
        let there = move_octets(alloc, near, far, most, &mut by_far);
        let back = move_octets(alloc, far, near, most, &mut by_near);
        match (there, back) {
            (Some(0), Some(0)) => break,
            (Some(_), Some(_)) => {}
            _ => {
                text.push_line("a call is refused");
                break;
            }
        }
    }
    by_near.add_to("this end", text);
    by_far.add_to("the other end", text);
}
