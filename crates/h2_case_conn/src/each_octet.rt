//! Each octet at each place of a name or a value.

use h2_case::text::Text;
use h2_message::{Malformed, Message, check_request};
use hpack::Field;
use std::alloc::Global;

// Whether a request with this field alone breaks this rule. What else it lacks has a higher number.
fn breaks(alloc: Global, field: Field, rule: Malformed, text: &mut Text) -> bool {
    let mut head = Vec::new(alloc);
    if head.push(field).is_err() {
        text.refuse();
    }
    let message = Message {
        head,
        body: Vec::new(alloc),
        trailers: None,
    };
    check_request(&message) == Err(rule)
}

// Adds the line of the first place and the last, and their octets.
fn add_range(text: &mut Text, places: (usize, usize), ranges: &Text) {
    text.push_value(places.0);
    text.push_labeled("-", places.1);
    text.push_str(":");
    text.push_text(ranges);
    text.push_str("\n");
}

/// What is tried.
#[derive(Drop)]
struct Tried {
    alloc: Global,
    octets: Vec<u8>,
    /// Whether a name is tried, and else a value.
    is_name: bool,
}

impl Tried {
    // Whether the rule of a name, or of a value, is broken.
    fn is_bad(&self, text: &mut Text) -> bool {
        let octets = self.octets.as_slice();
        let (name, value, rule) = if self.is_name {
            (octets, b"a".as_slice(), Malformed::BadName)
        } else {
            (b"a".as_slice(), octets, Malformed::BadValue)
        };
        match Field::copy_of(self.alloc, name, value, false) {
            Ok(field) => breaks(self.alloc, field, rule, text),
            Err(_) => {
                text.refuse();
                false
            }
        }
    }

    // Sets the octet at a place, if there is one.
    fn set(&mut self, place: usize, octet: u8) {
        if let Some(part) = self.octets.get_mut(place) {
            *part = octet;
        }
    }

    // Whether it is broken once this octet is at a place; by 256, which is none, it isn't.
    fn is_bad_with(&mut self, place: usize, octet: u32, text: &mut Text) -> bool {
        match u8::try_from(octet) {
            Ok(octet) => {
                self.set(place, octet);
                self.is_bad(text)
            }
            Err(_) => false,
        }
    }

    // The octets that break it at `place`, where the others are `a`, as ranges in hexadecimal.
    fn bad_octets(&mut self, place: usize, text: &mut Text) -> Text {
        let mut ranges = Text::new(self.alloc);
        let mut first = None;
        for octet in 0..=256u32 {
            let is_bad = self.is_bad_with(place, octet, text);
            match first {
                None if is_bad => first = Some(octet),
                Some(from) if !is_bad => {
                    write!(ranges, " {from:02x}-{:02x}", octet.saturating_sub(1));
                    first = None;
                }
                _ => {}
            }
        }
        self.set(place, b'a');
        ranges
    }

    // Adds a line for each place; of places one after another that are alike, the first and the
    // last.
    fn add_places(&mut self, text: &mut Text) {
        let count = self.octets.len();
        let mut ranges = self.bad_octets(0, text);
        let mut first = 0;
        for place in 1..=count {
            let next = if place < count {
                self.bad_octets(place, text)
            } else {
                Text::new(self.alloc)
            };
            if next.as_str() != ranges.as_str() {
                add_range(text, (first, place.saturating_sub(1)), &ranges);
                ranges = next;
                first = place;
            }
        }
    }
}

/// Adds a line for each place of a text of `count` octets, with the octets that are not allowed
/// there; of places one after another that are alike, the first and the last.
pub(crate) fn add_bad_octets(alloc: Global, text: &mut Text, is_name: bool, count: usize) {
    match vec![in alloc; b'a'; count] {
        Ok(octets) => Tried {
            alloc,
            octets,
            is_name,
        }
        .add_places(text),
        Err(_) => text.refuse(),
    }
}
