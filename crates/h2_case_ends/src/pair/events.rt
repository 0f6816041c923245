//! What an end hands out, and messages that it has accepted, as lines.

use crate::end_events::FieldLines;
use h2_case::fields::add_field;
use h2_case::messages::add_message;
use h2_case::text::Text;
use h2_joined::{Accepted, KeptFields};
use std::alloc::Global;

impl FieldLines for KeptFields<'_> {
    fn add_lines(self, alloc: Global, text: &mut Text) {
        for place in 0..self.len() {
            if let Some(field) = self.get(place) {
                add_field(alloc, text, field);
            }
        }
    }
}

/// Adds the line of a message that was accepted, which ends with ` ; open` where more may follow.
pub(crate) fn add_accepted(alloc: Global, text: &mut Text, accepted: &Accepted) {
    text.push_value(accepted.id);
    text.push_str(": ");
    add_message(alloc, text, &accepted.message);
    text.push_line(if accepted.begun { " ; open" } else { "" });
}
