//! Dynamic tables: their lines, and whether two are the same.

use crate::fields::add_field;
use crate::text::Text;
use hpack::{FieldRef, Table};
use std::alloc::Global;

// Whether two entries are the same.
fn is_same(one: (&[u8], &[u8]), other: (&[u8], &[u8])) -> bool {
    one.0 == other.0 && one.1 == other.1
}

/// Whether two tables are the same.
pub(crate) fn are_same_tables(table: &Table, other: &Table) -> bool {
    for place in 1..=table.len() {
        match (table.get(place), other.get(place)) {
            (Some(one), Some(other)) if is_same(one, other) => {}
            _ => return false,
        }
    }
    table.len() == other.len() && table.size() == other.size() && table.maximum() == other.maximum()
}

// Whether a table has as many entries as it says, and its ring has them, and the room for its
// maximum.
fn has_its_length(table: &Table) -> bool {
    let len = table.len();
    table.is_empty() == (len == 0)
        && table.get(0).is_none()
        && table.get(len.saturating_add(1)).is_none()
        && table.ring().len() == len
        && table.ring().capacity() == ((table.maximum() / 32) as usize).max(1)
}

// Whether the newest entry is at the front of the ring, and the oldest at its back.
fn has_its_ends(table: &Table) -> bool {
    match (table.ring().front(), table.ring().back()) {
        (Some(newest), Some(oldest)) => match (table.get(1), table.get(table.len())) {
            (Some(first), Some(last)) => {
                is_same((newest.name(), newest.value()), first)
                    && is_same((oldest.name(), oldest.value()), last)
            }
            _ => false,
        },
        (None, None) => table.is_empty(),
        _ => false,
    }
}

// Adds the line of an entry.
fn add_entry(alloc: Global, text: &mut Text, table: &Table, place: usize) {
    let Some((name, value)) = table.get(place) else {
        text.push_line("a place without an entry");
        return;
    };
    let field = FieldRef {
        name,
        value,
        sensitive: false,
    };
    add_field(alloc, text, field);
}

/// Adds the number of entries in a table, their size and its maximum; and the line of each entry,
/// the newest first.
pub(crate) fn add_table(alloc: Global, text: &mut Text, table: &Table) {
    text.push_labeled("entries ", table.len());
    text.push_labeled(", size ", table.size());
    text.push_labeled(" of ", table.maximum());
    text.push_str("\n");
    for place in 0..table.len() {
        add_entry(alloc, text, table, place.saturating_add(1));
    }
    if !has_its_length(table) || !has_its_ends(table) {
        text.push_line("another length or other ends of the ring");
    }
}
