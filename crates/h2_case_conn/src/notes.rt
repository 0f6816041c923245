//! What comes out as octets are handed over.

use crate::cuts::Cut;
use h2_case::text::Text;
use std::alloc::Global;

/// What came out, in order: all of it, or the number of each kind, and the last one.
#[derive(Drop)]
pub struct Notes {
    pub alloc: Global,
    /// The lines of all that came out, or of the last.
    pub lines: Text,
    is_quiet: bool,
    counts: Vec<(&'static str, u64)>,
    /// Whether memory was refused for a count.
    is_refused: bool,
}

impl Notes {
    /// Nothing has come out; where it is quiet, no more than the last will be kept.
    pub fn new(alloc: Global, is_quiet: bool) -> Notes {
        Notes {
            alloc,
            lines: Text::new(alloc),
            is_quiet,
            counts: Vec::new(alloc),
            is_refused: false,
        }
    }

    /// Something of this kind comes out, whose lines follow.
    pub fn begin(&mut self, kind: &'static str) {
        if self.is_quiet {
            self.lines = Text::new(self.alloc);
            self.count(kind);
        }
    }

    // Counts one of this kind.
    fn count(&mut self, kind: &'static str) {
        if !is_counted(&mut self.counts, kind) && self.counts.push((kind, 1)).is_err() {
            self.is_refused = true;
        }
    }

    /// Adds what came out to an answer.
    pub fn add_to(&self, text: &mut Text) {
        if self.is_refused {
            text.refuse();
        }
        add_counts(&self.counts, text);
        text.push_text(&self.lines);
    }
}

// Counts one of this kind, if there were others; returns whether there were.
fn is_counted(counts: &mut [(&'static str, u64)], kind: &str) -> bool {
    for count in counts.iter_mut() {
        if count.0 == kind {
            count.1 = count.1.saturating_add(1);
            return true;
        }
    }
    false
}

// Adds the number of each kind, and what precedes the last one.
fn add_counts(counts: &[(&'static str, u64)], text: &mut Text) {
    for (kind, count) in counts {
        text.push_str(*kind);
        text.push_labeled(": ", *count);
        text.push_str("\n");
    }
    if !counts.is_empty() {
        text.push_str("last: ");
    }
}

/// The result of a piece that an end has taken.
#[derive(Clone, Copy)]
pub struct Used {
    /// The number of its octets that are used.
    pub count: usize,
    /// Whether something came out.
    pub comes_out: bool,
}

/// An end that takes octets in pieces, and notes what is reported.
pub trait Taker<N> {
    /// Takes a piece, and notes what comes out, or a fault; nothing where the connection has
    /// failed.
    fn take_piece(&mut self, piece: &[u8], notes: &mut N) -> Option<Used>;
}

/// Hands octets over, and notes what comes out; after a fault no more than that.
pub fn take_all<N, T: Taker<N>>(taker: &mut T, cut: Cut, octets: &[u8], notes: &mut N) {
    let (before, from) = cut.split(octets);
    if before.is_empty() || take_part(taker, cut, before, notes) {
        let _ = take_part(taker, cut, from, notes);
    }
}

/// Hands octets over, and adds what comes out.
pub fn add_taken<T: Taker<Notes>>(
    taker: &mut T,
    cut: Cut,
    octets: &[u8],
    mut notes: Notes,
    text: &mut Text,
) {
    take_all(taker, cut, octets, &mut notes);
    notes.add_to(text);
}

/// Hands octets over, and adds what comes out until they are used; where there are none, the end is
/// asked once.
pub(crate) fn add_taken_once<T: Taker<Notes>>(
    taker: &mut T,
    cut: Cut,
    octets: &[u8],
    mut notes: Notes,
    text: &mut Text,
) {
    let (before, from) = cut.split(octets);
    if before.is_empty() {
        let _ = take_used(taker, cut, from, &mut notes);
    } else if take_used(taker, cut, before, &mut notes) && !from.is_empty() {
        let _ = take_used(taker, cut, from, &mut notes);
    }
    notes.add_to(text);
}

// Hands octets over, up to a fault or until they are used; returns whether the connection has not
// failed.
fn take_used<N, T: Taker<N>>(taker: &mut T, cut: Cut, octets: &[u8], notes: &mut N) -> bool {
    let mut left = octets;
    for _ in 0..u64::MAX {
        let Some(used) = taker.take_piece(cut.piece(left), notes) else {
            return false;
        };
        left = left.get(used.count..).unwrap_or(&[]);
        if left.is_empty() {
            break;
        }
    }
    true
}

/// Hands octets over, up to a fault or until they are used and nothing more comes out; returns
/// whether the connection has not failed.
pub fn take_part<N, T: Taker<N>>(taker: &mut T, cut: Cut, octets: &[u8], notes: &mut N) -> bool {
    let mut left = octets;
    for _ in 0..u64::MAX {
        let Some(used) = taker.take_piece(cut.piece(left), notes) else {
            return false;
        };
        left = left.get(used.count..).unwrap_or(&[]);
        if left.is_empty() && !used.comes_out {
            break;
        }
    }
    true
}
