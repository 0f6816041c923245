//! How the octets of a command are handed over: all at once, one a piece, or in two at each place.

use crate::answers::extend;
use h2_case::case::{Case, CaseError};
use h2_case::driver::{Answer, Driver, answers};
use h2_case::octets::{read_octets, split_frame};
use h2_case::words::Words;
use std::alloc::Global;

/// How the octets of each `take` are handed over.
#[derive(Clone, Copy)]
pub struct Cut {
    /// Where the first piece ends, in octets.
    place: usize,
    /// The most octets of a piece.
    most: usize,
}

/// The octets of a `take` are one piece.
pub const WHOLE: Cut = Cut {
    place: 0,
    most: usize::MAX,
};

/// The most octets of a `take` that is cut in two at each place.
const LONGEST: usize = 160;

/// The most octets that come one a piece: as long as more are left, seven come at once.
const MANY: usize = 20_000;

impl Cut {
    /// Cut 0 is pieces of one octet, and any other is two pieces, the first of which has `number`
    /// octets.
    fn of(number: u32) -> Cut {
        match number {
            0 => Cut { place: 0, most: 1 },
            _ => Cut {
                place: number as usize,
                most: usize::MAX,
            },
        }
    }

    /// The octets before the place, which come first, and those from it on.
    pub(crate) fn split(self, octets: &[u8]) -> (&[u8], &[u8]) {
        octets.split_at_checked(self.place).unwrap_or((octets, &[]))
    }

    /// The next piece of these octets; of many it has seven octets in place of one.
    pub(crate) fn piece(self, octets: &[u8]) -> &[u8] {
        let most = if self.most == 1 && octets.len() > MANY {
            7
        } else {
            self.most
        };
        octets.get(..most).unwrap_or(octets)
    }
}

/// A driver whose octets are cut.
pub trait Cutting: Driver {
    /// A new one, with a cut.
    fn new(alloc: Global, cut: Cut) -> Self;
}

/// The answers of a new driver to a case's commands, up to the first that has none.
pub fn answers_of<D: Driver + Drop>(alloc: Global, case: &Case, mut driver: D) -> Vec<Answer> {
    answers(alloc, case, &mut driver)
}

// The answers to a case's commands with a cut, up to the first that has none.
fn answers_with<D: Cutting + Drop>(alloc: Global, case: &Case, cut: Cut) -> Vec<Answer> {
    answers_of(alloc, case, D::new(alloc, cut))
}

/// The answers to a case's commands, however the octets are cut.
pub fn answers_in_cuts<D: Cutting + Drop>(alloc: Global, case: &Case) -> Vec<Answer> {
    let mut answers = answers_with::<D>(alloc, case, WHOLE);
    for number in 0..count_of_cuts(case) {
        let others = answers_with::<D>(alloc, case, Cut::of(number));
        if add_difference(&mut answers, &others, number) {
            break;
        }
    }
    answers
}

// Whether a command has many octets, or is done many times: a word with a count of more than 99.
fn is_long(command: &str) -> bool {
    command.contains("count:") || command.contains("each ") || has_long_count(command.as_bytes())
}

// Whether octets have an `x` and three digits.
fn has_long_count(octets: &[u8]) -> bool {
    for word in octets.windows(4) {
        if word.starts_with(b"x") && is_number(word.get(1..).unwrap_or(&[])) {
            return true;
        }
    }
    false
}

// Whether all octets are digits.
fn is_number(octets: &[u8]) -> bool {
    for octet in octets {
        if !octet.is_ascii_digit() {
            return false;
        }
    }
    true
}

// The number of cuts with which a case is run besides the octets in one piece: none where it has
// no `take`, or a crowd of messages; and no places where a command is long, unless a `take` is to
// be cut anywhere.
fn count_of_cuts(case: &Case) -> u32 {
    let (mut longest, mut long, mut anywhere) = (0, false, false);
    for step in &case.steps {
        if let Some(octets) = step.command.strip_prefix("take ") {
            longest = (octets.len() / 2).max(longest).max(1);
            anywhere |= octets.starts_with("anywhere ");
        }
        if step.command.starts_with("serve ") || step.command.starts_with("ask ") {
            return 0;
        }
        long |= is_long(&step.command);
    }
    if longest == 0 {
        return 0;
    }
    if longest > LONGEST || (long && !anywhere) {
        return 1;
    }
    u32::try_from(longest).unwrap_or(1)
}

// Whether two answers are the same.
fn are_same(answer: &Answer, other: &Answer) -> bool {
    match (answer, other) {
        (Ok(answer), Ok(other)) => answer == other,
        (Err(_), Err(_)) => true,
        _ => false,
    }
}

// Adds to the first answer that differs with a cut what it is then; returns whether one does.
fn add_difference(answers: &mut [Answer], others: &[Answer], cut: u32) -> bool {
    for (answer, other) in answers.iter_mut().zip(others) {
        if !are_same(answer, other) {
            add_other(answer, other, cut);
            return true;
        }
    }
    false
}

// Adds the answer with a cut.
fn add_other(answer: &mut Answer, other: &Answer, cut: u32) {
    let other = match other {
        Ok(other) => other.as_str(),
        Err(_) => "no answer\n",
    };
    let is_refused = match answer {
        Ok(lines) => write!(lines, "with cut {cut} this came:\n{other}").is_err(),
        Err(_) => false,
    };
    if is_refused {
        *answer = Err(CaseError::Memory);
    }
}

/// The octets of what is left of a command: `each N FRAMES` is the frames N times, with stream
/// numbers that are 2 higher each time; all else is as [`read_octets`] says.
pub fn read_frames(alloc: Global, words: &mut Words<'_>) -> Vec<u8> {
    if words.has("each") {
        let times = words.number();
        let frames = read_octets(alloc, words);
        repeated(alloc, &frames, times, words)
    } else {
        read_octets(alloc, words)
    }
}

// The frames `times` times, with stream numbers that are 2 higher each time.
fn repeated(alloc: Global, frames: &[u8], times: u32, words: &mut Words<'_>) -> Vec<u8> {
    let mut octets = Vec::new(alloc);
    for time in 0..times {
        add_frames_above(&mut octets, frames, time.wrapping_mul(2), words);
        if words.fault().is_some() {
            break;
        }
    }
    octets
}

// Adds frames with stream numbers that are `more` higher.
fn add_frames_above(octets: &mut Vec<u8>, frames: &[u8], more: u32, words: &mut Words<'_>) {
    let mut others = frames;
    for _ in 0..frames.len() {
        let Some((head, payload, following)) = split_frame(others) else {
            break;
        };
        extend(octets, &head_above(head, more), words);
        extend(octets, payload, words);
        others = following;
    }
    if !others.is_empty() {
        words.unread();
    }
}

// The head of a frame with a stream number that is `more` higher.
fn head_above(head: &[u8; 9], more: u32) -> [u8; 9] {
    let [a, b, c, kind, flags, d, e, f, g] = *head;
    let id = u32::from_be_bytes([d, e, f, g]).wrapping_add(more);
    let [d, e, f, g] = id.to_be_bytes();
    [a, b, c, kind, flags, d, e, f, g]
}
