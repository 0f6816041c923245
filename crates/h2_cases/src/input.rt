//! The input of a command of the program.

use h2_case::fields::read_text;
use h2_case::octets::read_octets;
use h2_case::text::Text;
use h2_case::words::Words;
use h2_case_conn::answers::extend;
use std::alloc::Global;
use std::io::{self, ErrorKind, Read};

/// An input: octets, or the octets of a text.
#[derive(Drop)]
pub(crate) struct Input {
    pub(crate) octets: Vec<u8>,
    pub(crate) is_text: bool,
}

impl Input {
    /// The input of these words: `OCTETS`, or `text TEXT`.
    pub(crate) fn read(alloc: Global, words: &mut Words<'_>) -> Input {
        let is_text = words.has("text");
        let octets = if is_text {
            read_text(alloc, words)
        } else {
            read_octets(alloc, words)
        };
        Input { octets, is_text }
    }

    /// Adds the input of these words, which is of the same kind.
    pub(crate) fn add(&mut self, alloc: Global, words: &mut Words<'_>) {
        let other = Input::read(alloc, words);
        if self.is_text != other.is_text {
            words.unread();
        }
        extend(&mut self.octets, &other.octets, words);
    }
}

/// How octets are read.
#[derive(Clone, Copy)]
enum How {
    Whole,
    Single,
    CutAfter(usize),
    Digits,
}

/// A reader of octets in pieces.
#[derive(Drop)]
pub(crate) struct Pieces<'a> {
    octets: &'a [u8],
    /// The most octets of the next piece, and of each one after it.
    next: usize,
    others: usize,
    how: How,
}

impl<'a> Pieces<'a> {
    /// All octets at once.
    pub(crate) fn whole(octets: &'a [u8]) -> Pieces<'a> {
        Pieces::new(octets, (usize::MAX, usize::MAX), How::Whole)
    }

    /// One octet after another.
    pub(crate) fn single(octets: &'a [u8]) -> Pieces<'a> {
        Pieces::new(octets, (1, 1), How::Single)
    }

    /// Two pieces, the first of which has `place` octets.
    pub(crate) fn cut(octets: &'a [u8], place: usize) -> Pieces<'a> {
        Pieces::new(octets, (place, usize::MAX), How::CutAfter(place))
    }

    /// Digits of octets, in pieces that cut octets too.
    pub(crate) fn of_digits(digits: &'a [u8]) -> Pieces<'a> {
        Pieces::new(digits, (7, 11), How::Digits)
    }

    fn new(octets: &'a [u8], most: (usize, usize), how: How) -> Pieces<'a> {
        let (next, others) = most;
        Pieces {
            octets,
            next,
            others,
            how,
        }
    }

    /// Adds a line that says how octets are read.
    pub(crate) fn add_how(&self, text: &mut Text) {
        match self.how {
            How::Whole => text.push_line("whole:"),
            How::Single => text.push_line("in single octets:"),
            How::CutAfter(place) => write!(text, "cut after {place}:\n"),
            How::Digits => text.push_line("in hexadecimal:"),
        }
    }
}

impl Read for Pieces<'_> {
    fn read(&mut self, buf: &mut [u8]) -> io::Result<usize> {
        let count = self.next.min(buf.len()).min(self.octets.len());
        buf[..count].copy_from_slice(&self.octets[..count]);
        self.octets = &self.octets[count..];
        self.next = self.others;
        Ok(count)
    }
}

/// A reader whose reads fail.
#[derive(Drop)]
pub(crate) struct Unreadable {
    pub(crate) was_read: bool,
}

impl Read for Unreadable {
    fn read(&mut self, _buf: &mut [u8]) -> io::Result<usize> {
        self.was_read = true;
        Err(io::Error::from(ErrorKind::Other))
    }
}
