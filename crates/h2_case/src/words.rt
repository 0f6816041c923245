//! The words of a command.

use crate::case::CaseError;
use std::str::FromStr;

/// The words of a command that are left, which one space divides. That a word could not be read is
/// noted: the reader goes on with another value in its place, and the command has no answer.
#[derive(Clone, Copy)]
pub struct Words<'a> {
    left: &'a str,
    fault: Option<CaseError>,
}

impl<'a> Words<'a> {
    /// The words of a text.
    pub fn of(text: &'a str) -> Words<'a> {
        Words {
            left: text.trim_start_matches(' '),
            fault: None,
        }
    }

    /// Notes why the command has no answer; what was noted first stays.
    pub fn fail(&mut self, fault: CaseError) {
        if self.fault.is_none() {
            self.fault = Some(fault);
        }
    }

    /// Notes that the command can't be read.
    pub fn unread(&mut self) {
        self.fail(CaseError::Unread);
    }

    /// Why the command has no answer, if it has none: what was noted, or that words are left.
    pub fn fault(&self) -> Option<CaseError> {
        match self.fault {
            None if !self.left.is_empty() => Some(CaseError::Unread),
            fault => fault,
        }
    }

    /// Whether none is left.
    pub fn is_empty(&self) -> bool {
        self.left.is_empty()
    }

    /// The next word; empty where none is left.
    pub fn next_or_empty(&mut self) -> &'a str {
        match self.left.split_once(' ') {
            Some((word, others)) => {
                self.left = others.trim_start_matches(' ');
                word
            }
            None => self.rest(),
        }
    }

    /// The next word, which must be there.
    pub fn word(&mut self) -> &'a str {
        let word = self.next_or_empty();
        if word.is_empty() {
            self.unread();
        }
        word
    }

    /// The next word as a number.
    pub fn number<N: FromStr + Default>(&mut self) -> N
    where
        N::Err: Drop,
    {
        let word = self.word();
        self.parse(word)
    }

    /// A word as a number.
    pub fn parse<N: FromStr + Default>(&mut self, word: &str) -> N
    where
        N::Err: Drop,
    {
        match word.parse() {
            Ok(number) => number,
            Err(_) => {
                self.unread();
                N::default()
            }
        }
    }

    /// The number of times that a command is run: `N times`, if these are the next words, and else
    /// once.
    pub fn times(&mut self) -> u32 {
        let mut others = *self;
        let count = others.number();
        if others.has("times") {
            *self = others;
            return count;
        }
        1
    }

    /// Whether the next word is this one, which is then used.
    pub fn has(&mut self, word: &str) -> bool {
        let mut others = *self;
        let is_next = others.next_or_empty() == word;
        if is_next {
            *self = others;
        }
        is_next
    }

    /// The next word is this one.
    pub fn expect(&mut self, word: &str) {
        if !self.has(word) {
            self.unread();
        }
    }

    /// All that is left, which is then used.
    pub fn rest(&mut self) -> &'a str {
        let rest = self.left;
        self.left = "";
        rest
    }
}
