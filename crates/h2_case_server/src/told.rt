//! What the handlers of all connections are told.

use h2_case::case::CaseError;
use h2_case::text::Text;
use h2_case::words::Words;
use h2_server::Code;
use std::alloc::Global;
use std::cell::{Cell, RefCell};

/// Nothing is asked of a connection of this number.
const NOBODY: usize = usize::MAX;

/// How a response is given.
#[derive(Clone, Copy)]
pub(crate) enum Gives {
    /// Whole, with so many octets.
    Whole(usize),
    /// In parts.
    Parts,
    /// Not at all.
    Nothing,
}

/// What a connection is asked to do.
#[derive(Clone, Copy)]
pub(crate) enum Asked {
    /// To end in order.
    Leave,
    /// To give the response of the exchange on a stream, with this status.
    Respond {
        stream: u32,
        status: u16,
        gives: Gives,
    },
    /// To reset a stream.
    Reset {
        stream: u32,
        code: Code,
    },
}

/// Lines; those that are the same one after another are one line, with their number.
#[derive(Drop)]
struct Lines {
    text: Text,
    /// The last line, which is not in the text yet.
    last: Text,
    /// How often it came.
    count: u32,
}

/// What handlers are told, and what is asked of whom.
#[derive(Drop)]
pub(crate) struct Told {
    /// The lines of each connection, by the numbers of their clients.
    lines: RefCell<Vec<Lines>>,
    /// What is asked of a connection, with the number of its client.
    asked: Cell<(usize, Asked)>,
}

impl Lines {
    // No lines.
    fn new(alloc: Global) -> Lines {
        Lines {
            text: Text::new(alloc),
            last: Text::new(alloc),
            count: 0,
        }
    }

    // Adds a line.
    fn add(&mut self, line: Text) {
        if self.last.as_str() != line.as_str() {
            self.end();
            self.last = line;
            self.count = 0;
        }
        self.count = self.count.wrapping_add(1);
    }

    // Adds the last line to the text.
    fn end(&mut self) {
        if self.count == 0 {
            return;
        }
        self.text.push_text(&self.last);
        if self.count > 1 {
            self.text.push_labeled(" x", self.count);
        }
        self.text.push_str("\n");
    }
}

impl Told {
    /// Nothing is told, and nobody is asked.
    pub(crate) fn new(alloc: Global) -> Told {
        Told {
            lines: RefCell::new(Vec::new(alloc)),
            asked: Cell::new((NOBODY, Asked::Leave)),
        }
    }

    /// Begins the lines of the next connection.
    pub(crate) fn begin(&self, alloc: Global, words: &mut Words<'_>) {
        let is_begun = match self.lines.try_borrow_mut() {
            Ok(mut lines) => lines.push(Lines::new(alloc)).is_ok(),
            Err(_) => false,
        };
        if !is_begun {
            words.fail(CaseError::Memory);
        }
    }

    /// Adds a line of what a handler is told, without its end.
    pub(crate) fn add(&self, number: usize, line: Text) {
        if let Ok(mut lines) = self.lines.try_borrow_mut() {
            let all = &mut *lines;
            if let Some(own) = all.get_mut(number) {
                own.add(line);
            }
        }
    }

    /// The lines of a connection, which are then taken away.
    pub(crate) fn take(&self, alloc: Global, number: usize) -> Text {
        let mut taken = Lines::new(alloc);
        if let Ok(mut lines) = self.lines.try_borrow_mut() {
            let all = &mut *lines;
            if let Some(own) = all.get_mut(number) {
                std::mem::swap(own, &mut taken);
            }
        }
        taken.end();
        taken.text
    }

    /// Asks something of a connection.
    pub(crate) fn ask(&self, number: usize, asked: Asked) {
        self.asked.set((number, asked));
    }

    /// Asks nobody any more.
    pub(crate) fn ask_nobody(&self) {
        self.asked.set((NOBODY, Asked::Leave));
    }

    /// What is asked of a connection.
    pub(crate) fn asked_of(&self, number: usize) -> Option<Asked> {
        let (of, asked) = self.asked.get();
        if of == number { Some(asked) } else { None }
    }
}
