//! The log lines of all connections.

ghost use Rattle.std.specs.Prelude.{List, None, OnErr, OnOk, Option, Some, ℕ};
ghost use Rattle.std.specs.Io.KnownBytes.{Appends, Keeps};

use std::alloc::{AllocError, Global};
use std::cell::RefCell;

/// Receives the lines of a log.
pub trait TakesLines {
    /// The octets that it holds, if they are known.
    ghost lines_of: { Self → Option (List ℕ) } = { λ _. None };

    /// Adds a line completely, or not at all.
    ///
    /// # Errors
    ///
    /// [`AllocError`] if an allocation was refused: nothing is added.
    fn add(&mut self, line: &[u8]) -> Result<(), AllocError>
        ensures added { OnOk result (Appends (lines_of self.old) (lines_of self.new) line.now) }
        ensures lost { OnErr result (Keeps (lines_of self.old) (lines_of self.new)) };
}

impl TakesLines for Vec<u8> {
    ghost lines_of = { λ lines. Some lines.items };

    fn add(&mut self, line: &[u8]) -> Result<(), AllocError> {
        self.extend_from_slice(line)
    }
}

/// The log lines of all connections, until they are written.
#[derive(Drop)]
pub struct Journal {
    lines: RefCell<Vec<u8>>,
}

impl Journal {
    /// Creates an empty journal.
    pub fn new(alloc: Global) -> Journal {
        Journal {
            lines: RefCell::new(Vec::new(alloc)),
        }
    }

    /// The number of octets that wait.
    pub fn waiting(&self) -> usize {
        match self.lines.try_borrow() {
            Ok(lines) => lines.len(),
            Err(_) => 0,
        }
    }

    /// Removes and returns all lines.
    pub fn take(&self, alloc: Global) -> Vec<u8> {
        match self.lines.try_replace(Vec::new(alloc)) {
            Ok(lines) => lines,
            Err(none) => none,
        }
    }
}

impl<'j> TakesLines for &'j Journal {
    fn add(&mut self, line: &[u8]) -> Result<(), AllocError> {
        match self.lines.try_borrow_mut() {
            Ok(mut lines) => lines.extend_from_slice(line),
            Err(_) => Err(AllocError),
        }
    }
}
