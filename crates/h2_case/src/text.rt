//! The answer to a command.

use crate::case::CaseError;
use std::alloc::Global;
use std::fmt::Display;

/// Lines that are written one part after another. That memory was refused is noted: what is
/// written then is lost, and [`Text::finish`] says so.
#[derive(Drop)]
pub struct Text {
    lines: String,
    is_refused: bool,
}

impl Text {
    /// A text of nothing.
    pub fn new(alloc: Global) -> Text {
        Text {
            lines: String::new(alloc),
            is_refused: false,
        }
    }

    /// Adds a part.
    pub fn push_str(&mut self, part: &str) {
        if self.lines.push_str(part).is_err() {
            self.is_refused = true;
        }
    }

    /// Adds a character.
    pub fn push(&mut self, part: char) {
        if self.lines.push(part).is_err() {
            self.is_refused = true;
        }
    }

    /// Adds a line.
    pub fn push_line(&mut self, line: &str) {
        self.push_str(line);
        self.push_str("\n");
    }

    /// Adds what was written to another text, and that memory was refused there.
    pub fn push_text(&mut self, other: &Text) {
        self.push_str(&other.lines);
        if other.is_refused {
            self.is_refused = true;
        }
    }

    /// Adds a value: `write!(text, ..)` comes to this.
    pub fn write_fmt<D: Display + Drop>(&mut self, value: D) {
        self.push_value(value);
    }

    /// Adds words, and a value after them.
    pub fn push_labeled<D: Display + Drop>(&mut self, label: &str, value: D) {
        self.push_str(label);
        self.push_value(value);
    }

    /// Adds a value.
    pub fn push_value<D: Display + Drop>(&mut self, value: D) {
        if self.lines.write(value).is_err() {
            self.is_refused = true;
        }
    }

    /// Notes that memory was refused.
    pub fn refuse(&mut self) {
        self.is_refused = true;
    }

    /// What was written.
    pub fn as_str(&self) -> &str {
        &self.lines
    }

    /// The lines, if no memory was refused.
    pub fn finish(self) -> Result<String, CaseError> {
        if self.is_refused {
            return Err(CaseError::Memory);
        }
        Ok(self.lines)
    }
}
