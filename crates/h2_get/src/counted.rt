//! Writes a file, and shows its progress on a terminal.

ghost use Rattle.std.specs.Prelude.{◌≡◌, ◌∷◌, option_map};

use h2_message::Field;
use std::io::{self, Write};
use std::time::{Clock, Duration};

/// Whether progress is shown, and of how many octets.
#[derive(Clone, Copy, Debug)]
pub(crate) struct Progress {
    /// Whether progress is shown.
    pub(crate) is_shown: bool,
    /// The length of the body, if the response's head states it.
    pub(crate) total: Option<u64>,
}

impl Progress {
    /// Creates the progress of a response with this head.
    pub(crate) fn new(is_shown: bool, head: &[Field]) -> Progress {
        let total = if is_shown { length_stated(head) } else { None };
        Progress { is_shown, total }
    }
}

/// The length that a head states (RFC 9110, section 8.6), if it does.
fn length_stated(head: &[Field]) -> Option<u64> {
    for field in head {
        if field.name.as_slice() == b"content-length".as_slice() {
            return match std::str::from_utf8(field.value.as_slice()) {
                Ok(digits) => digits.parse::<u64>().ok(),
                Err(_) => None,
            };
        }
    }
    None
}

/// The minimum time between two updates, in milliseconds.
const PAUSE: u64 = 100;

/// A writer that counts its octets, and shows them on a line that it updates.
#[derive(Drop)]
pub(crate) struct Counted<'a, S, C, E> {
    file: &'a mut S,
    clock: &'a C,
    out: &'a mut E,
    progress: Progress,
    /// The number of octets written.
    count: u64,
    /// The time of the next update.
    next: Duration,
}

impl<'a, S: Write, C: Clock, E: Write> Counted<'a, S, C, E> {
    /// Creates one that has shown nothing.
    pub(crate) fn new(
        file: &'a mut S,
        clock: &'a C,
        progress: Progress,
        out: &'a mut E,
    ) -> Counted<'a, S, C, E> {
        Counted {
            file,
            clock,
            out,
            progress,
            count: 0,
            next: Duration::ZERO,
        }
    }

    // rule (tested): engines (own) On a terminal get -o says how much of the body has come
    /// Notes octets that were written, and shows their number, at most ten times a second.
    fn note(&mut self, count: usize)
        ensures { self.new.file ≡ self.old.file }
    {
        self.count = self.count.saturating_add(count as u64);
        if !self.progress.is_shown {
            return;
        }
        if let Ok(now) = self.clock.monotonic() {
            if now >= self.next {
                self.next = now.saturating_add(Duration::from_millis(PAUSE));
                self.tell();
            }
        }
    }

    /// Overwrites the line. A failure changes nothing else.
    fn tell(&mut self)
        ensures { self.new.file ≡ self.old.file }
    {
        let count = self.count;
        let _ = match self.progress.total {
            Some(total) => write!(self.out, "\r{count} of {total} octets"),
            None => write!(self.out, "\r{count} octets"),
        };
    }

    /// Updates the line for the last time, and ends it.
    pub(crate) fn end(&mut self) {
        if self.progress.is_shown {
            self.tell();
            let _ = writeln!(self.out);
        }
    }
}

impl<S: Write, C: Clock, E: Write> Write for Counted<'_, S, C, E> {
    // The name of the reference precedes the octets, so what is appended says that it is the same.
    ghost contents = { λ counted. option_map (λ known. counted.file.ghost_name ∷ known)
        (S.contents counted.file.now) };

    fn write(&mut self, octets: &[u8]) -> io::Result<usize> {
        let count = self.file.write(octets)?;
        self.note(count);
        Ok(count)
    }

    fn flush(&mut self) -> io::Result<()> {
        self.file.flush()
    }
}
