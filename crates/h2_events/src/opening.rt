//! Tracks the client's preface.

use h2_conn::Role;
use h2_show::Hint;
use h2_wire::PREFACE;

/// The part of the expected preface that has not arrived.
#[derive(Clone, Copy, Debug)]
pub struct Opening {
    left: &'static [u8],
    /// Whether no octet has arrived.
    is_new: bool,
}

impl Opening {
    /// Creates one before the first octet: a server expects the preface, a client nothing.
    pub fn new(role: Role) -> Opening {
        match role {
            Role::Server => Opening {
                left: &PREFACE,
                is_new: true,
            },
            Role::Client => Opening {
                left: &[],
                is_new: true,
            },
        }
    }

    /// Notes a piece that was accepted.
    pub fn advance(&mut self, piece: &[u8]) {
        let count = piece.len().min(self.left.len());
        self.left = &self.left[count..];
        self.is_new = false;
    }

    // rule: replay (own) The words of replay choose the end and hexadecimal
    /// Returns what is likely wrong with the options or the input if the connection fails in
    /// this piece: none unless the piece is the first and shows what the input is, or does not
    /// continue the preface.
    pub fn hint(&self, piece: &[u8]) -> Option<Hint> {
        let of_input = if self.is_new {
            Hint::for_input(piece, !self.left.is_empty())
        } else {
            None
        };
        match of_input {
            None if !piece.starts_with(self.left) => {
                Some(Hint::for_start(piece, self.left.len() == PREFACE.len()))
            }
            hint => hint,
        }
    }
}
