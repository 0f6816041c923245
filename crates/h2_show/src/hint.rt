//! Hints about the options or the input.

use crate::viewer::ShowError;
use h2_cli::{answers_http1, asks_http1, is_blank, is_capture};
use h2_frame::HEAD_LEN;
use h2_wire::WireFault;

/// What is likely wrong with the options or the input, if the first octets are at fault.
#[derive(Clone, Copy, Debug, PartialEq, Eq, Hash)]
pub enum Hint {
    /// The input is a packet capture, not octets of HTTP/2.
    Capture,
    /// The input is HTTP/1.1.
    Http1,
    /// The octets are those of a client, though a server's are expected.
    ClientPreface,
    /// The input looks like hexadecimal text.
    Hexadecimal,
    /// The octets look like those of a server.
    FromServer,
}

impl Hint {
    // rule (tested): show (own) A hint names a capture, or the option that is likely missing
    /// The hint for binary input: none unless its first octets say what it is, or the preface is at
    /// fault. `piece` is the piece with the fault, and `place` the number of the octet at fault.
    pub(crate) fn for_octets(error: &ShowError, piece: &[u8], place: u64) -> Option<Hint> {
        let is_bad_preface = match error {
            ShowError::Wire(WireFault::BadPreface) => true,
            _ => false,
        };
        // A fault of a frame header is found at its last octet.
        let of_input = if place <= HEAD_LEN as u64 {
            Hint::for_input(piece, is_bad_preface)
        } else {
            None
        };
        match of_input {
            None if is_bad_preface => Some(Hint::for_start(piece, place == 1)),
            hint => hint,
        }
    }

    // rule (tested): show (own) A hint names a capture, or the option that is likely missing
    /// Returns what the first piece of an input shows: a packet capture, HTTP/1.1, or, unless
    /// `expects_preface`, a client's preface.
    pub fn for_input(piece: &[u8], expects_preface: bool) -> Option<Hint> {
        if is_capture(piece) {
            return Some(Hint::Capture);
        }
        if asks_http1(piece) || answers_http1(piece) {
            return Some(Hint::Http1);
        }
        if !expects_preface && piece.starts_with(b"PRI * HTTP/2") {
            return Some(Hint::ClientPreface);
        }
        None
    }

    // rule (tested): show (own) A hint names a capture, or the option that is likely missing
    /// Returns the hint for first octets that are not the preface, by the piece with the octet
    /// at fault. `is_first` says that it is the first octet of all.
    pub fn for_start(piece: &[u8], is_first: bool) -> Hint {
        if is_first && piece.iter().all(|octet| is_hexadecimal(*octet)) {
            return Hint::Hexadecimal;
        }
        Hint::FromServer
    }

    // rule (tested): show (own) A hint names a capture, or the option that is likely missing
    /// Returns the hint for octets decoded from hexadecimal: [`Hint::FromServer`] in place of
    /// [`Hint::Hexadecimal`].
    pub fn of_decoded(self) -> Hint {
        match self {
            Hint::Hexadecimal => Hint::FromServer,
            hint => hint,
        }
    }
}

// Whether an octet is a hexadecimal digit or a blank.
fn is_hexadecimal(octet: u8) -> bool {
    is_blank(octet) || octet.is_ascii_hexdigit()
}
