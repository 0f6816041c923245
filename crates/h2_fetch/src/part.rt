//! The parts of a response.

ghost use Rattle.std.specs.Prelude.{IfOk, OnErr, Some};
ghost use Rattle.h2_ends.specs.Loans.{event_handed};
ghost use Rattle.h2_engines.specs.ClientSteps.{DropsStream};
ghost use Rattle.h2_fetch.specs.Parts.{HandsPart};

use h2_ends::{EndEvent, Field, FieldList};
use std::alloc::{AllocError, Global};

/// A part of a response.
#[derive(Debug, Drop)]
pub enum ResponsePart {
    /// The head of an interim response (1xx; RFC 9113, section 8.1).
    Interim {
        /// Its fields, in order.
        list: Vec<Field>,
    },
    /// The head of the final response.
    Head {
        /// Its fields, in order.
        list: Vec<Field>,
        /// Whether the response is complete.
        end: bool,
    },
    /// Octets of the body.
    Body {
        /// The octets; there may be none.
        octets: Vec<u8>,
        /// Whether the response is complete.
        end: bool,
    },
    /// The trailers, with which the response is complete.
    Trailers {
        /// Their fields, in order.
        list: Vec<Field>,
    },
}

// rule: engines (own) A response in parts is what is handed out, in order
/// Returns the part of the response on a stream that an event has, if it has one. Memory is
/// refused only for a part of a message.
pub(crate) fn part_of(
    alloc: Global,
    stream: u32,
    event: EndEvent<&FieldList, &[u8]>,
) -> Result<Option<ResponsePart>, AllocError>
    ensures hands { IfOk result (HandsPart stream (Some (event_handed event.entry))) }
    ensures err { OnErr result (DropsStream (event_handed event.entry) stream → ⊥) }
{
    match event {
        EndEvent::Interim { id, list } if id == stream => {
            let list = list.to_vec(alloc)?;
            Ok(Some(ResponsePart::Interim { list }))
        }
        EndEvent::Head { id, list, end } if id == stream => {
            let list = list.to_vec(alloc)?;
            Ok(Some(ResponsePart::Head { list, end }))
        }
        EndEvent::Body { id, bytes, end } if id == stream => {
            let octets = Vec::from_slice(alloc, bytes)?;
            Ok(Some(ResponsePart::Body { octets, end }))
        }
        EndEvent::Trailers { id, list } if id == stream => {
            let list = list.to_vec(alloc)?;
            Ok(Some(ResponsePart::Trailers { list }))
        }
        _ => Ok(None),
    }
}
