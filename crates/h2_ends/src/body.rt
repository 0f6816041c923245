//! The body of a message that waits to be sent.

ghost use Rattle.std.specs.Prelude.{◌≡◌, ◌≤◌, ◌<◌, ◌+◌, ◌-◌, ◌^◌, length, IfOk};
ghost use Rattle.std.specs.List.{AllByRecursion};
ghost use Rattle.hpack_text.specs.Bits.{IsOctet};
ghost use Rattle.h2_spec_log.specs.Acts.{SendData, Count};
ghost use Rattle.h2_conn.specs.Conn.{ConnAnswers, answer_by};
ghost use Rattle.h2_ends.specs.Bodies.{part_of};

use bytes::Bytes;
use h2_conn::{Conn, Refusal};
use std::alloc::Global;
use std::marker::Model;

/// The octets of a body.
#[derive(Debug, Drop)]
pub(crate) struct Body {
    kept: Kept,
}

/// How the octets are kept.
#[derive(Debug, Drop)]
pub(crate) enum Kept {
    /// Octets that are copied into the output when they are sent: fewer than 4,096, or any number
    /// for which memory to share them was refused.
    Own(Vec<u8>),
    /// 4,096 octets or more, which the output borrows when they are sent.
    Shared(Bytes<Global>),
}

impl Model for Body {
    ghost use Rattle.h2_ends.specs.Bodies.{BodyOctets, octets_kept_in};

    ghost Value = { BodyOctets };

    ghost view = { λ body. record { items = octets_kept_in body.kept } };
}

/// The least length of a body that is lent to the output, in octets.
const LEAST_SHARED: usize = 4_096;

impl Body {
    // rule: 8.1 What was sent on a stream is a prefix of its message
    /// Makes the body of these octets, without a copy.
    pub(crate) fn new(octets: Vec<u8>) -> Body
        ensures { result ≡ record { items = octets.items } }
    {
        if octets.len() < LEAST_SHARED {
            return Body {
                kept: Kept::Own(octets),
            };
        }
        match Bytes::from_vec(octets) {
            Ok(shared) => Body {
                kept: Kept::Shared(shared),
            },
            Err(refused) => Body {
                kept: Kept::Own(refused.value),
            },
        }
    }

    /// Returns the length in octets.
    pub(crate) fn len(&self) -> usize
        ensures { result ≡ length self.now.items }
    {
        match &self.kept {
            Kept::Own(octets) => octets.len(),
            Kept::Shared(octets) => octets.len(),
        }
    }

    // rule: 8.1 What was sent on a stream is a prefix of its message
    /// Sends `count` octets from `from` on, as [`Conn::data`] does.
    pub(crate) fn send(
        &self,
        conn: &mut Conn,
        id: u32,
        from: usize,
        count: usize,
        end: bool,
    ) -> Result<usize, Refusal>
        requires within { (from ≤ length self.now.items) × (count ≤ length self.now.items - from) }
        requires fits { from + count < 2 ^ 64 }
        ensures answers { ConnAnswers conn.old (SendData id (part_of self.now from count) end)
            (answer_by (λ count. Count count) result) conn.new }
        ensures within { IfOk result (λ sent. sent ≤ count) }
        ensures part { IfOk result (λ sent. sent ≤ length (part_of self.now from count)) }
        ensures octets { AllByRecursion IsOctet (part_of self.now from count) }
    {
        let to = from + count;
        match &self.kept {
            Kept::Own(octets) => conn.data(id, &octets[from..to], end),
            Kept::Shared(octets) => match octets.slice(from..to) {
                Ok(part) => conn.data_shared(id, part, end),
                Err(_) => conn.data(id, &octets.as_slice()[from..to], end),
            },
        }
    }
}
