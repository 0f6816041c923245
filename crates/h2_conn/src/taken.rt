//! The results of `take` and `advance`.

ghost use Rattle.std.specs.Prelude.{◌≡◌};

use h2_core::Event;
use h2_frame::Code;
use h2_wire::Complete;
use hpack::FieldList;
use thiserror::Error;

/// The result of [`Conn::take`](crate::Conn::take).
#[derive(Clone, Copy, Debug)]
pub struct Taken<'a> {
    /// The number of octets of the piece that were used: none if a stream is reported as
    /// unprocessed; otherwise those up to the end of one frame or, if no frame ends in the piece,
    /// all of them.
    pub used: usize,
    /// The event, if there is one. Its fields are lent from the connection until the next call;
    /// the octets of a body are lent from the piece, or from the connection where their frame came
    /// in more than one piece.
    pub event: Option<Event<&'a FieldList, &'a [u8]>>,
}

/// The result of [`Conn::advance`](crate::Conn::advance).
#[derive(Clone, Copy, Debug)]
pub struct Progress {
    /// The number of octets of the piece that were used: none if a stream is reported as
    /// unprocessed; otherwise those up to the end of one frame or, if no frame ends in the piece,
    /// all of them.
    pub used: usize,
    /// The event, if there is one, without its fields and octets.
    /// [`Conn::list`](crate::Conn::list) lends the fields. The event says where the octets of a
    /// body lie, and [`Conn::octets`](crate::Conn::octets) lends them from there.
    pub happened: Option<Event<(), Complete>>,
}

/// The code with which the connection has failed; GOAWAY with this code is the last frame of the
/// output (RFC 9113, section 5.4.1). INTERNAL_ERROR means out of memory, unless the caller gave it
/// ([`Conn::fail`](crate::Conn::fail)).
#[derive(Clone, Copy, Debug, PartialEq, Eq, Hash, Error)]
#[error("the connection has failed: {code}")]
pub struct ConnFault {
    /// The error code.
    pub code: Code,
}

impl From<Code> for ConnFault {
    ghost from_gives = { λ code fault. fault.code ≡ code };

    fn from(code: Code) -> ConnFault {
        ConnFault { code }
    }
}
