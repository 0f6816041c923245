//! The results of one call of a cutter.

ghost use Rattle.std.specs.Prelude.{◌≡◌, ℕ, List, Some, length};
ghost use Rattle.h2_wire.specs.Cutter.{CutterState, body_at};

use h2_frame::{FrameRef, HEAD_LEN, Head};

/// Where the octets of a complete frame lie.
#[derive(Clone, Copy, Debug, PartialEq, Eq)]
pub(crate) enum Source {
    /// In the piece, from this offset on.
    Piece(usize),
    /// In the cutter, which keeps a frame that was cut in two.
    Kept,
}

/// A complete frame: its head, its pad length, and whether it lies in the piece that completed
/// it, or in the cutter, which keeps a frame that was cut in two.
/// [`Cutter::frame`](crate::Cutter::frame) lends it, and [`Cutter::body`](crate::Cutter::body)
/// its payload alone, without padding.
#[derive(Clone, Copy, Debug, PartialEq, Eq)]
pub struct Complete {
    pub(crate) head: Head,
    /// The pad length, if the payload begins with one.
    pub(crate) pad: Option<u8>,
    pub(crate) source: Source,
}

impl Complete {
    // contract: 6.1 With PADDED, DATA has a pad length, data and padding
    // rule: 6.1 With PADDED, DATA has a pad length, data and padding
    /// Returns the number of octets that [`Cutter::body`](crate::Cutter::body) lends of this
    /// frame, if it returns `Some`: for DATA the length of its data. It allocates nothing.
    pub fn body_len(&self) -> usize
        ensures { (cutter : CutterState) (piece octets : List ℕ)
            → body_at cutter piece self.now ≡ Some octets → result ≡ length octets }
    {
        let payload = self.head.length as usize;
        match self.pad {
            None => payload,
            Some(padding) => payload.saturating_sub(1 + usize::from(padding)),
        }
    }
}

/// The result of one call of [`Cutter::advance`](crate::Cutter::advance), which lends nothing.
#[derive(Clone, Copy, Debug, PartialEq, Eq)]
pub struct Advance {
    /// The number of octets of the piece that were used: up to the end of the frame, or all of
    /// them if there is none.
    pub used: usize,
    /// The frame that these octets complete, if they complete one.
    pub frame: Option<Complete>,
}

/// The result of one call of [`Cutter::cut`](crate::Cutter::cut).
#[derive(Clone, Copy, Debug, PartialEq, Eq)]
pub struct Cut<'a> {
    /// The number of octets of the piece that were used: up to the end of the frame, or all of
    /// them if there is none.
    pub used: usize,
    /// The frame that these octets complete, if they complete one.
    pub frame: Option<FrameRef<'a>>,
}
