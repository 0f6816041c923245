//! The head of a DATA frame.

ghost use Rattle.std.specs.Prelude.{◌≡◌, ◌^◌, ◌<◌, ◌++◌, ℕ, List, length as count_of, None};
ghost use Rattle.h2_frame.specs.Frames.{Data};
ghost use Rattle.h2_frame.specs.Encoding.{encoding_of};

use h2_frame::{HEAD_LEN, Head, Kind};

// rule: calls (own) Frames join the output that waits, in order
/// The head of a DATA frame of `length` octets without padding (RFC 9113, sections 4.1 and
/// 6.1); with the octets after it, it is the frame.
pub(crate) fn data_head(stream: u32, length: u32, end: bool) -> [u8; HEAD_LEN]
    requires { length < 2 ^ 24 }
    ensures { (octets : List ℕ) → count_of octets ≡ length
        → result ++ octets ≡ encoding_of (Data stream end octets None) }
{
    let head = Head {
        length,
        kind: Kind::Data,
        flags: u8::from(end),
        stream,
    };
    head.octets()
}
