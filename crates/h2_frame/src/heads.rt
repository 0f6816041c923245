//! The head of a frame, and its encoding (RFC 9113, section 4.1).

ghost use Rattle.std.specs.Prelude.{◌≡◌, ◌<◌, ◌^◌};
ghost use Rattle.byteorder.specs.Endian.{big_bytes};
ghost use Rattle.h2_frame.specs.Heads.{head_octets};

use crate::kind::Kind;
use byteorder::{BigEndian, ByteOrder};

/// The number of octets of a frame's head (RFC 9113, section 4.1).
pub const HEAD_LEN: usize = 9;

/// The nine octets of a frame header, as numbers (RFC 9113, section 4.1).
#[derive(Clone, Copy, Debug, PartialEq, Eq)]
pub struct Head {
    /// The payload's length in octets, less than 2<sup>24</sup> in a head that was read.
    pub length: u32,
    /// The frame's type.
    pub kind: Kind,
    /// The flags; each type defines its own.
    pub flags: u8,
    /// The stream's number, less than 2<sup>31</sup> in a head that was read; 0 is the connection.
    pub stream: u32,
}

impl Head {
    // rule: 4.1 A frame is sent without its reserved bit and undefined flags
    // rule: 4.1 A frame is sent with the length of its payload
    /// Returns the octets that encode the head (RFC 9113, section 4.1). Its length must be less
    /// than 2<sup>24</sup>; the reserved bit is 0 if its stream is less than 2<sup>31</sup>.
    pub fn octets(&self) -> [u8; HEAD_LEN]
        requires { self.now.length < 2 ^ 24 }
        ensures { result
            ≡ head_octets self.now.kind self.now.flags self.now.stream self.now.length }
    {
        let mut octets = [0; HEAD_LEN];
        BigEndian::write_u24(&mut octets, self.length);
        octets[3] = self.kind.number();
        octets[4] = self.flags;
        BigEndian::write_u32(&mut octets[5..], self.stream);
        octets
    }
}

/// Returns the octets of a 32-bit number in a payload, such as an error code, an increment or a
/// stream's number, the most significant octet first (RFC 9113, section 2.2).
#[inline(always)]
pub fn word_octets(word: u32) -> [u8; 4]
    ensures { result ≡ big_bytes 4 word }
{
    let mut octets = [0; 4];
    BigEndian::write_u32(&mut octets, word);
    octets
}
