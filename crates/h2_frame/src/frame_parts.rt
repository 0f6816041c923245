//! The parts of a frame that is written.

ghost use Rattle.std.specs.Prelude.{◌≡◌, ◌^◌, nat_lt, ◌&&◌, flat_map};
ghost use Rattle.h2_frame.specs.Frames.{Data, Headers, Priority, Reset, Settings, Ping, GoAway};
ghost use Rattle.h2_frame.specs.Frames.{WindowUpdate, Continuation, Unknown};
ghost use Rattle.h2_frame.specs.Encoding.{flag as flag_bits, pair_octets};
ghost use Rattle.h2_frame.specs.Pairs.{lent_pairs, pairs_of};
ghost use Rattle.h2_frame.specs.Heads.{fits_stream as stream_fits};
ghost use Rattle.h2_frame.specs.FrameParts.{ArePairs, Describes, IsPlain};

use crate::kind::Kind;
use crate::limits::PAIR;
use crate::pairs::Pairs;
use crate::reading_heads::{ACK, END_HEADERS, END_STREAM, PADDED, PRIORITY, fits_stream};

/// The least number that has more than 31 bits.
pub(crate) const ABOVE_31_BITS: u32 = 0x8000_0000;

/// The fields of fixed length between a pad length and a body.
#[derive(Clone, Copy)]
pub(crate) enum FixedFields {
    /// None.
    Nothing,
    /// A priority.
    Priority([u8; 5]),
    /// The octets of PING.
    Ping([u8; 8]),
    /// 32 bits.
    Word(u32),
    /// 32 bits twice.
    TwoWords(u32, u32),
}

/// A body, which is lent.
#[derive(Clone, Copy)]
pub(crate) enum Body<'a> {
    /// Octets.
    Octets(&'a [u8]),
    /// Pairs of SETTINGS, six octets each.
    Pairs(&'a [(u16, u32)]),
}

/// The parts of a frame of any type that is written.
#[derive(Clone, Copy)]
pub(crate) struct FrameParts<'a> {
    /// The type.
    pub(crate) kind: Kind,
    /// The flags.
    pub(crate) flags: u8,
    /// The stream.
    pub(crate) stream: u32,
    /// Whether the values may be written.
    pub(crate) has_good_values: bool,
    /// The pad length, if there is one.
    pub(crate) pad: Option<u8>,
    /// The fields of fixed length before the body.
    pub(crate) fixed_fields: FixedFields,
    /// The octets between those fields and the padding.
    pub(crate) body: Body<'a>,
}

#[tactic(auto, unfolding(crate::proofs::Rules::parts_of_frames))]
impl<'a> FrameParts<'a> {
    // rule: 6.1 DATA is sent with its octets and END_STREAM
    /// The parts of DATA.
    pub(crate) fn data(stream: u32, end: bool, octets: &'a [u8], pad: Option<u8>) -> FrameParts<'a>
        ensures { Describes result (Data stream end octets.now pad) }
    {
        FrameParts {
            flags: flag(end, END_STREAM) + flag(pad.is_some(), PADDED),
            pad,
            ..FrameParts::plain(Kind::Data, stream, octets)
        }
    }

    // rule: 6.2 HEADERS is sent with its flags and its priority
    /// The parts of HEADERS.
    pub(crate) fn headers(
        stream: u32,
        end: bool,
        whole: bool,
        fragment: &'a [u8],
        pad: Option<u8>,
        priority: Option<[u8; 5]>,
    ) -> FrameParts<'a>
        ensures { Describes result (Headers stream end whole fragment.now pad priority) }
    {
        let ends = flag(end, END_STREAM) + flag(whole, END_HEADERS);
        let fields = flag(pad.is_some(), PADDED) + flag(priority.is_some(), PRIORITY);
        FrameParts {
            flags: ends + fields,
            pad,
            fixed_fields: priority.map_or(FixedFields::Nothing, FixedFields::Priority),
            ..FrameParts::plain(Kind::Headers, stream, fragment)
        }
    }

    /// The parts of PRIORITY.
    pub(crate) fn priority(stream: u32, octets: [u8; 5]) -> FrameParts<'a>
        ensures { Describes result (Priority stream octets) }
    {
        FrameParts {
            fixed_fields: FixedFields::Priority(octets),
            ..FrameParts::plain(Kind::Priority, stream, &[])
        }
    }

    /// The parts of RST_STREAM.
    pub(crate) fn reset(stream: u32, code: u32) -> FrameParts<'a>
        ensures { Describes result (Reset stream code) }
    {
        FrameParts {
            fixed_fields: FixedFields::Word(code),
            ..FrameParts::plain(Kind::RstStream, stream, &[])
        }
    }

    // rule: 6.5.1 No pairs are sent with ACK
    /// The parts of SETTINGS.
    pub(crate) fn settings(ack: bool, pairs: &'a [(u16, u32)]) -> FrameParts<'a>
        ensures { Describes result (Settings ack pairs.now) }
    {
        read_each(pairs);
        FrameParts {
            flags: flag(ack, ACK),
            has_good_values: !ack || pairs.is_empty(),
            body: Body::Pairs(pairs),
            ..FrameParts::plain(Kind::Settings, 0, &[])
        }
    }

    // rule: 6.5.1 No pairs are sent with ACK
    /// The parts of SETTINGS whose pairs are lent.
    pub(crate) fn lent_settings(ack: bool, lent: Pairs<'a>) -> FrameParts<'a>
        ensures { Describes result (Settings ack (lent_pairs lent.entry)) }
    {
        FrameParts {
            flags: flag(ack, ACK),
            has_good_values: !ack || lent.is_empty(),
            ..FrameParts::plain(Kind::Settings, 0, complete_pairs(lent.octets))
        }
    }

    // rule: 6.7 PING is sent with its octets and its ACK
    /// The parts of PING.
    pub(crate) fn ping(ack: bool, octets: [u8; 8]) -> FrameParts<'a>
        ensures { Describes result (Ping ack octets) }
    {
        FrameParts {
            flags: flag(ack, ACK),
            fixed_fields: FixedFields::Ping(octets),
            ..FrameParts::plain(Kind::Ping, 0, &[])
        }
    }

    // rule: 6.8 GOAWAY is sent with a last stream of 31 bits
    /// The parts of GOAWAY.
    pub(crate) fn go_away(last: u32, code: u32, debug: &'a [u8]) -> FrameParts<'a>
        ensures { Describes result (GoAway last code debug.now) }
    {
        FrameParts {
            has_good_values: last < ABOVE_31_BITS,
            fixed_fields: FixedFields::TwoWords(last, code),
            ..FrameParts::plain(Kind::GoAway, 0, debug)
        }
    }

    // rule: 6.9 WINDOW_UPDATE is sent with an increment of 31 bits
    /// The parts of WINDOW_UPDATE.
    pub(crate) fn window_update(stream: u32, increment: u32) -> FrameParts<'a>
        ensures { Describes result (WindowUpdate stream increment) }
    {
        FrameParts {
            has_good_values: increment < ABOVE_31_BITS,
            fixed_fields: FixedFields::Word(increment),
            ..FrameParts::plain(Kind::WindowUpdate, stream, &[])
        }
    }

    /// The parts of CONTINUATION.
    pub(crate) fn continuation(stream: u32, whole: bool, fragment: &'a [u8]) -> FrameParts<'a>
        ensures { Describes result (Continuation stream whole fragment.now) }
    {
        FrameParts {
            flags: flag(whole, END_HEADERS),
            ..FrameParts::plain(Kind::Continuation, stream, fragment)
        }
    }

    // rule: 4.1 (own) A frame of an unknown type is sent with a type from 10 on
    /// The parts of a frame of an unknown type.
    pub(crate) fn unknown(kind: u8, flags: u8, stream: u32, payload: &'a [u8]) -> FrameParts<'a>
        ensures { Describes result (Unknown kind flags stream payload.now) }
    {
        FrameParts {
            flags,
            has_good_values: kind >= 10,
            ..FrameParts::plain(Kind::Unknown(kind), stream, payload)
        }
    }

    // rule: 4.1 A frame is sent without its reserved bit and undefined flags
    /// Whether the stream's number has at most 31 bits, and a frame of this type may be on it.
    pub(crate) fn has_good_stream(&self) -> bool
        ensures { result ≡ (nat_lt self.now.stream (2 ^ 31)
            && stream_fits self.now.kind self.now.stream) }
    {
        self.stream < ABOVE_31_BITS && fits_stream(self.kind, self.stream)
    }

    // rule: 4.1 A frame is sent without its reserved bit and undefined flags
    // The parts of a frame without flags whose payload is this body.
    fn plain(kind: Kind, stream: u32, body: &'a [u8]) -> FrameParts<'a>
        ensures { IsPlain result kind stream body.now }
    {
        FrameParts {
            kind,
            flags: 0,
            stream,
            has_good_values: true,
            pad: None,
            fixed_fields: FixedFields::Nothing,
            body: Body::Octets(body),
        }
    }
}

// The octets of the pairs that are complete.
fn complete_pairs(octets: &[u8]) -> &[u8]
    ensures same { result.now ≡ flat_map pair_octets (pairs_of octets.now) }
    ensures typed { ArePairs (pairs_of octets.now) }
{
    let count = octets.len() / PAIR;
    &octets[..count * PAIR]
}

// Reads each pair, so that a proof knows that its numbers have 16 and 32 bits. An optimizing
// compiler removes the loop.
fn read_each(pairs: &[(u16, u32)])
    ensures { ArePairs pairs.now }
{
    for (id, value) in pairs {
        let _ = (*id, *value);
    }
}

// The flag's bit where it is set, and 0 otherwise.
fn flag(is_set: bool, bit: u8) -> u8
    ensures { result ≡ flag_bits is_set bit }
{
    if is_set { bit } else { 0 }
}
