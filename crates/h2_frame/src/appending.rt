//! Appending the parts of a frame to a vector that has capacity for them, so that nothing fails.

ghost use Rattle.std.specs.Prelude.{◌≡◌, ◌+◌, ◌*◌, ◌^◌, ◌<◌, ◌≤◌, ◌++◌, length, flat_map, vec_len};
ghost use Rattle.std.specs.Prelude.{MatchOption};
ghost use Rattle.std.specs.Vec.{vec_capacity};
ghost use Rattle.h2_frame.specs.Encoding.{pair_octets};
ghost use Rattle.h2_frame.specs.FrameParts.{fixed_octets, body_octets, payload_octets};
ghost use Rattle.h2_frame.specs.Heads.{head_octets};

use crate::frame_parts::{Body, FixedFields, FrameParts};
use crate::heads::{Head, word_octets};
use crate::limits::{MAX_PAYLOAD, PAIR};
use byteorder::{BigEndian, ByteOrder};

impl FrameParts<'_> {
    // rule: 4.2 No payload above 16,777,215 octets is written
    /// Returns the payload's length in octets; `None` above 16,777,215, which no head can
    /// encode.
    pub(crate) fn payload_length(&self) -> Option<u32>
        ensures { MatchOption result (16777215 < length (payload_octets self.now))
            (λ count. (count ≡ length (payload_octets self.now)) × (count ≤ 16777215)) }
    {
        let body = self.body.len();
        if body > MAX_PAYLOAD as usize {
            return None;
        }
        let padding = match self.pad {
            Some(count) => 1 + usize::from(count),
            None => 0,
        };
        let length = padding + self.fixed_fields.len() + body;
        if length > MAX_PAYLOAD as usize {
            return None;
        }
        Some(length as u32)
    }

    // rule: 4.1 A frame is sent without its reserved bit and undefined flags
    // rule: 4.1 A frame is sent with the length of its payload
    /// Appends the head of a payload of `length` octets.
    pub(crate) fn append_head(&self, length: u32, out: &mut Vec<u8>)
        requires small { length < 2 ^ 24 }
        requires capacity { vec_len out.old + 9 ≤ vec_capacity out.old }
        ensures items { out.new.items ≡ out.old.items
            ++ head_octets self.now.kind self.now.flags self.now.stream length }
        ensures capacity { vec_capacity out.old ≤ vec_capacity out.new }
    {
        let head = Head {
            length,
            kind: self.kind,
            flags: self.flags,
            stream: self.stream,
        };
        out.extend_from_slice(&head.octets()).unwrap();
    }

    // rule: 6.1 Padding is sent as zeros
    // rule: 6.1 Padding is sent whole, with its length
    /// Appends the payload.
    pub(crate) fn append_payload(&self, out: &mut Vec<u8>)
        requires { vec_len out.old + length (payload_octets self.now) ≤ vec_capacity out.old }
        ensures items { out.new.items ≡ out.old.items ++ payload_octets self.now }
        ensures capacity { vec_capacity out.old ≤ vec_capacity out.new }
    {
        let Some(count) = self.pad else {
            self.fixed_fields.append(out);
            self.body.append(out);
            return;
        };
        out.push(count).unwrap();
        self.fixed_fields.append(out);
        self.body.append(out);
        let end = out.len() + usize::from(count);
        out.resize(end, 0).unwrap();
    }
}

impl FixedFields {
    // The number of octets.
    fn len(self) -> usize
        ensures value { result ≡ length (fixed_octets self) }
        ensures small { result ≤ 8 }
    {
        match self {
            FixedFields::Nothing => 0,
            FixedFields::Priority(octets) => octets.len(),
            FixedFields::Ping(octets) => octets.len(),
            FixedFields::Word(_) => 4,
            FixedFields::TwoWords(_, _) => 8,
        }
    }

    // Appends the octets.
    #[inline(always)]
    fn append(self, out: &mut Vec<u8>)
        requires { vec_len out.old + length (fixed_octets self) ≤ vec_capacity out.old }
        ensures items { out.new.items ≡ out.old.items ++ fixed_octets self }
        ensures capacity { vec_capacity out.old ≤ vec_capacity out.new }
    {
        match self {
            FixedFields::Nothing => {}
            FixedFields::Priority(octets) => out.extend_from_slice(&octets).unwrap(),
            FixedFields::Ping(octets) => out.extend_from_slice(&octets).unwrap(),
            FixedFields::Word(word) => out.extend_from_slice(&word_octets(word)).unwrap(),
            FixedFields::TwoWords(first, second) => {
                out.extend_from_slice(&word_octets(first)).unwrap();
                out.extend_from_slice(&word_octets(second)).unwrap();
            }
        }
    }
}

impl Body<'_> {
    // The number of octets, or, if it is above 16,777,215, some number above 16,777,215.
    fn len(self) -> usize
        ensures small { result ≤ 16777215 → result ≡ length (body_octets self.entry) }
        ensures large { 16777215 < result → 16777215 < length (body_octets self.entry) }
    {
        match self {
            Body::Octets(octets) => octets.len(),
            Body::Pairs(pairs) => pairs.len().saturating_mul(PAIR),
        }
    }

    // Appends the octets.
    #[inline(always)]
    fn append(self, out: &mut Vec<u8>)
        requires { vec_len out.old + length (body_octets self) ≤ vec_capacity out.old }
        ensures items { out.new.items ≡ out.old.items ++ body_octets self.entry }
        ensures capacity { vec_capacity out.old ≤ vec_capacity out.new }
    {
        match self {
            Body::Octets(octets) => out.extend_from_slice(octets).unwrap(),
            Body::Pairs(pairs) => append_pairs(pairs, out),
        }
    }
}

// rule: 6.5.1 Pairs are sent in order
// Appends the pairs.
fn append_pairs(pairs: &[(u16, u32)], out: &mut Vec<u8>)
    requires { vec_len out.old + length (flat_map pair_octets pairs.now) ≤ vec_capacity out.old }
    ensures items { out.new.items ≡ out.old.items ++ flat_map pair_octets pairs.now }
    ensures capacity { vec_capacity out.old ≤ vec_capacity out.new }
{
    for (id, value) in pairs {
        let mut octets = [0; PAIR];
        BigEndian::write_u16(&mut octets, *id);
        BigEndian::write_u32(&mut octets[2..], *value);
        out.extend_from_slice(&octets).unwrap();
    }
}
