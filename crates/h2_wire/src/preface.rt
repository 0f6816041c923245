//! The client's preface (RFC 9113, section 3.4).

ghost use Rattle.std.specs.Prelude.{◌≡◌, ◌≢◌, ◌+◌, ◌<◌, ◌≤◌, length, take, drop, slice_index};
ghost use Rattle.h2_wire.specs.Streams.{preface};

/// The client's connection preface, 24 octets (RFC 9113, section 3.4).
pub const PREFACE: [u8; 24] = *b"PRI * HTTP/2.0\r\n\r\nSM\r\n\r\n";

// rule: 3.4 The first octet that differs from the preface is PROTOCOL_ERROR, there
/// Returns how many octets of the piece continue the preface, of which `matched` came before.
pub(crate) fn matching_octets(matched: usize, piece: &[u8]) -> usize
    requires { matched ≤ 24 }
    ensures within { result ≤ length piece.now }
    ensures bound { matched + result ≤ 24 }
    ensures same { take result piece.now ≡ take result (drop matched preface) }
    ensures differs { result < length piece.now → matched + result < 24
        → slice_index piece.now result ≢ slice_index preface (matched + result) }
{
    for (count, octet) in piece.iter().enumerate() {
        if matched + count == PREFACE.len() || *octet != PREFACE[matched + count] {
            return count;
        }
    }
    piece.len()
}
