//! Spreading a field block over frames.

ghost use Rattle.std.specs.Prelude.{◌≡◌, ◌+◌, ◌-◌, ◌*◌, ◌/◌, ◌^◌, ◌<◌, ◌≤◌, ◌++◌, length, vec_len};
ghost use Rattle.std.specs.Prelude.{None, IfErr, OnOk, IsOk};
ghost use Rattle.std.specs.Vec.{vec_capacity};
ghost use Rattle.h2_frame.specs.Frames.{frame_of};
ghost use Rattle.h2_frame.specs.Encoding.{encoding_of, refusal};
ghost use Rattle.h2_block.specs.Spread.{spread_frames, encoding_of_frames};

use crate::fault::BlockFault;
use h2_frame::limits::MAX_BLOCK;
use h2_frame::{FrameRef, HEAD_LEN, write_ref};

// contract: 4.3 A block is sent as contiguous HEADERS and CONTINUATION, each full but one
// rule: 4.3 A block is sent as contiguous HEADERS and CONTINUATION, each full but one
// contract: 4.3 END_STREAM of a block is that of its HEADERS
// rule: 4.3 END_STREAM of a block is that of its HEADERS
// rule: 4.3 Of the frames of a block that is sent the last has END_HEADERS
// rule: 4.3 (own) Room for all frames of a block is reserved before the first
/// Appends a field block as HEADERS and CONTINUATIONs, each but the last filled with `most` octets
/// (RFC 9113, sections 4.3, 6.2 and 6.10). `most` must be at least 1, the stream from 1 to
/// 2<sup>31</sup> - 1, and the block must have at most 65,552 octets; an empty block is one empty
/// HEADERS. `end` sets END_STREAM: no more fields or DATA follow on the stream. A peer reads
/// payloads of 16,384 octets, and longer ones only if its SETTINGS have said so.
///
/// # Errors
///
/// [`BlockFault::Memory`] where an allocation was refused; `out` is unchanged. It does not come
/// where `out` has capacity for the frames.
pub fn spread(
    stream: u32,
    end: bool,
    octets: &[u8],
    out: &mut Vec<u8>,
    most: usize,
) -> Result<(), BlockFault>
    requires payload { 1 ≤ most }
    requires at_least { 1 ≤ stream }
    requires at_most { stream < 2 ^ 31 }
    requires length { length octets.now ≤ 65552 }
    ensures ok { OnOk result (out.new.items ≡ out.old.items
        ++ encoding_of_frames (spread_frames most stream end octets.now)) }
    ensures err { IfErr result (λ fault. (fault ≡ BlockFault.Memory)
        × (out.new.items ≡ out.old.items)) }
    ensures room { vec_len out.old
        + length (encoding_of_frames (spread_frames most stream end octets.now))
        ≤ vec_capacity out.old
        → IsOk result }
    ensures capacity { vec_capacity out.old ≤ vec_capacity out.new }
{
    // No block is longer, so a greater payload makes no difference.
    let payload = most.min(MAX_BLOCK);
    if out.reserve(encoded_len(payload, octets.len())).is_err() {
        return Err(BlockFault::Memory);
    }
    append_block(payload, stream, octets, end, out);
    Ok(())
}

// rule: 4.3 (own) Room for all frames of a block is reserved before the first
// The octets of the frames of a block of `count` octets: nine more for each frame's head.
fn encoded_len(most: usize, count: usize) -> usize
    requires payload { 1 ≤ most }
    requires length { count ≤ 65552 }
    ensures { result ≡ count + 9 * (1 + (count - 1) / most) }
{
    count + HEAD_LEN * (1 + count.saturating_sub(1) / most)
}

// rule: 4.3 (own) Room for all frames of a block is reserved before the first
// Appends the frames, with payloads of at most `most` octets, for which there is capacity.
fn append_block(most: usize, stream: u32, octets: &[u8], end: bool, out: &mut Vec<u8>)
    requires payload { 1 ≤ most }
    requires payload_length { most < 2 ^ 24 }
    requires at_least { 1 ≤ stream }
    requires at_most { stream < 2 ^ 31 }
    requires room { vec_len out.old
        + length (encoding_of_frames (spread_frames most stream end octets.now))
        ≤ vec_capacity out.old }
    ensures items { out.new.items ≡ out.old.items
        ++ encoding_of_frames (spread_frames most stream end octets.now) }
    ensures capacity { vec_capacity out.old ≤ vec_capacity out.new }
{
    let (first, mut rest) = octets.split_at(octets.len().min(most));
    let headers = FrameRef::Headers {
        stream,
        end,
        whole: rest.is_empty(),
        fragment: first,
        pad: None,
        priority: None,
    };
    append(headers, out);
    while !rest.is_empty() {
        let (fragment, following) = rest.split_at(rest.len().min(most));
        let continuation = FrameRef::Continuation {
            stream,
            whole: following.is_empty(),
            fragment,
        };
        append(continuation, out);
        rest = following;
    }
}

// Appends a frame that can be written, and for which there is capacity.
fn append(frame: FrameRef<'_>, out: &mut Vec<u8>)
    requires writable { refusal (frame_of frame) ≡ None }
    requires room { vec_len out.old + length (encoding_of (frame_of frame)) ≤ vec_capacity out.old }
    ensures items { out.new.items ≡ out.old.items ++ encoding_of (frame_of frame.entry) }
    ensures capacity { vec_capacity out.old ≤ vec_capacity out.new }
{
    write_ref(frame, out).unwrap();
}
